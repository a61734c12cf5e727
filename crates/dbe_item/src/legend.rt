ghost use Rattle.std.specs.Prelude.{◌≡◌, IfOk, map};
ghost use Rattle.dbe_item.specs.Names.{is_encrypted_name, legend_byte};

use dbe_config::{Action, Config};
use dbe_num::{Memory, Text};
use std::alloc::Global;

const ENCRYPTED: u8 = b'e';

const SIGNED_ONLY: u8 = b's';

/// The legend of signed names: for each of them whether it is encrypted.
pub(crate) fn legend_of(alloc: Global, config: &Config, names: &[Text]) -> Result<Vec<u8>, Memory>
    ensures { IfOk result (λ legend. legend.items ≡ map (legend_byte config.now) names.now) }
{
    let mut legend = Vec::with_capacity(alloc, names.len())?;
    for name in names {
        legend.push(legend_byte(config, name))?;
    }
    Ok(legend)
}

fn legend_byte(config: &Config, name: &Text) -> u8
    ensures { result ≡ legend_byte config.now name.now }
{
    if is_encrypted(config, name) {
        ENCRYPTED
    } else {
        SIGNED_ONLY
    }
}

/// Whether the configuration encrypts an attribute.
pub(crate) fn is_encrypted(config: &Config, name: &Text) -> bool
    ensures { result ≡ is_encrypted_name config.now name.now }
{
    match config.action(name) {
        Some(Action::EncryptAndSign) => true,
        Some(Action::SignOnly) => false,
        Some(Action::DoNothing) => false,
        None => false,
    }
}
