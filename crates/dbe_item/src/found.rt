ghost use Rattle.std.specs.Prelude.{◌≡◌, ◌<◌, ◌↔◌, true, [], None, IfOk, IfErr, IfSome, IsTrue, get_or, length};
ghost use Rattle.dbe_values.specs.Keys.{is_lawful_key, key_of};
ghost use Rattle.dbe_values.specs.KeyValues.{key_view};
ghost use Rattle.dbe_itemkeys.specs.ItemKeys.{commitment, item_keys, recipient_tag};
ghost use Rattle.dbe_frame.specs.Context.{full_context};
ghost use Rattle.dbe_frame.specs.Header.{IsHeader, header_prefix, header_text};
ghost use Rattle.dbe_frame.specs.Record.{record_text};
ghost use Rattle.dbe_frame.specs.Signed.{signed_names};
ghost use Rattle.dbe_item.specs.Opens.{IsFramed, Seeks, row_context};
ghost use Rattle.dbe_item.specs.Opening.{IsSignedWith};
ghost use Rattle.dbe_item.specs.Reasons.{IsReason};

use crate::digest::record_digest;
use crate::frame::Frame;
use crate::seek::{Sought, seek};
use crate::{OpenFault, Rings};
use dbe_config::Config;
use dbe_frame::{Header, Pairs, commitment_last, context_bytes};
use dbe_itemkeys::{ItemKeys, recipient_tag};
use dbe_kdf::EmptySalt;
use dbe_num::Memory;
use dbe_values::{Item, KeyValue};
use std::alloc::Global;

/// The place of the encrypted data key that was unwrapped, and the keys of the item.
#[derive(Drop)]
pub(crate) struct Verified {
    pub(crate) place: usize,
    pub(crate) keys: ItemKeys,
}

/// Finds the data key of a row, and compares its commitment and the tag of the recipient.
pub(crate) fn verify(
    alloc: Global,
    rings: &Rings,
    row: &Item,
    frame: &Frame,
) -> Result<Verified, OpenFault>
    requires framed { IsFramed rings.now row.now frame.now.header frame.now.tags.items }
    requires bytes { IsHeader frame.now.header frame.now.bytes.now }
    requires names { frame.now.names.items ≡ signed_names rings.now row.now }
    requires key { key_view frame.now.key ≡ key_of rings.now.schema row.now }
    requires lawful { is_lawful_key rings.now.schema (key_view frame.now.key) ≡ true }
    ensures signed { IfOk result (λ v. IsSignedWith rings.now row.now frame.now.header v.place v.keys.root) }
    ensures fault { IfErr result (λ f. IsReason f rings.now row.now) }
{
    let sought = match find(alloc, rings, row, frame) {
        Ok(sought) => sought,
        Err(fault) => return Err(fault),
    };
    let data_key = &sought.data_key.key;
    let Some(keys) = committed_keys(rings.salt(), data_key, &frame.header, frame.bytes) else {
        return Err(OpenFault::Commitment);
    };
    if !is_tagged(alloc, rings.config(), row, frame, &sought)? {
        return Err(OpenFault::RecipientTag);
    }
    Ok(Verified {
        place: sought.place,
        keys,
    })
}

/// The data key that the first recipient unwraps.
fn find(alloc: Global, rings: &Rings, row: &Item, frame: &Frame) -> Result<Sought, OpenFault>
    requires framed { IsFramed rings.now row.now frame.now.header frame.now.tags.items }
    requires key { key_view frame.now.key ≡ key_of rings.now.schema row.now }
    requires lawful { is_lawful_key rings.now.schema (key_view frame.now.key) ≡ true }
    ensures found { IfOk result (λ s. Seeks rings.now.recipients (row_context rings.now row.now frame.now.header) frame.now.header.edks s.place s.data_key.key s.data_key.signing) }
    ensures within { IfOk result (λ s. s.place < length frame.now.header.edks) }
    ensures fault { IfErr result (λ f. IsReason f rings.now row.now) }
{
    let context = context_of(alloc, rings.config(), &frame.key, frame.header.context())?;
    match seek(rings.raw(), rings.salt(), &context, frame.header.edks()) {
        Some(sought) => Ok(sought),
        None => Err(OpenFault::NoRecipient),
    }
}

/// The full encryption context of a row with a key, and with the pairs that its header stores.
fn context_of(
    alloc: Global,
    config: &Config,
    key: &KeyValue,
    stored: &Pairs,
) -> Result<Vec<u8>, Memory>
    requires { is_lawful_key config.now.schema (key_view key.now) ≡ true }
    ensures { IfOk result (λ bytes. bytes.items ≡ full_context config.now.schema config.now.table (key_view key.now) stored.now) }
{
    config.keeps_bounds();
    context_bytes(alloc, config.schema(), config.table(), key, stored)
}

/// The keys that the data key and the header's message id derive, where the header's commitment is theirs.
fn committed_keys(
    salt: &EmptySalt,
    data_key: &[u8; 32],
    header: &Header,
    bytes: &[u8],
) -> Option<ItemKeys>
    requires { IsHeader header.now bytes.now }
    ensures keys { IfSome result (λ k. k ≡ item_keys data_key.now header.now.message_id) }
    ensures some { IfSome result (λ _. header.now.commitment ≡ commitment data_key.now header.now.message_id (header_prefix header.now)) }
    ensures none { result ≡ None → header.now.commitment ≡ commitment data_key.now header.now.message_id (header_prefix header.now) → ⊥ }
{
    commitment_last();
    let keys = ItemKeys::new(salt, data_key, header.message_id());
    let commitment = keys.commitment(&bytes[..bytes.len() - 32]);
    if commitment == *header.commitment() {
        Some(keys)
    } else {
        None
    }
}

/// Whether the tag at the place of the encrypted data key is that of the record text.
fn is_tagged(
    alloc: Global,
    config: &Config,
    row: &Item,
    frame: &Frame,
    sought: &Sought,
) -> Result<bool, Memory>
    requires bytes { IsHeader frame.now.header frame.now.bytes.now }
    requires names { frame.now.names.items ≡ signed_names config.now row.now }
    requires legend { length frame.now.header.legend ≡ length frame.now.names.items }
    requires within { sought.now.place < length frame.now.tags.items }
    ensures { IfOk result (λ b. IsTrue b ↔ (get_or frame.now.tags.items sought.now.place [] ≡ recipient_tag sought.now.data_key.signing (record_text (header_text frame.now.header) config.now row.now frame.now.header.legend))) }
{
    let legend = frame.header.legend();
    let table = config.table();
    let digest = record_digest(alloc, frame.bytes, table, row, &frame.names, legend)?;
    Ok(recipient_tag(&sought.data_key.signing, &digest) == frame.tags[sought.place])
}
