ghost use Rattle.std.specs.Prelude.{◌≡◌};
ghost use Rattle.dbe_item.specs.Sealed.{draw_length, recipient_draws};

use dbe_config::{Config, Recipient};

/// The bytes of a message id and of a data key.
const ITEM_BYTES: usize = 64;

/// An intermediate key and an IV.
const RAW_BYTES: usize = 44;

/// A salt, an intermediate key and an IV.
const BRANCH_BYTES: usize = 60;

/// How many bytes are drawn to seal an item: a message id and a data key, and what each recipient needs. Takes no
/// memory.
pub fn draw_length(config: &Config) -> usize
    ensures { result ≡ draw_length config.now }
{
    config.keeps_few_recipients();
    let mut length = ITEM_BYTES;
    let recipients = config.recipients();
    for recipient in recipients {
        length += recipient_draws(recipient);
    }
    length
}

fn recipient_draws(recipient: &Recipient) -> usize
    ensures { result ≡ recipient_draws recipient.now }
{
    match recipient {
        Recipient::Raw { .. } => RAW_BYTES,
        Recipient::Branch { .. } => BRANCH_BYTES,
    }
}
