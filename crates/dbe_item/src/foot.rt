ghost use Rattle.std.specs.Prelude.{◌≡◌, ◌++◌, IfOk, OnOk, length, map};
ghost use Rattle.sha2.specs.Sha512.{sha384};
ghost use Rattle.dbe_kdf.specs.Hmac.{hmac};
ghost use Rattle.dbe_itemkeys.specs.ItemKeys.{recipient_tag};
ghost use Rattle.dbe_frame.specs.Format.{joined};
ghost use Rattle.dbe_frame.specs.Record.{entries_text};

use crate::digest::record_digest;
use crate::head::Head;
use dbe_itemkeys::recipient_tag;
use dbe_num::{Memory, Text};
use dbe_values::Item;
use std::alloc::Global;

const TAG_BYTES: usize = 48;

/// The footer of a row: a tag of its record text for each recipient.
pub(crate) fn sealed_foot(
    alloc: Global,
    head: &Head,
    table: &Text,
    row: &Item,
    names: &[Text],
) -> Result<Vec<u8>, Memory>
    requires { length head.now.header.legend ≡ length names.now }
    ensures { IfOk result (λ bytes. bytes.items ≡ joined (map (λ key. recipient_tag key (head.now.bytes.items ++ entries_text table.now row.now names.now head.now.header.legend)) head.now.signing.items)) }
{
    let digest = record_digest(alloc, &head.bytes, table, row, names, head.header.legend())?;
    let tags = joined_tags(alloc, &head.signing, &digest)?;
    Ok(tags)
}

/// The tags of recipients, from their signing keys and the digest of the record text, joined.
fn joined_tags(alloc: Global, signing: &[[u8; 48]], digest: &[u8; 48]) -> Result<Vec<u8>, Memory>
    ensures { IfOk result (λ bytes. bytes.items ≡ joined (map (λ key. hmac sha384 key digest.now) signing.now)) }
{
    let mut tags = Vec::with_capacity(alloc, signing.len().saturating_mul(TAG_BYTES))?;
    for i in 0..signing.len() {
        put_tag(&mut tags, &signing[i], digest)?;
    }
    Ok(tags)
}

fn put_tag(tags: &mut Vec<u8>, key: &[u8; 48], digest: &[u8; 48]) -> Result<(), Memory>
    ensures { OnOk result (tags.new.items ≡ tags.old.items ++ hmac sha384 key.now digest.now) }
{
    tags.extend_from_slice(&recipient_tag(key, digest))?;
    Ok(())
}
