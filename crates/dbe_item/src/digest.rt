ghost use Rattle.std.specs.Prelude.{◌≡◌, [], ◌++◌, IfOk, OnOk, length, option_map};
ghost use Rattle.sha2.specs.Sha512.{sha384};
ghost use Rattle.dbe_values.specs.View.{view};
ghost use Rattle.dbe_canon.specs.Canon.{long_string, type_id, canon_of};
ghost use Rattle.dbe_frame.specs.Record.{entries_text, entry_text, stored_bytes};
ghost use Rattle.dbe_item.specs.Digest.{Feeds};

use dbe_canon::type_id;
use dbe_frame::{legend_word, put_count, put_long_path, put_stored};
use dbe_num::{Memory, Text};
use dbe_values::{AttrValue, Item};
use sha2::{Digest, Sha384};
use std::alloc::Global;

/// The SHA-384 of the record text: the header, and then for each signed name its path, `ENCRYPTED` or `PLAINTEXT` by its
/// legend byte, and its stored value. The text is fed into the hasher and never built.
pub(crate) fn record_digest(
    alloc: Global,
    header: &[u8],
    table: &Text,
    row: &Item,
    names: &[Text],
    legend: &[u8],
) -> Result<[u8; 48], Memory>
    requires { length legend.now ≡ length names.now }
    ensures { IfOk result (λ d. d ≡ sha384 (header.now ++ entries_text table.now row.now names.now legend.now)) }
{
    let mut hasher = Sha384::new();
    hasher.update(header);
    feed_entries(alloc, &mut hasher, table, row, names, legend)?;
    Ok(hasher.finalize())
}

fn feed_entries(
    alloc: Global,
    hasher: &mut Sha384,
    table: &Text,
    row: &Item,
    names: &[Text],
    legend: &[u8],
) -> Result<(), Memory>
    requires { length legend.now ≡ length names.now }
    ensures { OnOk result (Feeds hasher.old hasher.new (entries_text table.now row.now names.now legend.now)) }
{
    let mut scratch = Vec::new(alloc);
    for i in 0..names.len() {
        feed_entry(
            alloc,
            hasher,
            &mut scratch,
            table,
            row,
            &names[i],
            legend[i],
        )?;
    }
    Ok(())
}

/// An attribute: its path, the word of its legend byte, and its stored value. What is in `scratch` before means nothing.
fn feed_entry(
    alloc: Global,
    hasher: &mut Sha384,
    scratch: &mut Vec<u8>,
    table: &Text,
    row: &Item,
    name: &Text,
    flag: u8,
) -> Result<(), Memory>
    ensures { OnOk result (Feeds hasher.old hasher.new (entry_text table.now row.now name.now flag)) }
{
    scratch.clear();
    put_long_path(scratch, table, name)?;
    put_bytes(scratch, legend_word(flag))?;
    feed_value(alloc, hasher, scratch, row.get(name.as_str()))
}

/// What is in `scratch`, and then the stored value behind its length.
fn feed_value(
    alloc: Global,
    hasher: &mut Sha384,
    scratch: &mut Vec<u8>,
    value: Option<&AttrValue>,
) -> Result<(), Memory>
    ensures { OnOk result (Feeds hasher.old hasher.new (scratch.old.items ++ long_string (stored_bytes (option_map (λ v. v.now) value.entry)))) }
{
    match value {
        Some(value) => feed_stored(alloc, hasher, scratch, value),
        None => feed_nothing(hasher, scratch),
    }
}

fn feed_nothing(hasher: &mut Sha384, scratch: &mut Vec<u8>) -> Result<(), Memory>
    ensures { OnOk result (Feeds hasher.old hasher.new (scratch.old.items ++ long_string [])) }
{
    put_count(scratch, 0)?;
    feed(hasher, scratch);
    Ok(())
}

/// A text and a binary are fed right from the row.
#[tactic(auto, unfolding(dbe_canon::specs::Canon::canon_of))]
fn feed_stored(
    alloc: Global,
    hasher: &mut Sha384,
    scratch: &mut Vec<u8>,
    value: &AttrValue,
) -> Result<(), Memory>
    ensures { OnOk result (Feeds hasher.old hasher.new (scratch.old.items ++ long_string (type_id (view value.now) ++ canon_of (view value.now)))) }
{
    match value {
        AttrValue::S(text) => feed_bytes(hasher, scratch, &type_id(value), text.as_bytes()),
        AttrValue::B(bytes) => feed_bytes(hasher, scratch, &type_id(value), bytes.as_slice()),
        _ => feed_written(alloc, hasher, scratch, value),
    }
}

fn feed_bytes(
    hasher: &mut Sha384,
    scratch: &mut Vec<u8>,
    id: &[u8; 2],
    bytes: &[u8],
) -> Result<(), Memory>
    ensures { OnOk result (Feeds hasher.old hasher.new (scratch.old.items ++ long_string (id.now ++ bytes.now))) }
{
    put_count(scratch, bytes.len() as u64 + 2)?;
    put_bytes(scratch, id)?;
    feed(hasher, scratch);
    feed(hasher, bytes);
    Ok(())
}

fn feed_written(
    alloc: Global,
    hasher: &mut Sha384,
    scratch: &mut Vec<u8>,
    value: &AttrValue,
) -> Result<(), Memory>
    ensures { OnOk result (Feeds hasher.old hasher.new (scratch.old.items ++ long_string (type_id (view value.now) ++ canon_of (view value.now)))) }
{
    put_stored(scratch, alloc, value)?;
    feed(hasher, scratch);
    Ok(())
}

fn feed(hasher: &mut Sha384, bytes: &[u8])
    ensures { Feeds hasher.old hasher.new bytes.now }
{
    hasher.update(bytes);
}

fn put_bytes(out: &mut Vec<u8>, bytes: &[u8]) -> Result<(), Memory>
    ensures { OnOk result (out.new.items ≡ out.old.items ++ bytes.now) }
{
    out.extend_from_slice(bytes)?;
    Ok(())
}
