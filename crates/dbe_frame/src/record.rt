ghost use Rattle.std.specs.Prelude.{◌≡◌, ◌++◌, IfOk, OnOk, length};
ghost use Rattle.dbe_values.specs.View.{view};
ghost use Rattle.dbe_canon.specs.Canon.{count_bytes, long_string, type_id, canon_of};
ghost use Rattle.dbe_canon.specs.Path.{path_of};
ghost use Rattle.dbe_frame.specs.Signed.{signed_names};
ghost use Rattle.dbe_frame.specs.Record.{record_text, entries_text, entry_text, legend_word};

use crate::signed_names;
use crate::sizes::ENCRYPTED;
use crate::writing::put_bytes;
use dbe_canon::{canon_len, put_canon, put_path, set_length, type_id};
use dbe_config::Config;
use dbe_num::{Memory, Text};
use dbe_values::{AttrValue, Item};
use std::alloc::Global;

/// The text that the recipients sign: the whole header, and then for each signed name its path, `ENCRYPTED` or
/// `PLAINTEXT` by its legend byte, and its stored value.
pub fn record_text(
    alloc: Global,
    header: &[u8],
    config: &Config,
    row: &Item,
    legend: &[u8],
) -> Result<Vec<u8>, Memory>
    requires { length legend.now ≡ length (signed_names config.now row.now) }
    ensures { IfOk result (λ text. text.items ≡ record_text header.now config.now row.now legend.now) }
{
    let names = signed_names(alloc, config, row)?;
    let table = config.table();
    let len = header.len().saturating_add(entries_len(table, row, &names));
    let mut out = Vec::with_capacity(alloc, len)?;
    put_bytes(&mut out, header)?;
    put_entries(&mut out, alloc, table, row, &names, legend)?;
    Ok(out)
}

/// How many bytes the attributes of names have.
fn entries_len(table: &Text, row: &Item, names: &[Text]) -> usize {
    let mut len = 0usize;
    for name in names {
        len = len
            .saturating_add(52)
            .saturating_add(table.as_bytes().len())
            .saturating_add(name.as_bytes().len())
            .saturating_add(stored_len(row.get(name.as_str())));
    }
    len
}

fn stored_len(value: Option<&AttrValue>) -> usize {
    match value {
        Some(value) => canon_len(value) as usize,
        None => 0,
    }
}

fn put_entries(
    out: &mut Vec<u8>,
    alloc: Global,
    table: &Text,
    row: &Item,
    names: &[Text],
    legend: &[u8],
) -> Result<(), Memory>
    requires { length legend.now ≡ length names.now }
    ensures { OnOk result (out.new.items ≡ out.old.items ++ entries_text table.now row.now names.now legend.now) }
{
    for i in 0..names.len() {
        put_entry(out, alloc, table, row, &names[i], legend[i])?;
    }
    Ok(())
}

/// An attribute: its path, the word of its legend byte, and its stored value.
fn put_entry(
    out: &mut Vec<u8>,
    alloc: Global,
    table: &Text,
    row: &Item,
    name: &Text,
    flag: u8,
) -> Result<(), Memory>
    ensures { OnOk result (out.new.items ≡ out.old.items ++ entry_text table.now row.now name.now flag) }
{
    put_long_path(out, table, name)?;
    put_bytes(out, legend_word(flag))?;
    match row.get(name.as_str()) {
        Some(value) => put_stored(out, alloc, value),
        None => put_count(out, 0),
    }
}

/// `ENCRYPTED` for the legend byte of an encrypted attribute, else `PLAINTEXT`.
pub fn legend_word(flag: u8) -> &'static [u8]
    ensures { result.now ≡ legend_word flag }
{
    if flag == ENCRYPTED {
        b"ENCRYPTED"
    } else {
        b"PLAINTEXT"
    }
}

/// Appends the path of an attribute behind its length in 8 bytes, which is filled in when the path stands.
pub fn put_long_path(out: &mut Vec<u8>, table: &Text, name: &Text) -> Result<(), Memory>
    ensures { OnOk result (out.new.items ≡ out.old.items ++ long_string (path_of table.now name.now)) }
{
    let start = out.len();
    put_count(out, 0)?;
    put_path(out, table.as_bytes(), name.as_bytes())?;
    set_length(out, start);
    Ok(())
}

/// Appends the type and the canonical bytes of a value behind their length in 8 bytes, which is filled in when they
/// stand.
pub fn put_stored(out: &mut Vec<u8>, alloc: Global, value: &AttrValue) -> Result<(), Memory>
    ensures { OnOk result (out.new.items ≡ out.old.items ++ long_string (type_id (view value.now) ++ canon_of (view value.now))) }
{
    let start = out.len();
    put_count(out, 0)?;
    put_bytes(out, &type_id(value))?;
    put_canon(out, alloc, value)?;
    set_length(out, start);
    Ok(())
}

/// Appends a length in 8 bytes, big-endian.
#[tactic(auto, unfolding(dbe_canon::specs::Canon::count_bytes))]
pub fn put_count(out: &mut Vec<u8>, count: u64) -> Result<(), Memory>
    ensures { OnOk result (out.new.items ≡ out.old.items ++ count_bytes count) }
{
    put_bytes(out, &count.to_be_bytes())
}
