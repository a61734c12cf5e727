ghost use Rattle.std.specs.Prelude.{◌≡◌, ◌+◌, ◌-◌, ◌^◌, min, map, length};
ghost use Rattle.dbe_values.specs.View.{view, vals_of, entries_of, entry_view};
ghost use Rattle.dbe_canon.specs.Canon.{canon_of, long_strings, vals_bytes, entries_bytes};

use dbe_num::{Bytes, Text};
use dbe_values::AttrValue;

/// How many bytes the canonical bytes of a value have, or 2^64 - 1 where that is less. Takes no memory.
#[cycle(length)]
#[tactic(auto, unfolding(crate::specs::Canon::canon_of))]
pub fn canon_len(value: &AttrValue) -> u64
    ensures { result ≡ min (length (canon_of (view value.now))) (2 ^ 64 - 1) }
{
    match value {
        AttrValue::Null => 0,
        AttrValue::S(text) => text.as_bytes().len() as u64,
        AttrValue::N(number) => number.text_len() as u64,
        AttrValue::Bool(_) => 1,
        AttrValue::B(bytes) => bytes.as_slice().len() as u64,
        AttrValue::Ss(set) => texts_len(set.elements()).saturating_add(8),
        AttrValue::Ns(set) => texts_len(set.elements()).saturating_add(8),
        AttrValue::Bs(set) => binaries_len(set.elements()).saturating_add(8),
        AttrValue::L(items) => values_len(items.as_slice()).saturating_add(8),
        AttrValue::M(entries) => entries_len(entries.as_slice()).saturating_add(8),
    }
}

fn texts_len(texts: &[Text]) -> u64
    ensures { result ≡ min (length (long_strings texts.now)) (2 ^ 64 - 1) }
{
    let mut total: u64 = 0;
    for text in texts {
        total = total
            .saturating_add(8)
            .saturating_add(text.as_bytes().len() as u64);
    }
    total
}

fn binaries_len(binaries: &[Bytes]) -> u64
    ensures { result ≡ min (length (long_strings binaries.now)) (2 ^ 64 - 1) }
{
    let mut total: u64 = 0;
    for bytes in binaries {
        total = total
            .saturating_add(8)
            .saturating_add(bytes.as_slice().len() as u64);
    }
    total
}

#[cycle(length)]
fn values_len(values: &[AttrValue]) -> u64
    ensures { result ≡ min (length (vals_bytes (vals_of (map view values.now)))) (2 ^ 64 - 1) }
{
    let mut total: u64 = 0;
    for value in values {
        total = total.saturating_add(10).saturating_add(canon_len(value));
    }
    total
}

#[cycle(length)]
fn entries_len(entries: &[(Text, AttrValue)]) -> u64
    ensures { result ≡ min (length (entries_bytes (entries_of (map entry_view entries.now)))) (2 ^ 64 - 1) }
{
    let mut total: u64 = 0;
    for entry in entries {
        total = total
            .saturating_add(18)
            .saturating_add(entry.0.as_bytes().len() as u64)
            .saturating_add(canon_len(&entry.1));
    }
    total
}
