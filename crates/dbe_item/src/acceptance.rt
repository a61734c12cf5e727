ghost use Rattle.std.specs.Prelude.{◌≡◌, ◌≢◌, ◌≤◌, ◌+◌, ◌^◌, ◌-◌, ℕ, List, Some, None, Err, OnOk, IfErr, IfOk, option_map, min, nat_lt, is_none};
ghost use Rattle.dbe_values.specs.View.{view};
ghost use Rattle.dbe_config.specs.Actions.{is_reserved};
ghost use Rattle.dbe_item.specs.Acceptance.{put_fault, HasName, first_name, is_unknown, attribute_size, item_size};

use crate::PutFault;
use dbe_canon::canon_len;
use dbe_config::Config;
use dbe_num::{Memory, Text};
use dbe_values::{AttrValue, Item, key_fault};
use std::alloc::Global;

const MOST_ATTRIBUTES: usize = 1000;

const MOST_BYTES: u64 = 409_600;

/// Whether an item may be stored. Refused for the first of these that holds: no lawful key, a name that begins with
/// `aws_dbe_`, a name that has no action, more than 1,000 attributes, more than 409,600 bytes. Memory is taken only
/// for the name of a refusal.
pub fn accepts(alloc: Global, config: &Config, item: &Item) -> Result<(), PutFault>
    ensures ok { OnOk result (put_fault config.now item.now ≡ None) }
    ensures err { IfErr result (λ f. f ≢ PutFault.Memory → put_fault config.now item.now ≡ Some f) }
    ensures memory { result ≡ Err PutFault.Memory → HasName (put_fault config.now item.now) }
{
    if let Some(name) = key_fault(config.schema(), item) {
        return match name.copy(alloc) {
            Ok(name) => Err(PutFault::Key { name }),
            Err(Memory) => Err(PutFault::Memory),
        };
    }
    if let Some(name) = first_reserved(item) {
        return match name.copy(alloc) {
            Ok(name) => Err(PutFault::Reserved { name }),
            Err(Memory) => Err(PutFault::Memory),
        };
    }
    if let Some(name) = first_unknown(config, item) {
        return match name.copy(alloc) {
            Ok(name) => Err(PutFault::Unknown { name }),
            Err(Memory) => Err(PutFault::Memory),
        };
    }
    if item.len() > MOST_ATTRIBUTES {
        return Err(PutFault::TooMany);
    }
    if is_large(item) {
        return Err(PutFault::Size);
    }
    Ok(())
}

fn first_reserved(item: &Item) -> Option<&Text>
    ensures { option_map (λ n. n.now) result ≡ first_name is_reserved item.now }
{
    for i in 0..item.len() {
        let (name, _) = item.at(i);
        if is_reserved(name) {
            return Some(name);
        }
    }
    None
}

fn first_unknown<'a>(config: &Config, item: &'a Item) -> Option<&'a Text>
    ensures { option_map (λ n. n.now) result ≡ first_name (is_unknown config.now) item.now }
{
    for i in 0..item.len() {
        let (name, _) = item.at(i);
        if is_unknown(config, name) {
            return Some(name);
        }
    }
    None
}

pub(crate) fn is_reserved(name: &Text) -> bool
    ensures { result ≡ is_reserved name.now }
{
    name.as_bytes().starts_with(b"aws_dbe_")
}

fn is_unknown(config: &Config, name: &Text) -> bool
    ensures { result ≡ is_unknown config.now name.now }
{
    config.action(name).is_none()
}

// Whether the bytes of names and values are more than an item may have.
fn is_large(item: &Item) -> bool
    ensures { result ≡ nat_lt 409600 (item_size item.now) }
{
    let mut size = 0;
    for i in 0..item.len() {
        let (name, value) = item.at(i);
        let more = attribute_size(name, value);
        if more > MOST_BYTES - size {
            return true;
        }
        size += more;
    }
    false
}

fn attribute_size(name: &Text, value: &AttrValue) -> u64
    ensures { result ≡ min (attribute_size (name.now, value.now)) (2 ^ 64 - 1) }
{
    (name.as_bytes().len() as u64).saturating_add(canon_len(value))
}
