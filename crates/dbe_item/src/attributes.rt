ghost use Rattle.std.specs.Prelude.{◌≡◌, ◌≤◌, IfOk, length, map};
ghost use Rattle.std.specs.List.Sorted.{IsStrictlySortedBy};
ghost use Rattle.dbe_values.specs.View.{view};
ghost use Rattle.dbe_values.specs.Lawful.{AreBytes, IsLawful};
ghost use Rattle.dbe_canon.specs.Path.{name_cmp};
ghost use Rattle.dbe_item.specs.Names.{number_of};
ghost use Rattle.dbe_item.specs.Sealed.{sealed_attribute};

use crate::legend::is_encrypted;
use crate::numbers::number_of;
use dbe_canon::put_path;
use dbe_config::Config;
use dbe_itemkeys::ItemKeys;
use dbe_num::{Memory, Text};
use dbe_values::{AttrValue, Item};
use std::alloc::Global;

/// The attributes as a row stores them: those that the configuration encrypts are fields, numbered among `names`.
pub(crate) fn sealed_attributes(
    alloc: Global,
    config: &Config,
    keys: &ItemKeys,
    names: &[Text],
    item: &Item,
) -> Result<Item, Memory>
    requires sorted { IsStrictlySortedBy name_cmp names.now }
    requires few { length names.now ≤ 65535 }
    ensures { IfOk result (λ row. row ≡ map (sealed_attribute config.now keys.now.root names.now) item.now) }
{
    item.is_lawful();
    let mut row = Item::new(alloc);
    let mut path = Vec::new(alloc);
    for i in 0..item.len() {
        let (name, value) = item.at(i);
        let stored = sealed_value(alloc, config, keys, names, &mut path, name, value)?;
        row.put(name.copy(alloc)?, stored)?;
    }
    Ok(row)
}

/// An attribute's value as a row stores it. What is in `path` before means nothing.
fn sealed_value(
    alloc: Global,
    config: &Config,
    keys: &ItemKeys,
    names: &[Text],
    path: &mut Vec<u8>,
    name: &Text,
    value: &AttrValue,
) -> Result<AttrValue, Memory>
    requires sorted { IsStrictlySortedBy name_cmp names.now }
    requires few { length names.now ≤ 65535 }
    requires lawful { IsLawful 32 (view value.now) }
    ensures value { IfOk result (λ v. v ≡ (sealed_attribute config.now keys.now.root names.now (name.now, value.now)).1) }
    ensures lawful { IfOk result (λ v. IsLawful 32 (view v)) }
{
    if !is_encrypted(config, name) {
        return value.copy(alloc);
    }
    path.clear();
    put_path(path, config.table().as_bytes(), name.as_bytes())?;
    let field = keys.seal_field(alloc, number_among(names, name), path, value)?;
    are_bytes(field.as_slice());
    Ok(AttrValue::B(field))
}

/// That bytes are below 256. Does nothing.
pub(crate) fn are_bytes(bytes: &[u8])
    ensures { AreBytes bytes.now }
{
    let _ = bytes.len();
}

/// The number of a name among names in canonical order; how many they are, where it is none of them.
fn number_among(names: &[Text], name: &Text) -> u32
    requires sorted { IsStrictlySortedBy name_cmp names.now }
    requires few { length names.now ≤ 65535 }
    ensures number { result ≡ number_of name.now names.now }
    ensures small { result ≤ 65535 }
{
    match number_of(names, name) {
        Some(i) => i as u32,
        None => names.len() as u32,
    }
}
