ghost use Rattle.std.specs.Prelude.{◌≡◌, IfOk, length};
ghost use Rattle.std.specs.List.{All};
ghost use Rattle.std.specs.List.Sorted.{IsStrictlySortedBy};
ghost use Rattle.dbe_values.specs.View.{view};
ghost use Rattle.dbe_values.specs.Lawful.{IsLawful};
ghost use Rattle.dbe_canon.specs.Path.{name_cmp};
ghost use Rattle.dbe_item.specs.Opening.{opened_attributes, opened_value};

use crate::acceptance::is_reserved;
use crate::numbers::number_of;
use dbe_num::{Memory, Text};
use dbe_values::{AttrValue, Item};
use std::alloc::Global;

/// The attributes of a row that dbe does not keep for itself, each encrypted one with its opened value.
pub(crate) fn opened_item(
    alloc: Global,
    row: &Item,
    names: &[Text],
    values: &[AttrValue],
) -> Result<Item, Memory>
    requires order { IsStrictlySortedBy name_cmp names.now }
    requires count { length values.now ≡ length names.now }
    requires lawful { All (λ v. IsLawful 32 (view v)) values.now }
    ensures { IfOk result (λ item. item ≡ opened_attributes names.now values.now row.now) }
{
    row.is_lawful();
    let mut item = Item::new(alloc);
    for i in 0..row.len() {
        let (name, stored) = row.at(i);
        if is_reserved(name) {
            continue;
        }
        let value = opened_value(names, values, name, stored).copy(alloc)?;
        item.put(name.copy(alloc)?, value)?;
    }
    Ok(item)
}

/// The opened value of an encrypted attribute, or the stored one of another.
fn opened_value<'a>(
    names: &[Text],
    values: &'a [AttrValue],
    name: &Text,
    stored: &'a AttrValue,
) -> &'a AttrValue
    requires order { IsStrictlySortedBy name_cmp names.now }
    requires count { length values.now ≡ length names.now }
    ensures { result.now ≡ opened_value names.now values.now name.now stored.now }
{
    match number_of(names, name) {
        Some(i) => &values[i],
        None => stored,
    }
}
