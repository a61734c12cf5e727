ghost use Rattle.std.specs.Prelude.{◌≡◌, ◌++◌, ◌∷◌, [], true, IfOk, OnOk};
ghost use Rattle.serde_json.specs.View.{view as data_of, members_view};
ghost use Rattle.dbe_values.specs.View.{view};
ghost use Rattle.dbe_values.specs.Attributes.{is_name};
ghost use Rattle.dbe_values.specs.Faults.{Gives};
ghost use Rattle.dbe_values.specs.Items.{attribute_in, attributes_in, item_in, GivesItem, IsAt};
ghost use Rattle.dbe_values.specs.Sets.{IsIncreasing};
ghost use Rattle.dbe_values.specs.Lawful.{IsLawful, names_of};

use crate::{AttrValue, Item, ItemFault, ValueFault, from_json};
use dbe_num::{Memory, Text};
use serde_json::{Map, Value};
use std::alloc::Global;

/// The item that a JSON value spells, or the first fault of the walk through its attributes.
pub fn item_from_json(alloc: Global, value: &Value) -> Result<Item, ItemFault>
    ensures { GivesItem result (item_in (data_of value.now)) }
{
    match value.as_object() {
        Some(members) => attributes_in(alloc, members),
        None => Err(ItemFault::NotObject),
    }
}

fn attributes_in(alloc: Global, members: &Map<String, Value>) -> Result<Item, ItemFault>
    ensures { GivesItem result (attributes_in (members_view members.now.entries)) }
{
    let mut item = Item::new(alloc);
    for (key, content) in members {
        let name = key.as_str();
        match attribute_in(alloc, name, content) {
            Ok(value) => match put_last(alloc, &mut item, name, value) {
                Ok(()) => {}
                Err(_) => return Err(fault_at(alloc, name, ValueFault::Memory)),
            },
            Err(why) => return Err(fault_at(alloc, name, why)),
        }
    }
    Ok(item)
}

fn attribute_in(alloc: Global, name: &str, value: &Value) -> Result<AttrValue, ValueFault>
    ensures gives { Gives view result (attribute_in name.now (data_of value.now)) }
    ensures named { IfOk result (λ v. is_name name.now ≡ true) }
    ensures lawful { IfOk result (λ v. IsLawful 32 (view v)) }
{
    if is_name(name) {
        from_json(alloc, value)
    } else {
        Err(ValueFault::BadName)
    }
}

fn is_name(name: &str) -> bool
    ensures { result ≡ is_name name.now }
{
    !name.is_empty() && name.len() <= 255
}

fn put_last(alloc: Global, item: &mut Item, name: &str, value: AttrValue) -> Result<(), Memory>
    requires named { is_name name.now ≡ true }
    requires lawful { IsLawful 32 (view value) }
    requires last { IsIncreasing (names_of item.old ++ name.now ∷ []) }
    ensures { OnOk result (item.new ≡ item.old ++ (name.now, value) ∷ []) }
{
    item.push(Text::copy_of(alloc, name)?, value)
}

/// A fault at a name, or out of memory where the name finds none.
fn fault_at(alloc: Global, name: &str, why: ValueFault) -> ItemFault
    ensures { IsAt result name.now why }
{
    match Text::copy_of(alloc, name) {
        Ok(name) => ItemFault::At { name, why },
        Err(Memory) => ItemFault::At {
            name: Text::from_string(String::new(alloc)),
            why: ValueFault::Memory,
        },
    }
}
