ghost use Rattle.std.specs.Prelude.{◌≡◌, ℕ, List, true, false, not, IfOk, OnOk, filter, fold};
ghost use Rattle.dbe_values.specs.Attributes.{is_name, value_at};
ghost use Rattle.dbe_config.specs.Rules.{is_among, compound_names, virtual_names};
ghost use Rattle.dbe_fields.specs.Plain.{plain, plain_among, is_computed};
ghost use Rattle.dbe_fields.specs.Extended.{extended, with_value};

use crate::computed::is_computed;
use crate::value::computed_text;
use dbe_config::{Compound, Config, Virtual};
use dbe_num::{Memory, Text};
use dbe_values::{AttrValue, Item};
use std::alloc::Global;

/// The item in which the name of each virtual field and compound has its value, or is absent.
pub fn extended(alloc: Global, config: &Config, item: &Item) -> Result<Item, Memory>
    ensures { IfOk result (λ i. i ≡ extended config.now item.now) }
{
    let mut target = item.copy(alloc)?;
    remove_compounds(config.compounds(), &mut target);
    remove_virtuals(config.virtuals(), &mut target);
    put_compounds(alloc, config, item, &mut target)?;
    put_virtuals(alloc, config, item, &mut target)?;
    Ok(target)
}

/// An item that has the values of these names over an item, and no other name. A name whose value is absent is absent.
pub fn values_of(
    alloc: Global,
    config: &Config,
    names: &[Text],
    item: &Item,
) -> Result<Item, Memory>
    ensures { IfOk result (λ i. (name : List ℕ) → value_at name i ≡ plain_among names.now config.now name item.now) }
{
    let mut target = Item::new(alloc);
    for name in names {
        put_value(alloc, config, name, item, &mut target)?;
    }
    Ok(target)
}

fn put_value(
    alloc: Global,
    config: &Config,
    name: &Text,
    item: &Item,
    target: &mut Item,
) -> Result<(), Memory>
    ensures { OnOk result (target.new ≡ with_value name.now (plain config.now name.now item.now) target.old) }
{
    if is_computed(config, name) {
        config.keeps_bounds();
        put_computed(alloc, config, name, item, target)
    } else {
        put_attribute(alloc, config, name, item, target)
    }
}

fn put_attribute(
    alloc: Global,
    config: &Config,
    name: &Text,
    item: &Item,
    target: &mut Item,
) -> Result<(), Memory>
    requires { is_computed config.now name.now ≡ false }
    ensures { OnOk result (target.new ≡ with_value name.now (plain config.now name.now item.now) target.old) }
{
    item.is_lawful();
    match item.get(name.as_str()) {
        Some(value) => {
            target.put(name.copy(alloc)?, value.copy(alloc)?)?;
            Ok(())
        }
        None => Ok(()),
    }
}

fn remove_compounds(compounds: &[Compound], target: &mut Item)
    ensures { target.new ≡ filter (λ a. not (is_among a.0 (compound_names compounds.now))) target.old }
{
    for compound in compounds {
        target.is_lawful();
        let _ = target.remove(compound.name.as_str());
    }
}

fn remove_virtuals(virtuals: &[Virtual], target: &mut Item)
    ensures { target.new ≡ filter (λ a. not (is_among a.0 (virtual_names virtuals.now))) target.old }
{
    for field in virtuals {
        target.is_lawful();
        let _ = target.remove(field.name.as_str());
    }
}

fn put_compounds(
    alloc: Global,
    config: &Config,
    item: &Item,
    target: &mut Item,
) -> Result<(), Memory>
    ensures { OnOk result (target.new ≡ fold (λ r name. with_value name (plain config.now name item.now) r) target.old (compound_names config.now.compounds)) }
{
    config.keeps_bounds();
    for compound in config.compounds() {
        put_computed(alloc, config, &compound.name, item, target)?;
    }
    Ok(())
}

fn put_virtuals(
    alloc: Global,
    config: &Config,
    item: &Item,
    target: &mut Item,
) -> Result<(), Memory>
    ensures { OnOk result (target.new ≡ fold (λ r name. with_value name (plain config.now name item.now) r) target.old (virtual_names config.now.virtuals)) }
{
    config.keeps_bounds();
    for field in config.virtuals() {
        put_computed(alloc, config, &field.name, item, target)?;
    }
    Ok(())
}

fn put_computed(
    alloc: Global,
    config: &Config,
    name: &Text,
    item: &Item,
    target: &mut Item,
) -> Result<(), Memory>
    requires named { is_name name.now ≡ true }
    requires computed { is_computed config.now name.now ≡ true }
    ensures { OnOk result (target.new ≡ with_value name.now (plain config.now name.now item.now) target.old) }
{
    match computed_text(alloc, config, name, item)? {
        Some(text) => {
            let _ = text.as_str();
            target.put(name.copy(alloc)?, AttrValue::S(text))?;
            Ok(())
        }
        None => Ok(()),
    }
}
