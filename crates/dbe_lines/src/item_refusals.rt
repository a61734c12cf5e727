ghost use Rattle.std.specs.Prelude.{◌≡◌, ◌≢◌, codes, false, IfOk, OnOk};
ghost use Rattle.serde_json.specs.Data.{object, member, number, unsigned, string, no_members};
ghost use Rattle.serde_json.specs.View.{view, members_view};
ghost use Rattle.serde_json.specs.Written.{has_float};
ghost use Rattle.dbe_values.specs.Writing.{with_members};
ghost use Rattle.dbe_lines.specs.Texts.{reason, sort_attribute, key_data, item_for, item_at, item_name_for, item_refusal};

use crate::conditions::add;
use crate::texts::line_of;
use dbe_item::OpenFault;
use dbe_num::Memory;
use dbe_values::{AttrValue, KeyName, KeySchema, KeyValue, to_json};
use serde_json::{Map, Value, json};
use std::alloc::Global;

/// The refusal of a row that does not open, by its key.
pub fn item_refusal(
    alloc: Global,
    schema: &KeySchema,
    key: &KeyValue,
    fault: &OpenFault,
) -> Result<Vec<u8>, Memory>
    ensures told { IfOk result (λ _. fault.now ≢ OpenFault.Memory) }
    ensures text { IfOk result (λ text. text.items ≡ item_refusal schema.now key.now fault.now) }
{
    let key = key_value(alloc, schema, key)?;
    match fault {
        OpenFault::NoHeader => item_for(alloc, key, "NoHeader"),
        OpenFault::HeaderFault { at } => item_at(alloc, key, "HeaderFault", *at),
        OpenFault::LegendLength => item_for(alloc, key, "LegendLength"),
        OpenFault::KeyLegend => item_for(alloc, key, "KeyLegend"),
        OpenFault::FooterLength => item_for(alloc, key, "FooterLength"),
        OpenFault::NoRecipient => item_for(alloc, key, "NoRecipient"),
        OpenFault::Commitment => item_for(alloc, key, "Commitment"),
        OpenFault::RecipientTag => item_for(alloc, key, "RecipientTag"),
        OpenFault::FieldShape { name } => item_name_for(alloc, key, "FieldShape", name.as_str()),
        OpenFault::FieldTag { name } => item_name_for(alloc, key, "FieldTag", name.as_str()),
        OpenFault::NotCanonical { name } => {
            item_name_for(alloc, key, "NotCanonical", name.as_str())
        }
        OpenFault::Memory => Err(Memory),
    }
}

fn item_for(alloc: Global, key: Value, why: &str) -> Result<Vec<u8>, Memory>
    requires { has_float (view key) ≡ false }
    ensures { IfOk result (λ text. text.items ≡ item_for (view key) why.now) }
{
    line_of(alloc, &for_value(alloc, key, why)?)
}

fn item_at(alloc: Global, key: Value, why: &str, at: u64) -> Result<Vec<u8>, Memory>
    requires { has_float (view key) ≡ false }
    ensures { IfOk result (λ text. text.items ≡ item_at (view key) why.now at) }
{
    line_of(alloc, &at_value(alloc, key, why, at)?)
}

fn item_name_for(alloc: Global, key: Value, why: &str, name: &str) -> Result<Vec<u8>, Memory>
    requires { has_float (view key) ≡ false }
    ensures { IfOk result (λ text. text.items ≡ item_name_for (view key) why.now name.now) }
{
    line_of(alloc, &name_value(alloc, key, why, name)?)
}

fn for_value(alloc: Global, key: Value, why: &str) -> Result<Value, Memory>
    ensures { IfOk result (λ v. view v ≡ object (member (codes "key") (view key) (reason (codes "item") why.now))) }
{
    Ok(json!(in alloc; {"key": key, "refused": "item", "why": why})?)
}

fn at_value(alloc: Global, key: Value, why: &str, at: u64) -> Result<Value, Memory>
    ensures { IfOk result (λ v. view v ≡ object (member (codes "at") (number (unsigned at)) (member (codes "key") (view key) (reason (codes "item") why.now)))) }
{
    Ok(json!(in alloc; {"at": at, "key": key, "refused": "item", "why": why})?)
}

fn name_value(alloc: Global, key: Value, why: &str, name: &str) -> Result<Value, Memory>
    ensures { IfOk result (λ v. view v ≡ object (member (codes "key") (view key) (member (codes "name") (string name.now) (reason (codes "item") why.now)))) }
{
    Ok(json!(in alloc; {"key": key, "name": name, "refused": "item", "why": why})?)
}

#[tactic(auto, using(crate::proofs::Floats::no_float_key))]
fn key_value(alloc: Global, schema: &KeySchema, key: &KeyValue) -> Result<Value, Memory>
    ensures value { IfOk result (λ v. view v ≡ key_data schema.now key.now) }
    ensures float { IfOk result (λ v. has_float (view v) ≡ false) }
{
    let value = key_object(alloc, schema, key)?;
    Ok(value)
}

// The key of a row as an object of its attributes.
fn key_object(alloc: Global, schema: &KeySchema, key: &KeyValue) -> Result<Value, Memory>
    ensures { IfOk result (λ v. view v ≡ key_data schema.now key.now) }
{
    let mut map = Map::new(alloc);
    add(
        alloc,
        &mut map,
        schema.partition.name.as_str(),
        to_json(alloc, &key.partition)?,
    )?;
    add_sort(alloc, &mut map, &schema.sort, &key.sort)?;
    Ok(Value::Object(map))
}

// Adds the sort key, where there is one.
fn add_sort(
    alloc: Global,
    map: &mut Map<String, Value>,
    sort: &Option<KeyName>,
    value: &Option<AttrValue>,
) -> Result<(), Memory>
    ensures { OnOk result (members_view map.new.entries ≡ with_members (members_view map.old.entries) (sort_attribute sort.now value.now)) }
{
    match (sort, value) {
        (Some(sort), Some(value)) => {
            let value = to_json(alloc, value)?;
            add(alloc, map, sort.name.as_str(), value)
        }
        _ => Ok(()),
    }
}
