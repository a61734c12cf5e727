ghost use Rattle.std.specs.Prelude.{◌≡◌, IfOk, OnOk};
ghost use Rattle.serde_json.specs.Data.{string, put};
ghost use Rattle.serde_json.specs.View.{view, members_view};
ghost use Rattle.dbe_values.specs.Writing.{item_data};
ghost use Rattle.dbe_lines.specs.Texts.{names_data, condition_data, condition_text};

use crate::texts::line_of;
use dbe_cond::{Names, Printed, Values};
use dbe_num::{Memory, Text};
use dbe_values::to_json;
use serde_json::{Map, Value};
use std::alloc::Global;

/// The reply to an explain of a condition that the table is asked for.
pub fn condition_text(alloc: Global, printed: &Printed) -> Result<Vec<u8>, Memory>
    ensures { IfOk result (λ text. text.items ≡ condition_text printed.now.text printed.now.names printed.now.values) }
{
    line_of(alloc, &condition_value(alloc, printed)?)
}

fn condition_value(alloc: Global, printed: &Printed) -> Result<Value, Memory>
    ensures { IfOk result (λ v. view v ≡ condition_data printed.now.text printed.now.names printed.now.values) }
{
    let mut map = Map::new(alloc);
    add(
        alloc,
        &mut map,
        "condition",
        text_value(alloc, &printed.text)?,
    )?;
    add(
        alloc,
        &mut map,
        "names",
        names_value(alloc, &printed.names)?,
    )?;
    add(
        alloc,
        &mut map,
        "values",
        values_value(alloc, &printed.values)?,
    )?;
    Ok(Value::Object(map))
}

pub(crate) fn add(
    alloc: Global,
    map: &mut Map<String, Value>,
    name: &str,
    value: Value,
) -> Result<(), Memory>
    ensures { OnOk result (members_view map.new.entries ≡ put name.now (view value) (members_view map.old.entries)) }
{
    map.insert(String::from_str(alloc, name)?, value)?;
    Ok(())
}

fn text_value(alloc: Global, text: &Text) -> Result<Value, Memory>
    ensures { IfOk result (λ v. view v ≡ string text.now) }
{
    Ok(Value::String(text.copy(alloc)?.into_string()))
}

fn names_value(alloc: Global, names: &Names) -> Result<Value, Memory>
    ensures { IfOk result (λ v. view v ≡ names_data names.now) }
{
    let mut map = Map::new(alloc);
    for i in 0..names.len() {
        let (placeholder, name) = names.at(i);
        let name = text_value(alloc, name)?;
        map.insert(placeholder.copy(alloc)?.into_string(), name)?;
    }
    Ok(Value::Object(map))
}

fn values_value(alloc: Global, values: &Values) -> Result<Value, Memory>
    ensures { IfOk result (λ v. view v ≡ item_data values.now) }
{
    let mut map = Map::new(alloc);
    for i in 0..values.len() {
        let (placeholder, value) = values.at(i);
        let value = to_json(alloc, value)?;
        map.insert(placeholder.copy(alloc)?.into_string(), value)?;
    }
    Ok(Value::Object(map))
}
