ghost use Rattle.std.specs.Prelude.{◌≡◌, IfOk, option_map};
ghost use Rattle.serde_json.specs.View.{view, items_view};
ghost use Rattle.dbe_config.specs.Spelling.{all_in, array_of, count_of, list_of, list_in, list_or_none};

use dbe_num::Memory;
use serde_json::Value;
use std::alloc::Global;

// What a JSON value may spell.
pub(crate) trait Spelled {
    ghost use Rattle.std.specs.Prelude.{Option};
    ghost use Rattle.serde_json.specs.Data.{Data};

    ghost spelled: { Data → Option Self };

    fn read_from(alloc: Global, value: &Value) -> Result<Option<Self>, Memory>
        ensures { IfOk result (λ r. r ≡ spelled (view value.now)) };
}

// What all values of an array spell.
fn all_in<T: Spelled + Drop>(alloc: Global, values: &[Value]) -> Result<Option<Vec<T>>, Memory>
    ensures { IfOk result (λ r. option_map (λ v. v.items) r ≡ all_in T.spelled (items_view values.now)) }
{
    let mut found = Vec::new(alloc);
    for value in values {
        let Some(one) = T::read_from(alloc, value)? else {
            return Ok(None);
        };
        found.push(one)?;
    }
    Ok(Some(found))
}

pub(crate) fn array_of<T: Spelled + Drop>(
    alloc: Global,
    value: &Value,
) -> Result<Option<Vec<T>>, Memory>
    ensures { IfOk result (λ r. option_map (λ v. v.items) r ≡ array_of T.spelled (view value.now)) }
{
    match value.as_array() {
        Some(values) => all_in(alloc, values),
        None => Ok(None),
    }
}

// An array of at most so many.
fn list_of<T: Spelled + Drop>(
    alloc: Global,
    value: &Value,
    most: usize,
) -> Result<Option<Vec<T>>, Memory>
    ensures { IfOk result (λ r. option_map (λ v. v.items) r ≡ list_of most T.spelled (view value.now)) }
{
    if count_of(value) > most {
        return Ok(None);
    }
    array_of(alloc, value)
}

pub(crate) fn list_in<T: Spelled + Drop>(
    alloc: Global,
    value: Option<&Value>,
    most: usize,
) -> Result<Option<Vec<T>>, Memory>
    ensures { IfOk result (λ r. option_map (λ v. v.items) r ≡ list_in most T.spelled (option_map (λ v. view v.now) value.entry)) }
{
    match value {
        Some(value) => list_of(alloc, value, most),
        None => Ok(None),
    }
}

pub(crate) fn list_or_none<T: Spelled + Drop>(
    alloc: Global,
    value: Option<&Value>,
    most: usize,
) -> Result<Option<Vec<T>>, Memory>
    ensures { IfOk result (λ r. option_map (λ v. v.items) r ≡ list_or_none most T.spelled (option_map (λ v. view v.now) value.entry)) }
{
    match value {
        Some(value) => list_of(alloc, value, most),
        None => Ok(Some(Vec::new(alloc))),
    }
}

// How many values an array has. All else has none.
#[tactic(auto, using(crate::proofs::Known::count_of_array, crate::proofs::Known::count_of_other))]
pub(crate) fn count_of(value: &Value) -> usize
    ensures { result ≡ count_of (view value.now) }
{
    match value.as_array() {
        Some(values) => values.len(),
        None => 0,
    }
}
