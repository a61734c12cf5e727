use crate::answer::halves;
use crate::bytes::{bytes_of, digits_of};
use crate::stop::Stop;
use crate::text::{decimal, joined};
use dbe_canon::{CanonFault, canon_len, name_order, read, type_id};
use dbe_values::{AttrValue, from_json, json_value, to_json};
use std::alloc::Global;
use std::cmp::Ordering;

/// The cases of dbe_canon.
pub fn answer(alloc: Global, kind: &str, case: &str) -> Result<String, Stop> {
    match kind {
        "canon" => canon(alloc, case),
        "uncanon" => uncanon(alloc, case),
        "path" => path(alloc, case),
        "order" => order(alloc, case),
        _ => Err(Stop::Form),
    }
}

/// `JSON`: the type id of a value, its canonical bytes and how many they are.
fn canon(alloc: Global, case: &str) -> Result<String, Stop> {
    let value = value_of(alloc, case)?;
    let id = digits_of(alloc, &type_id(&value))?;
    let bytes = digits_of(alloc, &dbe_canon::canon(alloc, &value)?)?;
    let length = decimal(alloc, canon_len(&value))?;
    joined(
        alloc,
        &[id.as_str(), " ", bytes.as_str(), " ", length.as_str()],
    )
}

fn value_of(alloc: Global, text: &str) -> Result<AttrValue, Stop> {
    let json = json_value(alloc, text.as_bytes())?.ok_or(Stop::Form)?;
    match from_json(alloc, &json) {
        Ok(value) => Ok(value),
        Err(_) => Err(Stop::Form),
    }
}

/// `ID HEX`: the value that has these canonical bytes, or that there is none.
fn uncanon(alloc: Global, case: &str) -> Result<String, Stop> {
    let (id, digits) = halves(case)?;
    let id = id_of(&bytes_of(alloc, id)?)?;
    match read(alloc, id, &bytes_of(alloc, digits)?) {
        Ok(value) => Ok(to_json(alloc, &value)?.to_string(alloc)?),
        Err(CanonFault::NotCanonical) => joined(alloc, &["not canonical"]),
        Err(CanonFault::Memory) => Err(Stop::Memory),
    }
}

fn id_of(bytes: &[u8]) -> Result<[u8; 2], Stop> {
    match bytes {
        [a, b] => Ok([*a, *b]),
        _ => Err(Stop::Form),
    }
}

/// `TABLE NAME`: the path of a name.
fn path(alloc: Global, case: &str) -> Result<String, Stop> {
    let (table, name) = halves(case)?;
    digits_of(
        alloc,
        &dbe_canon::path(alloc, table.as_bytes(), name.as_bytes())?,
    )
}

/// `HEX HEX`: how the first name stands to the second.
fn order(alloc: Global, case: &str) -> Result<String, Stop> {
    let (a, b) = halves(case)?;
    let text = match name_order(&bytes_of(alloc, a)?, &bytes_of(alloc, b)?) {
        Ordering::Less => "Less",
        Ordering::Equal => "Equal",
        Ordering::Greater => "Greater",
    };
    joined(alloc, &[text])
}
