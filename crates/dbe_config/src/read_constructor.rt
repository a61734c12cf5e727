ghost use Rattle.std.specs.Prelude.{◌≡◌, [], ◌∷◌, IfOk, map, option_map};
ghost use Rattle.serde_json.specs.View.{view};
ghost use Rattle.dbe_config.specs.Shape.{entry_in, place_of, placed, constructor_of, full_entry, full_constructor, constructors_in};
ghost use Rattle.dbe_config.specs.Spelling.{array_of};

use crate::entry::{Entries, Entry};
use crate::spelled::{Spelled, array_of, list_in};
use crate::spelling::{any_text_in, bool_in};
use crate::{Constructor, ConstructorPart, ConstructorParts, Part};
use dbe_num::{Memory, Text};
use dbe_values::size_of;
use serde_json::Value;
use std::alloc::Global;

impl Spelled for Entry {
    ghost spelled = { entry_in };

    fn read_from(alloc: Global, value: &Value) -> Result<Option<Entry>, Memory> {
        if size_of(value) != 2 {
            return Ok(None);
        }
        let Some(name) = any_text_in(value.get("part")) else {
            return Ok(None);
        };
        let Some(required) = bool_in(value.get("required")) else {
            return Ok(None);
        };
        Ok(Some(Entry {
            name: Text::copy_of(alloc, name)?,
            required,
        }))
    }
}

impl Spelled for Entries {
    ghost spelled = { array_of entry_in };

    fn read_from(alloc: Global, value: &Value) -> Result<Option<Entries>, Memory> {
        match array_of(alloc, value)? {
            Some(items) => Ok(Some(Entries { items })),
            None => Ok(None),
        }
    }
}

// The constructors of a compound, or the one of all its parts where none are written.
pub(crate) fn constructors_in(
    alloc: Global,
    parts: &[Part],
    value: Option<&Value>,
) -> Result<Option<Vec<Constructor>>, Memory>
    ensures { IfOk result (λ c. option_map (λ v. v.items) c ≡ constructors_in parts.now (option_map (λ v. view v.now) value.entry)) }
{
    if value.is_none() {
        return Ok(Some(only_full_constructor(alloc, parts)?));
    }
    match list_in(alloc, value, 16)? {
        Some(lists) => Ok(Some(constructors_of(alloc, parts, &lists)?)),
        None => Ok(None),
    }
}

fn only_full_constructor(alloc: Global, parts: &[Part]) -> Result<Vec<Constructor>, Memory>
    ensures { IfOk result (λ c. c.items ≡ full_constructor parts.now ∷ []) }
{
    let entries = full_entries(alloc, parts)?;
    let mut constructors = Vec::new(alloc);
    constructors.push(constructor_of(alloc, parts, &entries)?)?;
    Ok(constructors)
}

fn full_entries(alloc: Global, parts: &[Part]) -> Result<Vec<Entry>, Memory>
    ensures { IfOk result (λ e. e.items ≡ map full_entry parts.now) }
{
    let mut entries = Vec::new(alloc);
    for part in parts {
        entries.push(Entry {
            name: part.name.copy(alloc)?,
            required: true,
        })?;
    }
    Ok(entries)
}

fn constructors_of(
    alloc: Global,
    parts: &[Part],
    lists: &[Entries],
) -> Result<Vec<Constructor>, Memory>
    ensures { IfOk result (λ c. c.items ≡ map (constructor_of parts.now) lists.now) }
{
    let mut constructors = Vec::new(alloc);
    for list in lists {
        constructors.push(constructor_of(alloc, parts, &list.items)?)?;
    }
    Ok(constructors)
}

fn constructor_of(alloc: Global, parts: &[Part], entries: &[Entry]) -> Result<Constructor, Memory>
    ensures { IfOk result (λ c. c ≡ constructor_of parts.now entries.now) }
{
    let mut placed = Vec::new(alloc);
    for entry in entries {
        placed.push(ConstructorPart {
            name: entry.name.copy(alloc)?,
            part: place_of(&entry.name, parts),
            required: entry.required,
        })?;
    }
    Ok(Constructor {
        parts: ConstructorParts::from_vec(placed),
    })
}

// The place of the part of a name, or the number of parts where there is none.
fn place_of(name: &Text, parts: &[Part]) -> usize
    ensures { result ≡ place_of name.now parts.now }
{
    for (i, part) in parts.iter().enumerate() {
        if part.name.as_bytes() == name.as_bytes() {
            return i;
        }
    }
    parts.len()
}
