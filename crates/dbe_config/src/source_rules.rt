ghost use Rattle.std.specs.Prelude.{◌≡◌, not};
ghost use Rattle.std.specs.List.{list_any};
ghost use Rattle.dbe_config.specs.Rules.{has_wrong_length, has_wrong_from, is_beacon_source, has_wrong_beacon, is_part_source, has_unknown_part, has_wrong_part};
ghost use Rattle.dbe_config.specs.Entries.{entries_of};

use crate::named::is_among;
use crate::names::{action_at, is_encrypted, is_key, is_signed_name, is_signed_only};
use crate::{Action, Compound, Constructor, Part, Standard, Virtual};
use dbe_num::Text;
use dbe_values::KeySchema;
use std::collections::BTreeMap;

// A length that is not from 1 to 63 was read as 0.
pub(crate) fn has_wrong_length(beacons: &[Standard]) -> bool
    ensures { result ≡ has_wrong_length beacons.now }
{
    beacons.iter().any(|b| b.length == 0)
}

fn has_wrong_from(schema: &KeySchema, actions: &BTreeMap<String, Action>, field: &Virtual) -> bool
    ensures { result ≡ has_wrong_from schema.now (entries_of actions.now.entries) field.now }
{
    for part in field.parts.as_slice() {
        if !is_signed_name(schema, actions, &part.from) {
            return true;
        }
    }
    false
}

pub(crate) fn has_wrong_virtual(
    schema: &KeySchema,
    actions: &BTreeMap<String, Action>,
    virtuals: &[Virtual],
) -> bool
    ensures { result ≡ list_any (has_wrong_from schema.now (entries_of actions.now.entries)) virtuals.now }
{
    for field in virtuals {
        if has_wrong_from(schema, actions, field) {
            return true;
        }
    }
    false
}

fn is_beacon_source(actions: &BTreeMap<String, Action>, virtuals: &[Virtual], name: &Text) -> bool
    ensures { result ≡ is_beacon_source (entries_of actions.now.entries) virtuals.now name.now }
{
    is_encrypted(action_at(name, actions)) || is_among(name, virtuals)
}

pub(crate) fn has_wrong_beacon(
    actions: &BTreeMap<String, Action>,
    virtuals: &[Virtual],
    beacons: &[Standard],
) -> bool
    ensures { result ≡ has_wrong_beacon (entries_of actions.now.entries) virtuals.now beacons.now }
{
    for beacon in beacons {
        if !is_beacon_source(actions, virtuals, &beacon.name) {
            return true;
        }
    }
    false
}

fn is_part_source(
    schema: &KeySchema,
    actions: &BTreeMap<String, Action>,
    beacons: &[Standard],
    part: &Part,
) -> bool
    ensures { result ≡ is_part_source schema.now (entries_of actions.now.entries) beacons.now part.now }
{
    if part.encrypted {
        return is_among(&part.from, beacons);
    }
    is_key(&part.from, schema) || is_signed_only(action_at(&part.from, actions))
}

fn has_wrong_part_source(
    schema: &KeySchema,
    actions: &BTreeMap<String, Action>,
    beacons: &[Standard],
    parts: &[Part],
) -> bool
    ensures { result ≡ list_any (λ p. not (is_part_source schema.now (entries_of actions.now.entries) beacons.now p)) parts.now }
{
    for part in parts {
        if !is_part_source(schema, actions, beacons, part) {
            return true;
        }
    }
    false
}

fn has_unknown_part(count: usize, constructor: &Constructor) -> bool
    ensures { result ≡ has_unknown_part count constructor.now }
{
    constructor.parts.as_slice().iter().any(|e| e.part >= count)
}

fn has_unknown_parts(count: usize, constructors: &[Constructor]) -> bool
    ensures { result ≡ list_any (has_unknown_part count) constructors.now }
{
    constructors.iter().any(|k| has_unknown_part(count, k))
}

fn has_wrong_part(
    schema: &KeySchema,
    actions: &BTreeMap<String, Action>,
    beacons: &[Standard],
    compound: &Compound,
) -> bool
    ensures { result ≡ has_wrong_part schema.now (entries_of actions.now.entries) beacons.now compound.now }
{
    let parts = compound.parts.as_slice();
    has_wrong_part_source(schema, actions, beacons, parts)
        || has_unknown_parts(parts.len(), compound.constructors.as_slice())
}

pub(crate) fn has_wrong_compound(
    schema: &KeySchema,
    actions: &BTreeMap<String, Action>,
    beacons: &[Standard],
    compounds: &[Compound],
) -> bool
    ensures { result ≡ list_any (has_wrong_part schema.now (entries_of actions.now.entries) beacons.now) compounds.now }
{
    for compound in compounds {
        if has_wrong_part(schema, actions, beacons, compound) {
            return true;
        }
    }
    false
}
