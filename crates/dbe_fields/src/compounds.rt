ghost use Rattle.std.specs.Prelude.{◌≡◌, ◌≤◌, ◌++◌, ◌∷◌, [], IfOk, OnOk, IfSome, map, find, filter_map, bytes_eq, string_bytes, option_map, if◌then◌else◌};
ghost use Rattle.std.specs.List.{All, list_all};
ghost use Rattle.dbe_config.specs.Bounds.{HasBytes};
ghost use Rattle.dbe_fields.specs.Compounds.{part_text, present, is_satisfied, is_usable, compound_named, compound_text, joined_pieces};

use crate::texts::attribute_text;
use crate::virtuals::field_text;
use dbe_config::{Compound, Config, Constructor, ConstructorPart, Part};
use dbe_num::{Memory, Text};
use dbe_values::Item;
use std::alloc::Global;

// The compound of a name.
pub(crate) fn compound_named<'a>(config: &'a Config, name: &Text) -> Option<&'a Compound>
    ensures named { option_map (λ c. c.now) result ≡ compound_named config.now name.now }
    ensures bounds { IfSome result (λ c. HasBytes 1 245 c.now.name × (c.now.split ≤ 126)) }
{
    config.keeps_bounds();
    first_named(config.compounds(), name)
}

fn first_named<'a>(compounds: &'a [Compound], name: &Text) -> Option<&'a Compound>
    requires { All (λ c. HasBytes 1 245 c.name × (c.split ≤ 126)) compounds.now }
    ensures named { option_map (λ c. c.now) result ≡ find (λ c. bytes_eq name.now c.name) compounds.now }
    ensures bounds { IfSome result (λ c. HasBytes 1 245 c.now.name × (c.now.split ≤ 126)) }
{
    for compound in compounds {
        if name.as_bytes() == compound.name.as_bytes() {
            return Some(compound);
        }
    }
    None
}

fn part_text(
    alloc: Global,
    config: &Config,
    part: &Part,
    item: &Item,
) -> Result<Option<Text>, Memory>
    ensures { IfOk result (λ o. o ≡ part_text config.now item.now part.now) }
{
    if part.encrypted {
        field_text(alloc, config, &part.from, item)
    } else {
        attribute_text(alloc, &part.from, item)
    }
}

// The text of each part, where it is present.
pub(crate) fn part_texts(
    alloc: Global,
    config: &Config,
    parts: &[Part],
    item: &Item,
) -> Result<Vec<Option<Text>>, Memory>
    ensures { IfOk result (λ v. v.items ≡ map (part_text config.now item.now) parts.now) }
{
    let mut texts = Vec::new(alloc);
    for part in parts {
        texts.push(part_text(alloc, config, part, item)?)?;
    }
    Ok(texts)
}

// The part that an entry names with its text, where it is present.
pub(crate) fn present<'a, 'b>(
    parts: &'a [Part],
    texts: &'b [Option<Text>],
    entry: &ConstructorPart,
) -> Option<(&'a Part, &'b Text)>
    ensures { option_map (λ u. (u.0.now, u.1.now)) result ≡ present parts.now texts.now entry.now }
{
    match (parts.get(entry.part), texts.get(entry.part)) {
        (Some(part), Some(Some(text))) => Some((part, text)),
        _ => None,
    }
}

fn is_usable(parts: &[Part], texts: &[Option<Text>], entries: &[ConstructorPart]) -> bool
    ensures { result ≡ list_all (is_satisfied parts.now texts.now) entries.now }
{
    for entry in entries {
        if entry.required && present(parts, texts, entry).is_none() {
            return false;
        }
    }
    true
}

// The first constructor whose required parts are all present.
pub(crate) fn first_usable<'a>(
    parts: &[Part],
    texts: &[Option<Text>],
    constructors: &'a [Constructor],
) -> Option<&'a Constructor>
    ensures { option_map (λ k. k.now) result ≡ find (is_usable parts.now texts.now) constructors.now }
{
    for constructor in constructors {
        if is_usable(parts, texts, constructor.parts.as_slice()) {
            return Some(constructor);
        }
    }
    None
}

fn push_piece(
    text: &mut String,
    gap: bool,
    split: u8,
    part: &Part,
    value: &Text,
) -> Result<(), Memory>
    requires { split ≤ 126 }
    ensures { OnOk result (string_bytes text.new ≡ string_bytes text.old ++ ((if gap then split ∷ [] else []) ++ (part.now.prefix ++ value.now))) }
{
    if gap {
        text.push(char::from(split))?;
    }
    text.push_str(part.prefix.as_str())?;
    text.push_str(value.as_str())?;
    Ok(())
}

// Prefix and text of each present part, joined by the split character.
fn joined_pieces(
    alloc: Global,
    split: u8,
    parts: &[Part],
    texts: &[Option<Text>],
    entries: &[ConstructorPart],
) -> Result<Text, Memory>
    requires { split ≤ 126 }
    ensures { IfOk result (λ t. t ≡ joined_pieces split (filter_map (present parts.now texts.now) entries.now)) }
{
    let mut text = String::new(alloc);
    let mut gap = false;
    for entry in entries {
        match present(parts, texts, entry) {
            Some((part, value)) => {
                push_piece(&mut text, gap, split, part, value)?;
                gap = true;
            }
            None => {}
        }
    }
    Ok(Text::from_string(text))
}

// The text of a compound over an item, where there is one.
pub(crate) fn compound_text(
    alloc: Global,
    config: &Config,
    compound: &Compound,
    item: &Item,
) -> Result<Option<Text>, Memory>
    requires { compound.now.split ≤ 126 }
    ensures { IfOk result (λ o. o ≡ compound_text config.now item.now compound.now) }
{
    let parts = compound.parts.as_slice();
    let texts = part_texts(alloc, config, parts, item)?;
    match first_usable(parts, &texts, compound.constructors.as_slice()) {
        Some(constructor) => Ok(Some(joined_pieces(
            alloc,
            compound.split,
            parts,
            &texts,
            constructor.parts.as_slice(),
        )?)),
        None => Ok(None),
    }
}
