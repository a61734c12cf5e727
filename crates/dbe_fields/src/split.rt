ghost use Rattle.std.specs.Prelude.{◌≡◌, IfOk, option_map, find, filter_map};
ghost use Rattle.dbe_config.specs.Rules.{has_byte};
ghost use Rattle.dbe_fields.specs.Compounds.{present};
ghost use Rattle.dbe_fields.specs.Split.{split_in, split_at};

use crate::compounds::{first_usable, part_texts, present};
use dbe_config::{Compound, Config, ConstructorPart, Part};
use dbe_num::{Memory, Text};
use dbe_values::Item;
use std::alloc::Global;

/// A part of a compound whose text has the split character.
#[derive(Drop)]
pub struct SplitAt {
    /// The name of the compound.
    pub beacon: Text,
    /// The name of the part.
    pub part: Text,
}

/// The first compound, and in it the first used part, whose text has the split character.
///
/// Compounds stand in the order of the configuration, and used parts in that of their constructor.
#[tactic(auto, unfolding(crate::specs::Split::split_at))]
pub fn split_fault(alloc: Global, config: &Config, item: &Item) -> Result<Option<SplitAt>, Memory>
    ensures { IfOk result (λ o. option_map (λ a. (a.beacon, a.part)) o ≡ split_at config.now item.now) }
{
    for compound in config.compounds() {
        if let Some(fault) = split_in(alloc, config, compound, item)? {
            return Ok(Some(fault));
        }
    }
    Ok(None)
}

fn split_in(
    alloc: Global,
    config: &Config,
    compound: &Compound,
    item: &Item,
) -> Result<Option<SplitAt>, Memory>
    ensures { IfOk result (λ o. option_map (λ a. (a.beacon, a.part)) o ≡ split_in config.now item.now compound.now) }
{
    let parts = compound.parts.as_slice();
    let texts = part_texts(alloc, config, parts, item)?;
    let Some(constructor) = first_usable(parts, &texts, compound.constructors.as_slice()) else {
        return Ok(None);
    };
    match first_split(compound.split, parts, &texts, constructor.parts.as_slice()) {
        Some(part) => Ok(Some(SplitAt {
            beacon: compound.name.copy(alloc)?,
            part: part.name.copy(alloc)?,
        })),
        None => Ok(None),
    }
}

// The first present part whose text has the split character.
fn first_split<'a>(
    split: u8,
    parts: &'a [Part],
    texts: &[Option<Text>],
    entries: &[ConstructorPart],
) -> Option<&'a Part>
    ensures { option_map (λ p. p.now) result ≡ option_map (λ u. u.0) (find (λ u. has_byte split u.1) (filter_map (present parts.now texts.now) entries.now)) }
{
    for entry in entries {
        match present(parts, texts, entry) {
            Some((part, text)) => {
                if has_byte(split, text) {
                    return Some(part);
                }
            }
            None => {}
        }
    }
    None
}

fn has_byte(byte: u8, text: &Text) -> bool
    ensures { result ≡ has_byte byte text.now }
{
    text.as_bytes().contains(&byte)
}
