ghost use Rattle.std.specs.Prelude.{◌≡◌, IfOk};
ghost use Rattle.std.specs.List.{list_any};
ghost use Rattle.dbe_config.specs.Rules.{names_entry_twice, names_part_twice, clashes, clashes_with_any, has_prefix_clash, has_byte, has_wrong_split, has_none_required, is_empty_compound};

use crate::named::is_twice;
use crate::{Compound, Constructor, ConstructorPart, Part};
use dbe_num::Memory;
use std::alloc::Global;

fn names_any_entry_twice(alloc: Global, constructors: &[Constructor]) -> Result<bool, Memory>
    ensures { IfOk result (λ b. b ≡ list_any names_entry_twice constructors.now) }
{
    for constructor in constructors {
        if is_twice(alloc, constructor.parts.as_slice())? {
            return Ok(true);
        }
    }
    Ok(false)
}

fn names_part_twice(alloc: Global, compound: &Compound) -> Result<bool, Memory>
    ensures { IfOk result (λ b. b ≡ names_part_twice compound.now) }
{
    if is_twice(alloc, compound.parts.as_slice())? {
        return Ok(true);
    }
    names_any_entry_twice(alloc, compound.constructors.as_slice())
}

// Two parts of one name in a compound, or a part twice in a constructor.
pub(crate) fn names_any_part_twice(alloc: Global, compounds: &[Compound]) -> Result<bool, Memory>
    ensures { IfOk result (λ b. b ≡ list_any names_part_twice compounds.now) }
{
    for compound in compounds {
        if names_part_twice(alloc, compound)? {
            return Ok(true);
        }
    }
    Ok(false)
}

// Whether the prefix of one part begins the prefix of another.
fn clashes(part: &Part, other: &Part) -> bool
    ensures { result ≡ clashes part.now other.now }
{
    part.name.as_bytes() != other.name.as_bytes()
        && other.prefix.as_bytes().starts_with(part.prefix.as_bytes())
}

fn begins_another(part: &Part, parts: &[Part]) -> bool
    ensures { result ≡ list_any (clashes part.now) parts.now }
{
    parts.iter().any(|other| clashes(part, other))
}

fn clashes_with_any(parts: &[Part], part: &Part) -> bool
    ensures { result ≡ clashes_with_any parts.now part.now }
{
    part.prefix.as_bytes().is_empty() || begins_another(part, parts)
}

fn has_prefix_clash(compound: &Compound) -> bool
    ensures { result ≡ has_prefix_clash compound.now }
{
    let parts = compound.parts.as_slice();
    parts.iter().any(|part| clashes_with_any(parts, part))
}

pub(crate) fn has_any_prefix_clash(compounds: &[Compound]) -> bool
    ensures { result ≡ list_any has_prefix_clash compounds.now }
{
    compounds.iter().any(|compound| has_prefix_clash(compound))
}

fn has_byte(b: u8, text: &[u8]) -> bool
    ensures { result ≡ has_byte b text.now }
{
    text.iter().any(|x| *x == b)
}

fn holds_split(split: u8, parts: &[Part]) -> bool
    ensures { result ≡ list_any (λ p. has_byte split p.prefix) parts.now }
{
    parts
        .iter()
        .any(|part| has_byte(split, part.prefix.as_bytes()))
}

fn has_wrong_split(compound: &Compound) -> bool
    ensures { result ≡ has_wrong_split compound.now }
{
    compound.split == 0 || holds_split(compound.split, compound.parts.as_slice())
}

pub(crate) fn has_any_wrong_split(compounds: &[Compound]) -> bool
    ensures { result ≡ list_any has_wrong_split compounds.now }
{
    compounds.iter().any(|compound| has_wrong_split(compound))
}

fn has_none_required(constructor: &Constructor) -> bool
    ensures { result ≡ has_none_required constructor.now }
{
    !has_required(constructor.parts.as_slice())
}

fn has_required(entries: &[ConstructorPart]) -> bool
    ensures { result ≡ list_any (λ e. e.required) entries.now }
{
    entries.iter().any(|entry| entry.required)
}

fn has_empty_constructor(constructors: &[Constructor]) -> bool
    ensures { result ≡ list_any has_none_required constructors.now }
{
    constructors
        .iter()
        .any(|constructor| has_none_required(constructor))
}

fn is_empty_compound(compound: &Compound) -> bool
    ensures { result ≡ is_empty_compound compound.now }
{
    if compound.parts.as_slice().is_empty() || compound.constructors.as_slice().is_empty() {
        return true;
    }
    has_empty_constructor(compound.constructors.as_slice())
}

pub(crate) fn has_empty_compound(compounds: &[Compound]) -> bool
    ensures { result ≡ list_any is_empty_compound compounds.now }
{
    compounds.iter().any(|compound| is_empty_compound(compound))
}
