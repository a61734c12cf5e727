//! What a configuration lends.

use crate::fields;
use crate::texts::{push, shown};
use dbe_config::{Compound, Config, Constructor, Part, TextStep, Virtual, VirtualPart};
use dbe_num::{Memory, Text};
use dbe_values::KeyName;
use std::alloc::{AllocError, Global};

/// The answer to a case under a configuration.
pub(crate) fn answer(
    alloc: Global,
    out: &mut String,
    config: &Config,
    kind: &str,
    case: &str,
) -> Result<(), Memory> {
    match kind {
        "action" => action(alloc, out, config, case),
        "computed" => fields::computed(alloc, out, config, case),
        "lent-by-copy" => lent_by_copy(alloc, out, config),
        _ => lent(out, config),
    }
}

fn action(alloc: Global, out: &mut String, config: &Config, case: &str) -> Result<(), Memory> {
    let name = Text::copy_of(alloc, case)?;
    push_action(out, config, &name)
}

fn push_action(out: &mut String, config: &Config, name: &Text) -> Result<(), Memory> {
    let (action, is_unsigned) = (config.action(name), config.is_unsigned(name));
    write!(out, "{action:?} {is_unsigned}")?;
    Ok(())
}

fn lent_by_copy(alloc: Global, out: &mut String, config: &Config) -> Result<(), Memory> {
    let copy = config.copy(alloc)?;
    lent(out, &copy)
}

// All that a configuration lends, but for the actions of names.
fn lent(out: &mut String, config: &Config) -> Result<(), Memory> {
    push(out, config.table().as_str())?;
    push_keys(out, config)?;
    push_context(out, config)?;
    push_virtuals(out, config)?;
    push_beacons(out, config)?;
    push_compounds(out, config)?;
    push_last(out, config)
}

fn push_keys(out: &mut String, config: &Config) -> Result<(), Memory> {
    push_key(out, &config.schema().partition)?;
    match &config.schema().sort {
        Some(sort) => push_key(out, sort),
        None => Ok(()),
    }
}

fn push_key(out: &mut String, key: &KeyName) -> Result<(), Memory> {
    write!(out, " | key {} {:?}", key.name.as_str(), key.kind)?;
    Ok(())
}

fn push_context(out: &mut String, config: &Config) -> Result<(), Memory> {
    for pair in config.context() {
        let (key, value) = (pair.key.as_str(), pair.value.as_str());
        write!(out, " | context {key} {value}")?;
    }
    Ok(())
}

fn push_virtuals(out: &mut String, config: &Config) -> Result<(), Memory> {
    for field in config.virtuals() {
        push_virtual(out, field)?;
    }
    Ok(())
}

fn push_virtual(out: &mut String, field: &Virtual) -> Result<(), Memory> {
    write!(out, " | virtual {}", field.name.as_str())?;
    for part in field.parts.as_slice() {
        push_virtual_part(out, part)?;
    }
    Ok(())
}

fn push_virtual_part(out: &mut String, part: &VirtualPart) -> Result<(), Memory> {
    write!(out, " from {}", part.from.as_str())?;
    for step in part.steps.as_slice() {
        push_step(out, step)?;
    }
    Ok(())
}

fn push_step(out: &mut String, step: &TextStep) -> Result<(), AllocError> {
    match step {
        TextStep::Upper => out.push_str(" upper"),
        TextStep::Lower => out.push_str(" lower"),
        TextStep::Insert(text) => write!(out, " insert {}", text.as_str()),
        TextStep::Prefix(n) => write!(out, " prefix {n}"),
        TextStep::Suffix(n) => write!(out, " suffix {n}"),
        TextStep::Substring(a, b) => write!(out, " substring {a} {b}"),
        TextStep::Segment(c, i) => write!(out, " segment {c} {i}"),
        TextStep::Segments(c, a, b) => write!(out, " segments {c} {a} {b}"),
    }
}

fn push_beacons(out: &mut String, config: &Config) -> Result<(), Memory> {
    for beacon in config.beacons() {
        write!(out, " | beacon {} {}", beacon.name.as_str(), beacon.length)?;
    }
    Ok(())
}

fn push_compounds(out: &mut String, config: &Config) -> Result<(), Memory> {
    for compound in config.compounds() {
        push_compound(out, compound)?;
    }
    Ok(())
}

fn push_compound(out: &mut String, compound: &Compound) -> Result<(), Memory> {
    write!(
        out,
        " | compound {} {}",
        compound.name.as_str(),
        compound.split
    )?;
    for part in compound.parts.as_slice() {
        push_part(out, part)?;
    }
    for constructor in compound.constructors.as_slice() {
        push_constructor(out, constructor)?;
    }
    Ok(())
}

fn push_part(out: &mut String, part: &Part) -> Result<(), Memory> {
    write!(out, " part {} {}", part.name.as_str(), part.prefix.as_str())?;
    write!(out, " {} {}", part.encrypted, part.from.as_str())?;
    Ok(())
}

fn push_constructor(out: &mut String, constructor: &Constructor) -> Result<(), Memory> {
    push(out, " constructor")?;
    for entry in constructor.parts.as_slice() {
        write!(out, " {} {}", entry.part, entry.required)?;
    }
    Ok(())
}

fn push_last(out: &mut String, config: &Config) -> Result<(), Memory> {
    push(out, " | branch ")?;
    match config.beacon_branch() {
        Some(branch) => push(out, shown(branch.as_bytes()))?,
        None => push(out, "none")?,
    }
    push_tests(out, config)
}

fn push_tests(out: &mut String, config: &Config) -> Result<(), Memory> {
    let (count, plain, beacons) = (
        config.recipients().len(),
        config.is_plain(),
        config.has_beacons(),
    );
    write!(out, " recipients {count} plain {plain} beacons {beacons}")?;
    Ok(())
}
