ghost use Rattle.std.specs.Prelude.{◌≡◌, [], ◌∷◌, ◌++◌, OnOk};
ghost use Rattle.std.specs.List.{flat_map};
ghost use Rattle.dbe_cond.specs.Condition.{condition_of, members_of};
ghost use Rattle.dbe_cond.specs.Names.{operand_names, names_of, names_of_all};
ghost use Rattle.dbe_cond.specs.Values.{operand_values, values_of, values_of_all};

use crate::{Cond, Operand};
use dbe_num::{Memory, Text};
use dbe_values::AttrValue;
use std::alloc::Global;

/// Appends copies of a condition's names, in the order in which they stand in its text.
#[cycle(names)]
pub(crate) fn push_names(alloc: Global, out: &mut Vec<Text>, cond: &Cond) -> Result<(), Memory>
    ensures { OnOk result (out.new.items ≡ out.old.items ++ names_of (condition_of cond.now)) }
{
    match cond {
        Cond::Compare { left, right, .. } => {
            push_operand_name(alloc, out, left)?;
            push_operand_name(alloc, out, right)
        }
        Cond::Between { value, low, high } => {
            push_operand_name(alloc, out, value)?;
            push_operand_name(alloc, out, low)?;
            push_operand_name(alloc, out, high)
        }
        Cond::In { value, list } => {
            push_operand_name(alloc, out, value)?;
            push_list_names(alloc, out, list.as_slice())
        }
        Cond::BeginsWith { name, front } => {
            push_name(alloc, out, name)?;
            push_operand_name(alloc, out, front)
        }
        Cond::Exists { name } => push_name(alloc, out, name),
        Cond::NotExists { name } => push_name(alloc, out, name),
        Cond::Not(inner) => push_names(alloc, out, inner.get()),
        Cond::And(members) => push_members_names(alloc, out, members.as_slice()),
        Cond::Or(members) => push_members_names(alloc, out, members.as_slice()),
    }
}

#[cycle(names)]
fn push_members_names(alloc: Global, out: &mut Vec<Text>, members: &[Cond]) -> Result<(), Memory>
    ensures { OnOk result (out.new.items ≡ out.old.items ++ names_of_all (members_of members.now)) }
{
    for member in members {
        push_names(alloc, out, member)?;
    }
    Ok(())
}

fn push_list_names(alloc: Global, out: &mut Vec<Text>, list: &[Operand]) -> Result<(), Memory>
    ensures { OnOk result (out.new.items ≡ out.old.items ++ flat_map operand_names list.now) }
{
    for operand in list {
        push_operand_name(alloc, out, operand)?;
    }
    Ok(())
}

fn push_operand_name(alloc: Global, out: &mut Vec<Text>, operand: &Operand) -> Result<(), Memory>
    ensures { OnOk result (out.new.items ≡ out.old.items ++ operand_names operand.now) }
{
    match operand {
        Operand::Name(name) => push_name(alloc, out, name),
        Operand::Value(_) => Ok(()),
    }
}

fn push_name(alloc: Global, out: &mut Vec<Text>, name: &Text) -> Result<(), Memory>
    ensures { OnOk result (out.new.items ≡ out.old.items ++ name.now ∷ []) }
{
    out.push(name.copy(alloc)?)?;
    Ok(())
}

/// Appends copies of a condition's values, in the order in which they stand in its text.
#[cycle(values)]
pub(crate) fn push_values(
    alloc: Global,
    out: &mut Vec<AttrValue>,
    cond: &Cond,
) -> Result<(), Memory>
    ensures { OnOk result (out.new.items ≡ out.old.items ++ values_of (condition_of cond.now)) }
{
    match cond {
        Cond::Compare { left, right, .. } => {
            push_operand_value(alloc, out, left)?;
            push_operand_value(alloc, out, right)
        }
        Cond::Between { value, low, high } => {
            push_operand_value(alloc, out, value)?;
            push_operand_value(alloc, out, low)?;
            push_operand_value(alloc, out, high)
        }
        Cond::In { value, list } => {
            push_operand_value(alloc, out, value)?;
            push_list_values(alloc, out, list.as_slice())
        }
        Cond::BeginsWith { front, .. } => push_operand_value(alloc, out, front),
        Cond::Exists { .. } => Ok(()),
        Cond::NotExists { .. } => Ok(()),
        Cond::Not(inner) => push_values(alloc, out, inner.get()),
        Cond::And(members) => push_members_values(alloc, out, members.as_slice()),
        Cond::Or(members) => push_members_values(alloc, out, members.as_slice()),
    }
}

#[cycle(values)]
fn push_members_values(
    alloc: Global,
    out: &mut Vec<AttrValue>,
    members: &[Cond],
) -> Result<(), Memory>
    ensures { OnOk result (out.new.items ≡ out.old.items ++ values_of_all (members_of members.now)) }
{
    for member in members {
        push_values(alloc, out, member)?;
    }
    Ok(())
}

fn push_list_values(alloc: Global, out: &mut Vec<AttrValue>, list: &[Operand]) -> Result<(), Memory>
    ensures { OnOk result (out.new.items ≡ out.old.items ++ flat_map operand_values list.now) }
{
    for operand in list {
        push_operand_value(alloc, out, operand)?;
    }
    Ok(())
}

fn push_operand_value(
    alloc: Global,
    out: &mut Vec<AttrValue>,
    operand: &Operand,
) -> Result<(), Memory>
    ensures { OnOk result (out.new.items ≡ out.old.items ++ operand_values operand.now) }
{
    match operand {
        Operand::Name(_) => Ok(()),
        Operand::Value(value) => {
            out.push(value.copy(alloc)?)?;
            Ok(())
        }
    }
}
