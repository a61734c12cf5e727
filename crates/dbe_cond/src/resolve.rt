ghost use Rattle.std.specs.Prelude.{◌≡◌, true, map, IfOk, is_some, unwrap_or};
ghost use Rattle.std.specs.List.{list_all};
ghost use Rattle.std.specs.Str.{IsUtf8};
ghost use Rattle.dbe_tokens.specs.declared.token.Operand.TheVariants as o;
ghost use Rattle.dbe_grammar.specs.Form.{form_of, members_of};
ghost use Rattle.dbe_grammar.specs.Leaves.{form_passes, forms_pass};
ghost use Rattle.dbe_cond.specs.Condition.{condition_of, members_of as conditions_of};
ghost use Rattle.dbe_cond.specs.Placeholders.{is_known};
ghost use Rattle.dbe_cond.specs.Resolved.{name_of, operand_of, resolved, all_resolved};

use crate::{Cond, Names, Operand, Values};
use dbe_grammar::Tree;
use dbe_num::{Memory, Text};
use dbe_tokens::{Name, bytes_in};
use sqlite_items::{Boxed, Items};
use std::alloc::Global;
use std::str;

/// The condition of a tree, with its names and placeholders resolved.
#[cycle(resolve)]
pub(crate) fn resolve(
    alloc: Global,
    text: &[u8],
    names: &Names,
    values: &Values,
    tree: &Tree,
) -> Result<Cond, Memory>
    requires { form_passes (is_known text.now names.now values.now) (form_of tree.now) ≡ true }
    ensures { IfOk result (λ c. condition_of c ≡ resolved text.now names.now values.now (form_of tree.now)) }
{
    match tree {
        Tree::Compare { left, op, right } => Ok(Cond::Compare {
            left: operand(alloc, text, names, values, *left)?,
            op: *op,
            right: operand(alloc, text, names, values, *right)?,
        }),
        Tree::Between { value, low, high } => Ok(Cond::Between {
            value: operand(alloc, text, names, values, *value)?,
            low: operand(alloc, text, names, values, *low)?,
            high: operand(alloc, text, names, values, *high)?,
        }),
        Tree::In { value, list } => Ok(Cond::In {
            value: operand(alloc, text, names, values, *value)?,
            list: operands(alloc, text, names, values, list.as_slice())?,
        }),
        Tree::BeginsWith { name, front } => Ok(Cond::BeginsWith {
            name: named(alloc, text, names, values, *name)?,
            front: operand(alloc, text, names, values, *front)?,
        }),
        Tree::Exists { name } => Ok(Cond::Exists {
            name: named(alloc, text, names, values, *name)?,
        }),
        Tree::NotExists { name } => Ok(Cond::NotExists {
            name: named(alloc, text, names, values, *name)?,
        }),
        Tree::Not(inner) => {
            let inner = resolve(alloc, text, names, values, inner.get())?;
            Ok(Cond::Not(Boxed::new(alloc, inner)?))
        }
        Tree::And(members) => Ok(Cond::And(resolve_all(
            alloc,
            text,
            names,
            values,
            members.as_slice(),
        )?)),
        Tree::Or(members) => Ok(Cond::Or(resolve_all(
            alloc,
            text,
            names,
            values,
            members.as_slice(),
        )?)),
    }
}

#[cycle(resolve)]
fn resolve_all(
    alloc: Global,
    text: &[u8],
    names: &Names,
    values: &Values,
    trees: &[Tree],
) -> Result<Items<Cond>, Memory>
    requires { forms_pass (is_known text.now names.now values.now) (members_of trees.now) ≡ true }
    ensures { IfOk result (λ conds. conditions_of conds ≡ all_resolved text.now names.now values.now (members_of trees.now)) }
{
    let mut conds = Items::new(alloc);
    for tree in trees {
        conds.push(resolve(alloc, text, names, values, tree)?)?;
    }
    Ok(conds)
}

fn operands(
    alloc: Global,
    text: &[u8],
    names: &Names,
    values: &Values,
    list: &[dbe_tokens::Operand],
) -> Result<Items<Operand>, Memory>
    requires { list_all (is_known text.now names.now values.now) list.now ≡ true }
    ensures { IfOk result (λ found. found ≡ map (operand_of text.now names.now values.now) list.now) }
{
    let mut found = Items::new(alloc);
    for a in list {
        found.push(operand(alloc, text, names, values, *a)?)?;
    }
    Ok(found)
}

fn operand(
    alloc: Global,
    text: &[u8],
    names: &Names,
    values: &Values,
    a: dbe_tokens::Operand,
) -> Result<Operand, Memory>
    requires { is_known text.now names.now values.now a ≡ true }
    ensures { IfOk result (λ found. found ≡ operand_of text.now names.now values.now a) }
{
    match a {
        dbe_tokens::Operand::Name(name) => {
            Ok(Operand::Name(named(alloc, text, names, values, name)?))
        }
        dbe_tokens::Operand::Value(span) => match values.get_bytes(bytes_in(text, span)) {
            Some(value) => Ok(Operand::Value(value.copy(alloc)?)),
            None => unreachable!(),
        },
    }
}

fn named(
    alloc: Global,
    text: &[u8],
    names: &Names,
    values: &Values,
    name: Name,
) -> Result<Text, Memory>
    requires { is_known text.now names.now values.now (o.Name name) ≡ true }
    ensures { IfOk result (λ found. found ≡ name_of text.now names.now name) }
{
    match name {
        Name::Word(span) => copy_text(alloc, bytes_in(text, span)),
        Name::Placeholder(span) => match names.get_bytes(bytes_in(text, span)) {
            Some(given) => given.copy(alloc),
            None => unreachable!(),
        },
    }
}

/// A copy of bytes that are a text.
pub(crate) fn copy_text(alloc: Global, bytes: &[u8]) -> Result<Text, Memory>
    requires { IsUtf8 bytes.now }
    ensures { IfOk result (λ t. t ≡ bytes.now) }
{
    match str::from_utf8(bytes) {
        Ok(text) => Text::copy_of(alloc, text),
        Err(_) => unreachable!(),
    }
}
