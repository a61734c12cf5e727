ghost use Rattle.std.specs.Prelude.{◌≡◌, option_map};
ghost use Rattle.std.specs.List.{list_any};
ghost use Rattle.dbe_cond.specs.Condition.{condition_of, members_of};
ghost use Rattle.dbe_cond.specs.Meaning.{value_of, both_pass, order_between, compares, value_begins, holds, all_hold, one_holds};
ghost use Rattle.dbe_values.specs.Attributes.{equal};

use crate::{Cond, Op, Operand};
use dbe_values::{AttrValue, Item, equal, order};
use std::cmp::Ordering;

/// Whether a condition holds of an item. Takes no memory.
///
/// What is absent is equal to nothing and ordered with nothing: of an absent name `<>` and `attribute_not_exists` hold, and
/// the other tests do not.
#[cycle(holds)]
pub fn holds(cond: &Cond, item: &Item) -> bool
    ensures { result ≡ holds (condition_of cond.now) item.now }
{
    match cond {
        Cond::Compare { left, op, right } => {
            compares(*op, value_of(left, item), value_of(right, item))
        }
        Cond::Between { value, low, high } => {
            let value = value_of(value, item);
            compares(Op::Ge, value, value_of(low, item))
                && compares(Op::Le, value, value_of(high, item))
        }
        Cond::In { value, list } => is_among(value_of(value, item), list.as_slice(), item),
        Cond::BeginsWith { name, front } => {
            begins_with(item.get(name.as_str()), value_of(front, item))
        }
        Cond::Exists { name } => item.get(name.as_str()).is_some(),
        Cond::NotExists { name } => item.get(name.as_str()).is_none(),
        Cond::Not(inner) => !holds(inner.get(), item),
        Cond::And(members) => all_hold(members.as_slice(), item),
        Cond::Or(members) => one_holds(members.as_slice(), item),
    }
}

#[cycle(holds)]
fn all_hold(members: &[Cond], item: &Item) -> bool
    ensures { result ≡ all_hold (members_of members.now) item.now }
{
    for member in members {
        if !holds(member, item) {
            return false;
        }
    }
    true
}

#[cycle(holds)]
fn one_holds(members: &[Cond], item: &Item) -> bool
    ensures { result ≡ one_holds (members_of members.now) item.now }
{
    for member in members {
        if holds(member, item) {
            return true;
        }
    }
    false
}

fn value_of<'a>(operand: &'a Operand, item: &'a Item) -> Option<&'a AttrValue>
    ensures { option_map (λ v. v.now) result ≡ value_of operand.now item.now }
{
    match operand {
        Operand::Name(name) => item.get(name.as_str()),
        Operand::Value(value) => Some(value),
    }
}

fn compares(op: Op, a: Option<&AttrValue>, b: Option<&AttrValue>) -> bool
    ensures { result ≡ compares op (option_map (λ v. v.now) a.entry) (option_map (λ v. v.now) b.entry) }
{
    match op {
        Op::Eq => are_equal(a, b),
        Op::Ne => !are_equal(a, b),
        Op::Lt => order_between(a, b).is_some_and(|order| order.is_lt()),
        Op::Le => order_between(a, b).is_some_and(|order| order.is_le()),
        Op::Gt => order_between(a, b).is_some_and(|order| order.is_gt()),
        Op::Ge => order_between(a, b).is_some_and(|order| order.is_ge()),
    }
}

fn are_equal(a: Option<&AttrValue>, b: Option<&AttrValue>) -> bool
    ensures { result ≡ both_pass equal (option_map (λ v. v.now) a.entry) (option_map (λ v. v.now) b.entry) }
{
    match (a, b) {
        (Some(a), Some(b)) => equal(a, b),
        _ => false,
    }
}

fn order_between(a: Option<&AttrValue>, b: Option<&AttrValue>) -> Option<Ordering>
    ensures { result ≡ order_between (option_map (λ v. v.now) a.entry) (option_map (λ v. v.now) b.entry) }
{
    match (a, b) {
        (Some(a), Some(b)) => order(a, b),
        _ => None,
    }
}

fn is_among(value: Option<&AttrValue>, list: &[Operand], item: &Item) -> bool
    ensures { result ≡ list_any (λ a. compares Op.Eq (option_map (λ v. v.now) value.entry) (value_of a item.now)) list.now }
{
    for operand in list {
        if are_equal(value, value_of(operand, item)) {
            return true;
        }
    }
    false
}

fn begins_with(value: Option<&AttrValue>, front: Option<&AttrValue>) -> bool
    ensures { result ≡ both_pass value_begins (option_map (λ v. v.now) value.entry) (option_map (λ v. v.now) front.entry) }
{
    match (value, front) {
        (Some(AttrValue::S(text)), Some(AttrValue::S(front))) => {
            text.as_bytes().starts_with(front.as_bytes())
        }
        (Some(AttrValue::B(bytes)), Some(AttrValue::B(front))) => {
            bytes.as_slice().starts_with(front.as_slice())
        }
        _ => false,
    }
}
