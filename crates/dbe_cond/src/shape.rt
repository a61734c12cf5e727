ghost use Rattle.std.specs.Prelude.{◌≡◌, map, IfOk};
ghost use Rattle.dbe_grammar.specs.Form.{form_of, members_of as forms_of};
ghost use Rattle.dbe_cond.specs.Condition.{condition_of, members_of};
ghost use Rattle.dbe_cond.specs.Printed.{operand_shape, shape_of, all_shapes};

use crate::{Cond, Operand};
use dbe_grammar::Tree;
use dbe_num::Memory;
use dbe_tokens::{Name, Span};
use sqlite_items::{Boxed, Items};
use std::alloc::Global;

const NOWHERE: Span = Span { start: 0, end: 0 };

/// The tree of a condition, with a placeholder for each name and value.
#[cycle(shape)]
pub(crate) fn shape(alloc: Global, cond: &Cond) -> Result<Tree, Memory>
    ensures { IfOk result (λ tree. form_of tree ≡ shape_of (condition_of cond.now)) }
{
    match cond {
        Cond::Compare { left, op, right } => Ok(Tree::Compare {
            left: operand_shape(left),
            op: *op,
            right: operand_shape(right),
        }),
        Cond::Between { value, low, high } => Ok(Tree::Between {
            value: operand_shape(value),
            low: operand_shape(low),
            high: operand_shape(high),
        }),
        Cond::In { value, list } => Ok(Tree::In {
            value: operand_shape(value),
            list: operand_shapes(alloc, list.as_slice())?,
        }),
        Cond::BeginsWith { front, .. } => Ok(Tree::BeginsWith {
            name: Name::Placeholder(NOWHERE),
            front: operand_shape(front),
        }),
        Cond::Exists { .. } => Ok(Tree::Exists {
            name: Name::Placeholder(NOWHERE),
        }),
        Cond::NotExists { .. } => Ok(Tree::NotExists {
            name: Name::Placeholder(NOWHERE),
        }),
        Cond::Not(inner) => {
            let inner = shape(alloc, inner.get())?;
            Ok(Tree::Not(Boxed::new(alloc, inner)?))
        }
        Cond::And(members) => Ok(Tree::And(shapes(alloc, members.as_slice())?)),
        Cond::Or(members) => Ok(Tree::Or(shapes(alloc, members.as_slice())?)),
    }
}

#[cycle(shape)]
fn shapes(alloc: Global, conds: &[Cond]) -> Result<Items<Tree>, Memory>
    ensures { IfOk result (λ trees. forms_of trees ≡ all_shapes (members_of conds.now)) }
{
    let mut trees = Items::new(alloc);
    for cond in conds {
        trees.push(shape(alloc, cond)?)?;
    }
    Ok(trees)
}

fn operand_shapes(alloc: Global, list: &[Operand]) -> Result<Items<dbe_tokens::Operand>, Memory>
    ensures { IfOk result (λ found. found ≡ map operand_shape list.now) }
{
    let mut found = Items::new(alloc);
    for operand in list {
        found.push(operand_shape(operand))?;
    }
    Ok(found)
}

fn operand_shape(operand: &Operand) -> dbe_tokens::Operand
    ensures { result ≡ operand_shape operand.now }
{
    match operand {
        Operand::Name(_) => dbe_tokens::Operand::Name(Name::Placeholder(NOWHERE)),
        Operand::Value(_) => dbe_tokens::Operand::Value(NOWHERE),
    }
}
