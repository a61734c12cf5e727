ghost use Rattle.std.specs.Prelude.{◌≡◌, IfOk};

use crate::Operand;
use dbe_num::{Memory, Text};
use dbe_tokens::Op;
use sqlite_items::{Boxed, Items};
use std::alloc::Global;

/// A condition on an item.
#[derive(Drop)]
pub enum Cond {
    /// How two operands compare.
    Compare {
        left: Operand,
        op: Op,
        right: Operand,
    },
    /// Whether a value is from `low` to `high`.
    Between {
        value: Operand,
        low: Operand,
        high: Operand,
    },
    /// Whether a value is one of a list, which has one member or more.
    In {
        value: Operand,
        list: Items<Operand>,
    },
    /// Whether an attribute's value begins with `front`.
    BeginsWith {
        name: Text,
        front: Operand,
    },
    /// Whether an attribute is there.
    Exists {
        name: Text,
    },
    /// Whether an attribute is absent.
    NotExists {
        name: Text,
    },
    /// Whether a condition does not hold.
    Not(Boxed<Cond>),
    /// Whether all hold. There are two or more.
    And(Items<Cond>),
    /// Whether one holds or more. There are two or more.
    Or(Items<Cond>),
}

impl Cond {
    /// An equal condition.
    pub fn copy(&self, alloc: Global) -> Result<Cond, Memory>
        ensures { IfOk result (λ c. c ≡ self.now) }
    {
        copy_cond(alloc, self)
    }
}

#[cycle(copy)]
fn copy_cond(alloc: Global, cond: &Cond) -> Result<Cond, Memory>
    ensures { IfOk result (λ c. c ≡ cond.now) }
{
    match cond {
        Cond::Compare { left, op, right } => Ok(Cond::Compare {
            left: left.copy(alloc)?,
            op: *op,
            right: right.copy(alloc)?,
        }),
        Cond::Between { value, low, high } => Ok(Cond::Between {
            value: value.copy(alloc)?,
            low: low.copy(alloc)?,
            high: high.copy(alloc)?,
        }),
        Cond::In { value, list } => Ok(Cond::In {
            value: value.copy(alloc)?,
            list: copy_operands(alloc, list.as_slice())?,
        }),
        Cond::BeginsWith { name, front } => Ok(Cond::BeginsWith {
            name: name.copy(alloc)?,
            front: front.copy(alloc)?,
        }),
        Cond::Exists { name } => Ok(Cond::Exists {
            name: name.copy(alloc)?,
        }),
        Cond::NotExists { name } => Ok(Cond::NotExists {
            name: name.copy(alloc)?,
        }),
        Cond::Not(inner) => {
            let inner = copy_cond(alloc, inner.get())?;
            Ok(Cond::Not(Boxed::new(alloc, inner)?))
        }
        Cond::And(members) => Ok(Cond::And(copy_conds(alloc, members.as_slice())?)),
        Cond::Or(members) => Ok(Cond::Or(copy_conds(alloc, members.as_slice())?)),
    }
}

#[cycle(copy)]
fn copy_conds(alloc: Global, conds: &[Cond]) -> Result<Items<Cond>, Memory>
    ensures { IfOk result (λ copies. copies ≡ conds.now) }
{
    let mut copies = Items::new(alloc);
    for cond in conds {
        copies.push(copy_cond(alloc, cond)?)?;
    }
    Ok(copies)
}

fn copy_operands(alloc: Global, operands: &[Operand]) -> Result<Items<Operand>, Memory>
    ensures { IfOk result (λ copies. copies ≡ operands.now) }
{
    let mut copies = Items::new(alloc);
    for operand in operands {
        copies.push(operand.copy(alloc)?)?;
    }
    Ok(copies)
}
