use dbe_tokens::{Name, Op, Operand};
use sqlite_items::{Boxed, Items};

/// A condition on an item, its names and placeholders as ranges of the text.
#[derive(Debug, Drop)]
pub enum Tree {
    /// How two operands compare.
    Compare {
        left: Operand,
        op: Op,
        right: Operand,
    },
    /// Whether a value is from `low` to `high`.
    Between {
        value: Operand,
        low: Operand,
        high: Operand,
    },
    /// Whether a value is one of a list, which has one member or more.
    In {
        value: Operand,
        list: Items<Operand>,
    },
    /// Whether an attribute's value begins with `front`.
    BeginsWith {
        name: Name,
        front: Operand,
    },
    /// Whether an attribute is there.
    Exists {
        name: Name,
    },
    /// Whether an attribute is absent.
    NotExists {
        name: Name,
    },
    /// Whether a condition does not hold.
    Not(Boxed<Tree>),
    /// Whether all hold. There are two or more.
    And(Items<Tree>),
    /// Whether one holds or more. There are two or more.
    Or(Items<Tree>),
}
