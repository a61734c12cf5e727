ghost use Rattle.std.specs.Prelude.{◌≡◌, IfOk};

use dbe_num::{Memory, Text};
use dbe_values::AttrValue;
use std::alloc::Global;

/// What a condition compares.
#[derive(Drop)]
pub enum Operand {
    /// The value of the attribute of this name, which an item may lack.
    Name(Text),
    /// This value.
    Value(AttrValue),
}

impl Operand {
    /// An equal operand.
    pub fn copy(&self, alloc: Global) -> Result<Operand, Memory>
        ensures { IfOk result (λ o. o ≡ self.now) }
    {
        match self {
            Operand::Name(name) => Ok(Operand::Name(name.copy(alloc)?)),
            Operand::Value(value) => Ok(Operand::Value(value.copy(alloc)?)),
        }
    }
}
