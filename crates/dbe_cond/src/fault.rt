use dbe_num::{Memory, Text};
use std::alloc::{AllocError, AllocFailed};

/// Why a text was not read as a condition. Where several hold, the first of this order is answered.
#[derive(Debug, Drop)]
pub enum CondFault {
    /// The text has more than 4,096 bytes.
    TooLong,
    /// At this byte, the first of its kind, no token begins.
    BadToken { at: usize },
    /// At some token more than 64 parentheses stand open, or there are more than 64 NOT.
    TooDeep,
    /// No condition has these tokens. `at` is the offset of the first token with which the tokens up to it begin no
    /// condition, or the text's length.
    Syntax { at: usize },
    /// A list of IN has more than 100 members.
    TooManyOperands,
    /// The first placeholder of a name in the text that is not given, its `#` included.
    UnknownName { name: Text },
    /// The first placeholder of a value in the text that is not given, its `:` included.
    UnknownValue { name: Text },
    Memory,
}

impl From<Memory> for CondFault {
    ghost use Rattle.std.specs.Prelude.{◌≡◌};
    ghost use Rattle.dbe_cond.specs.declared.fault.CondFault.TheVariants.{Memory};

    ghost from_gives = { λ _ e. e ≡ Memory };

    fn from(_: Memory) -> CondFault {
        CondFault::Memory
    }
}

impl From<AllocError> for CondFault {
    ghost use Rattle.std.specs.Prelude.{◌≡◌};
    ghost use Rattle.dbe_cond.specs.declared.fault.CondFault.TheVariants.{Memory};

    ghost from_gives = { λ _ e. e ≡ Memory };

    fn from(_: AllocError) -> CondFault {
        CondFault::Memory
    }
}

impl<T: Drop> From<AllocFailed<T>> for CondFault {
    ghost use Rattle.std.specs.Prelude.{◌≡◌};
    ghost use Rattle.dbe_cond.specs.declared.fault.CondFault.TheVariants.{Memory};

    ghost from_gives = { λ _ e. e ≡ Memory };

    fn from(_: AllocFailed<T>) -> CondFault {
        CondFault::Memory
    }
}
