use std::alloc::{AllocError, AllocFailed};

/// Why no condition was read.
#[derive(Clone, Copy, Debug, PartialEq, Eq)]
pub enum ParseFault {
    Memory,
    /// No condition has these tokens. `at` counts the tokens before the first with which the tokens up to it begin
    /// no condition; it is the number of tokens where all of them begin one.
    Syntax { at: usize },
}

/// Why a part was not read.
#[derive(Clone, Copy, Debug)]
pub(crate) enum Stop {
    Memory,
    /// How many tokens are left, the one that does not fit counted too.
    Misfit(usize),
}

impl From<AllocError> for Stop {
    ghost use Rattle.std.specs.Prelude.{◌≡◌};
    ghost use Rattle.dbe_grammar.specs.declared.fault.Stop.TheVariants.{Memory};

    ghost from_gives = { λ _ e. e ≡ Memory };

    fn from(_: AllocError) -> Stop {
        Stop::Memory
    }
}

impl<T: Drop> From<AllocFailed<T>> for Stop {
    ghost use Rattle.std.specs.Prelude.{◌≡◌};
    ghost use Rattle.dbe_grammar.specs.declared.fault.Stop.TheVariants.{Memory};

    ghost from_gives = { λ _ e. e ≡ Memory };

    fn from(_: AllocFailed<T>) -> Stop {
        Stop::Memory
    }
}
