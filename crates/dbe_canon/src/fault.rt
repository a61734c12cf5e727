ghost use Rattle.std.specs.Prelude.{◌≡◌};
ghost use Rattle.dbe_canon.specs.declared.fault.CanonFault.TheVariants as fault;

use std::alloc::{AllocError, AllocFailed};

/// Why bytes were not read.
#[derive(Clone, Copy, Debug, PartialEq, Eq)]
pub enum CanonFault {
    /// No value has this id and these canonical bytes.
    NotCanonical,
    /// Memory ran out.
    Memory,
}

impl From<dbe_num::Memory> for CanonFault {
    ghost from_gives = { λ _ e. e ≡ fault.Memory };

    fn from(_: dbe_num::Memory) -> CanonFault {
        CanonFault::Memory
    }
}

impl From<AllocError> for CanonFault {
    ghost from_gives = { λ _ e. e ≡ fault.Memory };

    fn from(_: AllocError) -> CanonFault {
        CanonFault::Memory
    }
}

impl<T: Drop> From<AllocFailed<T>> for CanonFault {
    ghost from_gives = { λ _ e. e ≡ fault.Memory };

    fn from(_: AllocFailed<T>) -> CanonFault {
        CanonFault::Memory
    }
}
