ghost use Rattle.std.specs.Prelude.{◌≡◌};
ghost use Rattle.dbe_frame.specs.declared.fault.FrameFault.TheVariants as fault;

use std::alloc::{AllocError, AllocFailed};

/// Why bytes are no header or no footer.
#[derive(Clone, Copy, Debug, PartialEq, Eq)]
pub enum FrameFault {
    /// The bytes are no header. At this offset begins the first field that is cut short or breaks its rule, or
    /// stands the first byte after the commitment.
    HeaderFault { at: u64 },
    /// The bytes are not 48 for each data key.
    FooterLength,
    /// Memory ran out.
    Memory,
}

impl From<dbe_num::Memory> for FrameFault {
    ghost from_gives = { λ _ e. e ≡ fault.Memory };

    fn from(_: dbe_num::Memory) -> FrameFault {
        FrameFault::Memory
    }
}

impl From<AllocError> for FrameFault {
    ghost from_gives = { λ _ e. e ≡ fault.Memory };

    fn from(_: AllocError) -> FrameFault {
        FrameFault::Memory
    }
}

impl<T: Drop> From<AllocFailed<T>> for FrameFault {
    ghost from_gives = { λ _ e. e ≡ fault.Memory };

    fn from(_: AllocFailed<T>) -> FrameFault {
        FrameFault::Memory
    }
}
