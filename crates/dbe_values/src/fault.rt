ghost use Rattle.std.specs.Prelude.{◌≡◌};
ghost use Rattle.dbe_values.specs.declared.fault.ValueFault.TheVariants as fault;

use dbe_num::Text;
use std::alloc::{AllocError, AllocFailed};

/// Why a JSON value spells no value.
#[derive(Clone, Copy, Debug, PartialEq, Eq)]
pub enum ValueFault {
    /// It has a wrong form.
    Shape,
    /// The text of a number is no number, or one that does not fit.
    BadNumber,
    /// The text of a binary is no base64 with padding.
    BadBase64,
    /// A set has no elements.
    EmptySet,
    /// An element of a set is equal to one before it.
    DoubledElement,
    /// A list or a map stands in 32 others.
    TooDeep,
    /// The name of an attribute does not have 1 to 255 bytes.
    BadName,
    /// Memory ran out.
    Memory,
}

impl From<dbe_num::Memory> for ValueFault {
    ghost from_gives = { λ _ e. e ≡ fault.Memory };

    fn from(_: dbe_num::Memory) -> ValueFault {
        ValueFault::Memory
    }
}

impl From<AllocError> for ValueFault {
    ghost from_gives = { λ _ e. e ≡ fault.Memory };

    fn from(_: AllocError) -> ValueFault {
        ValueFault::Memory
    }
}

impl<T: Drop> From<AllocFailed<T>> for ValueFault {
    ghost from_gives = { λ _ e. e ≡ fault.Memory };

    fn from(_: AllocFailed<T>) -> ValueFault {
        ValueFault::Memory
    }
}

/// Why a JSON value spells no item.
#[derive(Debug, Drop)]
pub enum ItemFault {
    /// It is no object.
    NotObject,
    /// The first attribute with a fault. Where memory ran out, the name is empty.
    At { name: Text, why: ValueFault },
}
