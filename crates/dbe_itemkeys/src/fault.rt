ghost use Rattle.std.specs.Prelude.{◌≡◌};
ghost use Rattle.dbe_itemkeys.specs.declared.fault.FieldFault.TheVariants as fault;

use std::alloc::AllocError;

/// Why a stored field was not opened. The first whose cause holds is answered, in this order.
#[derive(Clone, Copy, Debug, PartialEq, Eq)]
pub enum FieldFault {
    /// Fewer than 18 bytes, or the first two name no type.
    Shape,
    /// The tag is not that of the ciphertext under the field's key and path.
    Tag,
    /// No value has this type and the deciphered bytes as its canonical bytes.
    NotCanonical,
    /// Memory ran out.
    Memory,
}

impl From<AllocError> for FieldFault {
    ghost from_gives = { λ _ e. e ≡ fault.Memory };

    fn from(_: AllocError) -> FieldFault {
        FieldFault::Memory
    }
}
