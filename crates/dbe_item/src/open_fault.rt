ghost use Rattle.std.specs.Prelude.{◌≡◌};
ghost use Rattle.dbe_item.specs.declared.open_fault.OpenFault.TheVariants as fault;

use dbe_num::Text;
use std::alloc::{AllocError, AllocFailed};

/// Why a row does not open. The first whose cause holds is answered, in this order.
#[derive(Debug, Drop)]
pub enum OpenFault {
    /// There is no attribute `aws_dbe_head`, or it is no binary.
    NoHeader,
    /// The bytes of `aws_dbe_head` are no header: the offset at which the first field begins that is cut short or
    /// breaks its rule, or the offset of the first byte after the commitment.
    HeaderFault { at: u64 },
    /// The legend has not one byte for each signed name.
    LegendLength,
    /// The row has no lawful key, or the legend does not say of each key attribute that it is signed only.
    KeyLegend,
    /// `aws_dbe_foot` is absent, no binary, or not 48 bytes for each encrypted data key.
    FooterLength,
    /// No recipient of the configuration unwraps a data key.
    NoRecipient,
    /// The commitment is not that of the data key.
    Commitment,
    /// The recipient's tag is not that of the signed attributes.
    RecipientTag,
    /// An encrypted attribute is no binary, has fewer than 18 bytes, or begins with no type.
    FieldShape { name: Text },
    /// The tag of an encrypted attribute is not that of its ciphertext.
    FieldTag { name: Text },
    /// No value has the type and the deciphered bytes of an encrypted attribute.
    NotCanonical { name: Text },
    /// Memory ran out.
    Memory,
}

impl From<dbe_num::Memory> for OpenFault {
    ghost from_gives = { λ _ e. e ≡ fault.Memory };

    fn from(_: dbe_num::Memory) -> OpenFault {
        OpenFault::Memory
    }
}

impl From<AllocError> for OpenFault {
    ghost from_gives = { λ _ e. e ≡ fault.Memory };

    fn from(_: AllocError) -> OpenFault {
        OpenFault::Memory
    }
}

impl<T: Drop> From<AllocFailed<T>> for OpenFault {
    ghost from_gives = { λ _ e. e ≡ fault.Memory };

    fn from(_: AllocFailed<T>) -> OpenFault {
        OpenFault::Memory
    }
}
