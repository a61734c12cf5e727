ghost use Rattle.std.specs.Prelude.{◌≡◌};
ghost use Rattle.dbe_frame.specs.Header.{HeaderParts, IsLegend, HasParts};
ghost use Rattle.dbe_frame.specs.Sizes.{version_1};

use crate::sizes::{COMMITMENT_SIZE, ID_SIZE};
use crate::{Edks, Pairs};
use dbe_num::Bytes;
use std::marker::Model;

/// The header of a sealed item.
///
/// Contracts see the record of its parts.
#[derive(Debug, Drop)]
pub struct Header {
    message_id: [u8; ID_SIZE],
    legend: Bytes,
    context: Pairs,
    edks: Edks,
    commitment: [u8; COMMITMENT_SIZE],
}

impl Model for Header {
    ghost use Rattle.dbe_frame.specs.Header.{HeaderParts, HasParts};

    ghost Value = { HeaderParts };

    ghost view = { λ h. record { message_id = h.message_id; legend = h.legend; context = h.context; edks = h.edks; commitment = h.commitment } };

    ghost invariant = { λ h. HasParts (record { message_id = h.message_id; legend = h.legend; context = h.context; edks = h.edks; commitment = h.commitment }) };
}

impl Header {
    /// A header of version 1. The legend has a byte for each signed attribute: `e`, encrypted and signed, or `s`,
    /// signed only. Takes no memory.
    pub fn new(
        message_id: [u8; ID_SIZE],
        legend: Bytes,
        context: Pairs,
        edks: Edks,
        commitment: [u8; COMMITMENT_SIZE],
    ) -> Header
        requires { IsLegend version_1 legend }
        ensures { result ≡ record { message_id = message_id; legend = legend; context = context; edks = edks; commitment = commitment } }
    {
        let _ = context.as_slice();
        let _ = edks.as_slice();
        Header {
            message_id,
            legend,
            context,
            edks,
            commitment,
        }
    }

    /// That the parts keep their rules, which callers may rely on. Does nothing.
    pub fn has_parts(&self)
        ensures { HasParts self.now }
    {
        let _ = &self.legend;
    }

    pub fn message_id(&self) -> &[u8; ID_SIZE]
        ensures { result.now ≡ self.now.message_id }
    {
        &self.message_id
    }

    /// A byte for each signed attribute.
    pub fn legend(&self) -> &[u8]
        ensures { result.now ≡ self.now.legend }
    {
        self.legend.as_slice()
    }

    pub fn context(&self) -> &Pairs
        ensures { result.now ≡ self.now.context }
    {
        &self.context
    }

    pub fn edks(&self) -> &Edks
        ensures { result.now ≡ self.now.edks }
    {
        &self.edks
    }

    pub fn commitment(&self) -> &[u8; COMMITMENT_SIZE]
        ensures { result.now ≡ self.now.commitment }
    {
        &self.commitment
    }
}
