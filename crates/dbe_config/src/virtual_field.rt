ghost use Rattle.std.specs.Prelude.{◌≡◌};

use crate::TextSteps;
use dbe_num::Text;
use std::marker::Model;

/// A field that is made of other attributes.
#[derive(Drop)]
pub struct Virtual {
    pub name: Text,
    pub parts: VirtualParts,
}

/// A part of a virtual field: an attribute, and the steps that its text goes through.
#[derive(Drop)]
pub struct VirtualPart {
    pub from: Text,
    pub steps: TextSteps,
}

/// The parts of a virtual field, 1 to 16.
///
/// Contracts see a list.
#[derive(Drop)]
pub struct VirtualParts {
    items: Vec<VirtualPart>,
}

impl Model for VirtualParts {
    ghost use Rattle.std.specs.Prelude.{List};
    ghost use Rattle.dbe_config.specs.declared.virtual_field.VirtualPart.{VirtualPart};

    ghost Value = { List VirtualPart };

    ghost view = { λ l. l.items.items };
}

impl VirtualParts {
    /// Takes no memory.
    pub fn from_vec(items: Vec<VirtualPart>) -> VirtualParts
        ensures { result ≡ items.items }
    {
        VirtualParts { items }
    }

    pub fn as_slice(&self) -> &[VirtualPart]
        ensures { result.now ≡ self.now }
    {
        &self.items
    }
}
