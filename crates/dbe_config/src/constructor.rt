ghost use Rattle.std.specs.Prelude.{◌≡◌};

use dbe_num::Text;
use std::marker::Model;

/// A part of a constructor.
#[derive(Drop)]
pub struct ConstructorPart {
    /// The name of the part.
    pub name: Text,
    /// The place of the part in its compound.
    pub part: usize,
    pub required: bool,
}

/// The parts of a constructor.
///
/// Contracts see a list.
#[derive(Drop)]
pub struct ConstructorParts {
    items: Vec<ConstructorPart>,
}

impl Model for ConstructorParts {
    ghost use Rattle.std.specs.Prelude.{List};
    ghost use Rattle.dbe_config.specs.declared.constructor.ConstructorPart.{ConstructorPart};

    ghost Value = { List ConstructorPart };

    ghost view = { λ l. l.items.items };
}

impl ConstructorParts {
    /// Takes no memory.
    pub fn from_vec(items: Vec<ConstructorPart>) -> ConstructorParts
        ensures { result ≡ items.items }
    {
        ConstructorParts { items }
    }

    pub fn as_slice(&self) -> &[ConstructorPart]
        ensures { result.now ≡ self.now }
    {
        &self.items
    }
}

/// A way to put a compound together.
#[derive(Drop)]
pub struct Constructor {
    pub parts: ConstructorParts,
}

/// The constructors of a compound, 1 to 16.
///
/// Contracts see a list.
#[derive(Drop)]
pub struct Constructors {
    items: Vec<Constructor>,
}

impl Model for Constructors {
    ghost use Rattle.std.specs.Prelude.{List};
    ghost use Rattle.dbe_config.specs.declared.constructor.Constructor.{Constructor};

    ghost Value = { List Constructor };

    ghost view = { λ l. l.items.items };
}

impl Constructors {
    /// Takes no memory.
    pub fn from_vec(items: Vec<Constructor>) -> Constructors
        ensures { result ≡ items.items }
    {
        Constructors { items }
    }

    pub fn as_slice(&self) -> &[Constructor]
        ensures { result.now ≡ self.now }
    {
        &self.items
    }
}
