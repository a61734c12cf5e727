ghost use Rattle.std.specs.Prelude.{◌≡◌};

use crate::Constructors;
use dbe_num::Text;
use std::marker::Model;

/// A compound beacon: parts that are joined by a split character.
#[derive(Drop)]
pub struct Compound {
    pub name: Text,
    /// A byte from 21 to 7E.
    pub split: u8,
    pub parts: Parts,
    pub constructors: Constructors,
}

/// A part of a compound.
#[derive(Drop)]
pub struct Part {
    pub name: Text,
    pub prefix: Text,
    /// Whether it stands as a hash.
    pub encrypted: bool,
    /// A standard beacon where it is encrypted, else a key or a `SIGN_ONLY` attribute.
    pub from: Text,
}

/// The parts of a compound, 1 to 16.
///
/// Contracts see a list.
#[derive(Drop)]
pub struct Parts {
    items: Vec<Part>,
}

impl Model for Parts {
    ghost use Rattle.std.specs.Prelude.{List};
    ghost use Rattle.dbe_config.specs.declared.compound.Part.{Part};

    ghost Value = { List Part };

    ghost view = { λ l. l.items.items };
}

impl Parts {
    /// Takes no memory.
    pub fn from_vec(items: Vec<Part>) -> Parts
        ensures { result ≡ items.items }
    {
        Parts { items }
    }

    pub fn as_slice(&self) -> &[Part]
        ensures { result.now ≡ self.now }
    {
        &self.items
    }
}
