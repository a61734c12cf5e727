ghost use Rattle.std.specs.Prelude.{◌≡◌};
ghost use Rattle.dbe_frame.specs.Header.{AreEdks};

use dbe_rawring::Edk;
use std::marker::Model;

/// The data keys of a header, 1 to 8.
///
/// Contracts see the list of the data keys.
#[derive(Debug, Drop)]
pub struct Edks {
    edks: Vec<Edk>,
}

impl Model for Edks {
    ghost use Rattle.std.specs.Prelude.{List};
    ghost use Rattle.dbe_rawring.specs.Edk.{EdkParts};
    ghost use Rattle.dbe_frame.specs.Header.{AreEdks};

    ghost Value = { List EdkParts };

    ghost view = { λ e. e.edks.items };

    ghost invariant = { λ e. AreEdks e.edks.items };
}

impl Edks {
    /// Takes no memory.
    pub fn from_vec(edks: Vec<Edk>) -> Edks
        requires { AreEdks edks.items }
        ensures { result ≡ edks.items }
    {
        Edks { edks }
    }

    pub fn as_slice(&self) -> &[Edk]
        ensures edks { result.now ≡ self.now }
        ensures are_edks { AreEdks self.now }
    {
        self.edks.as_slice()
    }

    /// Takes no memory.
    pub fn into_vec(self) -> Vec<Edk>
        ensures edks { result.items ≡ self }
        ensures are_edks { AreEdks self }
    {
        self.edks
    }
}
