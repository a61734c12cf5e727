ghost use Rattle.std.specs.Prelude.{◌≡◌};
ghost use Rattle.dbe_rawring.specs.Edk.{IsShort};

use crate::sizes::KEY_SIZE;
use dbe_gcm::Key256;
use dbe_num::Text;
use std::marker::Model;

/// A raw ring: a namespace and a name, by which it finds its own data keys, and a key of 32 bytes. The two texts have
/// at most 65,535 bytes each.
///
/// Contracts see the record of the three.
#[derive(Drop)]
pub struct RawRing {
    pub(crate) namespace: Text,
    pub(crate) name: Text,
    pub(crate) key: Key256,
}

impl Model for RawRing {
    ghost use Rattle.dbe_rawring.specs.Ring.{IsRawRing, RawRingParts};

    ghost Value = { RawRingParts };

    ghost view = { λ r. record { namespace = r.namespace; name = r.name; key = r.key } };

    ghost invariant = { λ r. IsRawRing (record { namespace = r.namespace; name = r.name; key = r.key }) };
}

impl RawRing {
    /// The ring of this key, with its AES key schedule. Takes no memory.
    pub fn new(namespace: Text, name: Text, key: &[u8; KEY_SIZE]) -> RawRing
        requires namespace { IsShort namespace }
        requires name { IsShort name }
        ensures { result ≡ record { namespace = namespace; name = name; key = key.now } }
    {
        RawRing {
            namespace,
            name,
            key: Key256::new(key),
        }
    }
}
