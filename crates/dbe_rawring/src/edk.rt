ghost use Rattle.std.specs.Prelude.{◌≡◌, IfOk};
ghost use Rattle.dbe_rawring.specs.Edk.{IsShort, IsEdk};

use dbe_num::{Bytes, Memory};
use std::alloc::Global;
use std::marker::Model;

/// An encrypted data key: who provides it, what the provider needs to know, and the data key under the provider's
/// key. Each has at most 65,535 bytes.
///
/// Contracts see the three lists of bytes.
#[derive(Debug, Drop)]
pub struct Edk {
    provider: Bytes,
    info: Bytes,
    ciphertext: Bytes,
}

impl Model for Edk {
    ghost use Rattle.dbe_rawring.specs.Edk.{EdkParts, IsEdk};

    ghost Value = { EdkParts };

    ghost view = { λ e. record { provider = e.provider; info = e.info; ciphertext = e.ciphertext } };

    ghost invariant = { λ e. IsEdk (record { provider = e.provider; info = e.info; ciphertext = e.ciphertext }) };
}

impl Edk {
    /// Takes no memory.
    pub fn new(provider: Bytes, info: Bytes, ciphertext: Bytes) -> Edk
        requires provider { IsShort provider }
        requires info { IsShort info }
        requires ciphertext { IsShort ciphertext }
        ensures { result ≡ record { provider = provider; info = info; ciphertext = ciphertext } }
    {
        Edk {
            provider,
            info,
            ciphertext,
        }
    }

    /// Who provides the data key.
    pub fn provider(&self) -> &[u8]
        ensures bytes { result.now ≡ self.now.provider }
        ensures short { IsShort self.now.provider }
    {
        self.provider.as_slice()
    }

    /// What the provider needs to know.
    pub fn info(&self) -> &[u8]
        ensures bytes { result.now ≡ self.now.info }
        ensures short { IsShort self.now.info }
    {
        self.info.as_slice()
    }

    /// The data key under the provider's key.
    pub fn ciphertext(&self) -> &[u8]
        ensures bytes { result.now ≡ self.now.ciphertext }
        ensures short { IsShort self.now.ciphertext }
    {
        self.ciphertext.as_slice()
    }

    /// That no part is too long, which callers may rely on. Does nothing.
    pub fn is_edk(&self)
        ensures { IsEdk self.now }
    {
        let _ = &self.provider;
    }

    pub fn copy(&self, alloc: Global) -> Result<Edk, Memory>
        ensures { IfOk result (λ e. e ≡ self.now) }
    {
        Ok(Edk {
            provider: self.provider.copy(alloc)?,
            info: self.info.copy(alloc)?,
            ciphertext: self.ciphertext.copy(alloc)?,
        })
    }
}
