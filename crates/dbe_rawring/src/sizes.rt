// Sizes in bytes.

pub(crate) const KEY_SIZE: usize = 32;

pub(crate) const IV_SIZE: usize = 12;

pub(crate) const TAG_SIZE: usize = 16;

// A key and its tag.
pub(crate) const WRAPPED_SIZE: usize = 48;

pub(crate) const SIGNING_SIZE: usize = 48;

// An intermediate key and an IV.
pub(crate) const DRAWN_SIZE: usize = 44;

// An IV, an intermediate key wrapped, and a data key wrapped.
pub(crate) const CIPHERTEXT_SIZE: usize = 108;
