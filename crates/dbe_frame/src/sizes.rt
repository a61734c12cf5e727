//! The numbers of a frame.

/// The version that is read and written.
pub(crate) const VERSION: u8 = 1;

/// The one flavour.
pub(crate) const FLAVOUR: u8 = 0;

/// The legend byte of an attribute that is encrypted and signed.
pub(crate) const ENCRYPTED: u8 = b'e';

/// The legend byte of an attribute that is signed only.
pub(crate) const SIGNED_ONLY: u8 = b's';

pub(crate) const ID_SIZE: usize = 32;

pub(crate) const COMMITMENT_SIZE: usize = 32;

pub(crate) const TAG_SIZE: usize = 48;

pub(crate) const MOST_EDKS: u8 = 8;

/// The greatest count or length of two bytes.
pub(crate) const MOST_COUNTED: usize = 65_535;
