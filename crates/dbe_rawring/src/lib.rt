//! Encrypted data keys, and raw rings, which wrap and unwrap them.
#![tactic(auto)]

mod edk;
mod fault;
mod inner;
mod joined;
mod laws;
mod ring;
mod sizes;
mod wrapping;

pub use dbe_kdf::EmptySalt;
pub use edk::Edk;
pub use fault::RingFault;
pub use inner::{DataKey, InnerWrap, unwrap_inner, wrap_inner, wrap_inner_and_sign};
pub use laws::{unwraps_or_faults, unwraps_to_one, unwraps_what_was_wrapped};
pub use ring::RawRing;
pub use wrapping::{Wrapped, unwrap, wrap};

#[cfg(test)]
mod tests;
