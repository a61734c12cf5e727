//! Keyed hashes and derived keys: HMAC (RFC 2104) with SHA-384 and SHA-512, and HKDF (RFC 5869) with SHA-512.
//! No call takes memory.
#![tactic(auto)]

mod block;
mod empty_salt;
mod hkdf;
mod hmac;
mod keyed384;
mod keyed512;
mod laws;
mod prk;
#[cfg(test)]
mod tests;

pub use empty_salt::EmptySalt;
pub use hkdf::hkdf512;
pub use hmac::{hmac384, hmac512};
pub use keyed384::Keyed384;
pub use laws::{hkdf_law, output_law};
pub use prk::Prk;
