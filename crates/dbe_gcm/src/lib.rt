//! GCM over AES with keys of 32 bytes (SP 800-38D), for IVs of 12 bytes and tags of 16. GHASH looks
//! products up at places that depend on the bytes: nothing is claimed of the time that it takes.
#![tactic(auto)]

mod hash;
mod laws;
mod product;
mod seal;
mod table;
#[cfg(test)]
mod tests;

pub use dbe_aes::Key256;
pub use laws::{cuts_what_was_sealed, opens_what_was_sealed, seals_what_opens};
pub use seal::{open_in_place, seal_in_place};
