//! AES with keys of 32 bytes (FIPS 197), and its counter stream. The rounds look their bytes up in
//! tables, at places that depend on the key and the block: nothing is claimed of the time that they take.
#![tactic(auto)]

mod key;
mod laws;
mod rounds;
mod schedule;
mod substitution;
mod tables;
#[cfg(test)]
mod tests;

pub use key::Key256;
pub use laws::{counter_wraps, ctr_twice};
