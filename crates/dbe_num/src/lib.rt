//! The small values that every layer speaks of: bytes, texts, numbers, and out of memory.
#![tactic(auto)]

mod bytes;
mod memory;
mod number;
mod number_fault;
mod number_laws;
mod numeral;
mod text;

pub use bytes::Bytes;
pub use memory::Memory;
pub use number::Number;
pub use number_fault::NumberFault;
pub use number_laws::{
    number_grammar, number_read_again, number_read_is_normal, one_number_a_value,
};
pub use text::Text;
