//! The keys of a sealed item, its commitment, its recipient tags and its stored fields.
#![tactic(auto)]

mod fault;
mod field;
mod item_keys;
mod laws;
#[cfg(test)]
mod tests;

pub use fault::FieldFault;
pub use item_keys::{ItemKeys, recipient_tag};
pub use laws::{
    a_field_has_no_fault, key_lengths, one_value_a_field, opens_what_was_sealed_in_a_field,
};
