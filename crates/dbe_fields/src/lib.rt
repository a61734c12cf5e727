//! The values of virtual fields and compounds, which are made from the attributes of an item.
#![tactic(auto)]

mod characters;
mod compounds;
mod computed;
mod extension;
mod laws;
mod pieces;
mod places;
mod split;
mod steps;
mod texts;
mod value;
mod virtuals;

pub use computed::is_computed;
pub use extension::{extended, values_of};
pub use laws::{attributes_are_plain, extended_has_plain_values};
pub use split::{SplitAt, split_fault};
pub use value::value_of;
