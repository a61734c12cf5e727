//! The values of DynamoDB: attributes, items and their keys, and the JSON that spells them.
#![tactic(auto)]

mod branch_id;
mod fault;
mod item;
mod json;
mod key;
mod key_cmp;
mod kind;
mod laws;
mod place;
mod read;
mod read_item;
mod read_value;
mod sets;
mod value;
mod write;

pub use branch_id::BranchId;
pub use fault::{ItemFault, ValueFault};
pub use item::Item;
pub use json::{json_value, size_of};
pub use key::{KeyError, KeyKind, KeyName, KeySchema, KeyValue, key_fault, key_order, read_key};
pub use laws::{a_read_key_is_lawful, item_read_again, one_view, value_read_again};
pub use read_item::item_from_json;
pub use read_value::from_json;
pub use sets::{BytesSet, NumberSet, TextSet};
pub use value::{AttrValue, equal, order};
pub use write::{item_text, item_to_json, to_json};
