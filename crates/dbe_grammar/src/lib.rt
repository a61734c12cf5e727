//! The grammar of conditions: trees, the parser and the printer, over tokens.
#![tactic(auto)]

mod fault;
mod laws;
mod next;
mod parser;
mod printing;
mod tails;
mod tree;

pub use fault::ParseFault;
pub use laws::{is_lawful, leaves, one_condition, one_place, places_move, printed_is_read};
pub use parser::parse;
pub use printing::tokens_of;
pub use tree::Tree;
