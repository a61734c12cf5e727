//! The tokens of a condition's text.
#![tactic(auto)]

mod cutting;
mod deep;
mod front;
mod token;

pub use cutting::{TokenFault, Tokens, bytes_in, cut, one_bad_place, one_cut, ranges, token_ends};
pub use deep::is_too_deep;
pub use token::{Name, Op, Operand, Span, Token};
