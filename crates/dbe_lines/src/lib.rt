//! The lines of a script: bytes to request, and reply to bytes.
#![tactic(auto)]

mod conditions;
mod fault;
mod item_refusals;
mod large_rows;
mod laws;
mod queries;
mod request;
mod requests;
mod texts;

pub use conditions::condition_text;
pub use fault::RewriteFault;
pub use item_refusals::item_refusal;
pub use large_rows::is_large_row;
pub use laws::queries_are_over_plain_tables;
pub use request::{Query, Request};
pub use requests::read_request;
pub use texts::{
    checked_text, cond_refusal, count_text, every_text, item_text, none_text, put_refusal,
    put_text, refused_name, refused_text, rewrite_refusal, split_text, value_refusal,
};
