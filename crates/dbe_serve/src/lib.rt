//! The whole run: a script of requests over a table of items, by a configuration.
#![tactic(auto)]

mod arguments;
mod status;
mod top;

pub use arguments::{Arguments, StdArguments, read_arguments};
pub use status::Status;
pub use top::serve;
