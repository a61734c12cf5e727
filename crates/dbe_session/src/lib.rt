//! The session: a line of the script to its reply.
#![tactic(auto)]

mod computing;
mod explaining;
pub mod laws;
mod names;
mod opening;
mod rewriting;
mod searching;
mod session;
mod storing;

pub use session::{Session, StepFault};
