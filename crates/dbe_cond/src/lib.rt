//! Conditions: what they are, what they mean over an item, and which rows a table hands out for them.
#![tactic(auto)]

mod collect;
mod cond;
mod fault;
mod meaning;
mod names;
mod numbered;
mod operand;
mod parsed;
mod placeholders;
mod printed;
mod printing;
mod reading;
mod resolve;
mod shape;
mod spell;
mod unknown;
mod wanted;

pub use cond::Cond;
pub use dbe_tokens::Op;
pub use fault::CondFault;
pub use meaning::holds;
pub use names::first_name_with;
pub use operand::Operand;
pub use placeholders::{Names, Values};
pub use printed::Printed;
pub use printing::{names_in, print, printed_is_read};
pub use reading::{one_reading, one_refusal, read, read_is_lawful};
pub use wanted::{Wanted, wants};
