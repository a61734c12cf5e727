//! The configuration of a table: its keys, what is done with each attribute, who can open what is sealed,
//! virtual fields and beacons. A configuration is read exactly by its rules.
#![tactic(auto)]

mod action;
mod compound;
mod compound_rules;
mod config;
mod constructor;
mod context_pair;
mod copies;
mod draft;
mod entry;
mod fault;
mod key_rules;
mod laws;
mod named;
mod names;
mod read_actions;
mod read_beacon;
mod read_compound;
mod read_constructor;
mod read_context;
mod read_keys;
mod read_recipient;
mod read_step;
mod read_virtual;
mod recipient;
mod recipient_rules;
mod source_rules;
mod spelled;
mod spelling;
mod standard;
mod text_step;
mod virtual_field;

pub use action::Action;
pub use compound::{Compound, Part, Parts};
pub use config::Config;
pub use constructor::{Constructor, ConstructorPart, ConstructorParts, Constructors};
pub use context_pair::ContextPair;
pub use fault::ConfigFault;
pub use laws::law_of_order;
pub use recipient::Recipient;
pub use standard::Standard;
pub use text_step::{TextStep, TextSteps};
pub use virtual_field::{Virtual, VirtualPart, VirtualParts};
