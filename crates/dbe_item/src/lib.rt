//! Items: which of them may be stored, how they are sealed, and what a row opens to.
#![tactic(auto)]

mod acceptance;
mod attributes;
mod beacons;
mod context;
mod digest;
mod draws;
mod fault;
mod fields;
mod foot;
mod found;
mod frame;
mod framing;
mod head;
mod key_law;
mod laws;
mod legend;
mod marked;
mod numbers;
mod open_fault;
mod opened_item;
mod parts;
mod ring_list;
mod rings;
mod seal_law;
mod sealing;
mod seek;
mod stored;
mod stripping;
mod unsealing;
mod wraps;

pub use acceptance::accepts;
pub use beacons::first_beacon;
pub use draws::draw_length;
pub use fault::PutFault;
pub use key_law::stands_with_its_key;
pub use laws::{
    one_reason, opens_to_one, opens_with_its_key, opens_without_a_reason, stands_for_one,
};
pub use open_fault::OpenFault;
pub use rings::Rings;
pub use seal_law::seals_to_stand;
pub use sealing::seal;
pub use stripping::strip;
pub use unsealing::{Opened, unseal};
