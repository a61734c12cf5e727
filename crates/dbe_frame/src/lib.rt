//! The frame of a sealed item: its header, the encryption context, the record text that is signed, and the footer.
#![tactic(auto)]

mod context;
mod edks;
mod fault;
mod footer;
mod header;
mod laws;
mod pairs;
mod reading;
mod record;
mod signed;
mod sizes;
mod stop;
mod writing;

pub use context::context_bytes;
pub use edks::Edks;
pub use fault::FrameFault;
pub use footer::read_footer;
pub use header::Header;
pub use laws::{
    canonical_order, commitment_last, context_order, fields_keep_rules, one_footer, one_header,
};
pub use pairs::Pairs;
pub use reading::read;
pub use record::{legend_word, put_count, put_long_path, put_stored, record_text};
pub use signed::signed_names;
pub use writing::write;

#[cfg(test)]
mod tests;
