//! The canonical bytes of values: one spelling for each value, written and read, and the paths of attributes.
#![tactic(auto)]

mod fault;
mod kind;
mod laws;
mod leaves;
mod length;
mod paths;
mod reading;
mod sets;
mod strings;
mod writing;

pub use fault::CanonFault;
pub use kind::type_id;
pub use laws::{one_spelling, one_value, path_order, short_parts, written_again};
pub use length::canon_len;
pub use paths::{name_order, path, put_path};
pub use reading::read;
pub use writing::{canon, put_canon, set_length};
