//! Tables: rows under keys, in key order, and a table in memory.
#![tactic(auto)]

mod key_order;
mod keyed_rows;
pub mod laws;
mod mem_table;
mod table;

pub use mem_table::MemTable;
pub use table::{Table, TableFault};
