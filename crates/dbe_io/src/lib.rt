//! What comes in and goes out: sources, sinks, the lines of a source, and random bytes.
#![tactic(auto)]

mod cha_dice;
mod dice;
mod failed;
mod failure_plan;
mod file_source;
mod held;
pub mod laws;
mod lines;
mod mem_dice;
mod mem_sink;
mod mem_source;
mod sink;
mod source;
mod std_sink;
mod std_source;
mod system_dice;

pub use cha_dice::ChaDice;
pub use dice::Dice;
pub use failed::Failed;
pub use failure_plan::FailurePlan;
pub use file_source::FileSource;
pub use lines::{LineFault, LineReader};
pub use mem_dice::MemDice;
pub use mem_sink::MemSink;
pub use mem_source::MemSource;
pub use sink::{Sink, WriteFault, write_all};
pub use source::Source;
pub use std_sink::StdSink;
pub use std_source::StdSource;
pub use system_dice::SystemDice;
