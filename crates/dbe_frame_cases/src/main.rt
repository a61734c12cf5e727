//! Reads cases, one a line, and prints what the calls of dbe_frame and dbe_canon answer to each.
#![tactic(auto)]

mod answer;
mod bytes;
mod canons;
mod contexts;
mod footers;
mod headers;
mod places;
mod rows;
mod stop;
mod text;

use std::io;
use stop::Stop;

fn main(rt: HostRuntime) -> io::Result<()> {
    for line in rt.lines(rt.alloc()) {
        let text = match answer::answer(rt.alloc(), line?.as_str()) {
            Ok(text) => text,
            Err(Stop::Form) => String::from_str(rt.alloc(), "no case")?,
            Err(Stop::Memory) => String::from_str(rt.alloc(), "out of memory")?,
        };
        println!(rt; "{text}")?;
    }
    Ok(())
}
