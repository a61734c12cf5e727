ghost use Rattle.std.specs.Prelude.{◌≡◌, ◌<◌, length};

use crate::bytes::{bytes_of, digits_of};
use crate::headers::fault_text;
use crate::stop::Stop;
use crate::text::{decimal, joined};
use dbe_frame::read;
use std::alloc::Global;

/// `HEX`: what reading a prefix answers, for each length at which the answer is another.
pub fn cut(alloc: Global, case: &str) -> Result<String, Stop> {
    let bytes = bytes_of(alloc, case)?;
    let mut out = String::new(alloc);
    let mut last = String::new(alloc);
    for length in 0..=bytes.len() {
        let answer = answer_of(alloc, &bytes[..length])?;
        if answer != last {
            put_answer(
                &mut out,
                decimal(alloc, length as u64)?.as_str(),
                ": ",
                &answer,
            )?;
            last = answer;
        }
    }
    Ok(out)
}

fn put_answer(out: &mut String, place: &str, between: &str, answer: &str) -> Result<(), Stop> {
    out.push_str(place)?;
    out.push_str(between)?;
    out.push_str(answer)?;
    out.push_str(", ")?;
    Ok(())
}

/// `ok`, or the place of the fault.
fn answer_of(alloc: Global, bytes: &[u8]) -> Result<String, Stop> {
    match read(alloc, bytes) {
        Ok(_) => joined(alloc, &["ok"]),
        Err(fault) => fault_text(alloc, fault),
    }
}

/// `HEX`: for each place what reading answers when its byte has each value from 00 on, at the values at which the answer
/// is another.
pub fn change(alloc: Global, case: &str) -> Result<String, Stop> {
    let mut bytes = bytes_of(alloc, case)?;
    let mut out = String::new(alloc);
    for place in 0..bytes.len() {
        let line = changed(alloc, &mut bytes, place)?;
        out.push_str(decimal(alloc, place as u64)?.as_str())?;
        out.push_str(": ")?;
        out.push_str(&line)?;
        out.push_str("\n")?;
    }
    Ok(out)
}

fn changed(alloc: Global, bytes: &mut Vec<u8>, place: usize) -> Result<String, Stop>
    requires { place < length bytes.old.items }
    ensures { length bytes.new.items ≡ length bytes.old.items }
{
    let before = bytes[place];
    let mut out = String::new(alloc);
    let mut last = String::new(alloc);
    for byte in 0..=255u8 {
        bytes[place] = byte;
        let answer = answer_of(alloc, bytes)?;
        if answer != last {
            put_answer(&mut out, digits_of(alloc, &[byte])?.as_str(), " ", &answer)?;
            last = answer;
        }
    }
    bytes[place] = before;
    Ok(out)
}
