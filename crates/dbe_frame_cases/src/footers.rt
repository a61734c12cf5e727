use crate::answer::halves;
use crate::bytes::{bytes_of, number};
use crate::headers::{fault_text, put_part};
use crate::stop::Stop;
use crate::text::joined;
use dbe_frame::read_footer;
use std::alloc::Global;

/// `COUNT HEX`: the tags of a footer for so many data keys, or its fault.
pub fn footer(alloc: Global, case: &str) -> Result<String, Stop> {
    let (count, digits) = halves(case)?;
    let count = number(count)?;
    match read_footer(alloc, &bytes_of(alloc, digits)?, count as usize) {
        Ok(tags) => tags_text(alloc, &tags),
        Err(fault) => fault_text(alloc, fault),
    }
}

fn tags_text(alloc: Global, tags: &[[u8; 48]]) -> Result<String, Stop> {
    let mut out = joined(alloc, &["tags"])?;
    for tag in tags {
        put_part(&mut out, alloc, " ", tag)?;
    }
    Ok(out)
}
