//! Pieces of lines.

use dbe_num::Memory;

/// What stands before and after the first space. Without a space, all is before it.
pub(crate) fn parts(line: &str) -> (&str, &str) {
    match line.split_once(' ') {
        Some(parts) => parts,
        None => (line, ""),
    }
}

pub(crate) fn push(out: &mut String, piece: &str) -> Result<(), Memory> {
    out.push_str(piece)?;
    Ok(())
}

pub(crate) fn shown(bytes: &[u8]) -> &str {
    match str::from_utf8(bytes) {
        Ok(text) => text,
        Err(_) => "no UTF-8",
    }
}
