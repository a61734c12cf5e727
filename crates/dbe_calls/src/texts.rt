//! Pieces of lines.

use dbe_num::Memory;

/// What stands before and after the first space. Without a space, all is before it.
pub(crate) fn parts(line: &str) -> (&str, &str) {
    match line.split_once(' ') {
        Some(parts) => parts,
        None => (line, ""),
    }
}

pub(crate) fn push(out: &mut String, piece: &str) -> Result<(), Memory> {
    out.push_str(piece)?;
    Ok(())
}

pub(crate) fn push_bytes(out: &mut String, bytes: &[u8]) -> Result<(), Memory> {
    push(out, str::from_utf8(bytes).unwrap_or("no UTF-8"))
}
