use crate::stop::Stop;
use std::alloc::Global;

/// Pieces, one behind the other.
pub fn joined(alloc: Global, pieces: &[&str]) -> Result<String, Stop> {
    let mut out = String::new(alloc);
    for piece in pieces {
        out.push_str(piece)?;
    }
    Ok(out)
}

/// A number in decimal digits.
pub fn decimal(alloc: Global, number: u64) -> Result<String, Stop> {
    Ok(format!(in alloc; "{number}")?)
}
