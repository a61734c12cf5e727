use crate::stop::Stop;
use std::alloc::Global;

/// How no bytes are written.
const NONE: &str = "-";

/// The bytes of pieces that `_` joins. A piece is hexadecimal digits, and optionally `*` and how often they come.
pub fn bytes_of(alloc: Global, text: &str) -> Result<Vec<u8>, Stop> {
    let mut out = Vec::new(alloc);
    if text == NONE {
        return Ok(out);
    }
    for piece in text.split('_') {
        put_piece(&mut out, alloc, piece)?;
    }
    Ok(out)
}

fn put_piece(out: &mut Vec<u8>, alloc: Global, piece: &str) -> Result<(), Stop> {
    let Some((digits, count)) = piece.split_once('*') else {
        out.extend_from_slice(&decoded(alloc, piece)?)?;
        return Ok(());
    };
    let bytes = decoded(alloc, digits)?;
    for _ in 0..number(count)? {
        out.extend_from_slice(&bytes)?;
    }
    Ok(())
}

fn decoded(alloc: Global, digits: &str) -> Result<Vec<u8>, Stop> {
    hex::decode(alloc, digits).ok().ok_or(Stop::Form)
}

pub fn number(text: &str) -> Result<u32, Stop> {
    text.parse::<u32>().ok().ok_or(Stop::Form)
}

/// The hexadecimal digits of bytes.
pub fn digits_of(alloc: Global, bytes: &[u8]) -> Result<String, Stop> {
    if bytes.is_empty() {
        return Ok(String::from_str(alloc, NONE)?);
    }
    Ok(hex::encode(alloc, bytes)?)
}
