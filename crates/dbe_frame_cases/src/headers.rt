use crate::answer::halves;
use crate::bytes::{bytes_of, digits_of};
use crate::stop::Stop;
use crate::text::{decimal, joined};
use dbe_frame::{FrameFault, Header, read, write};
use dbe_num::Bytes;
use dbe_rawring::Edk;
use std::alloc::Global;

/// `HEX`: the parts of a header, or the place of its fault.
pub fn header(alloc: Global, case: &str) -> Result<String, Stop> {
    match read(alloc, &bytes_of(alloc, case)?) {
        Ok(header) => parts(alloc, &header),
        Err(fault) => fault_text(alloc, fault),
    }
}

pub fn fault_text(alloc: Global, fault: FrameFault) -> Result<String, Stop> {
    match fault {
        FrameFault::HeaderFault { at } => place_text(alloc, at),
        FrameFault::FooterLength => joined(alloc, &["fault of length"]),
        FrameFault::Memory => Err(Stop::Memory),
    }
}

fn place_text(alloc: Global, at: u64) -> Result<String, Stop> {
    let mut out = joined(alloc, &["fault at "])?;
    out.push_str(decimal(alloc, at)?.as_str())?;
    Ok(out)
}

fn parts(alloc: Global, header: &Header) -> Result<String, Stop> {
    let mut out = String::new(alloc);
    put_part(&mut out, alloc, "id ", header.message_id())?;
    put_part(&mut out, alloc, " legend ", header.legend())?;
    out.push_str(" pairs")?;
    put_pairs(&mut out, alloc, header.context().as_slice())?;
    out.push_str(" edks")?;
    put_edks(&mut out, alloc, header.edks().as_slice())?;
    put_part(&mut out, alloc, " commitment ", header.commitment())?;
    Ok(out)
}

pub fn put_part(out: &mut String, alloc: Global, name: &str, bytes: &[u8]) -> Result<(), Stop> {
    out.push_str(name)?;
    out.push_str(digits_of(alloc, bytes)?.as_str())?;
    Ok(())
}

pub fn put_pairs(out: &mut String, alloc: Global, pairs: &[(Bytes, Bytes)]) -> Result<(), Stop> {
    for pair in pairs {
        put_part(out, alloc, " ", pair.0.as_slice())?;
        put_part(out, alloc, ":", pair.1.as_slice())?;
    }
    Ok(())
}

fn put_edks(out: &mut String, alloc: Global, edks: &[Edk]) -> Result<(), Stop> {
    for edk in edks {
        put_part(out, alloc, " ", edk.provider())?;
        put_part(out, alloc, ":", edk.info())?;
        put_part(out, alloc, ":", edk.ciphertext())?;
    }
    Ok(())
}

/// `HEX`: how many bytes a header has, and whether it is written again as them; or the place of its fault.
pub fn again(alloc: Global, case: &str) -> Result<String, Stop> {
    again_of(alloc, &bytes_of(alloc, case)?)
}

fn again_of(alloc: Global, bytes: &[u8]) -> Result<String, Stop> {
    let header = match read(alloc, bytes) {
        Ok(header) => header,
        Err(fault) => return fault_text(alloc, fault),
    };
    let mut out = decimal(alloc, bytes.len() as u64)?;
    match write(alloc, &header)?.as_slice() == bytes {
        true => out.push_str(" same true")?,
        false => out.push_str(" same false")?,
    }
    Ok(out)
}

fn small_number(text: &str) -> Result<u16, Stop> {
    text.parse::<u16>().ok().ok_or(Stop::Form)
}

/// `COUNT BEFORE AFTER`: the same for a header with so many pairs between the bytes before and after. Their keys are the
/// numbers from 0 on in two bytes, and their values are empty.
pub fn counted(alloc: Global, case: &str) -> Result<String, Stop> {
    let (count, around) = halves(case)?;
    let (before, after) = halves(around)?;
    let mut bytes = bytes_of(alloc, before)?;
    for key in 0..small_number(count)? {
        bytes.extend_from_slice(&[0, 2])?;
        bytes.extend_from_slice(&key.to_be_bytes())?;
        bytes.extend_from_slice(&[0, 0])?;
    }
    bytes.extend_from_slice(&bytes_of(alloc, after)?)?;
    again_of(alloc, &bytes)
}
