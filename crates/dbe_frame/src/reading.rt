ghost use Rattle.std.specs.Prelude.{◌≡◌, ◌≤◌, None, IfOk, IfErr, option_map, length, take, drop};
ghost use Rattle.dbe_rawring.specs.Edk.{IsShort};
ghost use Rattle.dbe_frame.specs.Header.{IsLegend, ArePairs, AreEdks, IsHeader, IsHeaderFault, is_version, is_flavour, is_legend_byte, is_edk_count, comes_after};
ghost use Rattle.dbe_frame.specs.Sizes.{id_size, most_edks, most_counted};
ghost use Rattle.dbe_frame.specs.Reading.{Gives, any, bytes_at, byte_at, number_at, string_at, many_at, legend_at, key_at, pair_at, pairs_at, context_at, edk_at, edks_at, header_at, all_of};

use crate::sizes::{ENCRYPTED, FLAVOUR, ID_SIZE, MOST_EDKS, SIGNED_ONLY, VERSION};
use crate::stop::Stop;
use crate::{Edks, FrameFault, Header, Pairs};
use dbe_num::Bytes;
use dbe_rawring::Edk;
use std::alloc::Global;

/// Reads a header. Fails with `HeaderFault` exactly where the bytes are none.
pub fn read(alloc: Global, bytes: &[u8]) -> Result<Header, FrameFault>
    ensures header { IfOk result (λ h. IsHeader h bytes.now) }
    ensures fault { IfErr result (λ f. IsHeaderFault f bytes.now) }
{
    match all(alloc, bytes) {
        Ok(header) => Ok(header),
        Err(Stop::Left(left)) => Err(FrameFault::HeaderFault {
            at: (bytes.len() - left) as u64,
        }),
        Err(Stop::Memory) => Err(FrameFault::Memory),
    }
}

/// A header that is all of the bytes.
#[tactic(auto, unfolding(crate::specs::Reading::all_of))]
fn all(alloc: Global, bytes: &[u8]) -> Result<Header, Stop>
    ensures { Gives (λ h. h) result (all_of bytes.now) }
{
    let (header, rest) = header_at(alloc, bytes)?;
    if !rest.is_empty() {
        return Err(Stop::Left(rest.len()));
    }
    Ok(header)
}

#[tactic(auto, unfolding(crate::specs::Reading::header_at))]
fn header_at(alloc: Global, bytes: &[u8]) -> Result<(Header, &[u8]), Stop>
    ensures { Gives (λ x. (x.0, x.1.now)) result (header_at bytes.now) }
{
    let (version, rest) = version_at(bytes)?;
    let (_, rest) = flavour_at(rest)?;
    let (message_id, rest) = array_at(rest)?;
    let (legend, rest) = legend_at(alloc, version, rest)?;
    let (context, rest) = context_at(alloc, rest)?;
    let (edks, rest) = edks_at(alloc, rest)?;
    let (commitment, rest) = array_at(rest)?;
    let header = Header::new(message_id, legend, context, edks, commitment);
    Ok((header, rest))
}

#[tactic(auto, unfolding(crate::specs::Reading::byte_at))]
fn version_at(bytes: &[u8]) -> Result<(u8, &[u8]), Stop>
    ensures { Gives (λ x. (x.0, x.1.now)) result (byte_at is_version bytes.now) }
{
    match bytes {
        [b, rest @ ..] if *b == VERSION => Ok((*b, rest)),
        _ => Err(Stop::Left(bytes.len())),
    }
}

#[tactic(auto, unfolding(crate::specs::Reading::byte_at))]
fn flavour_at(bytes: &[u8]) -> Result<(u8, &[u8]), Stop>
    ensures { Gives (λ x. (x.0, x.1.now)) result (byte_at is_flavour bytes.now) }
{
    match bytes {
        [b, rest @ ..] if *b == FLAVOUR => Ok((*b, rest)),
        _ => Err(Stop::Left(bytes.len())),
    }
}

#[tactic(auto, unfolding(crate::specs::Reading::byte_at))]
fn legend_byte_at(version: u8, bytes: &[u8]) -> Result<(u8, &[u8]), Stop>
    ensures { Gives (λ x. (x.0, x.1.now)) result (byte_at (is_legend_byte version) bytes.now) }
{
    match bytes {
        [b, rest @ ..] if is_legend_byte(version, *b) => Ok((*b, rest)),
        _ => Err(Stop::Left(bytes.len())),
    }
}

/// Whether a byte may stand in the legend of a version.
fn is_legend_byte(version: u8, b: u8) -> bool
    ensures { result ≡ is_legend_byte version b }
{
    version == VERSION && (b == ENCRYPTED || b == SIGNED_ONLY)
}

#[tactic(auto, unfolding(crate::specs::Reading::byte_at))]
fn edk_count_at(bytes: &[u8]) -> Result<(u8, &[u8]), Stop>
    ensures gives { Gives (λ x. (x.0, x.1.now)) result (byte_at is_edk_count bytes.now) }
    ensures few { IfOk result (λ x. (1 ≤ x.0) × (x.0 ≤ most_edks)) }
{
    match bytes {
        [b, rest @ ..] if 1 <= *b && *b <= MOST_EDKS => Ok((*b, rest)),
        _ => Err(Stop::Left(bytes.len())),
    }
}

#[tactic(auto, unfolding(crate::specs::Reading::bytes_at))]
fn array_at(bytes: &[u8]) -> Result<([u8; ID_SIZE], &[u8]), Stop>
    ensures { Gives (λ x. (x.0, x.1.now)) result (bytes_at id_size any bytes.now) }
{
    match bytes.split_first_chunk::<ID_SIZE>() {
        Some((array, rest)) => Ok((*array, rest)),
        None => Err(Stop::Left(bytes.len())),
    }
}

/// So many bytes.
#[tactic(auto, unfolding(crate::specs::Reading::bytes_at))]
fn bytes_at(count: usize, bytes: &[u8]) -> Result<(&[u8], &[u8]), Stop>
    ensures gives { Gives (λ x. (x.0.now, x.1.now)) result (bytes_at count any bytes.now) }
    ensures length { IfOk result (λ x. length x.0.now ≡ count) }
{
    if bytes.len() < count {
        return Err(Stop::Left(bytes.len()));
    }
    Ok(bytes.split_at(count))
}

/// A count or a length of two bytes.
#[tactic(auto, unfolding(crate::specs::Reading::number_at))]
fn number_at(bytes: &[u8]) -> Result<(usize, &[u8]), Stop>
    ensures gives { Gives (λ x. (x.0, x.1.now)) result (number_at bytes.now) }
    ensures short { IfOk result (λ x. x.0 ≤ most_counted) }
{
    let (b, rest) = bytes_at(2, bytes)?;
    let number = u16::from_be_bytes([b[0], b[1]]);
    Ok((usize::from(number), rest))
}

/// Bytes behind their length.
#[tactic(auto, unfolding(crate::specs::Reading::string_at))]
fn string_at(bytes: &[u8]) -> Result<(&[u8], &[u8]), Stop>
    ensures gives { Gives (λ x. (x.0.now, x.1.now)) result (string_at bytes.now) }
    ensures short { IfOk result (λ x. IsShort x.0.now) }
{
    let (length, rest) = number_at(bytes)?;
    bytes_at(length, rest)
}

#[tactic(auto, unfolding(crate::specs::Reading::legend_at))]
fn legend_at(alloc: Global, version: u8, bytes: &[u8]) -> Result<(Bytes, &[u8]), Stop>
    ensures gives { Gives (λ x. (x.0, x.1.now)) result (legend_at version bytes.now) }
    ensures legend { IfOk result (λ x. IsLegend version x.0) }
{
    let (count, rest) = number_at(bytes)?;
    let (legend, rest) = legend_bytes_at(alloc, version, count, rest)?;
    Ok((Bytes::from_vec(legend), rest))
}

fn legend_bytes_at(
    alloc: Global,
    version: u8,
    count: usize,
    bytes: &[u8],
) -> Result<(Vec<u8>, &[u8]), Stop>
    ensures gives { Gives (λ x. (x.0.items, x.1.now)) result (many_at (byte_at (is_legend_byte version)) count bytes.now) }
    ensures legend { IfOk result (λ x. count ≤ most_counted → IsLegend version x.0.items) }
{
    let mut legend = Vec::with_capacity(alloc, count.min(bytes.len()))?;
    let mut rest = bytes;
    for _ in 0..count {
        let (b, after) = legend_byte_at(version, rest)?;
        legend.push(b)?;
        rest = after;
    }
    Ok((legend, rest))
}

#[tactic(auto, unfolding(crate::specs::Reading::context_at))]
fn context_at(alloc: Global, bytes: &[u8]) -> Result<(Pairs, &[u8]), Stop>
    ensures { Gives (λ x. (x.0, x.1.now)) result (context_at bytes.now) }
{
    let (count, rest) = number_at(bytes)?;
    let (pairs, rest) = pairs_at(alloc, count, rest)?;
    Ok((Pairs::from_vec(pairs), rest))
}

fn pairs_at(alloc: Global, count: usize, bytes: &[u8]) -> Result<(Vec<(Bytes, Bytes)>, &[u8]), Stop>
    ensures gives { Gives (λ x. (x.0.items, x.1.now)) result (pairs_at None count bytes.now) }
    ensures pairs { IfOk result (λ x. count ≤ most_counted → ArePairs x.0.items) }
{
    let mut pairs = Vec::with_capacity(alloc, count.min(bytes.len() / 4))?;
    let mut before = None;
    let mut rest = bytes;
    for _ in 0..count {
        let (key, value, after) = pair_at(before, rest)?;
        pairs.push((Bytes::copy_of(alloc, key)?, Bytes::copy_of(alloc, value)?))?;
        before = Some(key);
        rest = after;
    }
    Ok((pairs, rest))
}

#[tactic(auto, unfolding(crate::specs::Reading::pair_at))]
fn pair_at<'a>(
    before: Option<&[u8]>,
    bytes: &'a [u8],
) -> Result<(&'a [u8], &'a [u8], &'a [u8]), Stop>
    ensures { Gives (λ x. ((x.0.now, x.1.now), x.2.now)) result (pair_at (option_map (λ k. k.now) before.entry) bytes.now) }
{
    let (key, rest) = key_at(before, bytes)?;
    let (value, rest) = string_at(rest)?;
    Ok((key, value, rest))
}

/// A key behind its length, which is greater than the one before it.
#[tactic(auto, unfolding(crate::specs::Reading::key_at))]
fn key_at<'a>(before: Option<&[u8]>, bytes: &'a [u8]) -> Result<(&'a [u8], &'a [u8]), Stop>
    ensures { Gives (λ x. (x.0.now, x.1.now)) result (key_at (option_map (λ k. k.now) before.entry) bytes.now) }
{
    let (length, rest) = number_at(bytes)?;
    key_bytes_at(before, length, rest)
}

#[tactic(auto, unfolding(crate::specs::Reading::bytes_at))]
fn key_bytes_at<'a>(
    before: Option<&[u8]>,
    count: usize,
    bytes: &'a [u8],
) -> Result<(&'a [u8], &'a [u8]), Stop>
    ensures { Gives (λ x. (x.0.now, x.1.now)) result (bytes_at count (comes_after (option_map (λ k. k.now) before.entry)) bytes.now) }
{
    if bytes.len() < count {
        return Err(Stop::Left(bytes.len()));
    }
    let (key, rest) = bytes.split_at(count);
    match comes_after(before, key) {
        true => Ok((key, rest)),
        false => Err(Stop::Left(bytes.len())),
    }
}

/// Whether a key is greater than the one before it, where there is one.
pub(crate) fn comes_after(before: Option<&[u8]>, key: &[u8]) -> bool
    ensures { result ≡ comes_after (option_map (λ k. k.now) before.entry) key.now }
{
    match before {
        Some(before) => before.cmp(&key).is_lt(),
        None => true,
    }
}

#[tactic(auto, unfolding(crate::specs::Reading::edk_at))]
fn edk_at(alloc: Global, bytes: &[u8]) -> Result<(Edk, &[u8]), Stop>
    ensures { Gives (λ x. (x.0, x.1.now)) result (edk_at bytes.now) }
{
    let (provider, rest) = string_at(bytes)?;
    let (info, rest) = string_at(rest)?;
    let (ciphertext, rest) = string_at(rest)?;
    let edk = Edk::new(
        Bytes::copy_of(alloc, provider)?,
        Bytes::copy_of(alloc, info)?,
        Bytes::copy_of(alloc, ciphertext)?,
    );
    Ok((edk, rest))
}

#[tactic(auto, unfolding(crate::specs::Reading::edks_at))]
fn edks_at(alloc: Global, bytes: &[u8]) -> Result<(Edks, &[u8]), Stop>
    ensures { Gives (λ x. (x.0, x.1.now)) result (edks_at bytes.now) }
{
    let (count, rest) = edk_count_at(bytes)?;
    let (edks, rest) = edk_list_at(alloc, count, rest)?;
    Ok((Edks::from_vec(edks), rest))
}

fn edk_list_at(alloc: Global, count: u8, bytes: &[u8]) -> Result<(Vec<Edk>, &[u8]), Stop>
    ensures gives { Gives (λ x. (x.0.items, x.1.now)) result (many_at edk_at count bytes.now) }
    ensures edks { IfOk result (λ x. 1 ≤ count → count ≤ most_edks → AreEdks x.0.items) }
{
    let mut edks = Vec::with_capacity(alloc, usize::from(count))?;
    let mut rest = bytes;
    for _ in 0..count {
        let (edk, after) = edk_at(alloc, rest)?;
        edks.push(edk)?;
        rest = after;
    }
    Ok((edks, rest))
}
