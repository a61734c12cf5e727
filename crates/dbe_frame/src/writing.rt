ghost use Rattle.std.specs.Prelude.{◌≡◌, ◌≤◌, ◌++◌, IfOk, OnOk};
ghost use Rattle.std.specs.List.{All, flat_map};
ghost use Rattle.dbe_rawring.specs.Edk.{IsShort};
ghost use Rattle.dbe_frame.specs.Context.{short_string, pair_text};
ghost use Rattle.dbe_frame.specs.Header.{IsHeader, IsShortPair, short_number};
ghost use Rattle.dbe_frame.specs.Sizes.{most_counted};
ghost use Rattle.dbe_frame.specs.Writing.{edk_text, context_part, edks_part};

use crate::sizes::{FLAVOUR, VERSION};
use crate::{Edks, Header, Pairs};
use dbe_num::{Bytes, Memory};
use dbe_rawring::Edk;
use std::alloc::Global;

/// The bytes of the fields of a header whose sizes are fixed.
const FIXED_BYTES: usize = 71;

/// The bytes of the two lengths of a pair.
const PAIR_LENGTHS: usize = 4;

/// The bytes of the three lengths of a data key.
const EDK_LENGTHS: usize = 6;

/// The bytes of a header.
pub fn write(alloc: Global, header: &Header) -> Result<Vec<u8>, Memory>
    ensures { IfOk result (λ bytes. IsHeader header.now bytes.items) }
{
    header.has_parts();
    let mut out = Vec::with_capacity(alloc, header_len(header))?;
    put_bytes(&mut out, &[VERSION, FLAVOUR])?;
    put_bytes(&mut out, header.message_id())?;
    put_string(&mut out, header.legend())?;
    put_pairs(&mut out, header.context())?;
    put_edks(&mut out, header.edks())?;
    put_bytes(&mut out, header.commitment())?;
    Ok(out)
}

/// How many bytes a header has; this only sizes the memory that is taken.
fn header_len(header: &Header) -> usize {
    let mut len = FIXED_BYTES
        .saturating_add(header.legend().len())
        .saturating_add(pairs_len(header.context().as_slice()));
    for edk in header.edks().as_slice() {
        len = len
            .saturating_add(EDK_LENGTHS)
            .saturating_add(edk.provider().len())
            .saturating_add(edk.info().len())
            .saturating_add(edk.ciphertext().len());
    }
    len
}

/// How many bytes pairs have, their count aside.
pub(crate) fn pairs_len(pairs: &[(Bytes, Bytes)]) -> usize {
    let mut len = 0usize;
    for pair in pairs {
        len = len
            .saturating_add(PAIR_LENGTHS)
            .saturating_add(pair.0.as_slice().len())
            .saturating_add(pair.1.as_slice().len());
    }
    len
}

pub(crate) fn put_bytes(out: &mut Vec<u8>, bytes: &[u8]) -> Result<(), Memory>
    ensures { OnOk result (out.new.items ≡ out.old.items ++ bytes.now) }
{
    out.extend_from_slice(bytes)?;
    Ok(())
}

/// A count or a length in two bytes.
fn put_number(out: &mut Vec<u8>, number: usize) -> Result<(), Memory>
    requires { number ≤ most_counted }
    ensures { OnOk result (out.new.items ≡ out.old.items ++ short_number number) }
{
    put_bytes(out, &(number as u16).to_be_bytes())
}

/// Bytes behind their length.
pub(crate) fn put_string(out: &mut Vec<u8>, bytes: &[u8]) -> Result<(), Memory>
    requires { IsShort bytes.now }
    ensures { OnOk result (out.new.items ≡ out.old.items ++ short_string bytes.now) }
{
    put_number(out, bytes.len())?;
    put_bytes(out, bytes)
}

fn put_pairs(out: &mut Vec<u8>, pairs: &Pairs) -> Result<(), Memory>
    ensures { OnOk result (out.new.items ≡ out.old.items ++ context_part pairs.now) }
{
    let pairs = pairs.as_slice();
    put_number(out, pairs.len())?;
    put_pair_list(out, pairs)
}

pub(crate) fn put_pair_list(out: &mut Vec<u8>, pairs: &[(Bytes, Bytes)]) -> Result<(), Memory>
    requires { All IsShortPair pairs.now }
    ensures { OnOk result (out.new.items ≡ out.old.items ++ flat_map pair_text pairs.now) }
{
    for pair in pairs {
        put_string(out, pair.0.as_slice())?;
        put_string(out, pair.1.as_slice())?;
    }
    Ok(())
}

fn put_edks(out: &mut Vec<u8>, edks: &Edks) -> Result<(), Memory>
    ensures { OnOk result (out.new.items ≡ out.old.items ++ edks_part edks.now) }
{
    let edks = edks.as_slice();
    out.push(edks.len() as u8)?;
    put_edk_list(out, edks)
}

fn put_edk_list(out: &mut Vec<u8>, edks: &[Edk]) -> Result<(), Memory>
    ensures { OnOk result (out.new.items ≡ out.old.items ++ flat_map edk_text edks.now) }
{
    for edk in edks {
        put_edk(out, edk)?;
    }
    Ok(())
}

fn put_edk(out: &mut Vec<u8>, edk: &Edk) -> Result<(), Memory>
    ensures { OnOk result (out.new.items ≡ out.old.items ++ edk_text edk.now) }
{
    put_string(out, edk.provider())?;
    put_string(out, edk.info())?;
    put_string(out, edk.ciphertext())
}
