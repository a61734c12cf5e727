ghost use Rattle.std.specs.Prelude.{◌≤◌, IfOk, length};

use super::*;
use dbe_num::Bytes;
use dbe_rawring::Edk;
use std::alloc::Global;
use std::process::Abort;
use std::test::Fail;

fn short(rt: &impl Abort, alloc: Global, text: &[u8]) -> Result<Bytes, Fail>
    ensures { IfOk result (λ t. length t ≤ 255) }
{
    let text = Bytes::copy_of(alloc, text)?;
    assert!(rt; text.as_slice().len() <= 255);
    Ok(text)
}

fn one_edk(rt: &impl Abort, alloc: Global) -> Result<Edks, Fail> {
    let provider = short(rt, alloc, b"n")?;
    let info = short(rt, alloc, b"k")?;
    let ciphertext = short(rt, alloc, b"c")?;
    let edk = Edk::new(provider, info, ciphertext);
    Ok(Edks::from_vec(Vec::from_array(alloc, [edk])?))
}

fn one_pair(alloc: Global) -> Result<Pairs, Fail> {
    let key = Bytes::copy_of(alloc, b"k")?;
    let value = Bytes::copy_of(alloc, b"v")?;
    Ok(Pairs::new(Vec::from_array(alloc, [(key, value)])?).ok_or("pairs")?)
}

#[test]
fn lists_are_given_back(rt: HostRuntime) -> Result<(), Fail> {
    let alloc = rt.alloc();
    for pair in &one_pair(alloc)?.into_vec() {
        assert_eq!(rt; pair.1.as_slice(), b"v".as_slice());
    }
    for edk in &one_edk(&rt, alloc)?.into_vec() {
        assert_eq!(rt; edk.info(), b"k".as_slice());
    }
    Ok(())
}

/// 71 fixed bytes, 6 of the pair with its lengths, and 9 of the data key with its lengths.
#[test]
fn a_header_of_parts(rt: HostRuntime) -> Result<(), Fail> {
    let alloc = rt.alloc();
    let legend = Bytes::copy_of(alloc, &[])?;
    let edks = one_edk(&rt, alloc)?;
    let header = Header::new([1; 32], legend, one_pair(alloc)?, edks, [2; 32]);
    let bytes = write(alloc, &header)?;
    assert_eq!(rt; bytes.len(), 86);
    Ok(())
}
