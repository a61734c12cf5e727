use super::*;
use dbe_num::{Bytes, Text};
use std::alloc::Global;
use std::process::Abort;
use std::test::Fail;

const CONTEXT: &[u8] = b"\x00\x00\x00\x00context";

#[test]
fn copies_and_shows(rt: HostRuntime) -> Result<(), Fail> {
    let alloc = rt.alloc();
    let edk = short(&rt, alloc, b"n", b"k", b"\x00\xff\x7f")?.copy(alloc)?;
    assert_eq!(rt; edk.provider(), b"n".as_slice());
    assert_eq!(rt; edk.info(), b"k".as_slice());
    assert_eq!(rt; edk.ciphertext(), b"\x00\xff\x7f".as_slice());
    Ok(())
}

fn short(
    rt: &impl Abort,
    alloc: Global,
    provider: &[u8],
    info: &[u8],
    ciphertext: &[u8],
) -> Result<Edk, Fail> {
    let provider = Bytes::copy_of(alloc, provider)?;
    let info = Bytes::copy_of(alloc, info)?;
    let ciphertext = Bytes::copy_of(alloc, ciphertext)?;
    assert!(rt; provider.as_slice().len() <= 65_535);
    assert!(rt; info.as_slice().len() <= 65_535);
    assert!(rt; ciphertext.as_slice().len() <= 65_535);
    Ok(Edk::new(provider, info, ciphertext))
}

// The bytes from `first` on.
fn counting<const N: usize>(first: u8) -> [u8; N] {
    let mut bytes = [0; N];
    let mut byte = first;
    for i in 0..N {
        bytes[i] = byte;
        byte = byte.wrapping_add(1);
    }
    bytes
}

// The ring "n", "k" with the key 00 to 1f.
fn ring(rt: &impl Abort, alloc: Global) -> Result<RawRing, Fail> {
    let namespace = Text::copy_of(alloc, "n")?;
    let name = Text::copy_of(alloc, "k")?;
    assert!(rt; namespace.as_bytes().len() <= 65_535);
    assert!(rt; name.as_bytes().len() <= 65_535);
    Ok(RawRing::new(namespace, name, &counting::<32>(0)))
}

// Whether the text is the bytes in hexadecimal.
fn spells(text: &[u8], bytes: &[u8]) -> bool {
    let digits = b"0123456789abcdef";
    if text.len() / 2 != bytes.len() {
        return false;
    }
    for i in 0..bytes.len() {
        let byte = bytes[i] as usize;
        if text[2 * i] != digits[byte / 16] || text[2 * i + 1] != digits[byte % 16] {
            return false;
        }
    }
    true
}

// Expected values from the Python package cryptography.
const CIPHERTEXT: &[u8] =
    b"202122232425262728292a2bd23ba473689d1c09127548c5cd15faf6c058fe8f939575f974ef760955974016d9c98732ed3f982de842b8bc4085c0fbec26528fddf8f7d05c089987d1f9f31466d9eee72ea351729359934c593c299021934667a1c3b7ad458942122a1edf67";

const SIGNING: &[u8] =
    b"7bb5e936d6b6e4f1526bc18721ee2ff5065d2539c50be03b3e60a8c825d8159251c0b8e0b3c14dee8001b29da5316856";

// The data key e0 to ff, wrapped with the drawn bytes 00 to 2b.
fn wrapped(alloc: Global, ring: &RawRing) -> Result<Wrapped, Fail> {
    let salt = EmptySalt::new();
    let drawn = counting::<44>(0);
    Ok(wrap(alloc, ring, &salt, CONTEXT, &counting::<32>(0xe0), &drawn)?)
}

#[test]
fn wraps_and_unwraps(rt: HostRuntime) -> Result<(), Fail> {
    let alloc = rt.alloc();
    let ring = ring(&rt, alloc)?;
    let wrapped = wrapped(alloc, &ring)?;
    assert_eq!(rt; wrapped.edk.provider(), b"n".as_slice());
    assert_eq!(rt; wrapped.edk.info(), b"k".as_slice());
    assert!(rt; spells(CIPHERTEXT, wrapped.edk.ciphertext()));
    assert!(rt; spells(SIGNING, &wrapped.signing));
    assert!(rt; opens(&ring, CONTEXT, &wrapped.edk));
    assert!(rt; !opens(&ring, b"context", &wrapped.edk));
    Ok(())
}

// Whether the data key e0 to ff unwraps.
fn opens(ring: &RawRing, context: &[u8], edk: &Edk) -> bool {
    match unwrap(ring, &EmptySalt::new(), context, edk) {
        Ok(opened) => opened.key == counting::<32>(0xe0) && spells(SIGNING, &opened.signing),
        Err(_) => false,
    }
}

// With any byte of the ciphertext changed a data key is refused.
#[test]
fn refuses_each_changed_byte(rt: HostRuntime) -> Result<(), Fail> {
    let alloc = rt.alloc();
    let ring = ring(&rt, alloc)?;
    let edk = wrapped(alloc, &ring)?.edk;
    for i in 0..108 {
        let other = changed(&rt, alloc, &edk, i)?;
        assert!(rt; is_refused(&ring, &other), "byte {i}");
    }
    Ok(())
}

fn changed(rt: &impl Abort, alloc: Global, edk: &Edk, at: usize) -> Result<Edk, Fail> {
    let mut bytes = Bytes::copy_of(alloc, edk.ciphertext())?.into_vec();
    assert!(rt; at < bytes.len());
    bytes[at] ^= 1;
    short(rt, alloc, b"n", b"k", &bytes)
}

fn is_refused(ring: &RawRing, edk: &Edk) -> bool {
    match unwrap(ring, &EmptySalt::new(), CONTEXT, edk) {
        Ok(_) => false,
        Err(fault) => fault == RingFault::NotAuthentic,
    }
}
