use crate::item_keys::derived;
use crate::{FieldFault, ItemKeys, recipient_tag};
use dbe_kdf::EmptySalt;
use dbe_num::{Bytes, Text};
use dbe_values::{AttrValue, equal};
use std::test::Fail;

const DIGITS: [u8; 16] = *b"0123456789abcdef";

// The path of `state` in the table `people`, and its field of the text `WA`, field 6 of the item.
const PATH: [u8; 36] = *b"\0\0\0\0\0\0\0\x06people\0\0\0\0\0\0\0\x01$\0\0\0\0\0\0\0\x05state";

const FIELD: [u8; 20] =
    *b"\x00\x01\x2a\xee\xef\xba\xf3\x69\xc3\xcc\x4a\x36\x9a\x4e\xa8\xba\x16\xcc\x56\x13";

// Whether the text is the bytes in hexadecimal.
fn spells(text: &[u8], bytes: &[u8]) -> bool {
    if text.len() / 2 != bytes.len() {
        return false;
    }
    for i in 0..bytes.len() {
        let byte = bytes[i] as usize;
        if text[2 * i] != DIGITS[byte / 16] || text[2 * i + 1] != DIGITS[byte % 16] {
            return false;
        }
    }
    true
}

// The 32 bytes that count up from `first`.
fn counting(first: u8) -> [u8; 32] {
    let mut bytes = [first; 32];
    for i in 0..32 {
        bytes[i] = first.wrapping_add(i as u8);
    }
    bytes
}

fn keys() -> ItemKeys {
    ItemKeys::new(&EmptySalt::new(), &counting(32), &counting(0))
}

// Expected values from Python's hmac and hashlib and its package cryptography.
#[test]
fn derives_keys(rt: HostRuntime) {
    let prk = EmptySalt::new().extract(&counting(32));
    let root = derived(&prk, b"AWS_DBE_DERIVE_KEY", &counting(0));
    assert!(rt;
        spells(
            b"99940169feca4058794d01b57a23c2cc7b8dad12dfff12abe1a140afd36cf14f",
            &root
        )
    );
    let commit = derived(&prk, b"AWS_DBE_COMMIT_KEY", &counting(0));
    assert!(rt;
        spells(
            b"c0c278a1ecaedcf88f127217d606374e38758794e4918c7ded218cd87d3bdaca",
            &commit
        )
    );
    let commitment = keys().commitment(b"abc");
    assert!(rt;
        spells(
            b"978936d16c375b1a2a25b23b5ea0b3c180d0ffbe1b3986eca12d28fac16fabef",
            &commitment
        )
    );
    let fields: [(u32, &[u8]); 3] = [
        (
            0,
            b"53076dd09dd05102bd48bce419536e6636eafaf991a23ea8b1a7c8a0c39695ae5d30f3be6ae855a7221f6db6",
        ),
        (
            6,
            b"894bf1b7baf99115d33f6aebfa2baa7610c57b685183ae204615d76ea3bf1388bb571f50213a558e5b8685bc",
        ),
        (
            65535,
            b"d28e1872b1445c242b8b8ef0ea509aff3f445424f14de3f76892920ad627e20340bf68db08a0ab18cb5ac128",
        ),
    ];
    for (k, want) in fields {
        assert!(rt; k <= 65535 && spells(want, &keys().field_bytes(k)));
    }
}

// The SHA-384 of `abc` under a key that counts from 0, by Python's hmac and hashlib.
#[test]
fn tags_a_record(rt: HostRuntime) {
    let mut signing = [0u8; 48];
    for i in 0..48 {
        signing[i] = i as u8;
    }
    let digest =
        b"\xcb\x00\x75\x3f\x45\xa3\x5e\x8b\xb5\xa0\x3d\x69\x9a\xc6\x50\x07\x27\x2c\x32\xab\x0e\xde\xd1\x63\x1a\x8b\x60\x5a\x43\xff\x5b\xed\x80\x86\x07\x2b\xa1\xe7\xcc\x23\x58\xba\xec\xa1\x34\xc8\x25\xa7";
    let tag = recipient_tag(&signing, digest);
    assert!(rt;
        spells(
            b"054df2323c9b79a46b85b04d4fa8a61a4e15b155c8c00fb265b1be7bbcb67fb69bb3b3662af5d58dccbc30d83b4a92af",
            &tag
        )
    );
}

// The field's bytes from Python's package cryptography.
#[test]
fn seals_and_opens(rt: HostRuntime) -> Result<(), Fail> {
    let alloc = rt.alloc();
    let value = AttrValue::S(Text::copy_of(alloc, "WA")?);
    let field = keys().seal_field(alloc, 6, &PATH, &value)?;
    assert!(rt; field.as_slice() == FIELD.as_slice());
    let mut scratch = Vec::new(alloc);
    let opened = keys().open_field(alloc, &mut scratch, 6, &PATH, &FIELD);
    assert!(rt; gives(opened, &value));
    Ok(())
}

fn gives(opened: Result<AttrValue, FieldFault>, want: &AttrValue) -> bool {
    match opened {
        Ok(value) => equal(&value, want),
        Err(_) => false,
    }
}

fn fault_of(opened: Result<AttrValue, FieldFault>) -> Option<FieldFault> {
    match opened {
        Ok(_) => None,
        Err(fault) => Some(fault),
    }
}

// A changed bit, another field or another path. The tag covers all but the type: another type's value may have the
// same bytes.
#[test]
fn refuses_what_was_changed(rt: HostRuntime) -> Result<(), Fail> {
    let alloc = rt.alloc();
    let mut scratch = Vec::new(alloc);
    for i in 0..160 {
        let mut field = FIELD;
        field[i / 8] ^= 1u8 << (i % 8);
        let fault = fault_of(keys().open_field(alloc, &mut scratch, 6, &PATH, &field));
        // Of the types at one bit from `S` there are the null and the set of strings.
        let want = match i {
            0 | 8 => FieldFault::NotCanonical,
            1..=15 => FieldFault::Shape,
            _ => FieldFault::Tag,
        };
        assert_eq!(rt; fault, Some(want));
    }
    let mut binary = FIELD;
    binary[0] = 255;
    binary[1] = 255;
    let value = AttrValue::B(Bytes::copy_of(alloc, b"WA")?);
    let opened = keys().open_field(alloc, &mut scratch, 6, &PATH, &binary);
    assert!(rt; gives(opened, &value));
    let short = fault_of(keys().open_field(alloc, &mut scratch, 6, &PATH, &FIELD[..17]));
    assert_eq!(rt; short, Some(FieldFault::Shape));
    let other_field = fault_of(keys().open_field(alloc, &mut scratch, 5, &PATH, &FIELD));
    assert_eq!(rt; other_field, Some(FieldFault::Tag));
    let other_path = fault_of(keys().open_field(alloc, &mut scratch, 6, &PATH[..35], &FIELD));
    assert_eq!(rt; other_path, Some(FieldFault::Tag));
    Ok(())
}
