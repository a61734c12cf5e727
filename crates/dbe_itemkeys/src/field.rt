ghost use Rattle.std.specs.Prelude.{◌≡◌, ◌++◌, ◌≤◌, IfOk, IfErr, IsTrue, Bool, length, take, drop, bytes_eq, ◌+◌};
ghost use Rattle.std.specs.List.{list_any};
ghost use Rattle.dbe_values.specs.View.{view};
ghost use Rattle.dbe_itemkeys.specs.Field.{type_ids, has_field_shape, field_block, field_bytes, field_key, field_iv, sealed_field, IsField, IsFieldFault};

use crate::{FieldFault, ItemKeys};
use dbe_aes::Key256;
use dbe_canon::{CanonFault, canon_len, put_canon, read, type_id};
use dbe_gcm::{open_in_place, seal_in_place};
use dbe_num::{Bytes, Memory};
use dbe_values::AttrValue;
use std::alloc::Global;

impl ItemKeys {
    /// The stored field of a value: its type (2 bytes), its canonical bytes enciphered with AES in GCM, and the tag (16
    /// bytes). The path is the associated data. `k` is the field's number among the encrypted attributes of the item.
    #[tactic(auto, unfolding(crate::specs::Field::sealed_field))]
    pub fn seal_field(
        &self,
        alloc: Global,
        k: u32,
        path: &[u8],
        value: &AttrValue,
    ) -> Result<Bytes, Memory>
        requires { k ≤ 65535 }
        ensures { IfOk result (λ b. b ≡ sealed_field self.now.root k path.now (view value.now)) }
    {
        let (key, iv) = self.field_key(k);
        let mut out = Vec::with_capacity(alloc, canon_len(value).saturating_add(18) as usize)?;
        out.extend_from_slice(&type_id(value))?;
        put_canon(&mut out, alloc, value)?;
        let tag = seal_in_place(&key, &iv, path, &mut out[2..]);
        out.extend_from_slice(&tag)?;
        Ok(Bytes::from_vec(out))
    }

    /// The value of a stored field, which is number `k` among the encrypted attributes of the item, and whose associated
    /// data is the path.
    ///
    /// `scratch` holds the ciphertext while it is deciphered: what is in it before and after means nothing, and its room
    /// is used again. The tag is compared before anything is deciphered.
    pub fn open_field(
        &self,
        alloc: Global,
        scratch: &mut Vec<u8>,
        k: u32,
        path: &[u8],
        bytes: &[u8],
    ) -> Result<AttrValue, FieldFault>
        requires { k ≤ 65535 }
        ensures ok { IfOk result (λ v. IsField self.now.root k path.now bytes.now (view v)) }
        ensures err { IfErr result (λ f. IsFieldFault f self.now.root k path.now bytes.now) }
    {
        if !has_field_shape(bytes) {
            return Err(FieldFault::Shape);
        }
        let end = bytes.len() - 16;
        scratch.clear();
        scratch.extend_from_slice(&bytes[2..end])?;
        let (key, iv) = self.field_key(k);
        if !open_in_place(&key, &iv, path, scratch, &tag_at(bytes, end)) {
            return Err(FieldFault::Tag);
        }
        match read(alloc, type_at(bytes), scratch) {
            Ok(value) => Ok(value),
            Err(CanonFault::NotCanonical) => Err(FieldFault::NotCanonical),
            Err(CanonFault::Memory) => Err(FieldFault::Memory),
        }
    }

    // The key and the IV of field `k`.
    fn field_key(&self, k: u32) -> (Key256, [u8; 12])
        requires { k ≤ 65535 }
        ensures key { result.0 ≡ field_key self.now.root k }
        ensures iv { result.1 ≡ field_iv self.now.root k }
    {
        let bytes = self.field_bytes(k);
        (Key256::new(&key_in(&bytes)), iv_in(&bytes))
    }

    // The 44 bytes of the root key's counter stream that are field `k`'s.
    #[tactic(auto, unfolding(crate::specs::Field::field_bytes))]
    pub(crate) fn field_bytes(&self, k: u32) -> [u8; 44]
        requires { k ≤ 65535 }
        ensures { result ≡ field_bytes self.now.root k }
    {
        let mut bytes = [0u8; 44];
        self.root.ctr(&field_block(k), &mut bytes);
        bytes
    }
}

// The first counter block of field `k`, which takes three of the stream.
fn field_block(k: u32) -> [u8; 16]
    requires { k ≤ 65535 }
    ensures { result ≡ field_block k }
{
    let mut block = *b"AwsDbeField,\0\0\0\0";
    block[12..].copy_from_slice(&(3 * k).to_be_bytes());
    block
}

fn key_in(bytes: &[u8; 44]) -> [u8; 32]
    ensures { result ≡ take 32 bytes.now }
{
    let mut key = [0u8; 32];
    key.copy_from_slice(&bytes[..32]);
    key
}

fn iv_in(bytes: &[u8; 44]) -> [u8; 12]
    ensures { result ≡ drop 32 bytes.now }
{
    let mut iv = [0u8; 12];
    iv.copy_from_slice(&bytes[32..]);
    iv
}

// Whether the bytes are long enough for a field, and the first two name a type.
#[tactic(auto, unfolding(crate::specs::Field::has_field_shape))]
fn has_field_shape(bytes: &[u8]) -> bool
    ensures shape { result ≡ has_field_shape bytes.now }
    ensures long { IsTrue result → 18 ≤ length bytes.now }
{
    bytes.len() >= 18 && names_type(&bytes[..2])
}

fn names_type(id: &[u8]) -> bool
    ensures { result ≡ list_any (bytes_eq id.now) type_ids }
{
    id == [0x00, 0x00].as_slice()
        || id == [0x00, 0x01].as_slice()
        || id == [0x00, 0x02].as_slice()
        || id == [0x00, 0x04].as_slice()
        || id == [0xff, 0xff].as_slice()
        || id == [0x01, 0x01].as_slice()
        || id == [0x01, 0x02].as_slice()
        || id == [0x01, 0xff].as_slice()
        || id == [0x02, 0x00].as_slice()
        || id == [0x03, 0x00].as_slice()
}

// The first two bytes.
fn type_at(bytes: &[u8]) -> [u8; 2]
    requires { 2 ≤ length bytes.now }
    ensures { result ≡ take 2 bytes.now }
{
    let mut id = [0u8; 2];
    id.copy_from_slice(&bytes[..2]);
    id
}

// The 16 bytes from `at` on.
fn tag_at(bytes: &[u8], at: usize) -> [u8; 16]
    requires { length bytes.now ≡ at + 16 }
    ensures { result ≡ drop at bytes.now }
{
    let mut tag = [0u8; 16];
    tag.copy_from_slice(&bytes[at..]);
    tag
}
