ghost use Rattle.std.specs.Prelude.{◌≡◌, ◌≤◌, true, length, if◌then◌else◌, Some, None};
ghost use Rattle.std.specs.List.{list_all};
ghost use Rattle.dbe_values.specs.BranchIds.{is_branch_id, is_branch_byte};

use std::marker::Model;

/// The name of a branch: 1 to 64 bytes of `A-Z a-z 0-9 _ -`. It is held in place.
///
/// Contracts see the list of the bytes.
#[derive(Debug, Drop)]
pub struct BranchId {
    bytes: [u8; 64],
    len: usize,
}

impl Model for BranchId {
    ghost use Rattle.std.specs.Prelude.{◌≡◌, List, ℕ, ◌≤◌, true, take};
    ghost use Rattle.dbe_values.specs.BranchIds.{is_branch_id};

    ghost Value = { List ℕ };

    ghost view = { λ b. take b.len b.bytes };

    ghost invariant = { λ b. (b.len ≤ 64) × (is_branch_id (take b.len b.bytes) ≡ true) };
}

impl BranchId {
    /// The branch id that a text is, or none where it is none.
    pub fn read(text: &[u8]) -> Option<BranchId>
        ensures { result ≡ (if is_branch_id text.now then Some text.now else None) }
    {
        if is_branch_id(text) {
            Some(held(text))
        } else {
            None
        }
    }

    /// The bytes. They are a branch id, which callers may rely on.
    pub fn as_bytes(&self) -> &[u8]
        ensures bytes { result.now ≡ self.now }
        ensures id { is_branch_id self.now ≡ true }
    {
        &self.bytes[..self.len]
    }

    pub fn copy(&self) -> BranchId
        ensures { result ≡ self.now }
    {
        BranchId {
            bytes: self.bytes,
            len: self.len,
        }
    }
}

fn held(text: &[u8]) -> BranchId
    requires fits { length text.now ≤ 64 }
    requires id { is_branch_id text.now ≡ true }
    ensures { result ≡ text.now }
{
    let mut bytes = [0; 64];
    bytes[..text.len()].copy_from_slice(text);
    BranchId {
        bytes,
        len: text.len(),
    }
}

fn is_branch_id(text: &[u8]) -> bool
    ensures { result ≡ is_branch_id text.now }
{
    !text.is_empty() && text.len() <= 64 && has_branch_bytes(text)
}

fn has_branch_bytes(text: &[u8]) -> bool
    ensures { result ≡ list_all is_branch_byte text.now }
{
    text.iter().all(|b| is_branch_byte(*b))
}

fn is_branch_byte(b: u8) -> bool
    ensures { result ≡ is_branch_byte b }
{
    matches!(b, b'A'..=b'Z' | b'a'..=b'z' | b'0'..=b'9' | b'_' | b'-')
}
