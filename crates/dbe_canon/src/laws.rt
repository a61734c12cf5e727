//! What holds of canonical bytes and paths. These functions do nothing: their clauses are the laws.

ghost use Rattle.std.specs.Prelude.{◌≡◌, ◌<◌, ◌^◌, List, ℕ, length};
ghost use Rattle.std.specs.Ordering.{nat_cmp};
ghost use Rattle.std.specs.Cmp.Lexicographic.{slice_cmp};
ghost use Rattle.dbe_values.specs.Val.{Val};
ghost use Rattle.dbe_values.specs.Lawful.{IsLawful};
ghost use Rattle.dbe_canon.specs.Canon.{type_id, canon_of, HasShortParts, Canon, IsShort};
ghost use Rattle.dbe_canon.specs.Path.{path_of, name_cmp};

/// Each lawful value whose counts and lengths fit 8 bytes has an id and canonical bytes, and no others.
pub fn one_spelling()
    ensures some { (value : Val) → IsLawful 32 value → HasShortParts value → Canon value (type_id value) (canon_of value) }
    ensures one { (value : Val) (i j b c : List ℕ) → Canon value i b → Canon value j c → (i ≡ j) × (b ≡ c) }
{}

/// An id and bytes belong to at most one value. So what was written is read as the same value.
pub fn one_value()
    ensures { (a b : Val) (id bytes : List ℕ) → Canon a id bytes → Canon b id bytes → a ≡ b }
{}

/// What was read is written as the same id and bytes.
pub fn written_again()
    ensures { (value : Val) (id bytes : List ℕ) → Canon value id bytes → (type_id value ≡ id) × (canon_of value ≡ bytes) }
{}

/// A value with a count or a length that does not fit 8 bytes has 2^64 canonical bytes or more, so its
/// `canon_len` is 2^64 - 1.
pub fn short_parts()
    ensures { (value : Val) → length (canon_of value) < 2 ^ 64 → HasShortParts value }
{}

/// The order of names is the order of the bytes of their paths.
pub fn path_order()
    ensures { (table a b : List ℕ) → IsShort a → IsShort b → slice_cmp nat_cmp (path_of table a) (path_of table b) ≡ name_cmp a b }
{}
