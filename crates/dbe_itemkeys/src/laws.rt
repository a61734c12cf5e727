//! What follows from the definitions alone. The functions do nothing; their contracts are the laws.

ghost use Rattle.std.specs.Prelude.{◌≡◌, ℕ, ◌<◌, All, List, Some, length, take, true};
ghost use Rattle.dbe_values.specs.Val.{Val};
ghost use Rattle.dbe_canon.specs.Canon.{type_id, canon_of};
ghost use Rattle.dbe_itemkeys.specs.ItemKeys.{commit_key, root_key, commitment, recipient_tag};
ghost use Rattle.dbe_itemkeys.specs.Field.{has_field_shape, opened_field, sealed_field, IsField, IsFieldFault};
ghost use Rattle.dbe_itemkeys.specs.declared.fault.FieldFault.{FieldFault};

/// What was sealed as a field has a field's shape and its value's type, and opens to the value's canonical bytes.
pub fn opens_what_was_sealed_in_a_field()
    ensures shape { (root : List ℕ) (k : ℕ) (path : List ℕ) (value : Val)
        → has_field_shape (sealed_field root k path value) ≡ true }
    ensures id { (root : List ℕ) (k : ℕ) (path : List ℕ) (value : Val)
        → take 2 (sealed_field root k path value) ≡ type_id value }
    ensures text { (root : List ℕ) (k : ℕ) (path : List ℕ) (value : Val)
        → opened_field root k path (sealed_field root k path value) ≡ Some (canon_of value) }
{}

/// Bytes are the field of one value at most, under a root key, for a field's number and a path.
pub fn one_value_a_field()
    ensures { (root : List ℕ) (k : ℕ) (path bytes : List ℕ) (a b : Val)
        → IsField root k path bytes a → IsField root k path bytes b → a ≡ b }
{}

/// Opening the field of a value fails only where memory runs out.
pub fn a_field_has_no_fault()
    ensures { (root : List ℕ) (k : ℕ) (path bytes : List ℕ) (value : Val) (f : FieldFault)
        → IsField root k path bytes value → IsFieldFault f root k path bytes → f ≡ FieldFault.Memory }
{}

/// The commit key, the root key and the commitment have 32 bytes, and a recipient's tag has 48.
pub fn key_lengths()
    ensures commit_key_length { (data_key message_id : List ℕ) → length (commit_key data_key message_id) ≡ 32 }
    ensures commit_key_bytes { (data_key message_id : List ℕ) → All (λ b. b < 256) (commit_key data_key message_id) }
    ensures root_key_length { (data_key message_id : List ℕ) → length (root_key data_key message_id) ≡ 32 }
    ensures root_key_bytes { (data_key message_id : List ℕ) → All (λ b. b < 256) (root_key data_key message_id) }
    ensures commitment_length { (data_key message_id before : List ℕ)
        → length (commitment data_key message_id before) ≡ 32 }
    ensures commitment_bytes { (data_key message_id before : List ℕ)
        → All (λ b. b < 256) (commitment data_key message_id before) }
    ensures tag_length { (signing text : List ℕ) → length (recipient_tag signing text) ≡ 48 }
    ensures tag_bytes { (signing text : List ℕ) → All (λ b. b < 256) (recipient_tag signing text) }
{}
