//! What holds of headers, contexts, footers and signed names. These functions do nothing: their clauses are the laws.

ghost use Rattle.std.specs.Prelude.{◌≡◌, ℕ, ◌-◌, List, ◌++◌, length, map, take, Option};
ghost use Rattle.std.specs.Ordering.{nat_cmp};
ghost use Rattle.std.specs.Cmp.Lexicographic.{slice_cmp};
ghost use Rattle.std.specs.List.Sorted.{IsPermutation, IsStrictlySortedBy};
ghost use Rattle.dbe_values.specs.Lawful.{AreBytes, IsLawfulItem};
ghost use Rattle.dbe_values.specs.declared.value.AttrValue.{AttrValue};
ghost use Rattle.dbe_values.specs.Val.{Val};
ghost use Rattle.dbe_values.specs.declared.key.KeySchema.{KeySchema};
ghost use Rattle.dbe_canon.specs.Path.{name_cmp};
ghost use Rattle.dbe_config.specs.Setting.{Setting};
ghost use Rattle.dbe_frame.specs.Context.{key_pairs, computed_pairs, HasTwoNames};
ghost use Rattle.dbe_frame.specs.Footer.{AreTags};
ghost use Rattle.dbe_frame.specs.Format.{Spells, joined};
ghost use Rattle.dbe_frame.specs.Header.{HeaderParts, HasParts, IsHeader, header, fields_of, header_prefix};
ghost use Rattle.dbe_frame.specs.Signed.{signed_among, signed_names};
ghost use Rattle.dbe_frame.specs.Sizes.{commitment_size};

/// Bytes are at most one header. So what was written is read as the same header, and what was read is written as the
/// same bytes.
pub fn one_header()
    ensures { (a b : HeaderParts) (bytes : List ℕ) → IsHeader a bytes → IsHeader b bytes → a ≡ b }
{}

/// The fields of a header are those that its format takes in full, and no others.
pub fn fields_keep_rules()
    ensures some { (h : HeaderParts) → HasParts h → Spells header (fields_of h) h }
    ensures one { (h : HeaderParts) (fields : List (List ℕ)) → AreBytes (joined fields) → Spells header fields h → HasParts h × (fields ≡ fields_of h) }
{}

/// A header's bytes are its prefix and then its commitment. The prefix, of which the commitment is made, is all but the
/// last 32 bytes, and is the same whatever the commitment is.
pub fn commitment_last()
    ensures split { (h : HeaderParts) (bytes : List ℕ) → IsHeader h bytes → bytes ≡ header_prefix h ++ h.commitment }
    ensures before { (h : HeaderParts) (bytes : List ℕ) → IsHeader h bytes → take (length bytes - commitment_size) bytes ≡ header_prefix h }
    ensures apart { (h : HeaderParts) (other : List ℕ) → header_prefix (record { message_id = h.message_id; legend = h.legend; context = h.context; edks = h.edks; commitment = other }) ≡ header_prefix h }
{}

/// The computed pairs are those of the table, its schema and the key, in strict order of their keys' bytes.
pub fn context_order()
    ensures order { (schema : KeySchema) (table : List ℕ) (key : Val × Option Val) → HasTwoNames schema → IsStrictlySortedBy (slice_cmp nat_cmp) (map (λ pair. pair.0) (computed_pairs schema table key)) }
    ensures same { (schema : KeySchema) (table : List ℕ) (key : Val × Option Val) → IsPermutation (key_pairs schema table key) (computed_pairs schema table key) }
{}

/// Bytes are the tags of at most one list.
pub fn one_footer()
    ensures { (n : ℕ) (a b : List (List ℕ)) (bytes : List ℕ) → AreTags n a bytes → AreTags n b bytes → a ≡ b }
{}

/// The signed names of an item are its names that are not unsigned, each once, in strict order.
pub fn canonical_order()
    ensures order { (s : Setting) (row : List (List ℕ × AttrValue)) → IsLawfulItem row → IsStrictlySortedBy name_cmp (signed_names s row) }
    ensures same { (s : Setting) (row : List (List ℕ × AttrValue)) → IsPermutation (signed_among s row) (signed_names s row) }
{}
