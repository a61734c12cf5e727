//! What holds of values and the JSON that spells them. These functions do nothing: their clauses are the laws.

ghost use Rattle.std.specs.Prelude.{◌≡◌, List, ℕ, Ok, true, map};
ghost use Rattle.std.specs.declared.option.Option.{Option};
ghost use Rattle.dbe_values.specs.Val.{Val};
ghost use Rattle.dbe_values.specs.View.{view, attr_of, entries_of, attributes_of, entry_view};
ghost use Rattle.dbe_values.specs.Lawful.{IsLawful, IsLawfulItem};
ghost use Rattle.dbe_values.specs.Reading.{value_in};
ghost use Rattle.dbe_values.specs.Writing.{value_data, item_data};
ghost use Rattle.dbe_values.specs.Items.{item_in};
ghost use Rattle.dbe_values.specs.Keys.{row_key, is_lawful_key};
ghost use Rattle.dbe_values.specs.declared.value.AttrValue.{AttrValue};
ghost use Rattle.dbe_values.specs.declared.key.KeySchema.{KeySchema as the_schema};

/// Reading what a value is written as gives the value.
pub fn value_read_again()
    ensures { (x : Val) → IsLawful 32 x → value_in 32 (value_data x) ≡ Ok x }
{}

/// Reading what an item is written as gives the item.
pub fn item_read_again()
    ensures { (attributes : List (List ℕ × AttrValue)) → IsLawfulItem attributes → item_in (item_data attributes) ≡ Ok (entries_of (map entry_view attributes)) }
{}

/// A value and its view tell each other.
pub fn one_view()
    ensures value { (a : AttrValue) → attr_of (view a) ≡ a }
    ensures view { (x : Val) → view (attr_of x) ≡ x }
    ensures attributes { (attributes : List (List ℕ × AttrValue)) → attributes_of (entries_of (map entry_view attributes)) ≡ attributes }
{}

/// The key of an item is lawful.
pub fn a_read_key_is_lawful()
    ensures { (schema : the_schema) (attributes : List (List ℕ × AttrValue)) (key : Val × Option Val) → row_key schema attributes ≡ Ok key → is_lawful_key schema key ≡ true }
{}
