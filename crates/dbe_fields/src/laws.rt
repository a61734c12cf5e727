//! What holds of the values of names. These functions do nothing: their clauses are the laws.

ghost use Rattle.std.specs.Prelude.{◌≡◌, List, ℕ, false};
ghost use Rattle.dbe_values.specs.Attributes.{value_at};
ghost use Rattle.dbe_values.specs.declared.value.AttrValue.{AttrValue};
ghost use Rattle.dbe_config.specs.Setting.{Setting};
ghost use Rattle.dbe_fields.specs.Plain.{plain, is_computed};
ghost use Rattle.dbe_fields.specs.Extended.{extended};

/// An extended item has at each name its value over the item.
pub fn extended_has_plain_values()
    ensures { (s : Setting) (row : List (List ℕ × AttrValue)) (name : List ℕ) → value_at name (extended s row) ≡ plain s name row }
{}

/// The value of a name that is not computed is the attribute's.
pub fn attributes_are_plain()
    ensures { (s : Setting) (row : List (List ℕ × AttrValue)) (name : List ℕ) → is_computed s name ≡ false → plain s name row ≡ value_at name row }
{}
