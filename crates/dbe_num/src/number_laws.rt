//! What holds of numbers and their texts. These functions do nothing: their clauses are the laws.

ghost use Rattle.std.specs.Prelude.{◌≡◌, ◌≢◌, List, ℕ, Ok, Err};
ghost use Rattle.dbe_num.specs.Decimal.{Decimal, IsNormal, units};
ghost use Rattle.dbe_num.specs.Numeral.{Numeral, IsNumeral, numeral_text, numeral_number};
ghost use Rattle.dbe_num.specs.NormalText.{normal_text};
ghost use Rattle.dbe_num.specs.Reading.{number_of};
ghost use Rattle.dbe_num.specs.declared.number_fault.NumberFault.TheVariants.{NotNumber};

/// `Number::parse` reads just the numerals of the grammar, each as its number.
pub fn number_grammar()
    ensures read { (t : Numeral) → IsNumeral t → number_of (numeral_text t) ≡ numeral_number t }
    ensures only { (text : List ℕ) → number_of text ≢ Err NotNumber → (t : Numeral) × IsNumeral t × (text ≡ numeral_text t) }
{}

/// The text of a number reads as that number.
pub fn number_read_again()
    ensures { (d : Decimal) → IsNormal d → number_of (normal_text d) ≡ Ok d }
{}

/// What a text reads as is in the normal form.
pub fn number_read_is_normal()
    ensures { (text : List ℕ) (d : Decimal) → number_of text ≡ Ok d → IsNormal d }
{}

/// Numbers of one value are one number, and so have one text.
pub fn one_number_a_value()
    ensures { (a b : Decimal) → IsNormal a → IsNormal b → units a ≡ units b → a ≡ b }
{}
