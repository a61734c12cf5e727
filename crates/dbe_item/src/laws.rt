//! What follows from the definitions alone. The functions do nothing; their contracts are the laws.

ghost use Rattle.std.specs.Prelude.{◌≡◌, ℕ, true, false, List};
ghost use Rattle.dbe_values.specs.Keys.{has_key, key_of};
ghost use Rattle.dbe_values.specs.Lawful.{IsLawfulItem};
ghost use Rattle.dbe_values.specs.declared.value.AttrValue.{AttrValue};
ghost use Rattle.dbe_config.specs.Rules.{is_empty_list};
ghost use Rattle.dbe_config.specs.Setting.{Setting};
ghost use Rattle.dbe_item.specs.Opens.{Opens};
ghost use Rattle.dbe_item.specs.Reasons.{IsReason, IsSealedReason};
ghost use Rattle.dbe_item.specs.Stands.{StandsFor};
ghost use Rattle.dbe_item.specs.declared.open_fault.OpenFault.{OpenFault};

/// A row opens to one item at most, by the encrypted data key at one place.
pub fn opens_to_one()
    ensures item { (c : Setting) (row a b : List (List ℕ × AttrValue)) (i j : ℕ)
        → Opens c row a i → Opens c row b j → a ≡ b }
    ensures place { (c : Setting) (row a b : List (List ℕ × AttrValue)) (i j : ℕ)
        → Opens c row a i → Opens c row b j → i ≡ j }
{}

/// A row stands for one item at most, whatever its beacon attributes are.
pub fn stands_for_one()
    ensures { (c : Setting) (beacons others row a b : List (List ℕ × AttrValue))
        → StandsFor c beacons row a → StandsFor c others row b → a ≡ b }
{}

/// A row has one reason at most not to open, apart from memory.
pub fn one_reason()
    ensures { (c : Setting) (row : List (List ℕ × AttrValue)) (f g : OpenFault)
        → (f ≡ OpenFault.Memory → ⊥) → (g ≡ OpenFault.Memory → ⊥) → IsReason f c row → IsReason g c row → f ≡ g }
{}

/// A row that opens has no reason not to, apart from memory. A valid row has each name once; with a name twice two
/// stored fields would have one number.
pub fn opens_without_a_reason()
    ensures { (c : Setting) (row item : List (List ℕ × AttrValue)) (i : ℕ) (f : OpenFault)
        → IsLawfulItem row → Opens c row item i → IsSealedReason f c row → f ≡ OpenFault.Memory }
{}

/// A row opens to an item with its own key. Where the configuration has recipients that is a valid key; over a plain
/// table it is one exactly where the row has one.
pub fn opens_with_its_key()
    ensures key { (c : Setting) (row item : List (List ℕ × AttrValue)) (i : ℕ)
        → IsLawfulItem row → Opens c row item i → key_of c.schema item ≡ key_of c.schema row }
    ensures as_row { (c : Setting) (row item : List (List ℕ × AttrValue)) (i : ℕ)
        → IsLawfulItem row → Opens c row item i → has_key c.schema item ≡ has_key c.schema row }
    ensures valid { (c : Setting) (row item : List (List ℕ × AttrValue)) (i : ℕ)
        → IsLawfulItem row → Opens c row item i → is_empty_list c.recipients ≡ false → has_key c.schema item ≡ true }
{}
