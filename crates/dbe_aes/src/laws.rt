//! What the counter stream promises, in its definitions' words.

ghost use Rattle.std.specs.Prelude.{◌≡◌, ◌-◌, ◌^◌, ℕ, List, [], ◌∷◌, ◌++◌, take};
ghost use Rattle.dbe_aes.specs.Words.{word_at};
ghost use Rattle.dbe_aes.specs.Counters.{gctr, inc32};

/// To decipher is to encipher again: the counter stream, added twice, gives the bytes back.
pub fn ctr_twice()
    ensures { (key first bytes : List ℕ) → gctr key first (gctr key first bytes) ≡ bytes }
{}

/// After the counter ffffffff comes 00000000, and the first 12 bytes of the block stay.
pub fn counter_wraps()
    ensures { (block : List ℕ) → word_at block 12 ≡ 2 ^ 32 - 1 → inc32 block ≡ take 12 block ++ 0 ∷ 0 ∷ 0 ∷ 0 ∷ [] }
{}
