ghost use Rattle.std.specs.Prelude.{◌≡◌, List, ℕ, is_err, is_some};
ghost use Rattle.std.specs.declared.option.Option.{Option};
ghost use Rattle.dbe_io.specs.Causes.{HasCause};
ghost use Rattle.dbe_io.specs.Dice.{FillConsumes};

use crate::Failed;

/// What random bytes come from.
///
/// Dice may tell the bytes that are still to come. They count their failures.
pub trait Dice {
    /// The bytes that are still to come, in their order, where the dice tell them.
    ghost left: { Self → Option (List ℕ) };

    /// How often they have failed. The count stays at its greatest value.
    ghost faults: { Self → ℕ };

    /// Moves the next bytes to the whole of `out`: as many as it has room for, which may be none.
    ///
    /// `Failed`: the dice failed in this call. `faults` rises then, and in no other case. The bytes
    /// that are told stay as they were, and `out` may hold anything.
    fn fill(&mut self, out: &mut [u8]) -> Result<(), Failed>
        ensures bytes { FillConsumes (left self.old) (left self.new) result out.new }
        ensures told { is_some (left self.new) ≡ is_some (left self.old) }
        ensures cause { HasCause (is_err result) (faults self.old) (faults self.new) };
}
