ghost use Rattle.std.specs.Prelude.{List, ℕ, is_err};
ghost use Rattle.std.specs.Io.{ReadsAtMost};
ghost use Rattle.std.specs.Io.KnownBytes.{ReadConsumes};
ghost use Rattle.std.specs.declared.option.Option.{Option};
ghost use Rattle.dbe_io.specs.Causes.{HasCause};

use crate::Failed;

/// What bytes come from.
///
/// A source may tell the bytes that are still to come. It counts its failures.
pub trait Source {
    /// The bytes that are still to come, in their order, where the source tells them.
    ghost left: { Self → Option (List ℕ) };

    /// How often it has failed. The count stays at its greatest value.
    ghost faults: { Self → ℕ };

    /// Moves the next bytes to the front of `out` and answers how many, at most as many as `out` has
    /// room for. None into an `out` with room means that no bytes are left.
    ///
    /// `Failed`: the source failed in this call. `faults` rises then, and in no other case. The bytes
    /// that are told stay as they were.
    fn read(&mut self, out: &mut [u8]) -> Result<usize, Failed>
        ensures bound { ReadsAtMost result out.new }
        ensures bytes { ReadConsumes (left self.old) (left self.new) result out.new }
        ensures cause { HasCause (is_err result) (faults self.old) (faults self.new) };
}
