ghost use Rattle.std.specs.Prelude.{◌≡◌, ◌<◌, ◌++◌, ◌∷◌, [], List, ℕ, length, true, IfSome, Vec};
ghost use Rattle.std.specs.declared.alloc.Global.{Global};
ghost use Rattle.std.specs.declared.option.Option.{Option};
ghost use Rattle.std.specs.Io.KnownBytes.{IsAtEnd};
ghost use Rattle.dbe_io.specs.Lines.{lines_of, ended_lines, HasNone, IsWhole, IsTooLong, IsTooMuch};
ghost use Rattle.dbe_io.specs.Reading.{LineReaderState, Given, most_of};

/// An ended line in front of others is the first of their lines.
pub fn an_ended_line_comes_first()
    ensures { (line rest : List ℕ) → HasNone 10 line → lines_of (line ++ 10 ∷ rest) ≡ line ∷ lines_of rest }
{}

/// A last piece without a newline is one line.
pub fn a_last_piece_is_a_line()
    ensures { (line : List ℕ) → HasNone 10 line → 0 < length line → lines_of line ≡ line ∷ [] }
{}

/// Bytes that are empty or end with a newline keep their lines in front of others.
pub fn ended_lines_stay_in_front()
    ensures { (front rest : List ℕ) → IsWhole front → lines_of (front ++ rest) ≡ ended_lines front ++ lines_of rest }
{}

/// A line that is too long stays so, whatever comes after it.
pub fn too_long_stays()
    ensures { (limit most : ℕ) (held more : List ℕ) → IsTooLong limit most held → IsTooLong limit most (held ++ more) }
{}

/// Too much stays so, whatever comes after it.
pub fn too_much_stays()
    ensures { (limit most : ℕ) (held more : List ℕ) → IsTooMuch limit most held → IsTooMuch limit most (held ++ more) }
{}

/// What a reader gives of told bytes is within the limits of all of them.
pub fn what_is_given_is_within_the_limits()
    ensures { (old new : LineReaderState) (left left' : Option (List ℕ)) (line : Option (Vec ℕ Global)) → Given old new left left' line → (old.ended ≡ true → IsAtEnd left)
        → IfSome left (λ bytes. (¬ IsTooLong old.limit (most_of old) (old.held ++ bytes)) × (¬ IsTooMuch old.limit (most_of old) (old.held ++ bytes))) }
{}
