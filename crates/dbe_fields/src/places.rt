ghost use Rattle.std.specs.Prelude.{◌≡◌, ℕ, ◌<◌, ◌≤◌, List, length, drop, slice_get, option_and_then, IfSome};
ghost use Rattle.dbe_fields.specs.Places.{place_in};
ghost use Rattle.dbe_fields.specs.Steps.{last_of, piece_at};

// A place in what has so many. From the end where it is negative, and never outside.
pub(crate) fn place_in(len: usize, place: i32) -> usize
    ensures { result ≡ place_in len place }
{
    let size = place.unsigned_abs() as usize;
    if place < 0 {
        len.saturating_sub(size)
    } else {
        size.min(len)
    }
}

// Where the last so many begin, or what follows the first so many where it is negative.
pub(crate) fn last_from(len: usize, count: i32) -> usize
    ensures within { result ≤ len }
    ensures rest { (cs : List ℕ) → length cs ≡ len → drop result cs ≡ last_of count cs }
{
    let size = count.unsigned_abs() as usize;
    if count < 0 {
        size.min(len)
    } else {
        len.saturating_sub(size)
    }
}

// The number of a piece among so many, if it is there. From the end where it is negative.
pub(crate) fn piece_number(count: usize, place: i32) -> Option<usize>
    ensures within { IfSome result (λ n. n < count) }
    ensures piece { (ps : List (List ℕ)) → length ps ≡ count → option_and_then (slice_get ps) result ≡ piece_at place ps }
{
    let size = place.unsigned_abs() as usize;
    if place < 0 {
        if size <= count {
            Some(count - size)
        } else {
            None
        }
    } else if size < count {
        Some(size)
    } else {
        None
    }
}
