ghost use Rattle.std.specs.Prelude.{◌≡◌, ◌==◌, count_by, ◌+◌, ◌<◌, ◌≤◌, length, take, drop, slice_range, option_map, IfSome};
ghost use Rattle.std.specs.List.{join_with_byte};
ghost use Rattle.dbe_fields.specs.Steps.{pieces, piece_at, part_of};

use crate::places::{piece_number, place_in};

fn cut_count(text: &[char], cut: char) -> usize
    ensures { result ≡ count_by (λ c. c == cut) text.now }
{
    text.iter().filter(|c| **c == cut).count()
}

// How many pieces a text has that is cut at each of a character.
fn piece_count(text: &[char], cut: char) -> usize
    ensures { result ≡ length (pieces cut text.now) }
{
    cut_count(text, cut) + 1
}

// Where a piece ends: at the character with so many of its kind before it, or with the text.
fn piece_end(text: &[char], cut: char, piece: usize) -> usize
    ensures within { result ≤ length text.now }
    ensures front { take result text.now ≡ join_with_byte cut (take (piece + 1) (pieces cut text.now)) }
    ensures rest { result < length text.now → drop (piece + 1) (pieces cut text.now) ≡ pieces cut (drop (result + 1) text.now) }
    ensures last { length text.now ≤ result → length (pieces cut text.now) ≤ piece + 1 }
{
    let mut left = piece;
    for (i, c) in text.iter().enumerate() {
        if *c == cut {
            if left == 0 {
                return i;
            }
            left -= 1;
        }
    }
    text.len()
}

// Where a piece begins.
fn piece_start(text: &[char], cut: char, piece: usize) -> usize
    requires { piece < length (pieces cut text.now) }
    ensures within { result ≤ length text.now }
    ensures rest { drop piece (pieces cut text.now) ≡ pieces cut (drop result text.now) }
{
    if piece == 0 {
        0
    } else {
        piece_end(text, cut, piece - 1) + 1
    }
}

// Where a piece begins and ends, if it is there.
pub(crate) fn one_piece(text: &[char], cut: char, place: i32) -> Option<(usize, usize)>
    ensures within { IfSome result (λ r. (r.0 ≤ r.1) × (r.1 ≤ length text.now)) }
    ensures piece { option_map (λ r. slice_range text.now r.0 r.1) result ≡ piece_at place (pieces cut text.now) }
{
    match piece_number(piece_count(text, cut), place) {
        Some(piece) => {
            let start = piece_start(text, cut, piece);
            let len = piece_end(&text[start..], cut, 0);
            Some((start, start + len))
        }
        None => None,
    }
}

// Where the pieces from one place up to before another begin and end.
pub(crate) fn some_pieces(text: &[char], cut: char, from: i32, to: i32) -> (usize, usize)
    ensures within { (result.0 ≤ result.1) × (result.1 ≤ length text.now) }
    ensures pieces { slice_range text.now result.0 result.1 ≡ join_with_byte cut (part_of from to (pieces cut text.now)) }
{
    let count = piece_count(text, cut);
    let first = place_in(count, from);
    let end = place_in(count, to);
    if end <= first {
        return (0, 0);
    }
    let start = piece_start(text, cut, first);
    let len = piece_end(&text[start..], cut, end - first - 1);
    (start, start + len)
}
