ghost use Rattle.std.specs.Prelude.{◌≡◌, IfOk, length, take};
ghost use Rattle.std.specs.List.{join_with_byte};
ghost use Rattle.dbe_fields.specs.Places.{place_in};
ghost use Rattle.dbe_fields.specs.Steps.{stepped, through, last_of, part_of, pieces, piece_at};

use crate::characters::Characters;
use crate::pieces::{one_piece, some_pieces};
use crate::places::{last_from, place_in};
use dbe_config::TextStep;
use dbe_num::Memory;
use std::alloc::Global;

// What steps make of a text, one after another.
pub(crate) fn through(
    alloc: Global,
    mut text: Characters,
    steps: &[TextStep],
) -> Result<Option<Characters>, Memory>
    ensures { IfOk result (λ o. o ≡ through steps.now text) }
{
    for step in steps {
        match stepped(alloc, text, step)? {
            Some(next) => text = next,
            None => return Ok(None),
        }
    }
    Ok(Some(text))
}

fn stepped(alloc: Global, text: Characters, step: &TextStep) -> Result<Option<Characters>, Memory>
    ensures { IfOk result (λ o. o ≡ stepped step.now text) }
{
    match step {
        TextStep::Upper => Ok(Some(text.upper())),
        TextStep::Lower => Ok(Some(text.lower())),
        TextStep::Insert(more) => Ok(Some(text.with(alloc, more.as_str())?)),
        TextStep::Prefix(n) => Ok(Some(prefix(text, *n))),
        TextStep::Suffix(n) => Ok(Some(suffix(text, *n))),
        TextStep::Substring(from, to) => Ok(Some(substring(text, *from, *to))),
        TextStep::Segment(cut, place) => Ok(segment(text, *cut, *place)),
        TextStep::Segments(cut, from, to) => Ok(Some(segments(text, *cut, *from, *to))),
    }
}

fn prefix(text: Characters, place: i32) -> Characters
    ensures { result ≡ take (place_in (length text) place) text }
{
    let end = place_in(text.as_slice().len(), place);
    text.first(end)
}

fn suffix(text: Characters, count: i32) -> Characters
    ensures { result ≡ last_of count text }
{
    let start = last_from(text.as_slice().len(), count);
    text.after(start)
}

fn substring(text: Characters, from: i32, to: i32) -> Characters
    ensures { result ≡ part_of from to text }
{
    let len = text.as_slice().len();
    let start = place_in(len, from);
    let end = place_in(len, to);
    if end <= start {
        text.first(0)
    } else {
        text.part(start, end)
    }
}

fn segment(text: Characters, cut: char, place: i32) -> Option<Characters>
    ensures { result ≡ piece_at place (pieces cut text) }
{
    match one_piece(text.as_slice(), cut, place) {
        Some((start, end)) => Some(text.part(start, end)),
        None => None,
    }
}

fn segments(text: Characters, cut: char, from: i32, to: i32) -> Characters
    ensures { result ≡ join_with_byte cut (part_of from to (pieces cut text)) }
{
    let (start, end) = some_pieces(text.as_slice(), cut, from, to);
    text.part(start, end)
}
