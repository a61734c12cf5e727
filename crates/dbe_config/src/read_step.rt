ghost use Rattle.std.specs.Prelude.{◌≡◌, IfOk, option_map};
ghost use Rattle.serde_json.specs.View.{view};
ghost use Rattle.dbe_config.specs.Steps.{step_in, bare_step, step_of_one, step_of_two, step_of_three, insert_of, prefix_of, suffix_of, substring_of, segment_of, segments_of};
ghost use Rattle.dbe_config.specs.Spelling.{any_text_in};

use crate::TextStep;
use crate::spelled::{Spelled, count_of};
use crate::spelling::{any_text_in, char_in, whole_in};
use dbe_num::{Memory, Text};
use serde_json::Value;
use std::alloc::Global;

impl Spelled for TextStep {
    ghost spelled = { step_in };

    fn read_from(alloc: Global, value: &Value) -> Result<Option<TextStep>, Memory> {
        let Some(word) = any_text_in(value.get(0usize)) else {
            return Ok(None);
        };
        match count_of(value) {
            1 => Ok(bare_step(word)),
            2 => step_of_one(alloc, word, value.get(1usize)),
            3 => Ok(step_of_two(word, value.get(1usize), value.get(2usize))),
            4 => Ok(step_of_three(
                word,
                value.get(1usize),
                value.get(2usize),
                value.get(3usize),
            )),
            _ => Ok(None),
        }
    }
}

fn bare_step(word: &str) -> Option<TextStep>
    ensures { result ≡ bare_step word.now }
{
    match word {
        "upper" => Some(TextStep::Upper),
        "lower" => Some(TextStep::Lower),
        _ => None,
    }
}

fn step_of_one(alloc: Global, word: &str, a: Option<&Value>) -> Result<Option<TextStep>, Memory>
    ensures { IfOk result (λ s. s ≡ step_of_one word.now (option_map (λ v. view v.now) a.entry)) }
{
    match word {
        "insert" => insert_of(alloc, any_text_in(a)),
        "prefix" => Ok(prefix_of(whole_in(a))),
        "suffix" => Ok(suffix_of(whole_in(a))),
        _ => Ok(None),
    }
}

fn insert_of(alloc: Global, text: Option<&str>) -> Result<Option<TextStep>, Memory>
    ensures { IfOk result (λ s. s ≡ insert_of (option_map (λ t. t.now) text.entry)) }
{
    match text {
        Some(text) => Ok(Some(TextStep::Insert(Text::copy_of(alloc, text)?))),
        None => Ok(None),
    }
}

fn prefix_of(n: Option<i32>) -> Option<TextStep>
    ensures { result ≡ prefix_of n }
{
    Some(TextStep::Prefix(n?))
}

fn suffix_of(n: Option<i32>) -> Option<TextStep>
    ensures { result ≡ suffix_of n }
{
    Some(TextStep::Suffix(n?))
}

fn step_of_two(word: &str, a: Option<&Value>, b: Option<&Value>) -> Option<TextStep>
    ensures { result ≡ step_of_two word.now (option_map (λ v. view v.now) a.entry) (option_map (λ v. view v.now) b.entry) }
{
    match word {
        "substring" => substring_of(whole_in(a), whole_in(b)),
        "segment" => segment_of(char_in(a), whole_in(b)),
        _ => None,
    }
}

fn substring_of(a: Option<i32>, b: Option<i32>) -> Option<TextStep>
    ensures { result ≡ substring_of a b }
{
    Some(TextStep::Substring(a?, b?))
}

fn segment_of(c: Option<char>, i: Option<i32>) -> Option<TextStep>
    ensures { result ≡ segment_of c i }
{
    Some(TextStep::Segment(c?, i?))
}

fn step_of_three(
    word: &str,
    a: Option<&Value>,
    b: Option<&Value>,
    c: Option<&Value>,
) -> Option<TextStep>
    ensures { result ≡ step_of_three word.now (option_map (λ v. view v.now) a.entry) (option_map (λ v. view v.now) b.entry) (option_map (λ v. view v.now) c.entry) }
{
    match word {
        "segments" => segments_of(char_in(a), whole_in(b), whole_in(c)),
        _ => None,
    }
}

fn segments_of(c: Option<char>, a: Option<i32>, b: Option<i32>) -> Option<TextStep>
    ensures { result ≡ segments_of c a b }
{
    Some(TextStep::Segments(c?, a?, b?))
}
