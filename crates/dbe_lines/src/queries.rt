ghost use Rattle.std.specs.Prelude.{◌≡◌, IfOk, codes, option_map};
ghost use Rattle.serde_json.specs.View.{view, members_view};
ghost use Rattle.serde_json.specs.Find.{get, as_str};
ghost use Rattle.dbe_values.specs.Attributes.{is_name};
ghost use Rattle.std.specs.List.{list_all};
ghost use Rattle.dbe_tokens.specs.Token.{are_parts, is_part};
ghost use Rattle.dbe_lines.specs.Queries.{has_form, members_in, names_have_form, values_have_form, one_where, text_in, are_placeholders, are_texts, is_placeholder, asked_in, names_in, values_in, or_none, or_empty};
ghost use Rattle.dbe_lines.specs.QueriesRead.{GivesAsked, fault_at};

use crate::Query;
use dbe_cond::{Names, Values};
use dbe_num::{Memory, Text};
use dbe_values::{ValueFault, from_json, size_of};
use serde_json::{Map, Value};
use std::alloc::Global;

const MOST_NAME_BYTES: usize = 255;

/// Whether a value has the form of a query.
pub(crate) fn has_form(value: &Value) -> bool
    ensures { result ≡ has_form (view value.now) }
{
    let names = value.get("names");
    let values = value.get("values");
    size_of(value) == one_where(names) + one_where(values) + 1
        && value.get("condition").and_then(Value::as_str).is_some()
        && names_have_form(names)
        && values_have_form(values)
}

fn one_where(member: Option<&Value>) -> usize
    ensures { result ≡ one_where (option_map (λ v. view v.now) member.entry) }
{
    match member {
        Some(_) => 1,
        None => 0,
    }
}

fn names_have_form(member: Option<&Value>) -> bool
    ensures { result ≡ names_have_form (members_in (option_map (λ v. view v.now) member.entry)) }
{
    match member {
        Some(value) => match value.as_object() {
            Some(map) => are_placeholders(b'#', map) && are_texts(map),
            None => false,
        },
        None => true,
    }
}

fn values_have_form(member: Option<&Value>) -> bool
    ensures { result ≡ values_have_form (members_in (option_map (λ v. view v.now) member.entry)) }
{
    match member {
        Some(value) => match value.as_object() {
            Some(map) => are_placeholders(b':', map),
            None => false,
        },
        None => true,
    }
}

fn are_placeholders(sign: u8, map: &Map<String, Value>) -> bool
    ensures { result ≡ are_placeholders sign (members_view map.now.entries) }
{
    for (name, _) in map {
        if !is_placeholder(sign, name.as_bytes()) {
            return false;
        }
    }
    true
}

fn are_texts(map: &Map<String, Value>) -> bool
    ensures { result ≡ are_texts (members_view map.now.entries) }
{
    for (_, value) in map {
        if value.as_str().is_none() {
            return false;
        }
    }
    true
}

fn is_placeholder(sign: u8, name: &[u8]) -> bool
    ensures { result ≡ is_placeholder sign name.now }
{
    match name.split_first() {
        Some((first, parts)) => *first == sign && are_parts(parts),
        None => false,
    }
}

fn are_parts(bytes: &[u8]) -> bool
    ensures { result ≡ are_parts bytes.now }
{
    match bytes.split_first() {
        Some((first, others)) => is_part(*first) && all_parts(others),
        None => false,
    }
}

fn all_parts(bytes: &[u8]) -> bool
    ensures { result ≡ list_all is_part bytes.now }
{
    bytes.iter().all(|b| is_part(*b))
}

// A letter or digit of ASCII, or `_`.
fn is_part(b: u8) -> bool
    ensures { result ≡ is_part b }
{
    b.is_ascii_alphanumeric() || b == b'_'
}

// Why a query's placeholders were not read.
#[derive(Drop)]
pub(crate) enum AskFault {
    // A placeholder, and what is wrong with what it stands for.
    At { name: Text, why: ValueFault },
    Memory,
}

impl From<Memory> for AskFault {
    ghost use Rattle.dbe_lines.specs.declared.queries.AskFault.TheVariants as ask;

    ghost from_gives = { λ _ e. e ≡ ask.Memory };

    fn from(_: Memory) -> AskFault {
        AskFault::Memory
    }
}

/// The query that a value of the form is, or the first fault in it.
pub(crate) fn asked_in(alloc: Global, value: &Value) -> Result<Query, AskFault>
    ensures { GivesAsked result (asked_in (view value.now)) }
{
    let names = names_in(alloc, value.get("names"))?;
    let values = values_in(alloc, value.get("values"))?;
    let text = condition_in(alloc, value)?;
    Ok(Query {
        text,
        names,
        values,
    })
}

fn condition_in(alloc: Global, value: &Value) -> Result<Text, Memory>
    ensures { IfOk result (λ text. text ≡ or_empty (text_in (get (codes "condition") (view value.now)))) }
{
    match value.get("condition").and_then(Value::as_str) {
        Some(text) => Text::copy_of(alloc, text),
        None => Text::copy_of(alloc, ""),
    }
}

fn names_in(alloc: Global, member: Option<&Value>) -> Result<Names, AskFault>
    ensures { GivesAsked result (names_in (or_none (members_in (option_map (λ v. view v.now) member.entry)))) }
{
    match member.and_then(Value::as_object) {
        Some(map) => names_of(alloc, map),
        None => Ok(Names::new(alloc)),
    }
}

fn names_of(alloc: Global, map: &Map<String, Value>) -> Result<Names, AskFault>
    ensures { GivesAsked result (names_in (members_view map.now.entries)) }
{
    let mut names = Names::new(alloc);
    for (placeholder, value) in map {
        let placeholder = Text::copy_of(alloc, placeholder.as_str())?;
        let name = text_of(value);
        if !is_name(name) {
            return Err(AskFault::At {
                name: placeholder,
                why: ValueFault::BadName,
            });
        }
        names.push(placeholder, Text::copy_of(alloc, name)?)?;
    }
    Ok(names)
}

// The text that a value is, or the empty text.
fn text_of(value: &Value) -> &str
    ensures { result.now ≡ or_empty (as_str (view value.now)) }
{
    match value.as_str() {
        Some(text) => text,
        None => "",
    }
}

fn is_name(name: &str) -> bool
    ensures { result ≡ is_name name.now }
{
    !name.is_empty() && name.len() <= MOST_NAME_BYTES
}

fn values_in(alloc: Global, member: Option<&Value>) -> Result<Values, AskFault>
    ensures { GivesAsked result (values_in (or_none (members_in (option_map (λ v. view v.now) member.entry)))) }
{
    match member.and_then(Value::as_object) {
        Some(map) => values_of(alloc, map),
        None => Ok(Values::new(alloc)),
    }
}

fn values_of(alloc: Global, map: &Map<String, Value>) -> Result<Values, AskFault>
    ensures { GivesAsked result (values_in (members_view map.now.entries)) }
{
    let mut values = Values::new(alloc);
    for (placeholder, value) in map {
        let placeholder = Text::copy_of(alloc, placeholder.as_str())?;
        match from_json(alloc, value) {
            Ok(value) => values.push(placeholder, value)?,
            Err(why) => return Err(fault_at(placeholder, why)),
        }
    }
    Ok(values)
}

// A fault of the value under a placeholder.
fn fault_at(name: Text, why: ValueFault) -> AskFault
    ensures { result ≡ fault_at name why }
{
    match why {
        ValueFault::Memory => AskFault::Memory,
        _ => AskFault::At { name, why },
    }
}
