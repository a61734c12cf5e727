ghost use Rattle.std.specs.Prelude.{◌≡◌, ◌≢◌, ◌++◌, true, false, codes, IfOk};
ghost use Rattle.serde_json.specs.Data.{object, member, no_members, number, unsigned, string, boolean};
ghost use Rattle.serde_json.specs.View.{view};
ghost use Rattle.serde_json.specs.Written.{has_float};
ghost use Rattle.dbe_values.specs.Writing.{item_data};
ghost use Rattle.dbe_lines.specs.Texts.{line_of, put_text, none_text, item_text, checked_data, checked_text, count_text, split_text, every_text, refused_text, refused_name, refused_for, refused_name_for, refused_at, reason, value_word, put_refusal, cond_refusal, rewrite_refusal};

use crate::RewriteFault;
use dbe_cond::CondFault;
use dbe_item::PutFault;
use dbe_num::Memory;
use dbe_values::{Item, ValueFault, item_to_json};
use serde_json::{Map, Value, json};
use std::alloc::Global;

/// The reply to a put.
pub fn put_text(alloc: Global) -> Result<Vec<u8>, Memory>
    ensures { IfOk result (λ text. text.items ≡ put_text) }
{
    line_of(alloc, &put_value(alloc)?)
}

/// The reply where no row has a key.
pub fn none_text(alloc: Global) -> Result<Vec<u8>, Memory>
    ensures { IfOk result (λ text. text.items ≡ none_text) }
{
    line_of(alloc, &none_value(alloc)?)
}

/// The reply to a check of a row: whether its beacons are right, how many attributes are encrypted, the place of the
/// encrypted data key that opened it, if one did, and how many attributes are signed.
pub fn checked_text(
    alloc: Global,
    beacons: bool,
    encrypted: u64,
    recipient: Option<u64>,
    signed: u64,
) -> Result<Vec<u8>, Memory>
    ensures { IfOk result (λ text. text.items ≡ checked_text beacons encrypted recipient signed) }
{
    line_of(
        alloc,
        &checked_value(alloc, beacons, encrypted, recipient, signed)?,
    )
}

/// The reply to an explain of a condition in which a virtual field or a compound stands.
pub fn every_text(alloc: Global) -> Result<Vec<u8>, Memory>
    ensures { IfOk result (λ text. text.items ≡ every_text) }
{
    line_of(alloc, &every_value(alloc)?)
}

/// The refusal for a part of a compound that has the split character.
pub fn split_text(alloc: Global, beacon: &str, part: &str) -> Result<Vec<u8>, Memory>
    ensures { IfOk result (λ text. text.items ≡ split_text (beacon.now, part.now)) }
{
    line_of(alloc, &split_value(alloc, beacon, part)?)
}

/// The reply to a request that is refused.
pub fn refused_text(alloc: Global, why: &str) -> Result<Vec<u8>, Memory>
    ensures { IfOk result (λ text. text.items ≡ refused_text why.now) }
{
    line_of(alloc, &refused_value(alloc, why)?)
}

/// The refusal for a name.
pub fn refused_name(alloc: Global, why: &str, name: &str) -> Result<Vec<u8>, Memory>
    ensures { IfOk result (λ text. text.items ≡ refused_name why.now name.now) }
{
    line_of(alloc, &name_value(alloc, why, name)?)
}

fn refused_name_for(alloc: Global, refused: &str, why: &str, name: &str) -> Result<Vec<u8>, Memory>
    ensures { IfOk result (λ text. text.items ≡ refused_name_for refused.now why.now name.now) }
{
    line_of(alloc, &name_reason_value(alloc, refused, why, name)?)
}

fn refused_for(alloc: Global, refused: &str, why: &str) -> Result<Vec<u8>, Memory>
    ensures { IfOk result (λ text. text.items ≡ refused_for refused.now why.now) }
{
    line_of(alloc, &reason_value(alloc, refused, why)?)
}

fn refused_at(alloc: Global, refused: &str, why: &str, at: usize) -> Result<Vec<u8>, Memory>
    ensures { IfOk result (λ text. text.items ≡ refused_at refused.now why.now at) }
{
    line_of(alloc, &at_value(alloc, refused, why, at as u64)?)
}

/// The refusal of a condition for which the table is not asked.
pub fn rewrite_refusal(alloc: Global, fault: &RewriteFault) -> Result<Vec<u8>, Memory>
    ensures { IfOk result (λ text. text.items ≡ rewrite_refusal fault.now) }
{
    match fault {
        RewriteFault::NotSearchable { name } => {
            refused_name_for(alloc, "rewriting", "NotSearchable", name.as_str())
        }
    }
}

/// The refusal for a fault of a value.
pub fn value_refusal(alloc: Global, name: &str, why: ValueFault) -> Result<Vec<u8>, Memory>
    ensures { IfOk result (λ text. text.items ≡ refused_name_for (codes "value") (value_word why) name.now) }
{
    refused_name_for(alloc, "value", value_word(why), name)
}

fn value_word(why: ValueFault) -> &'static str
    ensures { result.now ≡ value_word why }
{
    match why {
        ValueFault::Shape => "Shape",
        ValueFault::BadNumber => "BadNumber",
        ValueFault::BadBase64 => "BadBase64",
        ValueFault::EmptySet => "EmptySet",
        ValueFault::DoubledElement => "DoubledElement",
        ValueFault::TooDeep => "TooDeep",
        ValueFault::BadName => "BadName",
        ValueFault::Memory => "Memory",
    }
}

/// The refusal of a put.
pub fn put_refusal(alloc: Global, fault: &PutFault) -> Result<Vec<u8>, Memory>
    ensures told { IfOk result (λ _. fault.now ≢ PutFault.Memory) }
    ensures text { IfOk result (λ text. text.items ≡ put_refusal fault.now) }
{
    match fault {
        PutFault::Key { name } => refused_name(alloc, "key", name.as_str()),
        PutFault::Reserved { name } => refused_name(alloc, "reserved", name.as_str()),
        PutFault::Unknown { name } => refused_name(alloc, "attribute", name.as_str()),
        PutFault::TooMany => refused_text(alloc, "attributes"),
        PutFault::Size => refused_text(alloc, "size"),
        PutFault::Memory => Err(Memory),
    }
}

/// The refusal of a condition.
pub fn cond_refusal(alloc: Global, fault: &CondFault) -> Result<Vec<u8>, Memory>
    ensures told { IfOk result (λ _. fault.now ≢ CondFault.Memory) }
    ensures text { IfOk result (λ text. text.items ≡ cond_refusal fault.now) }
{
    match fault {
        CondFault::TooLong => refused_for(alloc, "condition", "TooLong"),
        CondFault::BadToken { at } => refused_at(alloc, "condition", "BadToken", *at),
        CondFault::TooDeep => refused_for(alloc, "condition", "TooDeep"),
        CondFault::Syntax { at } => refused_at(alloc, "condition", "Syntax", *at),
        CondFault::TooManyOperands => refused_for(alloc, "condition", "TooManyOperands"),
        CondFault::UnknownName { name } => {
            refused_name_for(alloc, "condition", "UnknownName", name.as_str())
        }
        CondFault::UnknownValue { name } => {
            refused_name_for(alloc, "condition", "UnknownValue", name.as_str())
        }
        CondFault::Memory => Err(Memory),
    }
}

/// The line of an item.
pub fn item_text(alloc: Global, item: &Item) -> Result<Vec<u8>, Memory>
    ensures { IfOk result (λ text. text.items ≡ item_text item.now) }
{
    line_of(alloc, &item_value(alloc, item)?)
}

/// The line that counts the items printed and the rows handed out.
pub fn count_text(alloc: Global, count: u64, scanned: u64) -> Result<Vec<u8>, Memory>
    ensures { IfOk result (λ text. text.items ≡ count_text count scanned) }
{
    line_of(alloc, &count_value(alloc, count, scanned)?)
}

/// A JSON value without floats in a line of its own.
pub fn line_of(alloc: Global, value: &Value) -> Result<Vec<u8>, Memory>
    requires { has_float (view value.now) ≡ false }
    ensures { IfOk result (λ text. text.items ≡ line_of (view value.now)) }
{
    let mut text = value.to_vec(alloc)?;
    text.push(b'\n')?;
    Ok(text)
}

fn put_value(alloc: Global) -> Result<Value, Memory>
    ensures { IfOk result (λ v. view v ≡ object (member (codes "ok") (string (codes "put")) no_members)) }
{
    Ok(json!(in alloc; {"ok": "put"})?)
}

fn none_value(alloc: Global) -> Result<Value, Memory>
    ensures { IfOk result (λ v. view v ≡ object (member (codes "none") (boolean true) no_members)) }
{
    Ok(json!(in alloc; {"none": true})?)
}

fn checked_value(
    alloc: Global,
    beacons: bool,
    encrypted: u64,
    recipient: Option<u64>,
    signed: u64,
) -> Result<Value, Memory>
    ensures { IfOk result (λ v. view v ≡ object (member (codes "checked") (checked_data beacons encrypted recipient signed) no_members)) }
{
    match recipient {
        Some(at) => Ok(
            json!(in alloc; {"checked": {"beacons": beacons, "encrypted": encrypted, "recipient": at, "signed": signed}})?,
        ),
        None => Ok(
            json!(in alloc; {"checked": {"beacons": beacons, "encrypted": encrypted, "recipient": null, "signed": signed}})?,
        ),
    }
}

fn every_value(alloc: Global) -> Result<Value, Memory>
    ensures { IfOk result (λ v. view v ≡ object (member (codes "every") (boolean true) no_members)) }
{
    Ok(json!(in alloc; {"every": true})?)
}

fn split_value(alloc: Global, beacon: &str, part: &str) -> Result<Value, Memory>
    ensures { IfOk result (λ v. view v ≡ object (member (codes "beacon") (string beacon.now) (member (codes "part") (string part.now) (member (codes "refused") (string (codes "split")) no_members)))) }
{
    Ok(json!(in alloc; {"beacon": beacon, "part": part, "refused": "split"})?)
}

fn refused_value(alloc: Global, why: &str) -> Result<Value, Memory>
    ensures { IfOk result (λ v. view v ≡ object (member (codes "refused") (string why.now) no_members)) }
{
    Ok(json!(in alloc; {"refused": why})?)
}

fn name_value(alloc: Global, why: &str, name: &str) -> Result<Value, Memory>
    ensures { IfOk result (λ v. view v ≡ object (member (codes "name") (string name.now) (member (codes "refused") (string why.now) no_members))) }
{
    Ok(json!(in alloc; {"name": name, "refused": why})?)
}

fn reason_value(alloc: Global, refused: &str, why: &str) -> Result<Value, Memory>
    ensures { IfOk result (λ v. view v ≡ object (reason refused.now why.now)) }
{
    Ok(json!(in alloc; {"refused": refused, "why": why})?)
}

fn name_reason_value(alloc: Global, refused: &str, why: &str, name: &str) -> Result<Value, Memory>
    ensures { IfOk result (λ v. view v ≡ object (member (codes "name") (string name.now) (reason refused.now why.now))) }
{
    Ok(json!(in alloc; {"name": name, "refused": refused, "why": why})?)
}

fn at_value(alloc: Global, refused: &str, why: &str, at: u64) -> Result<Value, Memory>
    ensures { IfOk result (λ v. view v ≡ object (member (codes "at") (number (unsigned at)) (reason refused.now why.now))) }
{
    Ok(json!(in alloc; {"at": at, "refused": refused, "why": why})?)
}

fn item_value(alloc: Global, item: &Item) -> Result<Value, Memory>
    ensures { IfOk result (λ v. view v ≡ object (member (codes "item") (item_data item.now) no_members)) }
{
    let value = item_to_json(alloc, item)?;
    let mut map = Map::new(alloc);
    map.insert(String::from_str(alloc, "item")?, value)?;
    Ok(Value::Object(map))
}

fn count_value(alloc: Global, count: u64, scanned: u64) -> Result<Value, Memory>
    ensures { IfOk result (λ v. view v ≡ object (member (codes "count") (number (unsigned count)) (member (codes "scanned") (number (unsigned scanned)) no_members))) }
{
    Ok(json!(in alloc; {"count": count, "scanned": scanned})?)
}
