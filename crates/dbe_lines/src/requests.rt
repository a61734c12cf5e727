ghost use Rattle.std.specs.Prelude.{◌≡◌, IfOk, Some, option_map};
ghost use Rattle.serde_json.specs.View.{view};
ghost use Rattle.dbe_values.specs.Items.{item_in};
ghost use Rattle.dbe_config.specs.Rules.{is_empty_list};
ghost use Rattle.dbe_values.specs.Keys.{row_key};
ghost use Rattle.dbe_values.specs.declared.key.KeyValue.{KeyValue as the_key};
ghost use Rattle.dbe_values.specs.declared.fault.ItemFault.TheVariants.{At};
ghost use Rattle.dbe_lines.specs.declared.request.Request.{Request as the_request};
ghost use Rattle.dbe_lines.specs.declared.request.Request.TheVariants as r;
ghost use Rattle.dbe_lines.specs.Requests.{HasLawfulKey, request_of, request_in, put_in, key_in, with_key, is_key_object, has_sort, has_member, query_in, id_in};
ghost use Rattle.dbe_lines.specs.KeysRead.{made, fault_request, IsFaultOf};
ghost use Rattle.dbe_lines.specs.QueriesRead.{IsFaulty};

use crate::Request;
use crate::queries::{AskFault, asked_in, has_form};
use dbe_config::Config;
use dbe_num::Memory;
use dbe_values::{
    BranchId, Item, ItemFault, KeyError, KeyName, KeySchema, KeyValue, ValueFault, item_from_json,
    json_value, read_key, size_of,
};
use serde_json::Value;
use std::alloc::Global;

/// Reads a line of the script, by a configuration.
pub fn read_request(alloc: Global, config: &Config, line: &[u8]) -> Result<Request, Memory>
    ensures request { IfOk result (λ r. r ≡ request_of config.now line.now) }
    ensures key { IfOk result (HasLawfulKey config.now) }
{
    match json_value(alloc, line)? {
        Some(value) => request_in(alloc, config, &value),
        None => Ok(Request::NotJson),
    }
}

fn request_in(alloc: Global, config: &Config, value: &Value) -> Result<Request, Memory>
    ensures { IfOk result (λ r. r ≡ request_in config.now (Some (view value.now))) }
{
    if size_of(value) != 1 {
        return Ok(Request::Shape);
    }
    if let Some(item) = value.get("put") {
        return put_in(alloc, item);
    }
    if let Some(key) = value.get("get") {
        return get_in(alloc, config.schema(), key);
    }
    if let Some(query) = value.get("query") {
        return query_in(alloc, config, query);
    }
    if let Some(key) = value.get("check") {
        return check_in(alloc, config.schema(), key);
    }
    if let Some(query) = value.get("explain") {
        return explain_in(alloc, config, query);
    }
    if let Some(id) = value.get("create") {
        return Ok(id_in(id));
    }
    match value.get("rotate") {
        Some(id) => Ok(id_in(id)),
        None => Ok(Request::Shape),
    }
}

#[tactic(auto, using(crate::proofs::Known::put_known, crate::proofs::Known::put_refused))]
fn put_in(alloc: Global, value: &Value) -> Result<Request, Memory>
    ensures { IfOk result (λ r. r ≡ put_in (item_in (view value.now))) }
{
    match item_from_json(alloc, value) {
        Ok(item) => Ok(Request::Put(item)),
        Err(fault) => refused(fault),
    }
}

// What is answered where no item was read.
fn refused(fault: ItemFault) -> Result<Request, Memory>
    ensures { IfOk result (λ r. IsFaultOf fault r) }
{
    match fault {
        ItemFault::NotObject => Ok(Request::Shape),
        ItemFault::At { name, why } => match why {
            ValueFault::Memory => Err(Memory),
            _ => Ok(Request::Value { name, why }),
        },
    }
}

// A key that was read, or what is answered in its place.
#[derive(Drop)]
pub(crate) enum KeyRead {
    Key(KeyValue),
    Refused(Request),
}

fn get_in(alloc: Global, schema: &KeySchema, value: &Value) -> Result<Request, Memory>
    ensures { IfOk result (λ request. request ≡ key_in schema.now r.Get (view value.now)) }
{
    match key_in(alloc, schema, value)? {
        KeyRead::Key(key) => Ok(Request::Get(key)),
        KeyRead::Refused(request) => Ok(request),
    }
}

fn check_in(alloc: Global, schema: &KeySchema, value: &Value) -> Result<Request, Memory>
    ensures { IfOk result (λ request. request ≡ key_in schema.now r.Check (view value.now)) }
{
    match key_in(alloc, schema, value)? {
        KeyRead::Key(key) => Ok(Request::Check(key)),
        KeyRead::Refused(request) => Ok(request),
    }
}

#[tactic(auto, using(crate::proofs::Known::key_kept, crate::proofs::Known::key_refused))]
fn key_in(alloc: Global, schema: &KeySchema, value: &Value) -> Result<KeyRead, Memory>
    ensures { IfOk result (λ k. (make : the_key → the_request) → made make k ≡ key_in schema.now make (view value.now)) }
{
    if !is_key_object(schema, value) {
        return Ok(KeyRead::Refused(Request::Shape));
    }
    match item_from_json(alloc, value) {
        Ok(item) => Ok(key_of(alloc, schema, &item)?),
        Err(fault) => Ok(KeyRead::Refused(refused(fault)?)),
    }
}

// The key of an item, or what is answered in its place.
#[tactic(auto, using(crate::proofs::Known::key_known, crate::proofs::Known::key_bad))]
fn key_of(alloc: Global, schema: &KeySchema, item: &Item) -> Result<KeyRead, Memory>
    ensures { IfOk result (λ k. (make : the_key → the_request) → made make k ≡ with_key make (row_key schema.now item.now)) }
{
    match read_key(alloc, schema, item) {
        Ok(key) => Ok(KeyRead::Key(key)),
        Err(KeyError::Bad { name }) => Ok(KeyRead::Refused(Request::Key { name })),
        Err(KeyError::Memory) => Err(Memory),
    }
}

// Whether a value is an object with just the key attributes.
fn is_key_object(schema: &KeySchema, value: &Value) -> bool
    ensures { result ≡ is_key_object schema.now (view value.now) }
{
    has_member(schema.partition.name.as_str(), value) && has_sort(&schema.sort, value)
}

fn has_sort(sort: &Option<KeyName>, value: &Value) -> bool
    ensures { result ≡ has_sort sort.now (view value.now) }
{
    match sort {
        Some(sort) => size_of(value) == 2 && has_member(sort.name.as_str(), value),
        None => size_of(value) == 1,
    }
}

fn has_member(name: &str, value: &Value) -> bool
    ensures { result ≡ has_member name.now (view value.now) }
{
    value.get(name).is_some()
}

// Whether the table of a configuration is searched: an encrypted one is not yet.
fn is_searched(config: &Config) -> bool
    ensures { result ≡ is_empty_list config.now.recipients }
{
    config.is_plain()
}

fn query_in(alloc: Global, config: &Config, value: &Value) -> Result<Request, Memory>
    ensures { IfOk result (λ request. request ≡ query_in config.now r.Query (view value.now)) }
{
    if !has_form(value) {
        return Ok(Request::Shape);
    }
    if !is_searched(config) {
        return Ok(Request::NotBuilt);
    }
    match asked_in(alloc, value) {
        Ok(query) => Ok(Request::Query(query)),
        Err(fault) => faulty(fault),
    }
}

fn explain_in(alloc: Global, config: &Config, value: &Value) -> Result<Request, Memory>
    ensures { IfOk result (λ request. request ≡ query_in config.now r.Explain (view value.now)) }
{
    if !has_form(value) {
        return Ok(Request::Shape);
    }
    if !is_searched(config) {
        return Ok(Request::NotBuilt);
    }
    match asked_in(alloc, value) {
        Ok(query) => Ok(Request::Explain(query)),
        Err(fault) => faulty(fault),
    }
}

fn faulty(fault: AskFault) -> Result<Request, Memory>
    ensures { IfOk result (λ request. IsFaulty fault request) }
{
    match fault {
        AskFault::At { name, why } => Ok(Request::Value { name, why }),
        AskFault::Memory => Err(Memory),
    }
}

fn id_in(value: &Value) -> Request
    ensures { result ≡ id_in (view value.now) }
{
    match value.as_str() {
        Some(text) => match BranchId::read(text.as_bytes()) {
            Some(_) => Request::NotBuilt,
            None => Request::Shape,
        },
        None => Request::Shape,
    }
}
