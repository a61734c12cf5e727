//! The objects of a run, by a plan: in which calls each fails, and how much a read or a write takes.
ghost use Rattle.std.specs.Prelude.{◌≡◌, ◌<◌, IfOk, None};

use crate::given::Given;
use dbe_io::{MemDice, MemSink, MemSource};
use dbe_num::Memory;
use dbe_table::MemTable;
use hex::FromHexError;
use serde_json::Value;
use std::alloc::Global;

const ROOM: usize = 65_536;

const DRAWN: usize = 4_096;

/// A source of these bytes.
pub(crate) fn source(
    alloc: Global,
    bytes: &str,
    plan: &Value,
    fails: &str,
) -> Result<MemSource, Memory> {
    let fails = numbers(alloc, plan, fails)?;
    let bytes = bytes.as_bytes().to_vec(alloc)?;
    Ok(MemSource::in_pieces(bytes, most(plan, "read"), fails))
}

pub(crate) fn sink(alloc: Global, plan: &Value) -> Result<MemSink, Memory> {
    let fails = numbers(alloc, plan, "out_fails")?;
    let room = number(plan, "room").unwrap_or(ROOM);
    MemSink::in_pieces(alloc, most(plan, "write"), room, fails)
}

/// A table that has not begun.
pub(crate) fn table(alloc: Global, given: &Given, plan: &Value) -> Result<MemTable, Memory>
    ensures { IfOk result (λ table. table.begun ≡ None) }
{
    let fails = numbers(alloc, plan, "table_fails")?;
    let rows = given.rows(alloc)?;
    Ok(MemTable::of(alloc, rows, fails))
}

/// Dice of the bytes that `drawn` has in hexadecimal, or else of so many, which count up from 0 and begin anew after 255.
pub(crate) fn dice(alloc: Global, plan: &Value) -> Result<MemDice, Memory> {
    let fails = numbers(alloc, plan, "dice_fails")?;
    let bytes = match plan.get("drawn") {
        Some(digits) => bytes_of(alloc, digits.as_str().unwrap_or(""))?,
        None => counted(alloc, number(plan, "dice").unwrap_or(DRAWN).min(DRAWN))?,
    };
    Ok(MemDice::new(bytes, fails))
}

fn counted(alloc: Global, count: usize) -> Result<Vec<u8>, Memory> {
    let mut bytes = vec![in alloc; 0u8; count]?;
    for i in 0..bytes.len() {
        bytes[i] = (i % 256) as u8;
    }
    Ok(bytes)
}

// The bytes of hexadecimal digits, and none of another text.
fn bytes_of(alloc: Global, digits: &str) -> Result<Vec<u8>, Memory> {
    match hex::decode(alloc, digits) {
        Ok(bytes) => Ok(bytes),
        Err(FromHexError::OutOfMemory) => Err(Memory),
        Err(_) => Ok(Vec::new(alloc)),
    }
}

// How much a call takes.
fn most(plan: &Value, name: &str) -> usize
    ensures { 0 < result }
{
    number(plan, name).unwrap_or(usize::MAX).max(1)
}

fn number(plan: &Value, name: &str) -> Option<usize> {
    usize::try_from(plan.get(name)?.as_u64()?).ok()
}

fn numbers(alloc: Global, plan: &Value, name: &str) -> Result<Vec<u64>, Memory> {
    let mut numbers = Vec::new(alloc);
    if let Some(list) = plan.get(name) {
        push_numbers(&mut numbers, list)?;
    }
    Ok(numbers)
}

fn push_numbers(numbers: &mut Vec<u64>, list: &Value) -> Result<(), Memory> {
    let Some(list) = list.as_array() else {
        return Ok(());
    };
    for number in list {
        numbers.push(number.as_u64().unwrap_or(0))?;
    }
    Ok(())
}
