//! Arguments in memory.
ghost use Rattle.std.specs.Prelude.{Some, map};

use crate::statuses::push_status;
use crate::texts::push;
use dbe_num::Memory;
use dbe_serve::{Arguments, read_arguments};
use serde_json::Value;
use std::alloc::Global;
use std::env::FillError;

/// Arguments that tell what they are.
#[derive(Drop)]
pub(crate) struct MemArguments {
    arguments: Vec<Vec<u8>>,
}

impl Arguments for MemArguments {
    ghost given = { λ s. Some (map (λ v. v.items) s.arguments.items) };

    fn fill(&self, place: usize, block: &mut [u8]) -> Result<usize, FillError> {
        let Some(argument) = self.arguments.get(place) else {
            return Err(FillError::NotPresent);
        };
        if block.len() < argument.len() {
            return Err(FillError::TooLong);
        }
        block[..argument.len()].copy_from_slice(argument);
        Ok(argument.len())
    }
}

impl MemArguments {
    pub(crate) fn none(alloc: Global) -> MemArguments {
        MemArguments {
            arguments: Vec::new(alloc),
        }
    }

    /// The strings of a list, whose characters below 256 are bytes.
    pub(crate) fn of(alloc: Global, list: &Value) -> Result<MemArguments, Memory> {
        let mut arguments = Vec::new(alloc);
        push_arguments(alloc, &mut arguments, list)?;
        Ok(MemArguments { arguments })
    }
}

fn push_arguments(alloc: Global, arguments: &mut Vec<Vec<u8>>, list: &Value) -> Result<(), Memory> {
    let Some(list) = list.as_array() else {
        return Ok(());
    };
    for argument in list {
        arguments.push(bytes_of(alloc, argument.as_str().unwrap_or(""))?)?;
    }
    Ok(())
}

fn bytes_of(alloc: Global, text: &str) -> Result<Vec<u8>, Memory> {
    let mut bytes = Vec::new(alloc);
    for character in text.chars() {
        bytes.push(u8::try_from(u32::from(character)).unwrap_or(b'?'))?;
    }
    Ok(bytes)
}

/// The arguments that were read, each in brackets, or the status.
pub(crate) fn answer(alloc: Global, out: &mut String, list: &Value) -> Result<(), Memory> {
    let arguments = MemArguments::of(alloc, list)?;
    match read_arguments(alloc, &arguments) {
        Ok(read) => push_read(out, &read),
        Err(status) => push_status(out, status),
    }
}

fn push_read(out: &mut String, read: &[String]) -> Result<(), Memory> {
    write!(out, "{}", read.len())?;
    for argument in read {
        write!(out, " [{}]", argument.as_str())?;
    }
    push(out, "\n")
}
