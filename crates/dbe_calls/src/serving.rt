//! Whole runs.

use crate::arguments::MemArguments;
use crate::given::Given;
use crate::plans::{dice, sink, source, table};
use crate::statuses::push_status;
use crate::texts::{push, push_bytes};
use dbe_io::{MemSink, MemSource};
use dbe_num::Memory;
use dbe_serve::{read_arguments, serve};
use serde_json::Value;
use std::alloc::Global;

/// What a run wrote, how many bytes of the script are left, and how it ended.
pub(crate) fn answer(
    alloc: Global,
    out: &mut String,
    given: &Given,
    plan: &Value,
) -> Result<(), Memory> {
    let arguments = match plan.get("arguments") {
        Some(list) => MemArguments::of(alloc, list)?,
        None => MemArguments::none(alloc),
    };
    match read_arguments(alloc, &arguments) {
        Ok(read) => serve_script(alloc, out, given, plan, &read),
        Err(status) => push_status(out, status),
    }
}

fn serve_script(
    alloc: Global,
    out: &mut String,
    given: &Given,
    plan: &Value,
    arguments: &[String],
) -> Result<(), Memory> {
    let mut script = source(alloc, given.script(), plan, "script_fails")?;
    let mut written = sink(alloc, plan)?;
    serve_over(
        alloc,
        out,
        given,
        plan,
        arguments,
        &mut script,
        &mut written,
    )
}

fn serve_over(
    alloc: Global,
    out: &mut String,
    given: &Given,
    plan: &Value,
    arguments: &[String],
    script: &mut MemSource,
    written: &mut MemSink,
) -> Result<(), Memory> {
    let mut config = source(alloc, given.config(), plan, "config_fails")?;
    let mut table = table(alloc, given, plan)?;
    let mut dice = dice(alloc, plan)?;
    let status = serve(
        alloc,
        arguments,
        &mut config,
        script,
        written,
        &mut table,
        &mut dice,
    );
    push_bytes(out, written.written())?;
    write!(out, "| {} left ", script.left().len())?;
    push_status(out, status)
}
