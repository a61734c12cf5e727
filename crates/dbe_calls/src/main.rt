//! Calls whole runs, and sessions line by line, over objects in memory that fail by a plan: for each case of the input
//! what was written, and how it ended.
#![tactic(auto)]

mod arguments;
mod given;
mod plans;
mod quiet_table;
mod serving;
mod statuses;
mod stepping;
mod texts;

use crate::given::Given;
use crate::texts::{parts, push};
use dbe_num::Memory;
use dbe_values::json_value;
use serde_json::Value;
use std::alloc::Global;
use std::io;

fn main(rt: HostRuntime) -> io::Result<()> {
    let cases = io::read_to_string(rt.alloc(), rt.reader())?;
    let mut answers = String::new(rt.alloc());
    match answer_all(rt.alloc(), &mut answers, cases.as_str()) {
        Ok(()) => rt.print(answers),
        Err(Memory) => Err(io::Error::from(io::ErrorKind::OutOfMemory)),
    }
}

fn answer_all(alloc: Global, out: &mut String, cases: &str) -> Result<(), Memory> {
    let mut given = Given::new(alloc);
    answer_lines(alloc, out, &mut given, cases)
}

fn answer_lines(
    alloc: Global,
    out: &mut String,
    given: &mut Given,
    cases: &str,
) -> Result<(), Memory> {
    for line in cases.lines() {
        answer(alloc, out, given, line)?;
    }
    Ok(())
}

fn answer(alloc: Global, out: &mut String, given: &mut Given, line: &str) -> Result<(), Memory> {
    let (kind, case) = parts(line);
    match kind {
        "config" => given.begin(alloc, case),
        "row" => given.add_row(case),
        "line" => given.add_line(case),
        "#" => push_comment(out, line),
        "statuses" => statuses::answer(out),
        _ => answer_case(alloc, out, given, kind, case),
    }
}

fn push_comment(out: &mut String, line: &str) -> Result<(), Memory> {
    push(out, line)?;
    push(out, "\n")
}

fn answer_case(
    alloc: Global,
    out: &mut String,
    given: &Given,
    kind: &str,
    case: &str,
) -> Result<(), Memory> {
    match json_value(alloc, case.as_bytes())? {
        Some(plan) => answer_by(alloc, out, given, kind, &plan),
        None => push(out, "no JSON\n"),
    }
}

fn answer_by(
    alloc: Global,
    out: &mut String,
    given: &Given,
    kind: &str,
    plan: &Value,
) -> Result<(), Memory> {
    match kind {
        "arguments" => arguments::answer(alloc, out, plan),
        "serve" => serving::answer(alloc, out, given, plan),
        "steps" => stepping::answer(alloc, out, given, plan),
        "quiet" => stepping::quiet(alloc, out, given, plan),
        _ => push(out, "no such kind\n"),
    }
}
