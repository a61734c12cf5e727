//! Answers cases that calls of the library show: for each line `KIND CASE` of the input a line of the output.
#![tactic(auto)]

mod configurations;
mod fields;
mod given;
mod items;
mod texts;
mod tokens;
mod trees;
mod values;

use crate::texts::{parts, push};
use dbe_config::Config;
use dbe_num::Memory;
use std::alloc::Global;
use std::io;

fn main(rt: HostRuntime) -> io::Result<()> {
    let cases = io::read_to_string(rt.alloc(), rt.reader())?;
    let mut answers = String::new(rt.alloc());
    match answer_all(rt.alloc(), &mut answers, cases.as_str()) {
        Ok(()) => rt.print(answers),
        Err(Memory) => Err(io::Error::from(io::ErrorKind::OutOfMemory)),
    }
}

fn answer_all(alloc: Global, out: &mut String, cases: &str) -> Result<(), Memory> {
    let mut config = None;
    answer_lines(alloc, out, &mut config, cases)
}

fn answer_lines(
    alloc: Global,
    out: &mut String,
    config: &mut Option<Config>,
    cases: &str,
) -> Result<(), Memory> {
    for line in cases.lines() {
        answer(alloc, out, config, line)?;
        push(out, "\n")?;
    }
    Ok(())
}

fn answer(
    alloc: Global,
    out: &mut String,
    config: &mut Option<Config>,
    line: &str,
) -> Result<(), Memory> {
    let (kind, case) = parts(line);
    match kind {
        "config" => given::read_config(alloc, out, config, case),
        "value" => values::read_again(alloc, out, case),
        "lent" | "lent-by-copy" | "action" | "computed" => {
            answer_by(alloc, out, config, kind, case)
        }
        "tokens" | "deep" | "printed" => tokens::answer(alloc, out, kind, case),
        "range" => tokens::range(out, case),
        "place" => trees::place(alloc, out, case),
        _ => items::answer(alloc, out, config, kind, case),
    }
}

fn answer_by(
    alloc: Global,
    out: &mut String,
    config: &Option<Config>,
    kind: &str,
    case: &str,
) -> Result<(), Memory> {
    match config {
        Some(config) => configurations::answer(alloc, out, config, kind, case),
        None => push(out, "no configuration"),
    }
}
