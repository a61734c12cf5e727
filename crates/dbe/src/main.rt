//! Serves a script of requests over a DynamoDB table of items, by a configuration.
#![tactic(auto)]

use dbe_io::{FileSource, StdSink, StdSource, SystemDice};
use dbe_serve::{Status, StdArguments, read_arguments, serve};
use dbe_table::MemTable;
use std::process::ExitCode;
use std::rt::Runtime;

/// Serves the script on standard input by the configuration in `dbe.json`, and writes the replies to
/// standard output. A status other than `Done` is a line on standard error.
fn main(rt: HostRuntime) -> ExitCode {
    let status = match read_arguments(rt.alloc(), &StdArguments::new(&rt)) {
        Ok(arguments) => run(&rt, &arguments),
        Err(status) => status,
    };
    if status != Status::Done {
        let _ = eprintln!(rt; "dbe: {status}");
    }
    ExitCode::from(status.code())
}

fn run(rt: &HostRuntime, arguments: &[String]) -> Status {
    let alloc = rt.alloc();
    serve(
        alloc,
        arguments,
        &mut FileSource::new(rt, "dbe.json", false),
        &mut StdSource::new(rt),
        &mut StdSink::new(rt.stdout()),
        &mut MemTable::new(alloc, Vec::new(alloc)),
        &mut SystemDice::new(rt),
    )
}
