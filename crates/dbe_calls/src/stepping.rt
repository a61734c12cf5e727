//! Sessions, line by line.
ghost use Rattle.std.specs.Prelude.{◌≡◌, None, Some};

use crate::given::Given;
use crate::plans::{dice, table};
use crate::quiet_table::QuietTable;
use crate::texts::{push, push_bytes};
use dbe_config::Config;
use dbe_io::MemDice;
use dbe_num::Memory;
use dbe_session::{Session, StepFault};
use dbe_table::{MemTable, Table, TableFault};
use dbe_values::{Item, item_text};
use serde_json::Value;
use std::alloc::Global;

/// The replies to each line, then the rows, and how many rows the table returned and how often it failed.
pub(crate) fn answer(
    alloc: Global,
    out: &mut String,
    given: &Given,
    plan: &Value,
) -> Result<(), Memory> {
    let mut table = table(alloc, given, plan)?;
    run(alloc, out, given, &mut table, &mut dice(alloc, plan)?)?;
    push_end(alloc, out, &table)
}

/// The replies to each line over a table that tells nothing of its rows, and the counts.
pub(crate) fn quiet(
    alloc: Global,
    out: &mut String,
    given: &Given,
    plan: &Value,
) -> Result<(), Memory> {
    let mut table = QuietTable {
        table: table(alloc, given, plan)?,
    };
    run(alloc, out, given, &mut table, &mut dice(alloc, plan)?)?;
    push_counts(out, &table.table)
}

fn run<T: Table>(
    alloc: Global,
    out: &mut String,
    given: &Given,
    table: &mut T,
    dice: &mut MemDice,
) -> Result<(), Memory>
    requires { T.begun table.old ≡ None }
{
    match Config::read(alloc, given.config().as_bytes()) {
        Ok(config) => begin(
            out,
            &Session::new(alloc, config)?,
            table,
            dice,
            given.script(),
        ),
        Err(_) => push(out, "no configuration\n"),
    }
}

fn begin<T: Table>(
    out: &mut String,
    session: &Session,
    table: &mut T,
    dice: &mut MemDice,
    script: &str,
) -> Result<(), Memory>
    requires { T.begun table.old ≡ None }
{
    match table.begin(session.config().schema()) {
        Ok(()) => steps(out, session, table, dice, script),
        Err(TableFault::Failed) => push(out, "failed\n"),
        Err(TableFault::Memory) => Err(Memory),
    }
}

fn steps<T: Table>(
    out: &mut String,
    session: &Session,
    table: &mut T,
    dice: &mut MemDice,
    script: &str,
) -> Result<(), Memory>
    requires { T.begun table.old ≡ Some session.now.config.schema }
{
    for line in script.lines() {
        step(out, session, table, dice, line)?;
    }
    Ok(())
}

fn step<T: Table>(
    out: &mut String,
    session: &Session,
    table: &mut T,
    dice: &mut MemDice,
    line: &str,
) -> Result<(), Memory>
    requires { T.begun table.old ≡ Some session.now.config.schema }
    ensures { T.begun table.new ≡ T.begun table.old }
{
    match session.step(line.as_bytes(), table, dice) {
        Ok(text) => push_bytes(out, &text),
        Err(StepFault::Table) => push(out, "failed\n"),
        Err(StepFault::Dice) => push(out, "dice failed\n"),
        Err(StepFault::Memory) => Err(Memory),
    }
}

fn push_end(alloc: Global, out: &mut String, table: &MemTable) -> Result<(), Memory> {
    let rows = table.rows(alloc)?;
    push_rows(alloc, out, &rows)?;
    push_counts(out, table)
}

fn push_rows(alloc: Global, out: &mut String, rows: &[Item]) -> Result<(), Memory> {
    for row in rows {
        push_row(alloc, out, row)?;
    }
    Ok(())
}

fn push_row(alloc: Global, out: &mut String, row: &Item) -> Result<(), Memory> {
    let text = item_text(alloc, row)?;
    push(out, "- ")?;
    push_bytes(out, &text)?;
    push(out, "\n")
}

fn push_counts(out: &mut String, table: &MemTable) -> Result<(), Memory> {
    let (given, faults) = (table.given(), table.faults());
    write!(out, "= given {given}, faults {faults}\n")?;
    Ok(())
}
