//! The configuration that an earlier line gave.

use crate::texts::push;
use dbe_config::Config;
use dbe_num::Memory;
use std::alloc::Global;

/// Reads a configuration: `accepted`, or the name of the fault.
pub(crate) fn read_config(
    alloc: Global,
    out: &mut String,
    given: &mut Option<Config>,
    case: &str,
) -> Result<(), Memory> {
    match Config::read(alloc, case.as_bytes()) {
        Ok(config) => {
            *given = Some(config);
            push(out, "accepted")
        }
        Err(fault) => {
            write!(out, "{fault:?}")?;
            Ok(())
        }
    }
}
