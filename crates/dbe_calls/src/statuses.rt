//! How runs end.

use dbe_config::ConfigFault;
use dbe_num::Memory;
use dbe_serve::Status;

/// The text and the code of each status.
pub(crate) fn answer(out: &mut String) -> Result<(), Memory> {
    push_status(out, Status::Done)?;
    push_status(out, Status::Arguments)?;
    push_status(out, Status::Config(ConfigFault::TooLong))?;
    push_status(out, Status::Config(ConfigFault::NotJson))?;
    push_status(out, Status::Config(ConfigFault::NotBuilt))?;
    push_status(out, Status::Read)?;
    push_status(out, Status::LineTooLong)?;
    push_status(out, Status::ScriptTooLong)?;
    push_status(out, Status::Write)?;
    push_status(out, Status::Table)?;
    push_status(out, Status::Dice)?;
    push_status(out, Status::Memory)
}

pub(crate) fn push_status(out: &mut String, status: Status) -> Result<(), Memory> {
    let code = status.code();
    write!(out, "= {status} {code}\n")?;
    Ok(())
}
