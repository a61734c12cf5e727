ghost use Rattle.std.specs.Prelude.{◌≡◌};
ghost use Rattle.dbe_serve.specs.Codes.{code_of};

use dbe_config::ConfigFault;
use std::fmt;

/// How a run ends.
#[derive(Clone, Copy, Debug, PartialEq, Eq)]
pub enum Status {
    /// The script was read to its end, and all replies are written.
    Done,
    /// The arguments are none of those that the program takes.
    Arguments,
    /// The configuration is refused.
    Config(ConfigFault),
    /// The configuration or the script could not be read.
    Read,
    /// A line of the script has more than 1,048,576 bytes.
    LineTooLong,
    /// The script has more than 1,073,741,824 bytes.
    ScriptTooLong,
    /// The replies could not be written.
    Write,
    /// The table failed.
    Table,
    /// No random bytes could be drawn.
    Dice,
    /// Memory ran out.
    Memory,
}

impl Status {
    /// The exit code of the program.
    pub fn code(self) -> u8
        ensures { result ≡ code_of self }
    {
        match self {
            Status::Done => 0,
            Status::Arguments => 2,
            Status::Config(_) => 3,
            Status::Read | Status::LineTooLong | Status::ScriptTooLong => 4,
            Status::Write => 5,
            Status::Table => 6,
            Status::Dice => 9,
            Status::Memory => 10,
        }
    }
}

impl fmt::Display for Status {
    fn fmt<W: fmt::Write>(&self, f: &mut fmt::Formatter<W>) -> fmt::Result {
        match self {
            Status::Done => f.write_str("done"),
            Status::Arguments => f.write_str("words"),
            Status::Config(fault) => write!(f, "config {fault:?}"),
            Status::Read => f.write_str("read"),
            Status::LineTooLong => f.write_str("line too long"),
            Status::ScriptTooLong => f.write_str("script too long"),
            Status::Write => f.write_str("write"),
            Status::Table => f.write_str("table"),
            Status::Dice => f.write_str("dice"),
            Status::Memory => f.write_str("memory"),
        }
    }
}
