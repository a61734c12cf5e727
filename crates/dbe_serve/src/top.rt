ghost use Rattle.std.specs.Prelude.{◌≡◌, ◌≢◌, ◌↔◌, ◌⊎◌, ◌<◌, ◌≤◌, ◌+◌, ℕ, List, true, Some, None, Ok, Err, IfOk, IfErr, OnOk, IsSome, length, is_err};
ghost use Rattle.std.specs.Io.KnownBytes.{IsAtEnd};
ghost use Rattle.std.specs.List.{All};
ghost use Rattle.dbe_io.specs.Causes.{HasCause, Rose};
ghost use Rattle.dbe_io.specs.Lines.{lines_of};
ghost use Rattle.dbe_config.specs.Configured.{configured};
ghost use Rattle.dbe_config.specs.declared.fault.ConfigFault.{ConfigFault as the_fault};
ghost use Rattle.dbe_session.specs.Reply.{Environment, State};
ghost use Rattle.dbe_session.specs.Steps.{IsState, told};
ghost use Rattle.dbe_serve.specs.Worlds.{world_of, progress_of, begun_with};
ghost use Rattle.dbe_serve.specs.Run.{Ran, RanOver, Headline};
ghost use Rattle.dbe_serve.specs.Stops.{Stopped, StoppedOver, Kept, HasLongLine};
ghost use Rattle.dbe_serve.specs.Turns.{Turned, TurnedFor, IsOfReply};
ghost use Rattle.dbe_serve.specs.Faults.{OneHasCause, is_read, is_write, is_table, is_dice, fails_with};
ghost use Rattle.dbe_serve.specs.Rules.{IsRefused, IsOfConfig, IsOfReading, IsConfigPrefix, IsTaken, IsWithinRules};

use crate::Status;
use dbe_config::{Config, ConfigFault};
use dbe_io::{Dice, LineFault, LineReader, Sink, Source, write_all};
use dbe_session::{Session, StepFault};
use dbe_table::{Table, TableFault};
use std::alloc::Global;

const BLOCK_BYTES: usize = 65_536;

const MOST_CONFIG_BYTES: usize = 1_048_576;

const MOST_LINE_BYTES: usize = 1_048_576;

const MOST_SCRIPT_BYTES: u64 = 1_073_741_824;

/// Serves a script over a table that has not begun: reads the configuration, begins the table, and
/// writes the reply to each line of the script before it takes up the next one. An empty line has no
/// reply. At the end the output is finished.
///
/// - `Done`: the script was read to its end, and all replies are written.
/// - `Arguments`: there are arguments. The program takes none yet: any argument is refused, and nothing is read.
/// - `Config`: the configuration is refused, for this reason. It has at most 1,048,576 bytes.
/// - `Read`: the configuration or the script could not be read.
/// - `LineTooLong`: a line has more than 1,048,576 bytes, its newline aside.
/// - `ScriptTooLong`: the script has more than 1,073,741,824 bytes.
/// - `Write`: the output failed, or took nothing of a reply.
/// - `Table`: the table failed.
/// - `Dice`: no random bytes could be drawn.
/// - `Memory`: memory ran out, at any place.
pub fn serve<C: Source, S: Source, O: Sink, T: Table, D: Dice>(
    alloc: Global,
    arguments: &[String],
    config: &mut C,
    script: &mut S,
    out: &mut O,
    table: &mut T,
    dice: &mut D,
) -> Status
    requires { T.begun table.old ≡ None }

    // Each query prints exactly the items of which its condition is true, in key order.
    ensures headline { let before = world_of C.Source S.Source O.Sink T.Table D.Dice config.old script.old out.old table.old dice.old in
        let after = world_of C.Source S.Source O.Sink T.Table D.Dice config.new script.new out.new table.new dice.new in
        result ≡ Status.Done → Headline before after }

    // What is written is the replies to the lines, and the rows are those after them.
    ensures done { let before = world_of C.Source S.Source O.Sink T.Table D.Dice config.old script.old out.old table.old dice.old in
        let after = world_of C.Source S.Source O.Sink T.Table D.Dice config.new script.new out.new table.new dice.new in
        result ≡ Status.Done → Ran before after }
    ensures within { result ≡ Status.Done → (bytes : List ℕ) → S.left script.old ≡ Some bytes → All (λ line. length line ≤ 1048576) (lines_of bytes) × (length bytes ≤ 1073741824) }
    ensures at_end { result ≡ Status.Done → IsAtEnd (S.left script.new) }
    ensures finished { result ≡ Status.Done → O.finished out.new ≡ true }

    // After another status the replies to the lines before some line stand.
    ensures stopped { let before = world_of C.Source S.Source O.Sink T.Table D.Dice config.old script.old out.old table.old dice.old in
        let after = world_of C.Source S.Source O.Sink T.Table D.Dice config.new script.new out.new table.new dice.new in
        result ≢ Status.Done → IsSome (T.begun table.new) → Stopped result before after }
    ensures kept { let before = world_of C.Source S.Source O.Sink T.Table D.Dice config.old script.old out.old table.old dice.old in
        let after = world_of C.Source S.Source O.Sink T.Table D.Dice config.new script.new out.new table.new dice.new in
        result ≢ Status.Done → IsSome (T.begun table.new) → Kept result before after }
    ensures untouched { T.begun table.new ≡ None → (O.written out.new ≡ O.written out.old) × (S.left script.new ≡ S.left script.old) × (T.given table.new ≡ T.given table.old) × (D.left dice.new ≡ D.left dice.old) }
    ensures late { (result ≡ Status.Done) ⊎ ((result ≡ Status.LineTooLong) ⊎ ((result ≡ Status.ScriptTooLong) ⊎ ((result ≡ Status.Write) ⊎ (result ≡ Status.Dice)))) → IsSome (T.begun table.new) }

    // What is taken of the configuration, and what comes before the script is read.
    ensures taken { IsTaken 1048577 (C.left config.old) (C.left config.new) }
    ensures arguments_first { result ≡ Status.Arguments → (config.new ≡ config.old) × (script.new ≡ script.old) × (out.new ≡ out.old) × (table.new ≡ table.old) × (dice.new ≡ dice.old) }
    ensures config_first { (f : the_fault) → result ≡ Status.Config f → (script.new ≡ script.old) × (out.new ≡ out.old) × (table.new ≡ table.old) × (dice.new ≡ dice.old) }
    ensures read_first { result ≡ Status.Read → T.begun table.new ≡ None → (script.new ≡ script.old) × (out.new ≡ out.old) × (table.new ≡ table.old) × (dice.new ≡ dice.old) }

    // When each status comes.
    ensures arguments { (result ≡ Status.Arguments) ↔ (0 < length arguments.now) }
    ensures config { (f : the_fault) → result ≡ Status.Config f → IsRefused f (C.left config.old) }
    ensures read { OneHasCause (is_read result) (C.faults config.old) (C.faults config.new) (S.faults script.old) (S.faults script.new) }
    ensures long_line { result ≡ Status.LineTooLong → (bytes : List ℕ) → S.left script.old ≡ Some bytes → HasLongLine bytes }
    ensures long_script { result ≡ Status.ScriptTooLong → (bytes : List ℕ) → S.left script.old ≡ Some bytes → 1073741824 < length bytes }
    ensures write { OneHasCause (is_write result) (O.faults out.old) (O.faults out.new) (O.idle out.old) (O.idle out.new) }
    ensures table { HasCause (is_table result) (T.faults table.old) (T.faults table.new) }
    ensures dice { HasCause (is_dice result) (D.faults dice.old) (D.faults dice.new) }

    // Where all is within the rules and no object fails, the run comes to its end, or memory runs out.
    ensures complete { IsWithinRules (length arguments.now) (C.left config.old) (S.left script.old)
        → ¬ Rose (C.faults config.old) (C.faults config.new) → ¬ Rose (S.faults script.old) (S.faults script.new)
        → ¬ Rose (O.faults out.old) (O.faults out.new) → ¬ Rose (O.idle out.old) (O.idle out.new) → ¬ Rose (T.faults table.old) (T.faults table.new) → ¬ Rose (D.faults dice.old) (D.faults dice.new)
        → (result ≡ Status.Done) ⊎ (result ≡ Status.Memory) }
{
    if !arguments.is_empty() {
        return Status::Arguments;
    }
    match read_config(alloc, config) {
        Ok(config) => {
            let Ok(session) = Session::new(alloc, config) else {
                return Status::Memory;
            };
            session.is_sealing();
            serve_table(alloc, &session, script, out, table, dice)
        }
        Err(status) => status,
    }
}

// The configuration that a source spells.
fn read_config<C: Source>(alloc: Global, source: &mut C) -> Result<Config, Status>
    ensures ok { IfOk result (λ c. (bytes : List ℕ) → C.left source.old ≡ Some bytes → configured bytes ≡ Ok c) }
    ensures err { IfErr result (λ status. IsOfConfig status (C.left source.old)) }
    ensures taken { IsTaken (MOST_CONFIG_BYTES + 1) (C.left source.old) (C.left source.new) }
    ensures cause { HasCause (fails_with is_read result) (C.faults source.old) (C.faults source.new) }
{
    let bytes = read_prefix(alloc, source)?;
    match Config::read(alloc, &bytes) {
        Ok(config) => Ok(config),
        Err(ConfigFault::Memory) => Err(Status::Memory),
        Err(fault) => Err(Status::Config(fault)),
    }
}

// The bytes of a source, to its end or to the first byte past the most that a configuration has.
fn read_prefix<C: Source>(alloc: Global, source: &mut C) -> Result<Vec<u8>, Status>
    ensures ok { IfOk result (λ prefix. IsConfigPrefix (C.left source.old) prefix.items) }
    ensures err { IfErr result IsOfReading }
    ensures taken { IsTaken (MOST_CONFIG_BYTES + 1) (C.left source.old) (C.left source.new) }
    ensures cause { HasCause (fails_with is_read result) (C.faults source.old) (C.faults source.new) }
{
    let mut bytes = Vec::new(alloc);
    let mut block = [0u8; BLOCK_BYTES];
    'reads: while bytes.len() <= MOST_CONFIG_BYTES {
        let most = BLOCK_BYTES.min(MOST_CONFIG_BYTES + 1 - bytes.len());
        let Ok(count) = source.read(&mut block[..most]) else {
            return Err(Status::Read);
        };
        if count == 0 {
            return Ok(bytes);
        }
        if bytes.extend_from_slice(&block[..count]).is_err() {
            return Err(Status::Memory);
        }
    }
    Ok(bytes)
}

// Begins the table, and serves the lines of the script over it.
fn serve_table<S: Source, O: Sink, T: Table, D: Dice>(
    alloc: Global,
    session: &Session,
    script: &mut S,
    out: &mut O,
    table: &mut T,
    dice: &mut D,
) -> Status
    requires { T.begun table.old ≡ None }
    ensures done { let before = progress_of S.Source O.Sink T.Table D.Dice script.old out.old table.old dice.old in
        let after = progress_of S.Source O.Sink T.Table D.Dice script.new out.new table.new dice.new in
        result ≡ Status.Done → RanOver session.now (begun_with before (T.coming table.old session.now.config.schema)) after }
    ensures stopped { let before = progress_of S.Source O.Sink T.Table D.Dice script.old out.old table.old dice.old in
        let after = progress_of S.Source O.Sink T.Table D.Dice script.new out.new table.new dice.new in
        result ≢ Status.Done → IsSome (T.begun table.new) → StoppedOver session.now result (begun_with before (T.coming table.old session.now.config.schema)) after }
    ensures untouched { T.begun table.new ≡ None → (O.written out.new ≡ O.written out.old) × (S.left script.new ≡ S.left script.old) × (T.given table.new ≡ T.given table.old) × (D.left dice.new ≡ D.left dice.old) }
    ensures late { (result ≡ Status.Read) ⊎ ((result ≡ Status.Done) ⊎ ((result ≡ Status.LineTooLong) ⊎ ((result ≡ Status.ScriptTooLong) ⊎ ((result ≡ Status.Write) ⊎ (result ≡ Status.Dice))))) → IsSome (T.begun table.new) }
    ensures within { result ≡ Status.Done → (bytes : List ℕ) → S.left script.old ≡ Some bytes → All (λ line. length line ≤ 1048576) (lines_of bytes) × (length bytes ≤ 1073741824) }
    ensures at_end { result ≡ Status.Done → IsAtEnd (S.left script.new) }
    ensures finished { result ≡ Status.Done → O.finished out.new ≡ true }
    ensures read { HasCause (is_read result) (S.faults script.old) (S.faults script.new) }
    ensures long_line { result ≡ Status.LineTooLong → (bytes : List ℕ) → S.left script.old ≡ Some bytes → HasLongLine bytes }
    ensures long_script { result ≡ Status.ScriptTooLong → (bytes : List ℕ) → S.left script.old ≡ Some bytes → 1073741824 < length bytes }
    ensures write { OneHasCause (is_write result) (O.faults out.old) (O.faults out.new) (O.idle out.old) (O.idle out.new) }
    ensures table { HasCause (is_table result) (T.faults table.old) (T.faults table.new) }
    ensures dice { HasCause (is_dice result) (D.faults dice.old) (D.faults dice.new) }
    ensures schema { IsSome (T.begun table.new) → T.begun table.new ≡ Some session.now.config.schema }
    ensures not_arguments { result ≢ Status.Arguments }
    ensures not_config { (f : the_fault) → result ≢ Status.Config f }
{
    match table.begin(session.config().schema()) {
        Ok(()) => serve_lines(alloc, session, script, out, table, dice),
        Err(TableFault::Failed) => Status::Table,
        Err(TableFault::Memory) => Status::Memory,
    }
}

// The replies to the lines of a script, over a table that has begun.
fn serve_lines<S: Source, O: Sink, T: Table, D: Dice>(
    alloc: Global,
    session: &Session,
    script: &mut S,
    out: &mut O,
    table: &mut T,
    dice: &mut D,
) -> Status
    requires { T.begun table.old ≡ Some session.now.config.schema }
    ensures done { let before = progress_of S.Source O.Sink T.Table D.Dice script.old out.old table.old dice.old in
        let after = progress_of S.Source O.Sink T.Table D.Dice script.new out.new table.new dice.new in
        result ≡ Status.Done → RanOver session.now before after }
    ensures stopped { let before = progress_of S.Source O.Sink T.Table D.Dice script.old out.old table.old dice.old in
        let after = progress_of S.Source O.Sink T.Table D.Dice script.new out.new table.new dice.new in
        result ≢ Status.Done → StoppedOver session.now result before after }
    ensures within { result ≡ Status.Done → (bytes : List ℕ) → S.left script.old ≡ Some bytes → All (λ line. length line ≤ 1048576) (lines_of bytes) × (length bytes ≤ 1073741824) }
    ensures at_end { result ≡ Status.Done → IsAtEnd (S.left script.new) }
    ensures finished { result ≡ Status.Done → O.finished out.new ≡ true }
    ensures read { HasCause (is_read result) (S.faults script.old) (S.faults script.new) }
    ensures long_line { result ≡ Status.LineTooLong → (bytes : List ℕ) → S.left script.old ≡ Some bytes → HasLongLine bytes }
    ensures long_script { result ≡ Status.ScriptTooLong → (bytes : List ℕ) → S.left script.old ≡ Some bytes → 1073741824 < length bytes }
    ensures write { OneHasCause (is_write result) (O.faults out.old) (O.faults out.new) (O.idle out.old) (O.idle out.new) }
    ensures table { HasCause (is_table result) (T.faults table.old) (T.faults table.new) }
    ensures dice { HasCause (is_dice result) (D.faults dice.old) (D.faults dice.new) }
    ensures not_arguments { result ≢ Status.Arguments }
    ensures not_config { (f : the_fault) → result ≢ Status.Config f }
    ensures begun { T.begun table.new ≡ T.begun table.old }
{
    let Ok(mut reader) = LineReader::new(alloc, MOST_LINE_BYTES, MOST_SCRIPT_BYTES) else {
        return Status::Memory;
    };
    'lines: loop {
        let line = match reader.next(script) {
            Ok(Some(line)) => line,
            Ok(None) => return finished(out),
            Err(LineFault::Read) => return Status::Read,
            Err(LineFault::LineTooLong) => return Status::LineTooLong,
            Err(LineFault::TooMuch) => return Status::ScriptTooLong,
            Err(LineFault::Memory) => return Status::Memory,
        };
        if let Err(status) = reply(session, table, dice, out, &line) {
            return status;
        }
    }
}

// Hands on what was written.
fn finished<O: Sink>(out: &mut O) -> Status
    ensures same { O.written out.new ≡ O.written out.old }
    ensures cases { (result ≡ Status.Done) ⊎ (result ≡ Status.Write) }
    ensures finished { result ≡ Status.Done → O.finished out.new ≡ true }
    ensures write { HasCause (is_write result) (O.faults out.old) (O.faults out.new) }
    ensures idle { O.idle out.new ≡ O.idle out.old }
{
    match out.finish() {
        Ok(()) => Status::Done,
        Err(_) => Status::Write,
    }
}

// Writes the reply to one line.
fn reply<O: Sink, T: Table, D: Dice>(
    session: &Session,
    table: &mut T,
    dice: &mut D,
    out: &mut O,
    line: &[u8],
) -> Result<(), Status>
    requires { T.begun table.old ≡ Some session.now.config.schema }
    ensures ok { OnOk result ((e : Environment) (state : State) → IsState session.now (told (T.rows table.old) (T.given table.old) (D.left dice.old)) e state → Turned e state line.now (told (T.rows table.old) (T.given table.old) (D.left dice.old)) (told (T.rows table.new) (T.given table.new) (D.left dice.new)) (O.written out.old) (O.written out.new)) }
    ensures err { IfErr result (λ status. (e : Environment) (state : State) → IsState session.now (told (T.rows table.old) (T.given table.old) (D.left dice.old)) e state → TurnedFor status e state line.now (told (T.rows table.old) (T.given table.old) (D.left dice.old)) (told (T.rows table.new) (T.given table.new) (D.left dice.new)) (O.written out.old) (O.written out.new)) }
    ensures of_reply { IfErr result IsOfReply }
    ensures begun { T.begun table.new ≡ T.begun table.old }
    ensures table { HasCause (fails_with is_table result) (T.faults table.old) (T.faults table.new) }
    ensures dice { HasCause (fails_with is_dice result) (D.faults dice.old) (D.faults dice.new) }
    ensures write { OneHasCause (fails_with is_write result) (O.faults out.old) (O.faults out.new) (O.idle out.old) (O.idle out.new) }
{
    match session.step(line, table, dice) {
        Ok(text) => match write_all(out, &text) {
            Ok(()) => Ok(()),
            Err(_) => Err(Status::Write),
        },
        Err(StepFault::Table) => Err(Status::Table),
        Err(StepFault::Dice) => Err(Status::Dice),
        Err(StepFault::Memory) => Err(Status::Memory),
    }
}
