ghost use Rattle.std.specs.Prelude.{◌≡◌, ℕ, List, false, true, Some, IfOk, OnErr};
ghost use Rattle.std.specs.declared.option.Option.{Option};
ghost use Rattle.std.specs.Io.KnownBytes.{Keeps};
ghost use Rattle.dbe_io.specs.Causes.{HasCause};
ghost use Rattle.dbe_values.specs.Keys.{is_lawful_key};
ghost use Rattle.dbe_values.specs.KeyValues.{key_view};
ghost use Rattle.dbe_item.specs.Ruled.{IsSealing};
ghost use Rattle.dbe_lines.specs.declared.request.Request.TheVariants as r;
ghost use Rattle.dbe_lines.specs.Requests.{HasLawfulKey, request_of};
ghost use Rattle.dbe_session.specs.Reply.{Environment, State, draws_for};
ghost use Rattle.dbe_session.specs.Faults.{is_table_fault, is_dice_fault};
ghost use Rattle.dbe_session.specs.Maps.{Items, Stands, after_step};
ghost use Rattle.dbe_session.specs.Steps.{told, IsState, Answered, Unanswered, RequestAnswered, RequestUnanswered, DrawsAtMost};

use dbe_config::Config;
use dbe_fields::split_fault;
use dbe_io::{Dice, Failed};
use dbe_item::{Rings, accepts};
use dbe_lines::{
    Request, none_text, put_refusal, read_request, refused_name, refused_text, split_text,
    value_refusal,
};
use dbe_num::Memory;
use dbe_table::{Table, TableFault};
use dbe_values::{Item, KeyValue};
use std::alloc::{AllocError, Global};
use std::marker::Model;

/// Why a line got no reply.
#[derive(Clone, Copy, Debug, PartialEq, Eq)]
pub enum StepFault {
    /// The table failed.
    Table,
    /// The dice failed.
    Dice,
    /// Memory ran out.
    Memory,
}

impl From<Memory> for StepFault {
    ghost use Rattle.dbe_session.specs.declared.session.StepFault.TheVariants as fault;

    ghost from_gives = { λ _ e. e ≡ fault.Memory };

    fn from(_: Memory) -> StepFault {
        StepFault::Memory
    }
}

impl From<AllocError> for StepFault {
    ghost use Rattle.dbe_session.specs.declared.session.StepFault.TheVariants as fault;

    ghost from_gives = { λ _ e. e ≡ fault.Memory };

    fn from(_: AllocError) -> StepFault {
        StepFault::Memory
    }
}

impl From<Failed> for StepFault {
    ghost use Rattle.dbe_session.specs.declared.session.StepFault.TheVariants as fault;

    ghost from_gives = { λ _ e. e ≡ fault.Dice };

    fn from(_: Failed) -> StepFault {
        StepFault::Dice
    }
}

impl From<TableFault> for StepFault {
    ghost use Rattle.dbe_session.specs.Faults.{of_table};

    ghost from_gives = { λ f e. e ≡ of_table f };

    fn from(fault: TableFault) -> StepFault {
        match fault {
            TableFault::Failed => StepFault::Table,
            TableFault::Memory => StepFault::Memory,
        }
    }
}

/// A session over a table: what is fixed while it serves lines.
///
/// Contracts see the configuration in it.
#[derive(Drop)]
pub struct Session {
    alloc: Global,
    rings: Rings,
}

impl Model for Session {
    ghost use Rattle.dbe_session.specs.Steps.{SessionView};

    ghost Value = { SessionView };

    ghost view = { λ s. record { config = s.rings } };
}

impl Session {
    /// A session by a configuration, with the key schedules of its recipients.
    pub fn new(alloc: Global, config: Config) -> Result<Session, Memory>
        ensures { IfOk result (λ s. s ≡ record { config = config }) }
    {
        let rings = Rings::new(alloc, config)?;
        Ok(Session { alloc, rings })
    }

    /// The configuration.
    pub fn config(&self) -> &Config
        ensures { result.now ≡ self.now.config }
    {
        self.rings.config()
    }

    /// A law: the configuration keeps its bounds, and what sealing needs. Does nothing.
    pub fn is_sealing(&self)
        ensures { IsSealing self.now.config }
    {
        self.rings.is_sealing();
    }

    pub(crate) fn rings(&self) -> &Rings
        ensures { result.now ≡ self.now.config }
    {
        &self.rings
    }

    pub(crate) fn alloc(&self) -> Global {
        self.alloc
    }

    /// The reply to one line of a script, given without its newline, over a table that has begun with the configuration's
    /// keys. An empty line has an empty one.
    ///
    /// A put over an encrypted table that is not refused before takes bytes of the dice. No other line does.
    ///
    /// `Table` comes only where the table failed, `Dice` where the dice did; `Memory` where memory ran out. Then the rows
    /// are as before.
    pub fn step<T: Table, D: Dice>(
        &self,
        line: &[u8],
        table: &mut T,
        dice: &mut D,
    ) -> Result<Vec<u8>, StepFault>
        requires { T.begun table.old ≡ Some self.now.config.schema }
        ensures ok { IfOk result (λ text. (e : Environment) (s : State) → IsState self.now (told (T.rows table.old) (T.given table.old) (D.left dice.old)) e s → Answered e s line.now text.items (told (T.rows table.old) (T.given table.old) (D.left dice.old)) (told (T.rows table.new) (T.given table.new) (D.left dice.new))) }
        ensures err { OnErr result ((e : Environment) (s : State) → IsState self.now (told (T.rows table.old) (T.given table.old) (D.left dice.old)) e s → Unanswered e s line.now (told (T.rows table.old) (T.given table.old) (D.left dice.old)) (told (T.rows table.new) (T.given table.new) (D.left dice.new))) }

        // The map of items is kept: the rows stand for the map after the line, or without a reply for the map before it.
        ensures map { (e : Environment) (s : State) (m : Items) → IsState self.now (told (T.rows table.old) (T.given table.old) (D.left dice.old)) e s → Stands e s m → (after : State) × IsState self.now (told (T.rows table.new) (T.given table.new) (D.left dice.new)) e after × Stands e after (after_step e m line.now result) }
        ensures begun { T.begun table.new ≡ T.begun table.old }
        ensures cause { HasCause (is_table_fault result) (T.faults table.old) (T.faults table.new) }
        ensures dice_cause { HasCause (is_dice_fault result) (D.faults dice.old) (D.faults dice.new) }

        // A line for which no bytes are drawn leaves the dice alone, and dice that fail have given nothing.
        ensures undrawn { draws_for self.now.config (request_of self.now.config line.now) ≡ 0 → dice.new ≡ dice.old }
        ensures dice_kept { is_dice_fault result ≡ true → Keeps (D.left dice.old) (D.left dice.new) }
    {
        self.is_sealing();
        if line.is_empty() {
            return Ok(Vec::new(self.alloc));
        }
        let request = read_request(self.alloc, self.config(), line)?;
        self.reply_to(table, dice, request)
    }

    fn reply_to<T: Table, D: Dice>(
        &self,
        table: &mut T,
        dice: &mut D,
        request: Request,
    ) -> Result<Vec<u8>, StepFault>
        requires begun { T.begun table.old ≡ Some self.now.config.schema }
        requires key { HasLawfulKey self.now.config request }
        ensures ok { IfOk result (λ text. (e : Environment) (s : State) → IsState self.now (told (T.rows table.old) (T.given table.old) (D.left dice.old)) e s → RequestAnswered e s request text.items (told (T.rows table.old) (T.given table.old) (D.left dice.old)) (told (T.rows table.new) (T.given table.new) (D.left dice.new))) }
        ensures err { OnErr result ((e : Environment) (s : State) → IsState self.now (told (T.rows table.old) (T.given table.old) (D.left dice.old)) e s → RequestUnanswered e s request (told (T.rows table.old) (T.given table.old) (D.left dice.old)) (told (T.rows table.new) (T.given table.new) (D.left dice.new))) }
        ensures begun { T.begun table.new ≡ T.begun table.old }
        ensures cause { HasCause (is_table_fault result) (T.faults table.old) (T.faults table.new) }
        ensures dice_cause { HasCause (is_dice_fault result) (D.faults dice.old) (D.faults dice.new) }
        ensures undrawn { draws_for self.now.config request ≡ 0 → dice.new ≡ dice.old }
        ensures dice_kept { is_dice_fault result ≡ true → Keeps (D.left dice.old) (D.left dice.new) }
    {
        match request {
            Request::NotJson => Ok(refused_text(self.alloc, "json")?),
            Request::Shape => Ok(refused_text(self.alloc, "shape")?),
            Request::NotBuilt => Ok(refused_text(self.alloc, "not built")?),
            Request::Value { name, why } => Ok(value_refusal(self.alloc, name.as_str(), why)?),
            Request::Key { name } => Ok(refused_name(self.alloc, "key", name.as_str())?),
            Request::Put(item) => self.put(table, dice, item),
            Request::Get(key) => self.get(table, &key),
            Request::Check(key) => self.check(table, &key),
            Request::Query(query) => self.query(table, &query),
            Request::Explain(query) => Ok(self.explain(&query)?),
        }
    }

    #[tactic(auto, using(crate::proofs::Replies::draws_none))]
    fn put<T: Table, D: Dice>(
        &self,
        table: &mut T,
        dice: &mut D,
        item: Item,
    ) -> Result<Vec<u8>, StepFault>
        requires { T.begun table.old ≡ Some self.now.config.schema }
        ensures ok { IfOk result (λ text. (e : Environment) (s : State) → IsState self.now (told (T.rows table.old) (T.given table.old) (D.left dice.old)) e s → RequestAnswered e s (r.Put item) text.items (told (T.rows table.old) (T.given table.old) (D.left dice.old)) (told (T.rows table.new) (T.given table.new) (D.left dice.new))) }
        ensures rows { OnErr result (T.rows table.new ≡ T.rows table.old) }
        ensures drawn { OnErr result (DrawsAtMost self.now.config (D.left dice.old) (D.left dice.new)) }
        ensures given { T.given table.new ≡ T.given table.old }
        ensures begun { T.begun table.new ≡ T.begun table.old }
        ensures cause { HasCause (is_table_fault result) (T.faults table.old) (T.faults table.new) }
        ensures dice_cause { HasCause (is_dice_fault result) (D.faults dice.old) (D.faults dice.new) }
        ensures undrawn { draws_for self.now.config (r.Put item) ≡ 0 → dice.new ≡ dice.old }
        ensures dice_kept { is_dice_fault result ≡ true → Keeps (D.left dice.old) (D.left dice.new) }
    {
        item.is_lawful();
        match accepts(self.alloc, self.config(), &item) {
            Ok(()) => {}
            Err(fault) => return Ok(put_refusal(self.alloc, &fault)?),
        }
        if let Some(at) = split_fault(self.alloc, self.config(), &item)? {
            return Ok(split_text(self.alloc, at.beacon.as_str(), at.part.as_str())?);
        }
        self.store(table, dice, item)
    }

    fn get<T: Table>(&self, table: &mut T, key: &KeyValue) -> Result<Vec<u8>, StepFault>
        requires begun { T.begun table.old ≡ Some self.now.config.schema }
        requires key { is_lawful_key self.now.config.schema (key_view key.now) ≡ true }
        ensures ok { IfOk result (λ text. (dice : Option (List ℕ)) (e : Environment) (s : State) → IsState self.now (told (T.rows table.old) (T.given table.old) dice) e s → RequestAnswered e s (r.Get key.now) text.items (told (T.rows table.old) (T.given table.old) dice) (told (T.rows table.new) (T.given table.new) dice)) }
        ensures err { OnErr result ((dice : Option (List ℕ)) (e : Environment) (s : State) → IsState self.now (told (T.rows table.old) (T.given table.old) dice) e s → RequestUnanswered e s (r.Get key.now) (told (T.rows table.old) (T.given table.old) dice) (told (T.rows table.new) (T.given table.new) dice)) }
        ensures begun { T.begun table.new ≡ T.begun table.old }
        ensures cause { HasCause (is_table_fault result) (T.faults table.old) (T.faults table.new) }
        ensures no_dice { is_dice_fault result ≡ false }
    {
        let row = table.get(key)?;
        match row {
            Some(row) => Ok(self.found(key, &row)?),
            None => Ok(none_text(self.alloc)?),
        }
    }

    fn check<T: Table>(&self, table: &mut T, key: &KeyValue) -> Result<Vec<u8>, StepFault>
        requires begun { T.begun table.old ≡ Some self.now.config.schema }
        requires key { is_lawful_key self.now.config.schema (key_view key.now) ≡ true }
        ensures ok { IfOk result (λ text. (dice : Option (List ℕ)) (e : Environment) (s : State) → IsState self.now (told (T.rows table.old) (T.given table.old) dice) e s → RequestAnswered e s (r.Check key.now) text.items (told (T.rows table.old) (T.given table.old) dice) (told (T.rows table.new) (T.given table.new) dice)) }
        ensures err { OnErr result ((dice : Option (List ℕ)) (e : Environment) (s : State) → IsState self.now (told (T.rows table.old) (T.given table.old) dice) e s → RequestUnanswered e s (r.Check key.now) (told (T.rows table.old) (T.given table.old) dice) (told (T.rows table.new) (T.given table.new) dice)) }
        ensures begun { T.begun table.new ≡ T.begun table.old }
        ensures cause { HasCause (is_table_fault result) (T.faults table.old) (T.faults table.new) }
        ensures no_dice { is_dice_fault result ≡ false }
    {
        let row = table.get(key)?;
        match row {
            Some(row) => Ok(self.checked(key, &row)?),
            None => Ok(none_text(self.alloc)?),
        }
    }
}
