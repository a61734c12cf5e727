ghost use Rattle.std.specs.Prelude.{◌≡◌, ℕ, List, false, filter, None, Some, IfOk, OnErr, IsSome, option_map};
ghost use Rattle.std.specs.declared.option.Option.{Option};
ghost use Rattle.dbe_io.specs.Causes.{HasCause};
ghost use Rattle.dbe_cond.specs.Condition.{condition_of};
ghost use Rattle.dbe_cond.specs.Meaning.{holds};
ghost use Rattle.dbe_table.specs.Rows.{Row, wanted_rows};
ghost use Rattle.dbe_lines.specs.declared.request.Request.TheVariants as r;
ghost use Rattle.dbe_session.specs.Faults.{is_table_fault, is_dice_fault};
ghost use Rattle.dbe_session.specs.Reply.{Environment, State, handed_out, selects, selection_text, query_reply, unless_refused, refused_in};
ghost use Rattle.dbe_session.specs.Steps.{told, IsState, RequestAnswered, RequestUnanswered, IsReply, IsGivenBy, IsOnly, IsAskedBy, only_of};

use crate::computing::has_computed;
use crate::names::distinct_names;
use crate::rewriting::refused_in;
use crate::{Session, StepFault};
use dbe_cond::{Cond, Wanted, holds, read};
use dbe_config::Config;
use dbe_fields::values_of;
use dbe_lines::{Query, cond_refusal, count_text, item_text, rewrite_refusal};
use dbe_num::{Memory, Text};
use dbe_table::Table;
use dbe_values::Item;
use std::alloc::Global;

impl Session {
    /// The reply to a query.
    pub(crate) fn query<T: Table>(&self, table: &mut T, query: &Query) -> Result<Vec<u8>, StepFault>
        requires { T.begun table.old ≡ Some self.now.config.schema }
        ensures ok { IfOk result (λ text. (dice : Option (List ℕ)) (e : Environment) (s : State) → IsState self.now (told (T.rows table.old) (T.given table.old) dice) e s → RequestAnswered e s (r.Query query.now) text.items (told (T.rows table.old) (T.given table.old) dice) (told (T.rows table.new) (T.given table.new) dice)) }
        ensures err { OnErr result ((dice : Option (List ℕ)) (e : Environment) (s : State) → IsState self.now (told (T.rows table.old) (T.given table.old) dice) e s → RequestUnanswered e s (r.Query query.now) (told (T.rows table.old) (T.given table.old) dice) (told (T.rows table.new) (T.given table.new) dice)) }
        ensures begun { T.begun table.new ≡ T.begun table.old }
        ensures cause { HasCause (is_table_fault result) (T.faults table.old) (T.faults table.new) }
        ensures no_dice { is_dice_fault result ≡ false }
    {
        match read(
            self.alloc(),
            query.text.as_str(),
            &query.names,
            &query.values,
        ) {
            Ok(cond) => self.search(table, &Wanted::Only(cond)),
            Err(fault) => Ok(cond_refusal(self.alloc(), &fault)?),
        }
    }

    // The rows of which a condition holds.
    fn search<T: Table>(&self, table: &mut T, only: &Wanted) -> Result<Vec<u8>, StepFault>
        requires begun { IsSome (T.begun table.old) }
        requires only { IsOnly only.now }
        ensures ok { IfOk result (λ text. (e : Environment) (s : State) → IsState self.now (told (T.rows table.old) (T.given table.old) None) e s → IsReply (unless_refused s (refused_in e s (only_of only.now)) (query_reply e s (only_of only.now))) text.items (T.given table.old) (T.given table.new)) }
        ensures err { OnErr result ((e : Environment) (s : State) → IsState self.now (told (T.rows table.old) (T.given table.old) None) e s → IsGivenBy (unless_refused s (refused_in e s (only_of only.now)) (query_reply e s (only_of only.now))) (T.given table.old) (T.given table.new)) }
        ensures same { T.rows table.new ≡ T.rows table.old }
        ensures begun { T.begun table.new ≡ T.begun table.old }
        ensures cause { HasCause (is_table_fault result) (T.faults table.old) (T.faults table.new) }
        ensures no_dice { is_dice_fault result ≡ false }
    {
        let Wanted::Only(cond) = only else {
            unreachable!()
        };
        match refused_in(self.alloc(), cond)? {
            Some(fault) => Ok(rewrite_refusal(self.alloc(), &fault)?),
            None => self.search_rows(table, only, cond),
        }
    }

    fn search_rows<T: Table>(
        &self,
        table: &mut T,
        only: &Wanted,
        cond: &Cond,
    ) -> Result<Vec<u8>, StepFault>
        requires begun { IsSome (T.begun table.old) }
        requires only { (rows : List Row) → wanted_rows only.now rows ≡ filter (holds (condition_of cond.now)) rows }
        ensures ok { IfOk result (λ text. (e : Environment) (s : State) → IsState self.now (told (T.rows table.old) (T.given table.old) None) e s → IsReply (query_reply e s (condition_of cond.now)) text.items (T.given table.old) (T.given table.new)) }
        ensures err { OnErr result ((e : Environment) (s : State) → IsState self.now (told (T.rows table.old) (T.given table.old) None) e s → IsGivenBy (query_reply e s (condition_of cond.now)) (T.given table.old) (T.given table.new)) }
        ensures same { T.rows table.new ≡ T.rows table.old }
        ensures begun { T.begun table.new ≡ T.begun table.old }
        ensures cause { HasCause (is_table_fault result) (T.faults table.old) (T.faults table.new) }
        ensures no_dice { is_dice_fault result ≡ false }
    {
        if has_computed(self.config(), cond) {
            let names = distinct_names(self.alloc(), cond)?;
            self.search_by(table, &Wanted::Every, cond, Some(names.as_slice()))
        } else {
            self.search_by(table, only, cond, None)
        }
    }

    fn search_by<T: Table>(
        &self,
        table: &mut T,
        wanted: &Wanted,
        cond: &Cond,
        names: Option<&[Text]>,
    ) -> Result<Vec<u8>, StepFault>
        requires begun { IsSome (T.begun table.old) }
        requires wanted { (e : Environment) (s : State) → self.now.config ≡ e.config → wanted_rows wanted.now s.rows ≡ handed_out e s (condition_of cond.now) }
        requires names { IsAskedBy self.now.config (condition_of cond.now) (option_map (λ n. n.now) names) }
        ensures ok { IfOk result (λ text. (e : Environment) (s : State) → IsState self.now (told (T.rows table.old) (T.given table.old) None) e s → IsReply (query_reply e s (condition_of cond.now)) text.items (T.given table.old) (T.given table.new)) }
        ensures err { OnErr result ((e : Environment) (s : State) → IsState self.now (told (T.rows table.old) (T.given table.old) None) e s → IsGivenBy (query_reply e s (condition_of cond.now)) (T.given table.old) (T.given table.new)) }
        ensures same { T.rows table.new ≡ T.rows table.old }
        ensures begun { T.begun table.new ≡ T.begun table.old }
        ensures cause { HasCause (is_table_fault result) (T.faults table.old) (T.faults table.new) }
        ensures no_dice { is_dice_fault result ≡ false }
    {
        let found = table.select(wanted)?;
        Ok(selection_text(self.alloc(), self.config(), cond, names, &found)?)
    }
}

// Of the rows that the table returned, those that the condition selects.
fn selection_text(
    alloc: Global,
    config: &Config,
    cond: &Cond,
    names: Option<&[Text]>,
    found: &[Item],
) -> Result<Vec<u8>, Memory>
    requires { IsAskedBy config.now (condition_of cond.now) (option_map (λ n. n.now) names) }
    ensures { IfOk result (λ text. (e : Environment) (s : State) → config.now ≡ e.config → text.items ≡ selection_text e s (condition_of cond.now) found.now) }
{
    let mut text = Vec::new(alloc);
    let mut count = 0u64;
    for item in found {
        if selects(alloc, config, cond, names, item)? {
            text.extend_from_slice(&item_text(alloc, item)?)?;
            count += 1;
        }
    }
    text.extend_from_slice(&count_text(alloc, count, found.len() as u64)?)?;
    Ok(text)
}

// Of the virtual fields and compounds those are made that stand in the condition.
fn selects(
    alloc: Global,
    config: &Config,
    cond: &Cond,
    names: Option<&[Text]>,
    item: &Item,
) -> Result<bool, Memory>
    requires { IsAskedBy config.now (condition_of cond.now) (option_map (λ n. n.now) names) }
    ensures { IfOk result (λ b. b ≡ selects config.now (condition_of cond.now) item.now) }
{
    match names {
        Some(names) => Ok(holds(cond, &values_of(alloc, config, names, item)?)),
        None => Ok(holds(cond, item)),
    }
}
