ghost use Rattle.std.specs.Prelude.{◌≡◌, IfOk};
ghost use Rattle.dbe_cond.specs.Condition.{condition_of};
ghost use Rattle.dbe_lines.specs.declared.request.Request.TheVariants as r;
ghost use Rattle.dbe_session.specs.Reply.{Environment, State, unless_refused, refused_in, explain_reply, explained_text};
ghost use Rattle.dbe_session.specs.Steps.{Told, IsState, RequestAnswered};

use crate::Session;
use crate::computing::has_computed;
use crate::rewriting::refused_in;
use dbe_cond::{Cond, print, read};
use dbe_config::Config;
use dbe_lines::{Query, cond_refusal, condition_text, every_text, rewrite_refusal};
use dbe_num::Memory;
use std::alloc::Global;

impl Session {
    /// The reply to an explain. It does not come to the table.
    pub(crate) fn explain(&self, query: &Query) -> Result<Vec<u8>, Memory>
        ensures { IfOk result (λ text. (objects : Told) (e : Environment) (s : State) → IsState self.now objects e s → RequestAnswered e s (r.Explain query.now) text.items objects objects) }
    {
        match read(
            self.alloc(),
            query.text.as_str(),
            &query.names,
            &query.values,
        ) {
            Ok(cond) => explained(self.alloc(), self.config(), &cond),
            Err(fault) => cond_refusal(self.alloc(), &fault),
        }
    }
}

fn explained(alloc: Global, config: &Config, cond: &Cond) -> Result<Vec<u8>, Memory>
    ensures { IfOk result (λ text. (e : Environment) (s : State) → config.now ≡ e.config → text.items ≡ (unless_refused s (refused_in e s (condition_of cond.now)) (explain_reply e s (condition_of cond.now))).text) }
{
    match refused_in(alloc, cond)? {
        Some(fault) => rewrite_refusal(alloc, &fault),
        None => explained_text(alloc, config, cond),
    }
}

// What the table would be asked for.
fn explained_text(alloc: Global, config: &Config, cond: &Cond) -> Result<Vec<u8>, Memory>
    ensures { IfOk result (λ text. (e : Environment) (s : State) → config.now ≡ e.config → text.items ≡ explained_text e s (condition_of cond.now)) }
{
    if has_computed(config, cond) {
        return every_text(alloc);
    }
    let printed = print(alloc, cond)?;
    condition_text(alloc, &printed)
}
