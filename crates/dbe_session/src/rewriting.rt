ghost use Rattle.std.specs.Prelude.{◌≡◌, IfOk};
ghost use Rattle.dbe_cond.specs.Condition.{condition_of};
ghost use Rattle.dbe_session.specs.Reply.{Environment, State, refused_in};

use dbe_cond::{Cond, first_name_with};
use dbe_lines::RewriteFault;
use dbe_num::Memory;
use std::alloc::Global;

/// Why the table is not asked for a condition, if it is not.
pub(crate) fn refused_in(alloc: Global, cond: &Cond) -> Result<Option<RewriteFault>, Memory>
    ensures { IfOk result (λ found. (e : Environment) (s : State) → found ≡ refused_in e s (condition_of cond.now)) }
{
    match first_name_with(cond, "aws_dbe_") {
        Some(name) => Ok(Some(RewriteFault::NotSearchable {
            name: name.copy(alloc)?,
        })),
        None => Ok(None),
    }
}
