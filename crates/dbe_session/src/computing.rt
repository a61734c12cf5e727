ghost use Rattle.std.specs.Prelude.{◌≡◌};
ghost use Rattle.std.specs.List.{list_any, flat_map};
ghost use Rattle.dbe_cond.specs.Condition.{condition_of, members_of};
ghost use Rattle.dbe_cond.specs.Names.{operand_names, names_of_all};
ghost use Rattle.dbe_fields.specs.Plain.{is_computed};
ghost use Rattle.dbe_session.specs.Reply.{has_computed};

use dbe_cond::{Cond, Operand};
use dbe_config::Config;
use dbe_fields::is_computed;

/// Whether a virtual field or a compound stands in a condition. Takes no memory.
#[cycle(computed)]
pub(crate) fn has_computed(config: &Config, cond: &Cond) -> bool
    ensures { result ≡ has_computed config.now (condition_of cond.now) }
{
    match cond {
        Cond::Compare { left, right, .. } => {
            is_computed_operand(config, left) || is_computed_operand(config, right)
        }
        Cond::Between { value, low, high } => {
            is_computed_operand(config, value)
                || is_computed_operand(config, low)
                || is_computed_operand(config, high)
        }
        Cond::In { value, list } => {
            is_computed_operand(config, value) || is_one_computed(config, list.as_slice())
        }
        Cond::BeginsWith { name, front } => {
            is_computed(config, name) || is_computed_operand(config, front)
        }
        Cond::Exists { name } => is_computed(config, name),
        Cond::NotExists { name } => is_computed(config, name),
        Cond::Not(inner) => has_computed(config, inner.get()),
        Cond::And(members) => has_one_computed(config, members.as_slice()),
        Cond::Or(members) => has_one_computed(config, members.as_slice()),
    }
}

#[cycle(computed)]
fn has_one_computed(config: &Config, members: &[Cond]) -> bool
    ensures { result ≡ list_any (is_computed config.now) (names_of_all (members_of members.now)) }
{
    for member in members {
        if has_computed(config, member) {
            return true;
        }
    }
    false
}

fn is_one_computed(config: &Config, operands: &[Operand]) -> bool
    ensures { result ≡ list_any (is_computed config.now) (flat_map operand_names operands.now) }
{
    for operand in operands {
        if is_computed_operand(config, operand) {
            return true;
        }
    }
    false
}

fn is_computed_operand(config: &Config, operand: &Operand) -> bool
    ensures { result ≡ list_any (is_computed config.now) (operand_names operand.now) }
{
    match operand {
        Operand::Name(name) => is_computed(config, name),
        Operand::Value(_) => false,
    }
}
