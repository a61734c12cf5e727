ghost use Rattle.std.specs.Prelude.{◌≡◌, [], ◌∷◌, option_map};
ghost use Rattle.std.specs.List.{flat_map};
ghost use Rattle.dbe_cond.specs.Condition.{condition_of, members_of};
ghost use Rattle.dbe_cond.specs.Names.{operand_names, names_of, names_of_all, first_with};

use crate::{Cond, Operand};
use dbe_num::Text;

/// The first name of a condition that begins with a prefix, in the order in which names stand in the condition's text.
/// None where no name does. Takes no memory.
#[cycle(names)]
pub fn first_name_with<'a>(cond: &'a Cond, prefix: &str) -> Option<&'a Text>
    ensures { option_map (λ n. n.now) result ≡ first_with prefix.now (names_of (condition_of cond.now)) }
{
    match cond {
        Cond::Compare { left, right, .. } => in_operand(left, prefix).or(in_operand(right, prefix)),
        Cond::Between { value, low, high } => in_operand(value, prefix)
            .or(in_operand(low, prefix))
            .or(in_operand(high, prefix)),
        Cond::In { value, list } => {
            in_operand(value, prefix).or(in_operands(list.as_slice(), prefix))
        }
        Cond::BeginsWith { name, front } => in_name(name, prefix).or(in_operand(front, prefix)),
        Cond::Exists { name } => in_name(name, prefix),
        Cond::NotExists { name } => in_name(name, prefix),
        Cond::Not(inner) => first_name_with(inner.get(), prefix),
        Cond::And(members) => in_members(members.as_slice(), prefix),
        Cond::Or(members) => in_members(members.as_slice(), prefix),
    }
}

#[cycle(names)]
fn in_members<'a>(members: &'a [Cond], prefix: &str) -> Option<&'a Text>
    ensures { option_map (λ n. n.now) result ≡ first_with prefix.now (names_of_all (members_of members.now)) }
{
    for member in members {
        if let Some(name) = first_name_with(member, prefix) {
            return Some(name);
        }
    }
    None
}

fn in_operands<'a>(operands: &'a [Operand], prefix: &str) -> Option<&'a Text>
    ensures { option_map (λ n. n.now) result ≡ first_with prefix.now (flat_map operand_names operands.now) }
{
    for operand in operands {
        if let Some(name) = in_operand(operand, prefix) {
            return Some(name);
        }
    }
    None
}

fn in_operand<'a>(operand: &'a Operand, prefix: &str) -> Option<&'a Text>
    ensures { option_map (λ n. n.now) result ≡ first_with prefix.now (operand_names operand.now) }
{
    match operand {
        Operand::Name(name) => in_name(name, prefix),
        Operand::Value(_) => None,
    }
}

fn in_name<'a>(name: &'a Text, prefix: &str) -> Option<&'a Text>
    ensures { option_map (λ n. n.now) result ≡ first_with prefix.now (name.now ∷ []) }
{
    if name.as_bytes().starts_with(prefix.as_bytes()) {
        Some(name)
    } else {
        None
    }
}
