ghost use Rattle.std.specs.Prelude.{◌≡◌, IfOk};
ghost use Rattle.dbe_cond.specs.Condition.{Condition, condition_of, IsLawful};
ghost use Rattle.dbe_cond.specs.Names.{names_of};
ghost use Rattle.dbe_cond.specs.Printed.{printed_text, printed_names, printed_values};
ghost use Rattle.dbe_cond.specs.Reading.{Reads, IsWithinLimits};

use crate::collect::{push_names, push_values};
use crate::shape::shape;
use crate::spell::spell;
use crate::{Cond, Names, Printed, Values};
use dbe_num::{Memory, Text};
use sqlite_items::Items;
use std::alloc::Global;

/// Prints a condition.
///
/// Each name becomes `#0`, `#1`, .. and each value `:0`, `:1`, .. in the order of the text, a new number each time. One
/// space stands round operators and keywords, and lists have `, ` between their members. Parentheses stand round what NOT
/// stands before and a member of And where they are And or Or, and round a member of Or where it is Or.
pub fn print(alloc: Global, cond: &Cond) -> Result<Printed, Memory>
    ensures text { IfOk result (λ p. p.text ≡ printed_text (condition_of cond.now)) }
    ensures names { IfOk result (λ p. p.names ≡ printed_names (condition_of cond.now)) }
    ensures values { IfOk result (λ p. p.values ≡ printed_values (condition_of cond.now)) }
{
    let tree = shape(alloc, cond)?;
    let tokens = dbe_grammar::tokens_of(alloc, &tree)?;
    let mut names = Vec::new(alloc);
    push_names(alloc, &mut names, cond)?;
    let mut values = Vec::new(alloc);
    push_values(alloc, &mut values, cond)?;
    Ok(Printed {
        text: Text::from_string(spell(alloc, tokens.as_slice())?),
        names: Names::numbered(alloc, names)?,
        values: Values::numbered(alloc, values)?,
    })
}

/// The names of a condition, in the order in which they stand in its text.
pub fn names_in(alloc: Global, cond: &Cond) -> Result<Items<Text>, Memory>
    ensures { IfOk result (λ names. names ≡ names_of (condition_of cond.now)) }
{
    let mut names = Vec::new(alloc);
    push_names(alloc, &mut names, cond)?;
    Ok(Items::from_vec(names))
}

/// Reading what is printed gives the same condition, where the text is within the limits of `read`.
pub fn printed_is_read()
    ensures { (c : Condition) → IsLawful c → IsWithinLimits (printed_text c) → Reads (printed_text c) (printed_names c) (printed_values c) c }
{}
