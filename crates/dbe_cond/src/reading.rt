ghost use Rattle.std.specs.Prelude.{◌≡◌, ◌≢◌, ℕ, List, IfOk, IfErr};
ghost use Rattle.dbe_values.specs.declared.value.AttrValue.{AttrValue};
ghost use Rattle.dbe_cond.specs.Condition.{Condition, condition_of, IsLawful};
ghost use Rattle.dbe_cond.specs.Reading.{Reads, Refuses, Gives, GivesFault};
ghost use Rattle.dbe_cond.specs.declared.fault.CondFault.{CondFault as the_fault};
ghost use Rattle.dbe_cond.specs.declared.fault.CondFault.TheVariants.{Memory};

use crate::parsed::{has_long_list, parse_text};
use crate::resolve::{copy_text, resolve};
use crate::unknown::{unknown_name, unknown_value};
use crate::{Cond, CondFault, Names, Values};
use std::alloc::Global;

/// The condition that a text is, with its names and values from what is given for their placeholders.
///
/// Placeholders that are given and do not stand in the text are ignored. The refusals are tried in the order in which
/// `CondFault` lists them, each over the whole text. Each token is looked at a fixed number of times.
pub fn read(alloc: Global, text: &str, names: &Names, values: &Values) -> Result<Cond, CondFault>
    ensures ok { IfOk result (λ c. Reads text.now names.now values.now (condition_of c)) }
    ensures only { (c : Condition) → Reads text.now names.now values.now c → Gives result c }
    ensures refused { IfErr result (λ fault. Refuses text.now names.now values.now fault) }
    ensures bad { (fault : the_fault) → Refuses text.now names.now values.now fault → fault ≢ Memory → GivesFault result fault }
{
    read_bytes(alloc, text.as_bytes(), names, values)
}

fn read_bytes(alloc: Global, text: &[u8], names: &Names, values: &Values) -> Result<Cond, CondFault>
    ensures ok { IfOk result (λ c. Reads text.now names.now values.now (condition_of c)) }
    ensures refused { IfErr result (λ fault. Refuses text.now names.now values.now fault) }
{
    let parsed = match parse_text(alloc, text) {
        Ok(parsed) => parsed,
        Err(fault) => return Err(fault),
    };
    if has_long_list(&parsed.tree) {
        return Err(CondFault::TooManyOperands);
    }
    match unknown_name(text, names, &parsed.tokens) {
        Some(name) => Err(CondFault::UnknownName {
            name: copy_text(alloc, name)?,
        }),
        None => match unknown_value(text, values, &parsed.tokens) {
            Some(name) => Err(CondFault::UnknownValue {
                name: copy_text(alloc, name)?,
            }),
            None => Ok(resolve(alloc, text, names, values, &parsed.tree)?),
        },
    }
}

/// A text is at most one condition.
pub fn one_reading()
    ensures { (text : List ℕ) (names : List (List ℕ × List ℕ)) (values : List (List ℕ × AttrValue)) (c d : Condition) → Reads text names values c → Reads text names values d → c ≡ d }
{}

/// A text that is a condition is refused only where memory runs out, and there is at most one other refusal.
pub fn one_refusal()
    ensures none { (text : List ℕ) (names : List (List ℕ × List ℕ)) (values : List (List ℕ × AttrValue)) (c : Condition) (fault : the_fault) → Reads text names values c → Refuses text names values fault → fault ≡ Memory }
    ensures one { (text : List ℕ) (names : List (List ℕ × List ℕ)) (values : List (List ℕ × AttrValue)) (m n : the_fault) → Refuses text names values m → Refuses text names values n → m ≢ Memory → n ≢ Memory → m ≡ n }
{}

/// What is read has two members or more in each AND and OR, and one or more in each list of IN.
pub fn read_is_lawful()
    ensures { (text : List ℕ) (names : List (List ℕ × List ℕ)) (values : List (List ℕ × AttrValue)) (c : Condition) → Reads text names values c → IsLawful c }
{}
