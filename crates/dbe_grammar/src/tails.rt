ghost use Rattle.std.specs.Prelude.{◌≡◌, ◌<◌, ◌∷◌, length, IfOk, IfErr};
ghost use Rattle.dbe_tokens.specs.declared.token.Token.TheVariants as t;
ghost use Rattle.dbe_grammar.specs.Form.{form_of};
ghost use Rattle.dbe_grammar.specs.Grammar.{name_text, pair_text};
ghost use Rattle.dbe_grammar.specs.Parts.{Stops, TailFront, TailStuck, NameStuck, PairStuck};

use crate::fault::Stop;
use crate::next::{after_and, after_close, after_comma, after_open, name, operand};
use crate::tree::Tree;
use dbe_tokens::{Name, Op, Operand, Token};
use sqlite_items::Items;
use std::alloc::Global;

/// After an operand: a comparison, BETWEEN or IN.
pub(crate) fn tail(
    alloc: Global,
    value: Operand,
    tokens: &[Token],
) -> Result<(Tree, &[Token]), Stop>
    ensures front { IfOk result (λ r. TailFront value tokens.now (form_of r.0) r.1.now) }
    ensures shorter { IfOk result (λ r. length r.1.now < length tokens.now) }
    ensures stop { IfErr result (λ e. Stops TailStuck tokens.now e) }
{
    let Some((token, rest)) = tokens.split_first() else {
        return Err(Stop::Misfit(0));
    };
    match token {
        Token::Compare(op) => compare(value, *op, rest),
        Token::Between => between(value, rest),
        Token::In => within(alloc, value, rest),
        _ => Err(Stop::Misfit(tokens.len())),
    }
}

fn compare(left: Operand, op: Op, tokens: &[Token]) -> Result<(Tree, &[Token]), Stop>
    ensures front { IfOk result (λ r. TailFront left (t.Compare op ∷ tokens.now) (form_of r.0) r.1.now) }
    ensures shorter { IfOk result (λ r. length r.1.now < length tokens.now) }
    ensures stop { IfErr result (λ e. Stops TailStuck (t.Compare op ∷ tokens.now) e) }
{
    match operand(tokens) {
        Some((right, others)) => Ok((Tree::Compare { left, op, right }, others)),
        None => Err(Stop::Misfit(tokens.len())),
    }
}

fn between(value: Operand, tokens: &[Token]) -> Result<(Tree, &[Token]), Stop>
    ensures front { IfOk result (λ r. TailFront value (t.Between ∷ tokens.now) (form_of r.0) r.1.now) }
    ensures shorter { IfOk result (λ r. length r.1.now < length tokens.now) }
    ensures stop { IfErr result (λ e. Stops TailStuck (t.Between ∷ tokens.now) e) }
{
    let Some((low, rest)) = operand(tokens) else {
        return Err(Stop::Misfit(tokens.len()));
    };
    let Some(more) = after_and(rest) else {
        return Err(Stop::Misfit(rest.len()));
    };
    let Some((high, others)) = operand(more) else {
        return Err(Stop::Misfit(more.len()));
    };
    Ok((Tree::Between { value, low, high }, others))
}

fn within(alloc: Global, value: Operand, tokens: &[Token]) -> Result<(Tree, &[Token]), Stop>
    ensures front { IfOk result (λ r. TailFront value (t.In ∷ tokens.now) (form_of r.0) r.1.now) }
    ensures shorter { IfOk result (λ r. length r.1.now < length tokens.now) }
    ensures stop { IfErr result (λ e. Stops TailStuck (t.In ∷ tokens.now) e) }
{
    let Some(opened) = after_open(tokens) else {
        return Err(Stop::Misfit(tokens.len()));
    };
    let Some((first, after)) = operand(opened) else {
        return Err(Stop::Misfit(opened.len()));
    };
    let mut list = Items::new(alloc);
    list.push(first)?;
    let mut rest = after;
    loop {
        let Some(more) = after_comma(rest) else {
            let Some(others) = after_close(rest) else {
                return Err(Stop::Misfit(rest.len()));
            };
            return Ok((Tree::In { value, list }, others));
        };
        let Some((next, others)) = operand(more) else {
            return Err(Stop::Misfit(more.len()));
        };
        list.push(next)?;
        rest = others;
    }
}

/// A name in parentheses.
pub(crate) fn name_argument(tokens: &[Token]) -> Result<(Name, &[Token]), Stop>
    ensures front { IfOk result (λ r. tokens.now ≡ name_text r.0 r.1.now) }
    ensures shorter { IfOk result (λ r. length r.1.now < length tokens.now) }
    ensures stop { IfErr result (λ e. Stops NameStuck tokens.now e) }
{
    let Some(opened) = after_open(tokens) else {
        return Err(Stop::Misfit(tokens.len()));
    };
    let Some((name, rest)) = name(opened) else {
        return Err(Stop::Misfit(opened.len()));
    };
    let Some(others) = after_close(rest) else {
        return Err(Stop::Misfit(rest.len()));
    };
    Ok((name, others))
}

/// A name and an operand in parentheses.
pub(crate) fn pair_argument(tokens: &[Token]) -> Result<(Name, Operand, &[Token]), Stop>
    ensures front { IfOk result (λ r. tokens.now ≡ pair_text r.0 r.1 r.2.now) }
    ensures shorter { IfOk result (λ r. length r.2.now < length tokens.now) }
    ensures stop { IfErr result (λ e. Stops PairStuck tokens.now e) }
{
    let Some(opened) = after_open(tokens) else {
        return Err(Stop::Misfit(tokens.len()));
    };
    let Some((name, named)) = name(opened) else {
        return Err(Stop::Misfit(opened.len()));
    };
    let Some(parted) = after_comma(named) else {
        return Err(Stop::Misfit(named.len()));
    };
    let Some((front, rest)) = operand(parted) else {
        return Err(Stop::Misfit(parted.len()));
    };
    let Some(others) = after_close(rest) else {
        return Err(Stop::Misfit(rest.len()));
    };
    Ok((name, front, others))
}
