ghost use Rattle.std.specs.Prelude.{◌≡◌, ℕ, ◌+◌, ◌<◌, ◌∷◌, take, length, IfOk, IfErr};
ghost use Rattle.dbe_tokens.specs.declared.token.Token.TheVariants as t;
ghost use Rattle.dbe_grammar.specs.Form.{Form, form_of};
ghost use Rattle.dbe_grammar.specs.Grammar.{IsCond};
ghost use Rattle.dbe_grammar.specs.Reading.{Gives, Refuses, IfSyntax, IsMisfit, Begins};
ghost use Rattle.dbe_grammar.specs.Parts.{Stops, OrFront, AndFront, FactorFront, OrStuck, AndStuck, FactorStuck};

use crate::fault::{ParseFault, Stop};
use crate::next::{after_and, after_close, after_or};
use crate::tails::{name_argument, pair_argument, tail};
use crate::tree::Tree;
use dbe_tokens::{Operand, Token};
use sqlite_items::{Boxed, Items};
use std::alloc::Global;

/// The condition that the tokens are, all of them.
///
/// Each token is looked at once, with one token of sight, and none is copied before its tree is made.
pub fn parse(alloc: Global, tokens: &[Token]) -> Result<Tree, ParseFault>
    ensures found { IfOk result (λ found. IsCond tokens.now (form_of found)) }
    ensures only { (wanted : Form) → IsCond tokens.now wanted → Gives result wanted }
    ensures misfit { IfErr result (λ fault. IfSyntax fault (IsMisfit tokens.now)) }

    // What stands before the place begins some condition, and with the token at the place it begins none.
    ensures begins { IfErr result (λ fault. IfSyntax fault (λ at. Begins (take at tokens.now))) }
    ensures fails { IfErr result (λ fault. IfSyntax fault (λ at. at < length tokens.now → Begins (take (at + 1) tokens.now) → ⊥)) }
    ensures refused { (at : ℕ) → IsMisfit tokens.now at → Refuses result at }
{
    match or_list(alloc, tokens) {
        Ok((found, others)) => {
            if others.is_empty() {
                Ok(found)
            } else {
                Err(ParseFault::Syntax {
                    at: tokens.len() - others.len(),
                })
            }
        }
        Err(Stop::Memory) => Err(ParseFault::Memory),
        Err(Stop::Misfit(left)) => Err(ParseFault::Syntax {
            at: tokens.len() - left,
        }),
    }
}

#[cycle(parser)]
fn or_list(alloc: Global, tokens: &[Token]) -> Result<(Tree, &[Token]), Stop>
    ensures front { IfOk result (λ r. OrFront tokens.now (form_of r.0) r.1.now) }
    ensures shorter { IfOk result (λ r. length r.1.now < length tokens.now) }
    ensures stop { IfErr result (λ e. Stops OrStuck tokens.now e) }
{
    let (first, others) = match and_list(alloc, tokens) {
        Ok(found) => found,
        Err(stop) => return Err(stop),
    };
    let Some(mut rest) = after_or(others) else {
        return Ok((first, others));
    };
    let mut members = Items::new(alloc);
    members.push(first)?;
    loop {
        let (next, others) = match and_list(alloc, rest) {
            Ok(found) => found,
            Err(stop) => return Err(stop),
        };
        members.push(next)?;
        let Some(more) = after_or(others) else {
            return Ok((Tree::Or(members), others));
        };
        rest = more;
    }
}

#[cycle(parser)]
fn and_list(alloc: Global, tokens: &[Token]) -> Result<(Tree, &[Token]), Stop>
    ensures front { IfOk result (λ r. AndFront tokens.now (form_of r.0) r.1.now) }
    ensures shorter { IfOk result (λ r. length r.1.now < length tokens.now) }
    ensures stop { IfErr result (λ e. Stops AndStuck tokens.now e) }
{
    let (first, others) = match factor(alloc, tokens) {
        Ok(found) => found,
        Err(stop) => return Err(stop),
    };
    let Some(mut rest) = after_and(others) else {
        return Ok((first, others));
    };
    let mut members = Items::new(alloc);
    members.push(first)?;
    loop {
        let (next, others) = match factor(alloc, rest) {
            Ok(found) => found,
            Err(stop) => return Err(stop),
        };
        members.push(next)?;
        let Some(more) = after_and(others) else {
            return Ok((Tree::And(members), others));
        };
        rest = more;
    }
}

#[cycle(parser)]
fn factor(alloc: Global, tokens: &[Token]) -> Result<(Tree, &[Token]), Stop>
    ensures front { IfOk result (λ r. FactorFront tokens.now (form_of r.0) r.1.now) }
    ensures shorter { IfOk result (λ r. length r.1.now < length tokens.now) }
    ensures stop { IfErr result (λ e. Stops FactorStuck tokens.now e) }
{
    let Some((token, rest)) = tokens.split_first() else {
        return Err(Stop::Misfit(0));
    };
    match token {
        Token::Not => negated(alloc, rest),
        Token::Open => group(alloc, rest),
        Token::Exists => exists(rest),
        Token::NotExists => lacks(rest),
        Token::BeginsWith => begins_with(rest),
        Token::Operand(operand) => test(alloc, *operand, rest),
        _ => Err(Stop::Misfit(tokens.len())),
    }
}

/// After NOT.
#[cycle(parser)]
fn negated(alloc: Global, tokens: &[Token]) -> Result<(Tree, &[Token]), Stop>
    ensures front { IfOk result (λ r. FactorFront (t.Not ∷ tokens.now) (form_of r.0) r.1.now) }
    ensures shorter { IfOk result (λ r. length r.1.now < length tokens.now) }
    ensures stop { IfErr result (λ e. Stops FactorStuck (t.Not ∷ tokens.now) e) }
{
    match factor(alloc, tokens) {
        Ok((inner, others)) => Ok((Tree::Not(Boxed::new(alloc, inner)?), others)),
        Err(stop) => Err(stop),
    }
}

/// After an opening parenthesis.
#[cycle(parser)]
fn group(alloc: Global, tokens: &[Token]) -> Result<(Tree, &[Token]), Stop>
    ensures front { IfOk result (λ r. FactorFront (t.Open ∷ tokens.now) (form_of r.0) r.1.now) }
    ensures shorter { IfOk result (λ r. length r.1.now < length tokens.now) }
    ensures stop { IfErr result (λ e. Stops FactorStuck (t.Open ∷ tokens.now) e) }
{
    match or_list(alloc, tokens) {
        Ok((inner, others)) => match after_close(others) {
            Some(rest) => Ok((inner, rest)),
            None => Err(Stop::Misfit(others.len())),
        },
        Err(stop) => Err(stop),
    }
}

/// After `attribute_exists`.
fn exists(tokens: &[Token]) -> Result<(Tree, &[Token]), Stop>
    ensures front { IfOk result (λ r. FactorFront (t.Exists ∷ tokens.now) (form_of r.0) r.1.now) }
    ensures shorter { IfOk result (λ r. length r.1.now < length tokens.now) }
    ensures stop { IfErr result (λ e. Stops FactorStuck (t.Exists ∷ tokens.now) e) }
{
    match name_argument(tokens) {
        Ok((name, others)) => Ok((Tree::Exists { name }, others)),
        Err(stop) => Err(stop),
    }
}

/// After `attribute_not_exists`.
fn lacks(tokens: &[Token]) -> Result<(Tree, &[Token]), Stop>
    ensures front { IfOk result (λ r. FactorFront (t.NotExists ∷ tokens.now) (form_of r.0) r.1.now) }
    ensures shorter { IfOk result (λ r. length r.1.now < length tokens.now) }
    ensures stop { IfErr result (λ e. Stops FactorStuck (t.NotExists ∷ tokens.now) e) }
{
    match name_argument(tokens) {
        Ok((name, others)) => Ok((Tree::NotExists { name }, others)),
        Err(stop) => Err(stop),
    }
}

/// After `begins_with`.
fn begins_with(tokens: &[Token]) -> Result<(Tree, &[Token]), Stop>
    ensures front { IfOk result (λ r. FactorFront (t.BeginsWith ∷ tokens.now) (form_of r.0) r.1.now) }
    ensures shorter { IfOk result (λ r. length r.1.now < length tokens.now) }
    ensures stop { IfErr result (λ e. Stops FactorStuck (t.BeginsWith ∷ tokens.now) e) }
{
    match pair_argument(tokens) {
        Ok((name, front, others)) => Ok((Tree::BeginsWith { name, front }, others)),
        Err(stop) => Err(stop),
    }
}

/// After the operand that a test begins with.
fn test(alloc: Global, value: Operand, tokens: &[Token]) -> Result<(Tree, &[Token]), Stop>
    ensures front { IfOk result (λ r. FactorFront (t.Operand value ∷ tokens.now) (form_of r.0) r.1.now) }
    ensures shorter { IfOk result (λ r. length r.1.now < length tokens.now) }
    ensures stop { IfErr result (λ e. Stops FactorStuck (t.Operand value ∷ tokens.now) e) }
{
    match tail(alloc, value, tokens) {
        Ok(found) => Ok(found),
        Err(stop) => Err(stop),
    }
}
