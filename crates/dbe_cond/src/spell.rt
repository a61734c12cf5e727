ghost use Rattle.std.specs.Prelude.{◌≡◌, ◌++◌, ◌≤◌, false, OnOk, IfOk, string_bytes};
ghost use Rattle.dbe_cond.specs.Printed.{numbered, op_text, token_text, one_if_name, one_if_value, has_gap_behind, has_gap_before, gap, tokens_text};

use crate::numbered::placeholder;
use dbe_num::Memory;
use dbe_tokens::{Op, Operand, Token};
use std::alloc::Global;

/// The text of tokens, each placeholder with its number.
pub(crate) fn spell(alloc: Global, tokens: &[Token]) -> Result<String, Memory>
    ensures { IfOk result (λ text. string_bytes text ≡ tokens_text 0 0 false tokens.now) }
{
    let mut text = String::new(alloc);
    let mut names = 0usize;
    let mut values = 0usize;
    let mut behind = false;
    for token in tokens {
        push_gap(&mut text, behind, *token)?;
        push_token(alloc, &mut text, names, values, *token)?;
        names += one_if_name(*token);
        values += one_if_value(*token);
        behind = has_gap_behind(*token);
    }
    Ok(text)
}

fn push_gap(text: &mut String, behind: bool, token: Token) -> Result<(), Memory>
    ensures { OnOk result (string_bytes text.new ≡ string_bytes text.old ++ gap behind token) }
{
    if behind && has_gap_before(token) {
        text.push_str(" ")?;
    }
    Ok(())
}

fn push_token(
    alloc: Global,
    text: &mut String,
    names: usize,
    values: usize,
    token: Token,
) -> Result<(), Memory>
    ensures { OnOk result (string_bytes text.new ≡ string_bytes text.old ++ token_text names values token) }
{
    match token {
        Token::Compare(op) => push_word(text, op_text(op)),
        Token::Open => push_word(text, "("),
        Token::Close => push_word(text, ")"),
        Token::Comma => push_word(text, ","),
        Token::Or => push_word(text, "OR"),
        Token::And => push_word(text, "AND"),
        Token::Not => push_word(text, "NOT"),
        Token::Between => push_word(text, "BETWEEN"),
        Token::In => push_word(text, "IN"),
        Token::Exists => push_word(text, "attribute_exists"),
        Token::NotExists => push_word(text, "attribute_not_exists"),
        Token::BeginsWith => push_word(text, "begins_with"),
        Token::Operand(Operand::Name(_)) => push_number(alloc, text, "#", names),
        Token::Operand(Operand::Value(_)) => push_number(alloc, text, ":", values),
    }
}

fn push_word(text: &mut String, word: &str) -> Result<(), Memory>
    ensures { OnOk result (string_bytes text.new ≡ string_bytes text.old ++ word.now) }
{
    text.push_str(word)?;
    Ok(())
}

fn push_number(alloc: Global, text: &mut String, mark: &str, number: usize) -> Result<(), Memory>
    ensures { OnOk result (string_bytes text.new ≡ string_bytes text.old ++ numbered mark.now number) }
{
    text.push_str(placeholder(alloc, mark, number)?.as_str())?;
    Ok(())
}

fn op_text(op: Op) -> &'static str
    ensures { result.now ≡ op_text op }
{
    match op {
        Op::Eq => "=",
        Op::Ne => "<>",
        Op::Lt => "<",
        Op::Le => "<=",
        Op::Gt => ">",
        Op::Ge => ">=",
    }
}

fn one_if_name(token: Token) -> usize
    ensures is { result ≡ one_if_name token }
    ensures small { result ≤ 1 }
{
    match token {
        Token::Operand(Operand::Name(_)) => 1,
        _ => 0,
    }
}

fn one_if_value(token: Token) -> usize
    ensures is { result ≡ one_if_value token }
    ensures small { result ≤ 1 }
{
    match token {
        Token::Operand(Operand::Value(_)) => 1,
        _ => 0,
    }
}

fn has_gap_behind(token: Token) -> bool
    ensures { result ≡ has_gap_behind token }
{
    match token {
        Token::Open => false,
        Token::Exists => false,
        Token::NotExists => false,
        Token::BeginsWith => false,
        _ => true,
    }
}

fn has_gap_before(token: Token) -> bool
    ensures { result ≡ has_gap_before token }
{
    match token {
        Token::Close => false,
        Token::Comma => false,
        _ => true,
    }
}
