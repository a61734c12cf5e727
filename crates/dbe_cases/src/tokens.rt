//! Tokens of texts, and what the grammar makes of them.

use crate::texts::{parts, push, shown};
use crate::trees;
use dbe_num::Memory;
use dbe_tokens::{Name, Op, Operand, Span, Token, TokenFault, Tokens, bytes_in, cut, is_too_deep};
use dbe_values::json_value;
use serde_json::Value;
use std::alloc::Global;

/// The answer to a case of a text. It is a JSON string, whose characters below 256 are bytes.
pub(crate) fn answer(
    alloc: Global,
    out: &mut String,
    kind: &str,
    case: &str,
) -> Result<(), Memory> {
    match json_value(alloc, case.as_bytes())? {
        Some(json) => of_json(alloc, out, kind, &json),
        None => push(out, "no JSON"),
    }
}

fn of_json(alloc: Global, out: &mut String, kind: &str, json: &Value) -> Result<(), Memory> {
    match json.as_str() {
        Some(text) => of_text(alloc, out, kind, text),
        None => push(out, "no text"),
    }
}

fn of_text(alloc: Global, out: &mut String, kind: &str, text: &str) -> Result<(), Memory> {
    let mut bytes = Vec::new(alloc);
    push_bytes(&mut bytes, text)?;
    of_bytes(alloc, out, kind, &bytes)
}

fn push_bytes(bytes: &mut Vec<u8>, text: &str) -> Result<(), Memory> {
    for character in text.chars() {
        bytes.push(byte_of(character))?;
    }
    Ok(())
}

fn byte_of(character: char) -> u8 {
    u8::try_from(u32::from(character)).unwrap_or(b'?')
}

fn of_bytes(alloc: Global, out: &mut String, kind: &str, text: &[u8]) -> Result<(), Memory> {
    match cut(alloc, text) {
        Ok(found) => of_tokens(alloc, out, kind, text, &found),
        Err(fault) => push_fault(out, fault),
    }
}

fn push_fault(out: &mut String, fault: TokenFault) -> Result<(), Memory> {
    match fault {
        TokenFault::Memory => Err(Memory),
        TokenFault::BadToken { at } => {
            write!(out, "bad at {at}")?;
            Ok(())
        }
    }
}

fn of_tokens(
    alloc: Global,
    out: &mut String,
    kind: &str,
    text: &[u8],
    found: &Tokens,
) -> Result<(), Memory> {
    match kind {
        "deep" => deep(out, &found.tokens),
        "printed" => trees::printed(alloc, out, text, &found.tokens),
        _ => placed(out, text, &found.tokens, &found.starts),
    }
}

fn deep(out: &mut String, tokens: &[Token]) -> Result<(), Memory> {
    push(out, if is_too_deep(tokens) { "yes" } else { "no" })
}

// Each token behind its place.
fn placed(out: &mut String, text: &[u8], tokens: &[Token], starts: &[usize]) -> Result<(), Memory> {
    write!(out, "{} tokens", tokens.len())?;
    for (token, start) in tokens.iter().zip(starts.iter()) {
        write!(out, " | {start} ")?;
        push_token(out, text, *token)?;
    }
    Ok(())
}

/// A token: a sign, a keyword or a function word in capital letters, or the range of an operand in the text.
pub(crate) fn push_token(out: &mut String, text: &[u8], token: Token) -> Result<(), Memory> {
    match token {
        Token::Operand(operand) => push_operand(out, text, operand),
        Token::Compare(op) => push(out, sign_of(op)),
        Token::Open => push(out, "("),
        Token::Close => push(out, ")"),
        Token::Comma => push(out, ","),
        Token::Or => push(out, "OR"),
        Token::And => push(out, "AND"),
        Token::Not => push(out, "NOT"),
        Token::Between => push(out, "BETWEEN"),
        Token::In => push(out, "IN"),
        Token::Exists => push(out, "ATTRIBUTE_EXISTS"),
        Token::NotExists => push(out, "ATTRIBUTE_NOT_EXISTS"),
        Token::BeginsWith => push(out, "BEGINS_WITH"),
    }
}

fn sign_of(op: Op) -> &'static str {
    match op {
        Op::Eq => "=",
        Op::Ne => "<>",
        Op::Lt => "<",
        Op::Le => "<=",
        Op::Gt => ">",
        Op::Ge => ">=",
    }
}

fn push_operand(out: &mut String, text: &[u8], operand: Operand) -> Result<(), Memory> {
    match operand {
        Operand::Name(Name::Word(span)) => push_range(out, "word", text, span),
        Operand::Name(Name::Placeholder(span)) => push_range(out, "name", text, span),
        Operand::Value(span) => push_range(out, "value", text, span),
    }
}

fn push_range(out: &mut String, kind: &str, text: &[u8], span: Span) -> Result<(), Memory> {
    let range = shown(bytes_in(text, span));
    write!(out, "{kind}[{range}]")?;
    Ok(())
}

/// The bytes of a range: two places, and the text.
pub(crate) fn range(out: &mut String, case: &str) -> Result<(), Memory> {
    let (start, rest) = parts(case);
    let (end, text) = parts(rest);
    match (start.parse::<usize>(), end.parse::<usize>()) {
        (Ok(start), Ok(end)) => push_range(out, "", text.as_bytes(), Span { start, end }),
        _ => push(out, "no range"),
    }
}
