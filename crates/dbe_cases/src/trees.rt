//! Conditions as trees over tokens.

use crate::texts::push;
use crate::tokens::push_token;
use dbe_grammar::{ParseFault, Tree, parse, tokens_of};
use dbe_num::Memory;
use dbe_tokens::{Name, Op, Operand, Span, Token};
use std::alloc::Global;

/// The tokens that a condition is printed as, or the place at which there is none.
pub(crate) fn printed(
    alloc: Global,
    out: &mut String,
    text: &[u8],
    tokens: &[Token],
) -> Result<(), Memory> {
    match parse(alloc, tokens) {
        Ok(tree) => push_tree(alloc, out, text, &tree),
        Err(fault) => push_fault(out, fault),
    }
}

fn push_tree(alloc: Global, out: &mut String, text: &[u8], tree: &Tree) -> Result<(), Memory> {
    let tokens = tokens_of(alloc, tree)?;
    push(out, "read")?;
    push_tokens(out, text, tokens.as_slice())
}

fn push_tokens(out: &mut String, text: &[u8], tokens: &[Token]) -> Result<(), Memory> {
    for token in tokens {
        push(out, " ")?;
        push_token(out, text, *token)?;
    }
    Ok(())
}

fn push_fault(out: &mut String, fault: ParseFault) -> Result<(), Memory> {
    match fault {
        ParseFault::Memory => Err(Memory),
        ParseFault::Syntax { at } => {
            write!(out, "misfit {at}")?;
            Ok(())
        }
    }
}

/// Whether tokens are a condition, or the place at which they begin none. A token is a letter.
pub(crate) fn place(alloc: Global, out: &mut String, letters: &str) -> Result<(), Memory> {
    let mut tokens = Vec::new(alloc);
    push_letters(&mut tokens, letters)?;
    push_place(alloc, out, &tokens)
}

fn push_place(alloc: Global, out: &mut String, tokens: &[Token]) -> Result<(), Memory> {
    match parse(alloc, tokens) {
        Ok(_) => push(out, "read"),
        Err(fault) => push_fault(out, fault),
    }
}

fn push_letters(tokens: &mut Vec<Token>, letters: &str) -> Result<(), Memory> {
    for letter in letters.bytes() {
        tokens.push(token_of(letter))?;
    }
    Ok(())
}

fn token_of(letter: u8) -> Token {
    let span = Span { start: 0, end: 1 };
    match letter {
        b'=' => Token::Compare(Op::Eq),
        b'(' => Token::Open,
        b')' => Token::Close,
        b',' => Token::Comma,
        b'o' => Token::Or,
        b'a' => Token::And,
        b'n' => Token::Not,
        b'b' => Token::Between,
        b'i' => Token::In,
        b'E' => Token::Exists,
        b'N' => Token::NotExists,
        b'B' => Token::BeginsWith,
        b'#' => Token::Operand(Operand::Name(Name::Placeholder(span))),
        b':' => Token::Operand(Operand::Value(span)),
        _ => Token::Operand(Operand::Name(Name::Word(span))),
    }
}
