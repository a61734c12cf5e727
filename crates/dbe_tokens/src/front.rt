ghost use Rattle.std.specs.Prelude.{◌≡◌, ◌+◌, ◌^◌, ◌<◌, ◌≤◌, ◌∷◌, true, length, IfSome, IfNone};
ghost use Rattle.std.specs.List.{prefix_len};
ghost use Rattle.std.specs.Prelude.{bytes_eq};
ghost use Rattle.dbe_tokens.specs.Token.{is_space, begins_word, is_part, is_keyword, word_token, function_or_name, one_sign, two_signs};
ghost use Rattle.dbe_tokens.specs.Text.{BeginsNone};
ghost use Rattle.dbe_tokens.specs.Parts.{EndsParts, IsSplit, IsTail, IsSign, BeginsNoSign, IsFront};

use crate::token::{Name, Op, Operand, Span, Token};

/// The longest token at the front of `text`, whose place is `start`, and what follows it.
pub(crate) fn front(start: usize, text: &[u8]) -> Option<(Token, &[u8])>
    requires { start + length text.now < 2 ^ 64 }
    ensures some { IfSome result (λ f. IsFront start text.now f.0 f.1.now) }
    ensures shorter { IfSome result (λ f. length f.1.now < length text.now) }
    ensures none { IfNone result (BeginsNone start text.now) }
{
    let (first, others) = text.split_first()?;
    if begins_word(*first) {
        Some(word(start, *first, others, text))
    } else if *first == b'#' {
        let (span, back) = tail(start, others)?;
        Some((Token::Operand(Operand::Name(Name::Placeholder(span))), back))
    } else if *first == b':' {
        let (span, back) = tail(start, others)?;
        Some((Token::Operand(Operand::Value(span)), back))
    } else {
        let (token, back) = signs(*first, others)?;
        Some((token, back))
    }
}

fn word<'a>(start: usize, first: u8, others: &'a [u8], text: &[u8]) -> (Token, &'a [u8])
    requires fits { start + length text.now < 2 ^ 64 }
    requires whole { text.now ≡ first ∷ others.now }
    requires begins { begins_word first ≡ true }
    ensures front { IsFront start text.now result.0 result.1.now }
    ensures shorter { length result.1.now ≤ length others.now }
{
    let (parts, back) = split_parts(others);
    let end = parts.len() + 1;
    let span = Span {
        start,
        end: start + end,
    };
    let (word, _) = text.split_at(end);
    (word_token(span, word), back)
}

/// What follows `#` or `:` at `start`: one part or more.
fn tail(start: usize, bytes: &[u8]) -> Option<(Span, &[u8])>
    requires { start + (length bytes.now + 1) < 2 ^ 64 }
    ensures some { IfSome result (λ f. IsTail start bytes.now f.0 f.1.now) }
    ensures shorter { IfSome result (λ f. length f.1.now ≤ length bytes.now) }
    ensures none { IfNone result (EndsParts bytes.now) }
{
    let (parts, back) = split_parts(bytes);
    if parts.is_empty() {
        return None;
    }
    let end = start + (parts.len() + 1);
    Some((Span { start, end }, back))
}

fn signs(first: u8, others: &[u8]) -> Option<(Token, &[u8])>
    ensures some { IfSome result (λ f. IsSign first others.now f.0 f.1.now) }
    ensures shorter { IfSome result (λ f. length f.1.now ≤ length others.now) }
    ensures none { IfNone result (BeginsNoSign first others.now) }
{
    if let Some((second, back)) = others.split_first() {
        if let Some(token) = two_signs(first, *second) {
            return Some((token, back));
        }
    }
    let token = one_sign(first)?;
    Some((token, others))
}

fn one_sign(byte: u8) -> Option<Token>
    ensures { result ≡ one_sign byte }
{
    match byte {
        b'=' => Some(Token::Compare(Op::Eq)),
        b'<' => Some(Token::Compare(Op::Lt)),
        b'>' => Some(Token::Compare(Op::Gt)),
        b'(' => Some(Token::Open),
        b')' => Some(Token::Close),
        b',' => Some(Token::Comma),
        _ => None,
    }
}

fn two_signs(first: u8, second: u8) -> Option<Token>
    ensures { result ≡ two_signs first second }
{
    if first == b'<' && second == b'>' {
        Some(Token::Compare(Op::Ne))
    } else if first == b'<' && second == b'=' {
        Some(Token::Compare(Op::Le))
    } else if first == b'>' && second == b'=' {
        Some(Token::Compare(Op::Ge))
    } else {
        None
    }
}

/// All parts of a word at the front, and what follows them.
fn split_parts(bytes: &[u8]) -> (&[u8], &[u8])
    ensures split { IsSplit bytes.now result.0.now result.1.now }
    ensures shorter { length result.1.now ≤ length bytes.now }
{
    let count = count_parts(bytes);
    bytes.split_at(count)
}

fn count_parts(bytes: &[u8]) -> usize
    ensures { result ≡ prefix_len is_part bytes.now }
{
    bytes.iter().take_while(|byte| is_part(**byte)).count()
}

#[tactic(auto, unfolding(crate::specs::Token::word_token))]
fn word_token(span: Span, word: &[u8]) -> Token
    ensures { result ≡ word_token span word.now }
{
    if is_keyword(word, b"OR") {
        Token::Or
    } else if is_keyword(word, b"AND") {
        Token::And
    } else if is_keyword(word, b"NOT") {
        Token::Not
    } else if is_keyword(word, b"BETWEEN") {
        Token::Between
    } else if is_keyword(word, b"IN") {
        Token::In
    } else {
        function_or_name(span, word)
    }
}

#[tactic(auto, unfolding(crate::specs::Token::function_or_name))]
fn function_or_name(span: Span, word: &[u8]) -> Token
    ensures { result ≡ function_or_name span word.now }
{
    if is_same(word, b"attribute_exists") {
        Token::Exists
    } else if is_same(word, b"attribute_not_exists") {
        Token::NotExists
    } else if is_same(word, b"begins_with") {
        Token::BeginsWith
    } else {
        Token::Operand(Operand::Name(Name::Word(span)))
    }
}

fn is_keyword(word: &[u8], keyword: &[u8]) -> bool
    ensures { result ≡ is_keyword word.now keyword.now }
{
    word.eq_ignore_ascii_case(keyword)
}

fn is_same(word: &[u8], other: &[u8]) -> bool
    ensures { result ≡ bytes_eq word.now other.now }
{
    word == other
}

pub(crate) fn is_space(byte: u8) -> bool
    ensures { result ≡ is_space byte }
{
    byte == b' ' || byte == b'\t' || byte == b'\r' || byte == b'\n'
}

fn begins_word(byte: u8) -> bool
    ensures { result ≡ begins_word byte }
{
    byte.is_ascii_alphabetic() || byte == b'_'
}

fn is_part(byte: u8) -> bool
    ensures { result ≡ is_part byte }
{
    byte.is_ascii_alphanumeric() || byte == b'_'
}
