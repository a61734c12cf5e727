ghost use Rattle.std.specs.Prelude.{◌≡◌, ◌↔◌, ◌<◌, ◌≤◌, IsTrue, count_by};
ghost use Rattle.dbe_tokens.specs.Deep.{IsTooDeep, OpensTooMany, is_not, open_step};

use crate::token::Token;

/// Whether at some token more than 64 parentheses stand open, or there are more than 64 NOT.
///
/// Every `(` counts, also that of a function and of IN. A `)` that closes nothing closes nothing.
pub fn is_too_deep(tokens: &[Token]) -> bool
    ensures { IsTrue result ↔ IsTooDeep tokens.now }
{
    opens_too_many(tokens) || nots(tokens) > 64
}

fn opens_too_many(tokens: &[Token]) -> bool
    ensures { IsTrue result ↔ OpensTooMany tokens.now }
{
    let mut open = 0usize;
    for token in tokens {
        open = open_step(open, *token);
        if open > 64 {
            return true;
        }
    }
    false
}

fn open_step(before: usize, token: Token) -> usize
    requires { before ≤ 64 }
    ensures { result ≡ open_step before token }
{
    match token {
        Token::Open => before + 1,
        Token::Close => before.saturating_sub(1),
        _ => before,
    }
}

fn nots(tokens: &[Token]) -> usize
    ensures { result ≡ count_by is_not tokens.now }
{
    tokens.iter().filter(|token| is_not(**token)).count()
}

fn is_not(token: Token) -> bool
    ensures { result ≡ is_not token }
{
    match token {
        Token::Not => true,
        _ => false,
    }
}
