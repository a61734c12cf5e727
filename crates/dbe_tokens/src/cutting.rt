ghost use Rattle.std.specs.Prelude.{◌≡◌, ◌++◌, ℕ, List, Some, true, length, IfOk, IfErr};
ghost use Rattle.dbe_tokens.specs.Text.{IsCut, IsBadAt, IsLongest, EndsToken, Refuses, Gives, GivesBad, bytes_in};
ghost use Rattle.std.specs.List.{list_all};
ghost use Rattle.dbe_tokens.specs.Token.{token_of};
ghost use Rattle.dbe_tokens.specs.Ranges.{has_range};
ghost use Rattle.dbe_tokens.specs.declared.token.Token.{Token as the_token};

use crate::front::{front, is_space};
use crate::token::{Span, Token};
use std::alloc::{AllocError, AllocFailed, Global};

/// The tokens of a text, and the byte at which each starts.
#[derive(Debug, Drop)]
pub struct Tokens {
    pub tokens: Vec<Token>,
    pub starts: Vec<usize>,
}

/// Why a text was not cut.
#[derive(Clone, Copy, Debug, PartialEq, Eq)]
pub enum TokenFault {
    Memory,
    /// At this byte, the first of its kind, no token begins.
    BadToken { at: usize },
}

impl From<AllocError> for TokenFault {
    ghost use Rattle.std.specs.Prelude.{◌≡◌};
    ghost use Rattle.dbe_tokens.specs.declared.cutting.TokenFault.TheVariants.{Memory};

    ghost from_gives = { λ _ e. e ≡ Memory };

    fn from(_: AllocError) -> TokenFault {
        TokenFault::Memory
    }
}

impl<T: Drop> From<AllocFailed<T>> for TokenFault {
    ghost use Rattle.std.specs.Prelude.{◌≡◌};
    ghost use Rattle.dbe_tokens.specs.declared.cutting.TokenFault.TheVariants.{Memory};

    ghost from_gives = { λ _ e. e ≡ Memory };

    fn from(_: AllocFailed<T>) -> TokenFault {
        TokenFault::Memory
    }
}

/// Cuts a text into tokens, each as long as it can be. No byte is copied.
///
/// Spaces, tabs, carriage returns and line feeds stand between tokens.
/// `BadToken` names the first byte at which no token begins.
pub fn cut(alloc: Global, text: &[u8]) -> Result<Tokens, TokenFault>
    ensures found { IfOk result (λ r. IsCut text.now r.tokens.items r.starts.items) }
    ensures starts { IfOk result (λ r. length r.starts.items ≡ length r.tokens.items) }
    ensures only { (tokens : List the_token) (starts : List ℕ) → IsCut text.now tokens starts → Gives result tokens starts }
    ensures refused { IfErr result (λ e. Refuses text.now e) }
    ensures bad { (at : ℕ) → IsBadAt text.now at → GivesBad result at }
{
    let mut tokens = Vec::new(alloc);
    let mut starts = Vec::new(alloc);
    let mut rest = text;
    while let Some((first, others)) = rest.split_first() {
        if is_space(*first) {
            rest = others;
        } else {
            let at = text.len() - rest.len();
            let Some((token, back)) = front(at, rest) else {
                return Err(TokenFault::BadToken { at });
            };
            tokens.push(token)?;
            starts.push(at)?;
            rest = back;
        }
    }
    Ok(Tokens { tokens, starts })
}

/// The bytes of a range, as far as the text goes.
pub fn bytes_in(text: &[u8], span: Span) -> &[u8]
    ensures { result.now ≡ bytes_in text.now span }
{
    let (_, rest) = text.split_at(span.start.min(text.len()));
    let length = span.end.saturating_sub(span.start).min(rest.len());
    let (bytes, _) = rest.split_at(length);
    bytes
}

/// Bytes that spell a token are the longest that do, where a space, a parenthesis, a comma or the end follows them.
pub fn token_ends()
    ensures { (start : ℕ) (token : the_token) (front back : List ℕ) → token_of start front ≡ Some token → EndsToken back → IsLongest start (front ++ back) token front back }
{}

/// The range of each name and placeholder has a byte or more, lies in the text, and has bytes of ASCII alone.
pub fn ranges()
    ensures { (text : List ℕ) (tokens : List the_token) (starts : List ℕ) → IsCut text tokens starts → list_all (has_range text) tokens ≡ true }
{}

/// A text is cut in one way.
pub fn one_cut()
    ensures { (text : List ℕ) (m n : List the_token) (a b : List ℕ) → IsCut text m a → IsCut text n b → (m ≡ n) × (a ≡ b) }
{}

/// A text has at most one first byte at which no token begins, and none where it is cut whole.
pub fn one_bad_place()
    ensures one { (text : List ℕ) (m n : ℕ) → IsBadAt text m → IsBadAt text n → m ≡ n }
    ensures none { (text : List ℕ) (tokens : List the_token) (starts : List ℕ) (at : ℕ) → IsCut text tokens starts → IsBadAt text at → ⊥ }
{}
