ghost use Rattle.std.specs.Prelude.{◌≡◌, true, [], ◌∷◌, IfSome, IfNone, slice_get, Some};
ghost use Rattle.std.specs.List.{list_all};
ghost use Rattle.std.specs.Str.{IsUtf8};
ghost use Rattle.dbe_tokens.specs.Ranges.{has_range};
ghost use Rattle.dbe_cond.specs.Given.{not_given};
ghost use Rattle.dbe_cond.specs.Placeholders.{name_placeholder, value_placeholder, name_placeholders, value_placeholders};

use crate::{Names, Values};
use dbe_tokens::{Name, Operand, Span, Token, bytes_in};

/// The first placeholder of a name among a text's tokens that is not given.
pub(crate) fn unknown_name<'a>(text: &'a [u8], names: &Names, tokens: &[Token]) -> Option<&'a [u8]>
    requires { list_all (has_range text.now) tokens.now ≡ true }
    ensures none { IfNone result (not_given names.now (name_placeholders text.now tokens.now) ≡ []) }
    ensures some { IfSome result (λ p. slice_get (not_given names.now (name_placeholders text.now tokens.now)) 0 ≡ Some p.now) }
    ensures text { IfSome result (λ p. IsUtf8 p.now) }
{
    for token in tokens {
        if let Some(span) = name_placeholder(*token) {
            let placeholder = bytes_in(text, span);
            if names.get_bytes(placeholder).is_none() {
                return Some(placeholder);
            }
        }
    }
    None
}

/// The first placeholder of a value among a text's tokens that is not given.
pub(crate) fn unknown_value<'a>(
    text: &'a [u8],
    values: &Values,
    tokens: &[Token],
) -> Option<&'a [u8]>
    requires { list_all (has_range text.now) tokens.now ≡ true }
    ensures none { IfNone result (not_given values.now (value_placeholders text.now tokens.now) ≡ []) }
    ensures some { IfSome result (λ p. slice_get (not_given values.now (value_placeholders text.now tokens.now)) 0 ≡ Some p.now) }
    ensures text { IfSome result (λ p. IsUtf8 p.now) }
{
    for token in tokens {
        if let Some(span) = value_placeholder(*token) {
            let placeholder = bytes_in(text, span);
            if values.get_bytes(placeholder).is_none() {
                return Some(placeholder);
            }
        }
    }
    None
}

fn name_placeholder(token: Token) -> Option<Span>
    ensures { result ≡ name_placeholder token }
{
    match token {
        Token::Operand(Operand::Name(Name::Placeholder(span))) => Some(span),
        _ => None,
    }
}

fn value_placeholder(token: Token) -> Option<Span>
    ensures { result ≡ value_placeholder token }
{
    match token {
        Token::Operand(Operand::Value(span)) => Some(span),
        _ => None,
    }
}
