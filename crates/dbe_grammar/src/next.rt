ghost use Rattle.std.specs.Prelude.{◌≡◌, ◌≢◌, ◌∷◌, Some, IfSome, IfNone};
ghost use Rattle.dbe_tokens.specs.declared.token.Token.TheVariants as t;
ghost use Rattle.dbe_tokens.specs.declared.token.Operand.TheVariants as o;
ghost use Rattle.dbe_tokens.specs.declared.token.Name.{Name as the_name};
ghost use Rattle.dbe_tokens.specs.declared.token.Operand.{Operand as the_operand};
ghost use Rattle.dbe_grammar.specs.Parts.{next_of};

use dbe_tokens::{Name, Operand, Token};

pub(crate) fn after_or(tokens: &[Token]) -> Option<&[Token]>
    ensures some { IfSome result (λ rest. tokens.now ≡ t.Or ∷ rest.now) }
    ensures none { IfNone result (next_of tokens.now ≢ Some t.Or) }
{
    match tokens {
        [Token::Or, rest @ ..] => Some(rest),
        _ => None,
    }
}

pub(crate) fn after_and(tokens: &[Token]) -> Option<&[Token]>
    ensures some { IfSome result (λ rest. tokens.now ≡ t.And ∷ rest.now) }
    ensures none { IfNone result (next_of tokens.now ≢ Some t.And) }
{
    match tokens {
        [Token::And, rest @ ..] => Some(rest),
        _ => None,
    }
}

pub(crate) fn after_open(tokens: &[Token]) -> Option<&[Token]>
    ensures some { IfSome result (λ rest. tokens.now ≡ t.Open ∷ rest.now) }
    ensures none { IfNone result (next_of tokens.now ≢ Some t.Open) }
{
    match tokens {
        [Token::Open, rest @ ..] => Some(rest),
        _ => None,
    }
}

pub(crate) fn after_close(tokens: &[Token]) -> Option<&[Token]>
    ensures some { IfSome result (λ rest. tokens.now ≡ t.Close ∷ rest.now) }
    ensures none { IfNone result (next_of tokens.now ≢ Some t.Close) }
{
    match tokens {
        [Token::Close, rest @ ..] => Some(rest),
        _ => None,
    }
}

pub(crate) fn after_comma(tokens: &[Token]) -> Option<&[Token]>
    ensures some { IfSome result (λ rest. tokens.now ≡ t.Comma ∷ rest.now) }
    ensures none { IfNone result (next_of tokens.now ≢ Some t.Comma) }
{
    match tokens {
        [Token::Comma, rest @ ..] => Some(rest),
        _ => None,
    }
}

pub(crate) fn operand(tokens: &[Token]) -> Option<(Operand, &[Token])>
    ensures some { IfSome result (λ found. tokens.now ≡ t.Operand found.0 ∷ found.1.now) }
    ensures none { IfNone result ((a : the_operand) → next_of tokens.now ≢ Some (t.Operand a)) }
{
    match tokens {
        [Token::Operand(operand), rest @ ..] => Some((*operand, rest)),
        _ => None,
    }
}

pub(crate) fn name(tokens: &[Token]) -> Option<(Name, &[Token])>
    ensures some { IfSome result (λ found. tokens.now ≡ t.Operand (o.Name found.0) ∷ found.1.now) }
    ensures none { IfNone result ((n : the_name) → next_of tokens.now ≢ Some (t.Operand (o.Name n))) }
{
    match tokens {
        [Token::Operand(Operand::Name(name)), rest @ ..] => Some((*name, rest)),
        _ => None,
    }
}
