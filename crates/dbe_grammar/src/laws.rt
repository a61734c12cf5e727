ghost use Rattle.std.specs.Prelude.{◌≡◌, ℕ, Bool, true, List, [], map};
ghost use Rattle.dbe_tokens.specs.declared.token.Token.{Token as the_token};
ghost use Rattle.dbe_grammar.specs.Form.{Form, IsLawful};
ghost use Rattle.dbe_grammar.specs.Grammar.{IsCond};
ghost use Rattle.dbe_grammar.specs.Reading.{IsMisfit};
ghost use Rattle.dbe_grammar.specs.Printed.{printed};
ghost use Rattle.dbe_grammar.specs.Moved.{move_token, move_form};
ghost use Rattle.dbe_grammar.specs.Leaves.{token_passes, form_passes};
ghost use Rattle.std.specs.List.{list_all};
ghost use Rattle.dbe_tokens.specs.declared.token.Operand.{Operand as the_operand};
ghost use Rattle.dbe_tokens.specs.declared.token.Span.{Span};

/// Tokens are at most one condition.
pub fn one_condition()
    ensures { (tokens : List the_token) (one two : Form) → IsCond tokens one → IsCond tokens two → one ≡ two }
{}

/// There is at most one place to name.
pub fn one_place()
    ensures { (tokens : List the_token) (m n : ℕ) → IsMisfit tokens m → IsMisfit tokens n → m ≡ n }
{}

/// What is read can be printed.
pub fn is_lawful()
    ensures { (tokens : List the_token) (f : Form) → IsCond tokens f → IsLawful f }
{}

/// Reading what is printed gives the same condition.
pub fn printed_is_read()
    ensures { (f : Form) → IsLawful f → IsCond (printed f []) f }
{}

/// The grammar does not look at where names and placeholders stand: what is a condition stays one, with each range moved.
pub fn places_move()
    ensures { (place : Span → Span) (tokens : List the_token) (f : Form) → IsCond tokens f → IsCond (map (move_token place) tokens) (move_form place f) }
{}

/// What holds of each name and placeholder among the tokens holds of those of the condition.
pub fn leaves()
    ensures { (test : the_operand → Bool) (tokens : List the_token) (f : Form) → IsCond tokens f → list_all (token_passes test) tokens ≡ true → form_passes test f ≡ true }
{}
