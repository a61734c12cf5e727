ghost use Rattle.std.specs.Prelude.{◌≡◌, ℕ, List, IfOk, IfErr, get_or};
ghost use Rattle.dbe_values.specs.declared.value.AttrValue.{AttrValue};
ghost use Rattle.dbe_grammar.specs.Form.{form_of, members_of};
ghost use Rattle.dbe_cond.specs.Reading.{Parses, Refuses, has_long_list, have_long_list};

use crate::CondFault;
use dbe_grammar::{ParseFault, Tree, parse};
use dbe_tokens::{Token, TokenFault, cut, is_too_deep};
use std::alloc::Global;

/// The tokens of a text, and the tree that they are.
#[derive(Drop)]
pub(crate) struct Parsed {
    pub tokens: Vec<Token>,
    pub tree: Tree,
}

/// The tokens and the tree of a text, or the first refusal that looks at neither lists nor placeholders.
pub(crate) fn parse_text(alloc: Global, text: &[u8]) -> Result<Parsed, CondFault>
    ensures ok { IfOk result (λ p. Parses text.now p.tokens.items (form_of p.tree)) }
    ensures refused { IfErr result (λ fault. (names : List (List ℕ × List ℕ)) (values : List (List ℕ × AttrValue)) → Refuses text.now names values fault) }
{
    if text.len() > 4096 {
        return Err(CondFault::TooLong);
    }
    let found = match cut(alloc, text) {
        Ok(found) => found,
        Err(TokenFault::Memory) => return Err(CondFault::Memory),
        Err(TokenFault::BadToken { at }) => return Err(CondFault::BadToken { at }),
    };
    if is_too_deep(&found.tokens) {
        return Err(CondFault::TooDeep);
    }
    match parse(alloc, &found.tokens) {
        Ok(tree) => Ok(Parsed {
            tokens: found.tokens,
            tree,
        }),
        Err(ParseFault::Memory) => Err(CondFault::Memory),
        Err(ParseFault::Syntax { at }) => Err(CondFault::Syntax {
            at: start_of(&found.starts, at, text.len()),
        }),
    }
}

/// Where the token at a place starts, or the end.
fn start_of(starts: &[usize], place: usize, end: usize) -> usize
    ensures { result ≡ get_or starts.now place end }
{
    match starts.get(place) {
        Some(start) => *start,
        None => end,
    }
}

/// Whether a list of IN has more than 100 members.
#[cycle(lists)]
pub(crate) fn has_long_list(tree: &Tree) -> bool
    ensures { result ≡ has_long_list (form_of tree.now) }
{
    match tree {
        Tree::In { list, .. } => list.len() > 100,
        Tree::Not(inner) => has_long_list(inner.get()),
        Tree::And(members) => have_long_list(members.as_slice()),
        Tree::Or(members) => have_long_list(members.as_slice()),
        Tree::Compare { .. } => false,
        Tree::Between { .. } => false,
        Tree::BeginsWith { .. } => false,
        Tree::Exists { .. } => false,
        Tree::NotExists { .. } => false,
    }
}

#[cycle(lists)]
fn have_long_list(trees: &[Tree]) -> bool
    ensures { result ≡ have_long_list (members_of trees.now) }
{
    for tree in trees {
        if has_long_list(tree) {
            return true;
        }
    }
    false
}
