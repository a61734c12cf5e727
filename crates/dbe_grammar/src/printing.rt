ghost use Rattle.std.specs.Prelude.{◌≡◌, ◌++◌, [], ◌∷◌, IfOk, OnOk};
ghost use Rattle.dbe_tokens.specs.declared.token.Token.TheVariants as t;
ghost use Rattle.dbe_grammar.specs.Form.{form_of, members_of};
ghost use Rattle.dbe_grammar.specs.Grammar.{name_text, pair_text};
ghost use Rattle.dbe_grammar.specs.Printed.{printed, and_printed, or_printed, in_parentheses, is_chain, is_or, list_printed};

use crate::tree::Tree;
use dbe_num::Memory;
use dbe_tokens::{Name, Operand, Token};
use sqlite_items::Items;
use std::alloc::Global;

/// The tokens that a condition is printed as.
///
/// What NOT stands before and a member of And are in parentheses where they are And or Or, a member of Or where it is
/// Or, and nothing else is.
///
/// `Memory`: memory ran out.
pub fn tokens_of(alloc: Global, tree: &Tree) -> Result<Items<Token>, Memory>
    ensures { IfOk result (λ tokens. tokens ≡ printed (form_of tree.now) []) }
{
    let mut tokens = Items::new(alloc);
    print(&mut tokens, tree)?;
    Ok(tokens)
}

/// Prints a condition's tokens at the end of `out`.
#[cycle(print)]
fn print(out: &mut Items<Token>, tree: &Tree) -> Result<(), Memory>
    ensures { OnOk result (out.new ≡ out.old ++ printed (form_of tree.now) []) }
{
    match tree {
        Tree::Compare { left, op, right } => {
            out.push(Token::Operand(*left))?;
            out.push(Token::Compare(*op))?;
            out.push(Token::Operand(*right))?;
            Ok(())
        }
        Tree::Between { value, low, high } => {
            out.push(Token::Operand(*value))?;
            out.push(Token::Between)?;
            out.push(Token::Operand(*low))?;
            out.push(Token::And)?;
            out.push(Token::Operand(*high))?;
            Ok(())
        }
        Tree::In { value, list } => {
            out.push(Token::Operand(*value))?;
            out.push(Token::In)?;
            out.push(Token::Open)?;
            print_list(out, list.as_slice())?;
            out.push(Token::Close)?;
            Ok(())
        }
        Tree::BeginsWith { name, front } => print_pair(out, *name, *front),
        Tree::Exists { name } => print_name(out, Token::Exists, *name),
        Tree::NotExists { name } => print_name(out, Token::NotExists, *name),
        Tree::Not(inner) => {
            let inner = inner.get();
            out.push(Token::Not)?;
            print_member(out, inner, is_chain(inner))
        }
        Tree::And(members) => print_ands(out, members.as_slice()),
        Tree::Or(members) => print_ors(out, members.as_slice()),
    }
}

/// Prints a part of a condition, in parentheses or not.
#[cycle(print)]
fn print_member(out: &mut Items<Token>, tree: &Tree, parentheses: bool) -> Result<(), Memory>
    ensures { OnOk result (out.new ≡ out.old ++ in_parentheses parentheses (printed (form_of tree.now)) []) }
{
    if parentheses {
        out.push(Token::Open)?;
        print(out, tree)?;
        out.push(Token::Close)?;
        Ok(())
    } else {
        print(out, tree)
    }
}

#[cycle(print)]
fn print_ands(out: &mut Items<Token>, members: &[Tree]) -> Result<(), Memory>
    ensures { OnOk result (out.new ≡ out.old ++ and_printed (members_of members.now) []) }
{
    let Some((first, rest)) = members.split_first() else {
        return Ok(());
    };
    print_member(out, first, is_chain(first))?;
    for member in rest {
        out.push(Token::And)?;
        print_member(out, member, is_chain(member))?;
    }
    Ok(())
}

#[cycle(print)]
fn print_ors(out: &mut Items<Token>, members: &[Tree]) -> Result<(), Memory>
    ensures { OnOk result (out.new ≡ out.old ++ or_printed (members_of members.now) []) }
{
    let Some((first, rest)) = members.split_first() else {
        return Ok(());
    };
    print_member(out, first, is_or(first))?;
    for member in rest {
        out.push(Token::Or)?;
        print_member(out, member, is_or(member))?;
    }
    Ok(())
}

fn print_list(out: &mut Items<Token>, list: &[Operand]) -> Result<(), Memory>
    ensures { OnOk result (out.new ≡ out.old ++ list_printed list.now []) }
{
    let Some((first, rest)) = list.split_first() else {
        return Ok(());
    };
    out.push(Token::Operand(*first))?;
    for operand in rest {
        out.push(Token::Comma)?;
        out.push(Token::Operand(*operand))?;
    }
    Ok(())
}

fn print_name(out: &mut Items<Token>, function: Token, name: Name) -> Result<(), Memory>
    ensures { OnOk result (out.new ≡ out.old ++ function ∷ name_text name []) }
{
    out.push(function)?;
    out.push(Token::Open)?;
    out.push(Token::Operand(Operand::Name(name)))?;
    out.push(Token::Close)?;
    Ok(())
}

fn print_pair(out: &mut Items<Token>, name: Name, front: Operand) -> Result<(), Memory>
    ensures { OnOk result (out.new ≡ out.old ++ t.BeginsWith ∷ pair_text name front []) }
{
    out.push(Token::BeginsWith)?;
    out.push(Token::Open)?;
    out.push(Token::Operand(Operand::Name(name)))?;
    out.push(Token::Comma)?;
    out.push(Token::Operand(front))?;
    out.push(Token::Close)?;
    Ok(())
}

fn is_chain(tree: &Tree) -> bool
    ensures { result ≡ is_chain (form_of tree.now) }
{
    match tree {
        Tree::And(_) => true,
        Tree::Or(_) => true,
        Tree::Not(_) => false,
        Tree::Compare { .. } => false,
        Tree::Between { .. } => false,
        Tree::In { .. } => false,
        Tree::BeginsWith { .. } => false,
        Tree::Exists { .. } => false,
        Tree::NotExists { .. } => false,
    }
}

fn is_or(tree: &Tree) -> bool
    ensures { result ≡ is_or (form_of tree.now) }
{
    match tree {
        Tree::Or(_) => true,
        Tree::And(_) => false,
        Tree::Not(_) => false,
        Tree::Compare { .. } => false,
        Tree::Between { .. } => false,
        Tree::In { .. } => false,
        Tree::BeginsWith { .. } => false,
        Tree::Exists { .. } => false,
        Tree::NotExists { .. } => false,
    }
}
