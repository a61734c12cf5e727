ghost use Rattle.std.specs.Prelude.{◌≡◌, ◌≤◌, ◌++◌, IfOk, OnOk, length, map, take, drop, slice_range, chars, string_bytes, encode_utf8_all};
ghost use Rattle.std.specs.Char.{to_ascii_uppercase, to_ascii_lowercase};

use dbe_num::Memory;
use std::alloc::Global;
use std::marker::Model;

/// The characters of a text on its way through steps.
///
/// Contracts see the list of the characters.
#[derive(Drop)]
pub(crate) struct Characters {
    items: Vec<char>,
    from: usize,
}

impl Model for Characters {
    ghost use Rattle.std.specs.Prelude.{List, ℕ, ◌≤◌, length, drop};

    ghost Value = { List ℕ };

    ghost view = { λ c. drop c.from c.items.items };

    ghost invariant = { λ c. c.from ≤ length c.items.items };
}

impl Characters {
    pub(crate) fn of(alloc: Global, text: &str) -> Result<Characters, Memory>
        ensures { IfOk result (λ c. c ≡ chars text.now) }
    {
        Ok(Characters {
            items: decoded(alloc, text)?,
            from: 0,
        })
    }

    pub(crate) fn as_slice(&self) -> &[char]
        ensures { result.now ≡ self.now }
    {
        &self.items[self.from..]
    }

    // The first so many.
    pub(crate) fn first(mut self, count: usize) -> Characters
        requires { count ≤ length self }
        ensures { result ≡ take count self }
    {
        self.items.truncate(self.from + count);
        self
    }

    // All but the first so many.
    pub(crate) fn after(mut self, count: usize) -> Characters
        requires { count ≤ length self }
        ensures { result ≡ drop count self }
    {
        self.from += count;
        self
    }

    // Those from one place up to before another.
    pub(crate) fn part(self, from: usize, to: usize) -> Characters
        requires order { from ≤ to }
        requires within { to ≤ length self }
        ensures { result ≡ slice_range self from to }
    {
        self.first(to).after(from)
    }

    pub(crate) fn upper(mut self) -> Characters
        ensures { result ≡ map to_ascii_uppercase self }
    {
        make_upper(&mut self.items);
        self
    }

    pub(crate) fn lower(mut self) -> Characters
        ensures { result ≡ map to_ascii_lowercase self }
    {
        make_lower(&mut self.items);
        self
    }

    // These with those of a text behind them.
    pub(crate) fn with(mut self, alloc: Global, text: &str) -> Result<Characters, Memory>
        ensures { IfOk result (λ c. c ≡ self ++ chars text.now) }
    {
        let more = decoded(alloc, text)?;
        self.items.extend_from_slice(&more)?;
        Ok(self)
    }

    // Writes them behind a text.
    pub(crate) fn push_onto(&self, text: &mut String) -> Result<(), Memory>
        ensures { OnOk result (string_bytes text.new ≡ string_bytes text.old ++ encode_utf8_all self.now) }
    {
        for c in self.as_slice() {
            text.push(*c)?;
        }
        Ok(())
    }
}

fn decoded(alloc: Global, text: &str) -> Result<Vec<char>, Memory>
    ensures { IfOk result (λ v. v.items ≡ chars text.now) }
{
    Ok(text.chars().collect(alloc)?)
}

fn make_upper(text: &mut [char])
    ensures { text.new ≡ map to_ascii_uppercase text.old }
{
    for c in text.iter_mut() {
        *c = c.to_ascii_uppercase();
    }
}

fn make_lower(text: &mut [char])
    ensures { text.new ≡ map to_ascii_lowercase text.old }
{
    for c in text.iter_mut() {
        *c = c.to_ascii_lowercase();
    }
}
