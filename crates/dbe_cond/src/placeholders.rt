ghost use Rattle.std.specs.Prelude.{◌≡◌, [], ◌∷◌, ◌++◌, ◌<◌, ◌↔◌, IsTrue, IfOk, IfErr, OnOk, OnErr, length, get_or, option_map, slice_get, Some, codes};
ghost use Rattle.std.specs.Map.{keys_of};
ghost use Rattle.std.specs.Ordering.{nat_cmp};
ghost use Rattle.std.specs.Cmp.Lexicographic.{slice_cmp};
ghost use Rattle.std.specs.BTreeMap.{insert_entry};
ghost use Rattle.dbe_values.specs.Sets.{IsIncreasing, IsGap};
ghost use Rattle.dbe_cond.specs.Given.{given, IsBehind};
ghost use Rattle.dbe_cond.specs.Printed.{by_placeholder};

use crate::numbered::by_placeholder;
use dbe_num::{Memory, Text};
use dbe_values::AttrValue;
use std::alloc::Global;
use std::cmp::Ordering;
use std::marker::Model;

/// The names that are given for placeholders, each with its `#`.
///
/// Contracts see the pairs of placeholder and name, in strict order of the placeholders' bytes.
#[derive(Drop)]
pub struct Names {
    entries: Vec<(Text, Text)>,
}

impl Model for Names {
    ghost use Rattle.std.specs.Prelude.{List, ℕ};
    ghost use Rattle.std.specs.Map.{keys_of};
    ghost use Rattle.dbe_values.specs.Sets.{IsIncreasing};

    ghost Value = { List (List ℕ × List ℕ) };

    ghost view = { λ n. n.entries.items };

    ghost invariant = { λ n. IsIncreasing (keys_of n.entries.items) };
}

impl Names {
    /// No names.
    pub fn new(alloc: Global) -> Names
        ensures { result ≡ [] }
    {
        Names {
            entries: Vec::new(alloc),
        }
    }

    /// Whether a placeholder stands behind all others, by its bytes.
    pub fn is_behind(&self, placeholder: &str) -> bool
        ensures { IsTrue result ↔ IsBehind placeholder.now self.now }
    {
        is_behind(&self.entries, placeholder.as_bytes())
    }

    /// Gives a name for a placeholder that stands behind all others.
    pub fn push(&mut self, placeholder: Text, name: Text) -> Result<(), Memory>
        requires { IsBehind placeholder self.old }
        ensures ok { OnOk result (self.new ≡ self.old ++ (placeholder, name) ∷ []) }
        ensures err { OnErr result (self.new ≡ self.old) }
    {
        self.entries.push((placeholder, name))?;
        Ok(())
    }

    /// The name that is given for a placeholder.
    pub fn get(&self, placeholder: &str) -> Option<&Text>
        ensures { option_map (λ n. n.now) result ≡ given placeholder.now self.now }
    {
        given(&self.entries, placeholder.as_bytes())
    }

    /// Names of a condition, each for the placeholder of its place.
    pub(crate) fn numbered(alloc: Global, found: Vec<Text>) -> Result<Names, Memory>
        ensures { IfOk result (λ names. names ≡ by_placeholder (codes "#") found.items) }
    {
        Ok(Names {
            entries: by_placeholder(alloc, "#", found)?,
        })
    }

    pub(crate) fn get_bytes(&self, placeholder: &[u8]) -> Option<&Text>
        ensures { option_map (λ n. n.now) result ≡ given placeholder.now self.now }
    {
        given(&self.entries, placeholder)
    }

    /// How many names are given.
    pub fn len(&self) -> usize
        ensures { result ≡ length self.now }
    {
        self.entries.len()
    }

    /// The placeholder at a place in their order, and its name.
    pub fn at(&self, i: usize) -> (&Text, &Text)
        requires { i < length self.now }
        ensures { slice_get self.now i ≡ Some (result.0.now, result.1.now) }
    {
        let entry = &self.entries[i];
        (&entry.0, &entry.1)
    }
}

/// The values that are given for placeholders, each with its `:`.
///
/// Contracts see the pairs of placeholder and value, in strict order of the placeholders' bytes.
#[derive(Drop)]
pub struct Values {
    entries: Vec<(Text, AttrValue)>,
}

impl Model for Values {
    ghost use Rattle.std.specs.Prelude.{List, ℕ};
    ghost use Rattle.std.specs.Map.{keys_of};
    ghost use Rattle.dbe_values.specs.declared.value.AttrValue.{AttrValue};
    ghost use Rattle.dbe_values.specs.contracts.value.AttrValue as attr;
    ghost use Rattle.std.specs.Coded.{codes};
    ghost use Rattle.dbe_values.specs.Sets.{IsIncreasing};

    ghost Value = { List (List ℕ × AttrValue) };

    ghost coded = { Prim.hlevel (codes, attr.the_row.coded) };

    ghost view = { λ v. v.entries.items };

    ghost invariant = { λ v. IsIncreasing (keys_of v.entries.items) };
}

impl Values {
    /// No values.
    pub fn new(alloc: Global) -> Values
        ensures { result ≡ [] }
    {
        Values {
            entries: Vec::new(alloc),
        }
    }

    /// Whether a placeholder stands behind all others, by its bytes.
    pub fn is_behind(&self, placeholder: &str) -> bool
        ensures { IsTrue result ↔ IsBehind placeholder.now self.now }
    {
        is_behind(&self.entries, placeholder.as_bytes())
    }

    /// Gives a value for a placeholder that stands behind all others.
    pub fn push(&mut self, placeholder: Text, value: AttrValue) -> Result<(), Memory>
        requires { IsBehind placeholder self.old }
        ensures ok { OnOk result (self.new ≡ self.old ++ (placeholder, value) ∷ []) }
        ensures err { OnErr result (self.new ≡ self.old) }
    {
        self.entries.push((placeholder, value))?;
        Ok(())
    }

    /// The value that is given for a placeholder.
    pub fn get(&self, placeholder: &str) -> Option<&AttrValue>
        ensures { option_map (λ v. v.now) result ≡ given placeholder.now self.now }
    {
        given(&self.entries, placeholder.as_bytes())
    }

    /// Values of a condition, each for the placeholder of its place.
    pub(crate) fn numbered(alloc: Global, found: Vec<AttrValue>) -> Result<Values, Memory>
        ensures { IfOk result (λ values. values ≡ by_placeholder (codes ":") found.items) }
    {
        Ok(Values {
            entries: by_placeholder(alloc, ":", found)?,
        })
    }

    pub(crate) fn get_bytes(&self, placeholder: &[u8]) -> Option<&AttrValue>
        ensures { option_map (λ v. v.now) result ≡ given placeholder.now self.now }
    {
        given(&self.entries, placeholder)
    }

    /// How many values are given.
    pub fn len(&self) -> usize
        ensures { result ≡ length self.now }
    {
        self.entries.len()
    }

    /// The placeholder at a place in their order, and its value.
    pub fn at(&self, i: usize) -> (&Text, &AttrValue)
        requires { i < length self.now }
        ensures { slice_get self.now i ≡ Some (result.0.now, result.1.now) }
    {
        let entry = &self.entries[i];
        (&entry.0, &entry.1)
    }
}

fn given<'a, X>(entries: &'a [(Text, X)], placeholder: &[u8]) -> Option<&'a X>
    requires { IsIncreasing (keys_of entries.now) }
    ensures { option_map (λ x. x.now) result ≡ given placeholder.now entries.now }
{
    match place_of(entries, placeholder) {
        Ok(i) => Some(&entries[i].1),
        Err(_) => None,
    }
}

/// The place of a placeholder, or the place where it would go. Takes no memory.
fn place_of<X>(entries: &[(Text, X)], placeholder: &[u8]) -> Result<usize, usize>
    requires { IsIncreasing (keys_of entries.now) }
    ensures there { IfOk result (λ i. (i < length (keys_of entries.now)) × (get_or (keys_of entries.now) i [] ≡ placeholder.now)) }
    ensures gap { IfErr result (λ i. IsGap (keys_of entries.now) placeholder.now i) }
{
    let mut low = 0;
    let mut high = entries.len();
    while low < high {
        let middle = low + (high - low) / 2;
        match placeholder.cmp(&entries[middle].0.as_bytes()) {
            Ordering::Less => high = middle,
            Ordering::Equal => return Ok(middle),
            Ordering::Greater => low = middle + 1,
        }
    }
    Err(low)
}

/// Gives something for a placeholder, in place of what was given before.
pub(crate) fn put_among<X: Drop>(
    entries: &mut Vec<(Text, X)>,
    placeholder: Text,
    x: X,
) -> Result<(), Memory>
    requires { IsIncreasing (keys_of entries.old.items) }
    ensures ok { OnOk result (entries.new.items ≡ insert_entry (slice_cmp nat_cmp) entries.old.items placeholder x) }
    ensures increasing { IsIncreasing (keys_of entries.new.items) }
{
    match place_of(entries, placeholder.as_bytes()) {
        Ok(i) => {
            entries[i].1 = x;
            Ok(())
        }
        Err(i) => {
            entries.insert(i, (placeholder, x))?;
            Ok(())
        }
    }
}

fn is_behind<X>(entries: &[(Text, X)], placeholder: &[u8]) -> bool
    requires { IsIncreasing (keys_of entries.now) }
    ensures { IsTrue result ↔ IsBehind placeholder.now entries.now }
{
    if entries.is_empty() {
        return true;
    }
    let last = &entries[entries.len() - 1];
    match last.0.as_bytes().cmp(&placeholder) {
        Ordering::Less => true,
        Ordering::Equal => false,
        Ordering::Greater => false,
    }
}
