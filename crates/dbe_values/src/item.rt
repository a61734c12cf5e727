ghost use Rattle.std.specs.Prelude.{◌≡◌, [], ◌∷◌, ◌++◌, ◌<◌, true, IfOk, IfErr, OnOk, OnErr, length, get_or, option_map, slice_get, Some};
ghost use Rattle.dbe_values.specs.Attributes.{value_at, put_at, without, is_name};
ghost use Rattle.dbe_values.specs.Sets.{IsIncreasing, IsGap};
ghost use Rattle.dbe_values.specs.View.{view};
ghost use Rattle.dbe_values.specs.Lawful.{IsLawful, IsLawfulItem, names_of};

use crate::AttrValue;
use dbe_num::{Memory, Text};
use std::alloc::Global;
use std::cmp::Ordering;
use std::marker::Model;

/// An item: its attributes, each a name of 1 to 255 bytes and a lawful value, in order of names.
///
/// Contracts see the list of the attributes.
#[derive(Drop)]
pub struct Item {
    attributes: Vec<(Text, AttrValue)>,
}

impl Model for Item {
    ghost use Rattle.std.specs.Prelude.{List, ℕ};
    ghost use Rattle.dbe_values.specs.declared.value.AttrValue.{AttrValue};
    ghost use Rattle.dbe_values.specs.contracts.value.AttrValue as attr;
    ghost use Rattle.dbe_values.specs.Lawful.{IsLawfulItem};
    ghost use Rattle.std.specs.Coded.{codes};

    ghost Value = { List (List ℕ × AttrValue) };

    ghost coded = { Prim.hlevel (codes, attr.the_row.coded) };

    ghost view = { λ i. i.attributes.items };

    ghost invariant = { λ i. IsLawfulItem i.attributes.items };
}

impl Item {
    /// An item with no attributes.
    pub fn new(alloc: Global) -> Item
        ensures { result ≡ [] }
    {
        Item {
            attributes: Vec::new(alloc),
        }
    }

    /// How many attributes it has.
    pub fn len(&self) -> usize
        ensures { result ≡ length self.now }
    {
        self.attributes.len()
    }

    /// The attribute at a place in the order of names.
    pub fn at(&self, i: usize) -> (&Text, &AttrValue)
        requires { i < length self.now }
        ensures { slice_get self.now i ≡ Some (result.0.now, result.1.now) }
    {
        let attribute = &self.attributes[i];
        (&attribute.0, &attribute.1)
    }

    /// The value of a name.
    pub fn get(&self, name: &str) -> Option<&AttrValue>
        ensures { option_map (λ v. v.now) result ≡ value_at name.now self.now }
    {
        match place_of(&self.attributes, name.as_bytes()) {
            Ok(i) => Some(&self.attributes[i].1),
            Err(_) => None,
        }
    }

    /// That the attributes are lawful, which callers may rely on. Does nothing.
    pub fn is_lawful(&self)
        ensures { IsLawfulItem self.now }
    {
        let _ = &self.attributes;
    }

    /// Puts an attribute behind the others.
    pub(crate) fn push(&mut self, name: Text, value: AttrValue) -> Result<(), Memory>
        requires named { is_name name ≡ true }
        requires lawful { IsLawful 32 (view value) }
        requires last { IsIncreasing (names_of self.old ++ name ∷ []) }
        ensures ok { OnOk result (self.new ≡ self.old ++ (name, value) ∷ []) }
    {
        let _ = name.as_str();
        self.attributes.push((name, value))?;
        Ok(())
    }

    /// Puts a value at a name, in place of an older one.
    pub fn put(&mut self, name: Text, value: AttrValue) -> Result<(), Memory>
        requires named { is_name name ≡ true }
        requires lawful { IsLawful 32 (view value) }
        ensures ok { OnOk result (self.new ≡ put_at name value self.old) }
        ensures err { OnErr result (self.new ≡ self.old) }
    {
        put_among(&mut self.attributes, name, value)
    }

    /// Takes the value of a name out.
    pub fn remove(&mut self, name: &str) -> Option<AttrValue>
        ensures value { result ≡ value_at name.now self.old }
        ensures rest { self.new ≡ without name.now self.old }
    {
        take_out(&mut self.attributes, name)
    }

    pub fn copy(&self, alloc: Global) -> Result<Item, Memory>
        ensures { IfOk result (λ i. i ≡ self.now) }
    {
        Ok(Item {
            attributes: copy_of(alloc, &self.attributes)?,
        })
    }
}

/// The place of a name, or the place where it would go. Takes no memory.
fn place_of(attributes: &[(Text, AttrValue)], name: &[u8]) -> Result<usize, usize>
    requires { IsIncreasing (names_of attributes.now) }
    ensures there { IfOk result (λ i. (i < length (names_of attributes.now)) × (get_or (names_of attributes.now) i [] ≡ name.now)) }
    ensures gap { IfErr result (λ i. IsGap (names_of attributes.now) name.now i) }
{
    let mut low = 0;
    let mut high = attributes.len();
    while low < high {
        let middle = low + (high - low) / 2;
        match name.cmp(&attributes[middle].0.as_bytes()) {
            Ordering::Less => high = middle,
            Ordering::Equal => return Ok(middle),
            Ordering::Greater => low = middle + 1,
        }
    }
    Err(low)
}

fn put_among(
    attributes: &mut Vec<(Text, AttrValue)>,
    name: Text,
    value: AttrValue,
) -> Result<(), Memory>
    requires item { IsLawfulItem attributes.old.items }
    requires named { is_name name ≡ true }
    requires value { IsLawful 32 (view value) }
    ensures ok { OnOk result (attributes.new.items ≡ put_at name value attributes.old.items) }
    ensures err { OnErr result (attributes.new.items ≡ attributes.old.items) }
    ensures lawful { IsLawfulItem attributes.new.items }
{
    match place_of(attributes, name.as_str().as_bytes()) {
        Ok(i) => {
            attributes[i] = (name, value);
            Ok(())
        }
        Err(i) => {
            attributes.insert(i, (name, value))?;
            Ok(())
        }
    }
}

fn take_out(attributes: &mut Vec<(Text, AttrValue)>, name: &str) -> Option<AttrValue>
    requires { IsLawfulItem attributes.old.items }
    ensures value { result ≡ value_at name.now attributes.old.items }
    ensures rest { attributes.new.items ≡ without name.now attributes.old.items }
    ensures lawful { IsLawfulItem attributes.new.items }
{
    match place_of(attributes, name.as_bytes()) {
        Ok(i) => {
            let (_, value) = attributes.remove(i);
            Some(value)
        }
        Err(_) => None,
    }
}

fn copy_of(
    alloc: Global,
    attributes: &[(Text, AttrValue)],
) -> Result<Vec<(Text, AttrValue)>, Memory>
    ensures { IfOk result (λ copies. copies.items ≡ attributes.now) }
{
    let mut copies = Vec::with_capacity(alloc, attributes.len())?;
    for attribute in attributes {
        copies.push((attribute.0.copy(alloc)?, attribute.1.copy(alloc)?))?;
    }
    Ok(copies)
}
