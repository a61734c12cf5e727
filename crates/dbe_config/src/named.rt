ghost use Rattle.std.specs.Prelude.{◌≡◌, IfOk, map};
ghost use Rattle.dbe_config.specs.Rules.{is_among, is_twice, has_reserved, is_attribute};
ghost use Rattle.dbe_config.specs.Entries.{entries_of};
ghost use Rattle.std.specs.List.{list_any};

use crate::names::{is_attribute, is_reserved};
use crate::{Action, Compound, ConstructorPart, Part, Standard, Virtual};
use dbe_num::{Memory, Text};
use dbe_values::KeySchema;
use std::alloc::Global;
use std::collections::BTreeMap;

// What has a name.
pub(crate) trait Named {
    ghost use Rattle.std.specs.Prelude.{List, ℕ};

    ghost name_of: { Self → List ℕ };

    fn name(&self) -> &Text
        ensures { result.now ≡ name_of self.now };
}

impl Named for Virtual {
    ghost name_of = { λ v. v.name };

    fn name(&self) -> &Text {
        &self.name
    }
}

impl Named for Compound {
    ghost name_of = { λ c. c.name };

    fn name(&self) -> &Text {
        &self.name
    }
}

impl Named for Standard {
    ghost name_of = { λ b. b.name };

    fn name(&self) -> &Text {
        &self.name
    }
}

impl Named for Part {
    ghost name_of = { λ p. p.name };

    fn name(&self) -> &Text {
        &self.name
    }
}

impl Named for ConstructorPart {
    ghost name_of = { λ e. e.name };

    fn name(&self) -> &Text {
        &self.name
    }
}

// Whether one of them has this name.
pub(crate) fn is_among<T: Named>(name: &Text, items: &[T]) -> bool
    ensures { result ≡ is_among name.now (map T.name_of items.now) }
{
    for item in items {
        if name.as_bytes() == item.name().as_bytes() {
            return true;
        }
    }
    false
}

// Whether two of them have one name.
pub(crate) fn is_twice<T: Named>(alloc: Global, items: &[T]) -> Result<bool, Memory>
    ensures { IfOk result (λ b. b ≡ is_twice (map T.name_of items.now)) }
{
    let mut seen = BTreeMap::new(alloc);
    for item in items {
        let earlier = seen.insert(item.name().copy(alloc)?.into_string(), ())?;
        if earlier.is_some() {
            return Ok(true);
        }
    }
    Ok(false)
}

pub(crate) fn has_reserved<T: Named>(items: &[T]) -> bool
    ensures { result ≡ has_reserved (map T.name_of items.now) }
{
    for item in items {
        if is_reserved(item.name().as_str()) {
            return true;
        }
    }
    false
}

// Whether one of them has the name of a key or of a listed attribute.
pub(crate) fn has_attribute_name<T: Named>(
    schema: &KeySchema,
    actions: &BTreeMap<String, Action>,
    items: &[T],
) -> bool
    ensures { result ≡ list_any (is_attribute schema.now (entries_of actions.now.entries)) (map T.name_of items.now) }
{
    for item in items {
        if is_attribute(schema, actions, item.name()) {
            return true;
        }
    }
    false
}
