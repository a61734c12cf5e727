ghost use Rattle.std.specs.Prelude.{◌≡◌};
ghost use Rattle.dbe_config.specs.Actions.{is_reserved, is_sort, is_key, action_at, has_prefix, or_unsigned, action_for, is_do_nothing, is_unsigned, is_encrypted, is_signed_only};
ghost use Rattle.dbe_config.specs.Rules.{is_listed, is_attribute, is_signed_name};
ghost use Rattle.dbe_config.specs.Entries.{entries_of};

use crate::Action;
use dbe_num::Text;
use dbe_values::{KeyName, KeySchema};
use std::collections::BTreeMap;

pub(crate) fn is_reserved(name: &str) -> bool
    ensures { result ≡ is_reserved name.now }
{
    name.as_bytes().starts_with(b"aws_dbe_")
}

pub(crate) fn is_sort(name: &Text, sort: &Option<KeyName>) -> bool
    ensures { result ≡ is_sort name.now sort.now }
{
    match sort {
        Some(key) => key.name.as_bytes() == name.as_bytes(),
        None => false,
    }
}

pub(crate) fn is_key(name: &Text, schema: &KeySchema) -> bool
    ensures { result ≡ is_key name.now schema.now }
{
    schema.partition.name.as_bytes() == name.as_bytes() || is_sort(name, &schema.sort)
}

// The action that is listed for a name.
pub(crate) fn action_at(name: &Text, actions: &BTreeMap<String, Action>) -> Option<Action>
    ensures { result ≡ action_at name.now (entries_of actions.now.entries) }
{
    actions.get(name.as_str()).copied()
}

fn has_prefix(prefix: &Option<Text>, name: &Text) -> bool
    ensures { result ≡ has_prefix prefix.now name.now }
{
    match prefix {
        Some(prefix) => name.as_bytes().starts_with(prefix.as_bytes()),
        None => false,
    }
}

pub(crate) fn action_for(
    schema: &KeySchema,
    actions: &BTreeMap<String, Action>,
    prefix: &Option<Text>,
    name: &Text,
) -> Option<Action>
    ensures { result ≡ action_for schema.now (entries_of actions.now.entries) prefix.now name.now }
{
    if is_key(name, schema) {
        return Some(Action::SignOnly);
    }
    match action_at(name, actions) {
        Some(action) => Some(action),
        None => if has_prefix(prefix, name) {
            Some(Action::DoNothing)
        } else {
            None
        },
    }
}

pub(crate) fn is_do_nothing(action: Option<Action>) -> bool
    ensures { result ≡ is_do_nothing action }
{
    matches!(action, Some(Action::DoNothing))
}

pub(crate) fn is_unsigned(
    schema: &KeySchema,
    actions: &BTreeMap<String, Action>,
    prefix: &Option<Text>,
    name: &Text,
) -> bool
    ensures { result ≡ is_unsigned schema.now (entries_of actions.now.entries) prefix.now name.now }
{
    is_do_nothing(action_for(schema, actions, prefix, name)) || is_reserved(name.as_str())
}

pub(crate) fn is_encrypted(action: Option<Action>) -> bool
    ensures { result ≡ is_encrypted action }
{
    matches!(action, Some(Action::EncryptAndSign))
}

pub(crate) fn is_signed_only(action: Option<Action>) -> bool
    ensures { result ≡ is_signed_only action }
{
    matches!(action, Some(Action::SignOnly))
}

pub(crate) fn is_listed(action: Option<Action>) -> bool
    ensures { result ≡ is_listed action }
{
    action.is_some()
}

// The name of a key or of a listed attribute.
pub(crate) fn is_attribute(
    schema: &KeySchema,
    actions: &BTreeMap<String, Action>,
    name: &Text,
) -> bool
    ensures { result ≡ is_attribute schema.now (entries_of actions.now.entries) name.now }
{
    is_key(name, schema) || is_listed(action_at(name, actions))
}

// The name of a key, or of an attribute that is encrypted or signed.
pub(crate) fn is_signed_name(
    schema: &KeySchema,
    actions: &BTreeMap<String, Action>,
    name: &Text,
) -> bool
    ensures { result ≡ is_signed_name schema.now (entries_of actions.now.entries) name.now }
{
    is_key(name, schema)
        || is_encrypted(action_at(name, actions))
        || is_signed_only(action_at(name, actions))
}
