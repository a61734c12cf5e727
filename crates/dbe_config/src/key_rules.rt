ghost use Rattle.std.specs.Prelude.{◌≡◌};
ghost use Rattle.dbe_config.specs.Rules.{is_other, is_sort_listed_otherwise, is_key_listed_otherwise, is_sort_reserved, is_key_reserved, lists_reserved};
ghost use Rattle.dbe_config.specs.Entries.{entries_of};

use crate::Action;
use crate::names::{action_at, is_reserved};
use dbe_values::{KeyName, KeySchema};
use std::collections::BTreeMap;

fn is_other(action: Option<Action>) -> bool
    ensures { result ≡ is_other action }
{
    matches!(action, Some(Action::EncryptAndSign | Action::DoNothing))
}

fn is_sort_listed_otherwise(sort: &Option<KeyName>, actions: &BTreeMap<String, Action>) -> bool
    ensures { result ≡ is_sort_listed_otherwise sort.now (entries_of actions.now.entries) }
{
    match sort {
        Some(key) => is_other(action_at(&key.name, actions)),
        None => false,
    }
}

// A key is listed, and not as `SIGN_ONLY`.
pub(crate) fn is_key_listed_otherwise(
    schema: &KeySchema,
    actions: &BTreeMap<String, Action>,
) -> bool
    ensures { result ≡ is_key_listed_otherwise schema.now (entries_of actions.now.entries) }
{
    is_other(action_at(&schema.partition.name, actions))
        || is_sort_listed_otherwise(&schema.sort, actions)
}

fn is_sort_reserved(sort: &Option<KeyName>) -> bool
    ensures { result ≡ is_sort_reserved sort.now }
{
    match sort {
        Some(key) => is_reserved(key.name.as_str()),
        None => false,
    }
}

pub(crate) fn is_key_reserved(schema: &KeySchema) -> bool
    ensures { result ≡ is_key_reserved schema.now }
{
    is_reserved(schema.partition.name.as_str()) || is_sort_reserved(&schema.sort)
}

pub(crate) fn lists_reserved(actions: &BTreeMap<String, Action>) -> bool
    ensures { result ≡ lists_reserved (entries_of actions.now.entries) }
{
    for (name, _) in actions {
        if is_reserved(name.as_str()) {
            return true;
        }
    }
    false
}
