ghost use Rattle.std.specs.Prelude.{◌≡◌, IfOk, [], option_map};
ghost use Rattle.serde_json.specs.View.{view, members_view};
ghost use Rattle.dbe_config.specs.Shape.{action_of, listed_action, actions_in, listed_in};
ghost use Rattle.dbe_config.specs.Entries.{entries_of};

use crate::Action;
use dbe_num::Memory;
use dbe_values::size_of;
use serde_json::{Map, Value};
use std::alloc::Global;
use std::collections::BTreeMap;

const MOST_ACTIONS: usize = 1000;

pub(crate) fn listed_in(
    alloc: Global,
    value: Option<&Value>,
) -> Result<Option<BTreeMap<String, Action>>, Memory>
    ensures { IfOk result (λ a. option_map (λ m. entries_of m.entries) a ≡ listed_in (option_map (λ v. view v.now) value.entry)) }
{
    let Some(value) = value else {
        return Ok(None);
    };
    if size_of(value) > MOST_ACTIONS {
        return Ok(None);
    }
    match value.as_object() {
        Some(map) => actions_in(alloc, map),
        None => Ok(None),
    }
}

fn actions_in(
    alloc: Global,
    map: &Map<String, Value>,
) -> Result<Option<BTreeMap<String, Action>>, Memory>
    ensures { IfOk result (λ a. option_map (λ m. entries_of m.entries) a ≡ actions_in [] (members_view map.now.entries)) }
{
    let mut actions = BTreeMap::new(alloc);
    for (name, value) in map {
        let Some(action) = listed_action(name.as_str(), value.as_str()) else {
            return Ok(None);
        };
        actions.insert(name.clone()?, action)?;
    }
    Ok(Some(actions))
}

// The action of one listed name.
fn listed_action(name: &str, word: Option<&str>) -> Option<Action>
    ensures { result ≡ listed_action name.now (option_map (λ w. w.now) word.entry) }
{
    let word = word?;
    if name.is_empty() || name.len() > 245 {
        return None;
    }
    action_of(word)
}

fn action_of(word: &str) -> Option<Action>
    ensures { result ≡ action_of word.now }
{
    match word {
        "ENCRYPT_AND_SIGN" => Some(Action::EncryptAndSign),
        "SIGN_ONLY" => Some(Action::SignOnly),
        "DO_NOTHING" => Some(Action::DoNothing),
        _ => None,
    }
}
