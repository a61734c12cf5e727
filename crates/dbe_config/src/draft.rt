ghost use Rattle.std.specs.Prelude.{◌≡◌, ◌≤◌, IfOk, IfErr, Ok, Err, ◌≢◌, option_map, option_and_then};
ghost use Rattle.std.specs.List.{list_any};
ghost use Rattle.std.specs.Option.{IfSome};
ghost use Rattle.serde_json.specs.View.{view};
ghost use Rattle.dbe_values.specs.Json.{json_of};
ghost use Rattle.dbe_config.specs.Setting.{Setting};
ghost use Rattle.dbe_config.specs.Shape.{setting_in, count_optional, has_its_members, prefix_in, branch_id_in, recipient_in};
ghost use Rattle.dbe_config.specs.Spelling.{optional, array_of};
ghost use Rattle.dbe_config.specs.Rules.{uses_reserved_name, names_computed_twice, uses_name_twice, lacks_branch, has_wrong_source, is_among, virtual_names, compound_names, has_beacons, is_not_built};
ghost use Rattle.dbe_config.specs.Order.{first_fault};
ghost use Rattle.dbe_config.specs.Bounds.{IsBounded};
ghost use Rattle.dbe_config.specs.Configured.{formed};

use crate::compound_rules::{
    has_any_prefix_clash, has_any_wrong_split, has_empty_compound, names_any_part_twice,
};
use crate::copies::{copy_all, copy_of_actions, copy_of_branch, copy_of_option};
use crate::key_rules::{is_key_listed_otherwise, is_key_reserved, lists_reserved};
use crate::named::{has_attribute_name, has_reserved, is_among, is_twice};
use crate::read_actions::listed_in;
use crate::read_compound::one_if;
use crate::read_context::context_in;
use crate::read_keys::schema_in;
use crate::read_recipient::branch_id_in;
use crate::recipient_rules::{has_branch, has_ring_twice};
use crate::source_rules::{
    has_wrong_beacon, has_wrong_compound, has_wrong_length, has_wrong_virtual,
};
use crate::spelled::{array_of, list_or_none};
use crate::spelling::{text_in, text_of};
use crate::{Action, Compound, ConfigFault, ContextPair, Recipient, Standard, Virtual, names};
use dbe_num::{Memory, Text};
use dbe_values::{BranchId, KeySchema, json_value, size_of};
use serde_json::Value;
use std::alloc::Global;
use std::collections::BTreeMap;
use std::marker::Model;

const MOST_RECIPIENTS: usize = 8;

// The members of a configuration, before its rules are tested.
#[derive(Drop)]
pub struct Draft {
    pub table: Text,
    pub schema: KeySchema,
    pub actions: BTreeMap<String, Action>,
    pub unsigned_prefix: Option<Text>,
    pub context: Vec<ContextPair>,
    pub recipients: Vec<Recipient>,
    pub beacon_branch: Option<BranchId>,
    pub virtuals: Vec<Virtual>,
    pub beacons: Vec<Standard>,
    pub compounds: Vec<Compound>,
}

impl Model for Draft {
    ghost use Rattle.dbe_config.specs.Setting.{Setting};
    ghost use Rattle.dbe_config.specs.Entries.{entries_of};

    ghost Value = { Setting };

    ghost view = { λ c. record { table = c.table; schema = c.schema; actions = entries_of c.actions.entries; unsigned_prefix = c.unsigned_prefix; context = c.context.items; recipients = c.recipients.items; beacon_branch = c.beacon_branch; virtuals = c.virtuals.items; beacons = c.beacons.items; compounds = c.compounds.items } };
}

impl Draft {
    pub(crate) fn copy(&self, alloc: Global) -> Result<Draft, Memory>
        ensures { IfOk result (λ c. c ≡ self.now) }
    {
        Ok(Draft {
            table: self.table.copy(alloc)?,
            schema: self.schema.copy(alloc)?,
            actions: copy_of_actions(&self.actions)?,
            unsigned_prefix: copy_of_option(alloc, &self.unsigned_prefix)?,
            context: copy_all(alloc, &self.context)?,
            recipients: copy_all(alloc, &self.recipients)?,
            beacon_branch: copy_of_branch(&self.beacon_branch),
            virtuals: copy_all(alloc, &self.virtuals)?,
            beacons: copy_all(alloc, &self.beacons)?,
            compounds: copy_all(alloc, &self.compounds)?,
        })
    }

    // The refusal of the first rule that is broken.
    pub(crate) fn first_fault(&self, alloc: Global) -> Result<Option<ConfigFault>, Memory>
        ensures { IfOk result (λ f. f ≡ first_fault self.now) }
    {
        if is_key_listed_otherwise(&self.schema, &self.actions) {
            return Ok(Some(ConfigFault::KeyAction));
        }
        if self.uses_reserved_name() {
            return Ok(Some(ConfigFault::ReservedName));
        }
        if self.uses_name_twice(alloc)? {
            return Ok(Some(ConfigFault::NameTwice));
        }
        if has_wrong_length(&self.beacons) {
            return Ok(Some(ConfigFault::BeaconLength));
        }
        if self.has_wrong_source() {
            return Ok(Some(ConfigFault::BeaconSource));
        }
        if has_any_prefix_clash(&self.compounds) {
            return Ok(Some(ConfigFault::PrefixClash));
        }
        if has_any_wrong_split(&self.compounds) {
            return Ok(Some(ConfigFault::SplitChar));
        }
        if has_empty_compound(&self.compounds) {
            return Ok(Some(ConfigFault::ConstructorEmpty));
        }
        if has_ring_twice(alloc, &self.recipients)? {
            return Ok(Some(ConfigFault::RecipientTwice));
        }
        if self.recipients.len() > MOST_RECIPIENTS {
            return Ok(Some(ConfigFault::TooManyRecipients));
        }
        if self.is_not_built() {
            return Ok(Some(ConfigFault::NotBuilt));
        }
        Ok(None)
    }

    fn is_not_built(&self) -> bool
        ensures { result ≡ is_not_built self.now }
    {
        has_branch(&self.recipients)
            || !self.recipients.is_empty() && has_beacons(&self.beacons, &self.compounds)
    }

    fn uses_reserved_name(&self) -> bool
        ensures { result ≡ uses_reserved_name self.now }
    {
        is_key_reserved(&self.schema)
            || lists_reserved(&self.actions)
            || has_reserved(&self.virtuals)
            || has_reserved(&self.compounds)
    }

    fn names_computed_twice(&self, alloc: Global) -> Result<bool, Memory>
        ensures { IfOk result (λ b. b ≡ names_computed_twice self.now) }
    {
        if is_twice(alloc, &self.virtuals)? || is_twice(alloc, &self.compounds)? {
            return Ok(true);
        }
        if is_any_among(&self.compounds, &self.virtuals) {
            return Ok(true);
        }
        Ok(
            has_attribute_name(&self.schema, &self.actions, &self.virtuals)
                || has_attribute_name(&self.schema, &self.actions, &self.compounds),
        )
    }

    fn uses_name_twice(&self, alloc: Global) -> Result<bool, Memory>
        ensures { IfOk result (λ b. b ≡ uses_name_twice self.now) }
    {
        if names::is_sort(&self.schema.partition.name, &self.schema.sort) {
            return Ok(true);
        }
        if self.names_computed_twice(alloc)? {
            return Ok(true);
        }
        if is_twice(alloc, &self.beacons)? {
            return Ok(true);
        }
        names_any_part_twice(alloc, &self.compounds)
    }

    fn has_wrong_source(&self) -> bool
        ensures { result ≡ has_wrong_source self.now }
    {
        has_wrong_virtual(&self.schema, &self.actions, &self.virtuals)
            || has_wrong_beacon(&self.actions, &self.virtuals, &self.beacons)
            || has_wrong_compound(&self.schema, &self.actions, &self.beacons, &self.compounds)
            || self.lacks_branch()
    }

    fn lacks_branch(&self) -> bool
        ensures { result ≡ lacks_branch self.now }
    {
        has_beacons(&self.beacons, &self.compounds)
            && !self.recipients.is_empty()
            && self.beacon_branch.is_none()
    }
}

// Whether a compound has the name of a virtual field.
fn is_any_among(compounds: &[Compound], virtuals: &[Virtual]) -> bool
    ensures { result ≡ list_any (λ name. is_among name (virtual_names virtuals.now)) (compound_names compounds.now) }
{
    for compound in compounds {
        if is_among(&compound.name, virtuals) {
            return true;
        }
    }
    false
}

// Whether there is a standard beacon or a compound.
pub(crate) fn has_beacons(beacons: &[Standard], compounds: &[Compound]) -> bool
    ensures { result ≡ has_beacons beacons.now compounds.now }
{
    !beacons.is_empty() || !compounds.is_empty()
}

pub(crate) fn formed(alloc: Global, bytes: &[u8]) -> Result<Draft, ConfigFault>
    ensures ok { IfOk result (λ c. formed (json_of bytes.now) ≡ Ok c) }
    ensures err { IfErr result (λ f. f ≢ ConfigFault.Memory → formed (json_of bytes.now) ≡ Err f) }
    ensures bounded { IfOk result IsBounded }
{
    match json_value(alloc, bytes) {
        Ok(Some(value)) => match draft_in(alloc, &value) {
            Ok(Some(draft)) => Ok(draft),
            Ok(None) => Err(ConfigFault::Shape),
            Err(Memory) => Err(ConfigFault::Memory),
        },
        Ok(None) => Err(ConfigFault::NotJson),
        Err(Memory) => Err(ConfigFault::Memory),
    }
}

fn draft_in(alloc: Global, value: &Value) -> Result<Option<Draft>, Memory>
    ensures is { IfOk result (λ c. c ≡ setting_in (view value.now)) }
    ensures bounded { IfOk result (λ c. IfSome c IsBounded) }
{
    if !has_its_members(value) {
        return Ok(None);
    }
    let Some(table) = text_in(value.get("table"), 1, 255) else {
        return Ok(None);
    };
    let Some(schema) = schema_in(alloc, value)? else {
        return Ok(None);
    };
    let Some(actions) = listed_in(alloc, value.get("actions"))? else {
        return Ok(None);
    };
    let Some(unsigned_prefix) = prefix_in(alloc, value.get("unsigned_prefix"))? else {
        return Ok(None);
    };
    let Some(context) = context_in(alloc, value.get("context"))? else {
        return Ok(None);
    };
    let Some(recipients) = recipients_in(alloc, value.get("recipients"))? else {
        return Ok(None);
    };
    let Some(beacon_branch) = beacon_branch_in(value.get("beacon_branch")) else {
        return Ok(None);
    };
    let Some(virtuals) = list_or_none(alloc, value.get("virtual"), 64)? else {
        return Ok(None);
    };
    let Some(beacons) = list_or_none(alloc, value.get("beacons"), 64)? else {
        return Ok(None);
    };
    let Some(compounds) = list_or_none(alloc, value.get("compounds"), 16)? else {
        return Ok(None);
    };
    Ok(Some(Draft {
        table: Text::copy_of(alloc, table)?,
        schema,
        actions,
        unsigned_prefix,
        context,
        recipients,
        beacon_branch,
        virtuals,
        beacons,
        compounds,
    }))
}

fn has_its_members(value: &Value) -> bool
    ensures { result ≡ has_its_members (view value.now) }
{
    size_of(value) == 4 + count_optional(value)
}

fn count_optional(value: &Value) -> usize
    ensures within { result ≤ 7 }
    ensures is { result ≡ count_optional (view value.now) }
{
    one_if(value.get("sort"))
        + one_if(value.get("unsigned_prefix"))
        + one_if(value.get("context"))
        + one_if(value.get("beacon_branch"))
        + one_if(value.get("virtual"))
        + one_if(value.get("beacons"))
        + one_if(value.get("compounds"))
}

fn prefix_in(alloc: Global, value: Option<&Value>) -> Result<Option<Option<Text>>, Memory>
    ensures { IfOk result (λ p. p ≡ optional prefix_in (option_map (λ v. view v.now) value.entry)) }
{
    let Some(value) = value else {
        return Ok(Some(None));
    };
    let Some(prefix) = text_of(value.as_str(), 1, 255) else {
        return Ok(None);
    };
    Ok(Some(Some(Text::copy_of(alloc, prefix)?)))
}

fn recipients_in(alloc: Global, value: Option<&Value>) -> Result<Option<Vec<Recipient>>, Memory>
    ensures { IfOk result (λ r. option_map (λ v. v.items) r ≡ option_and_then (array_of recipient_in) (option_map (λ v. view v.now) value.entry)) }
{
    match value {
        Some(value) => array_of(alloc, value),
        None => Ok(None),
    }
}

fn beacon_branch_in(value: Option<&Value>) -> Option<Option<BranchId>>
    ensures { result ≡ optional branch_id_in (option_map (λ v. view v.now) value.entry) }
{
    let Some(value) = value else {
        return Some(None);
    };
    Some(Some(branch_id_in(value)?))
}
