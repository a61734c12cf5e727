ghost use Rattle.std.specs.Prelude.{◌≡◌, ◌≢◌, ◌≤◌, false, IfOk, IfErr, Ok, Err, None, length, option_map};
ghost use Rattle.dbe_config.specs.Actions.{action_for, is_unsigned};
ghost use Rattle.dbe_config.specs.Bounds.{IsBounded};
ghost use Rattle.dbe_config.specs.Configured.{configured};
ghost use Rattle.dbe_config.specs.Order.{first_fault};
ghost use Rattle.dbe_config.specs.Rules.{has_beacons, is_empty_list, is_not_built};

use crate::draft::{Draft, formed, has_beacons};
use crate::{Action, Compound, ConfigFault, ContextPair, Recipient, Standard, Virtual, names};
use dbe_num::{Memory, Text};
use dbe_values::{BranchId, KeySchema};
use std::alloc::Global;
use std::marker::Model;

const MOST_BYTES: usize = 1_048_576;

/// A configuration: the table and its keys, the actions, the recipients, virtual fields and beacons.
///
/// It keeps all rules (`keeps_rules`) and bounds (`keeps_bounds`).
#[derive(Drop)]
pub struct Config {
    draft: Draft,
}

impl Model for Config {
    ghost use Rattle.std.specs.Prelude.{◌≡◌, None};
    ghost use Rattle.dbe_config.specs.Bounds.{IsBounded};
    ghost use Rattle.dbe_config.specs.Setting.{Setting};
    ghost use Rattle.dbe_config.specs.Order.{first_fault};

    ghost Value = { Setting };

    ghost view = { λ c. c.draft };

    ghost invariant = { λ c. (first_fault c.draft ≡ None) × IsBounded c.draft };
}

impl Config {
    /// Reads a configuration. The refusals are tested in the order of `ConfigFault`.
    pub fn read(alloc: Global, bytes: &[u8]) -> Result<Config, ConfigFault>
        ensures ok { IfOk result (λ c. configured bytes.now ≡ Ok c) }
        ensures err { IfErr result (λ f. f ≢ ConfigFault.Memory → configured bytes.now ≡ Err f) }
    {
        if bytes.len() > MOST_BYTES {
            return Err(ConfigFault::TooLong);
        }
        let draft = match formed(alloc, bytes) {
            Ok(draft) => draft,
            Err(fault) => return Err(fault),
        };
        match draft.first_fault(alloc) {
            Ok(None) => Ok(Config { draft }),
            Ok(Some(fault)) => Err(fault),
            Err(Memory) => Err(ConfigFault::Memory),
        }
    }

    pub fn copy(&self, alloc: Global) -> Result<Config, Memory>
        ensures { IfOk result (λ c. c ≡ self.now) }
    {
        Ok(Config {
            draft: self.draft.copy(alloc)?,
        })
    }

    /// A law: every configuration keeps all rules.
    pub fn keeps_rules(&self)
        ensures { first_fault self.now ≡ None }
    {
        let _draft = &self.draft;
    }

    /// A law: what a configuration holds keeps its bounds, and its context is in strict order of keys.
    pub fn keeps_bounds(&self)
        ensures { IsBounded self.now }
    {
        let _draft = &self.draft;
    }

    /// A law: there are at most 8 recipients.
    pub fn keeps_few_recipients(&self)
        ensures { length self.now.recipients ≤ 8 }
    {
        let _draft = &self.draft;
    }

    /// A law: no recipient is of a branch, and there are no recipients beside a beacon or a compound.
    pub fn keeps_built(&self)
        ensures { is_not_built self.now ≡ false }
    {
        let _draft = &self.draft;
    }

    /// The name of the table.
    pub fn table(&self) -> &Text
        ensures { result.now ≡ self.now.table }
    {
        &self.draft.table
    }

    /// The keys of the table's rows.
    pub fn schema(&self) -> &KeySchema
        ensures { result.now ≡ self.now.schema }
    {
        &self.draft.schema
    }

    /// The pairs that are added to each header, in order of keys.
    pub fn context(&self) -> &[ContextPair]
        ensures { result.now ≡ self.now.context }
    {
        &self.draft.context
    }

    /// Who can open what is sealed, in the order of the configuration.
    pub fn recipients(&self) -> &[Recipient]
        ensures { result.now ≡ self.now.recipients }
    {
        &self.draft.recipients
    }

    /// The branch whose beacon key the hashes are made with.
    pub fn beacon_branch(&self) -> Option<&BranchId>
        ensures { option_map (λ b. b.now) result ≡ self.now.beacon_branch }
    {
        self.draft.beacon_branch.as_ref()
    }

    /// The virtual fields, in the order of the configuration.
    pub fn virtuals(&self) -> &[Virtual]
        ensures { result.now ≡ self.now.virtuals }
    {
        &self.draft.virtuals
    }

    /// The standard beacons, in the order of the configuration.
    pub fn beacons(&self) -> &[Standard]
        ensures { result.now ≡ self.now.beacons }
    {
        &self.draft.beacons
    }

    /// The compounds, in the order of the configuration.
    pub fn compounds(&self) -> &[Compound]
        ensures { result.now ≡ self.now.compounds }
    {
        &self.draft.compounds
    }

    /// What is done with an attribute, or none where the configuration does not know it. Takes no memory.
    pub fn action(&self, name: &Text) -> Option<Action>
        ensures { result ≡ action_for self.now.schema self.now.actions self.now.unsigned_prefix name.now }
    {
        names::action_for(
            &self.draft.schema,
            &self.draft.actions,
            &self.draft.unsigned_prefix,
            name,
        )
    }

    /// Whether an attribute is neither signed nor encrypted. Takes no memory.
    pub fn is_unsigned(&self, name: &Text) -> bool
        ensures { result ≡ is_unsigned self.now.schema self.now.actions self.now.unsigned_prefix name.now }
    {
        names::is_unsigned(
            &self.draft.schema,
            &self.draft.actions,
            &self.draft.unsigned_prefix,
            name,
        )
    }

    /// Whether there are no recipients, so that items are stored as they are.
    pub fn is_plain(&self) -> bool
        ensures { result ≡ is_empty_list self.now.recipients }
    {
        self.draft.recipients.is_empty()
    }

    /// Whether there is a standard beacon or a compound.
    pub fn has_beacons(&self) -> bool
        ensures { result ≡ has_beacons self.now.beacons self.now.compounds }
    {
        has_beacons(&self.draft.beacons, &self.draft.compounds)
    }
}
