ghost use Rattle.std.specs.Prelude.{◌≡◌, IfOk};
ghost use Rattle.dbe_item.specs.Ruled.{IsSealing};
ghost use Rattle.dbe_item.specs.Sealed.{raw_rings, stored_pairs};

use crate::ring_list::raw_rings;
use crate::stored::stored_pairs;
use dbe_config::Config;
use dbe_frame::Pairs;
use dbe_kdf::EmptySalt;
use dbe_num::Memory;
use dbe_rawring::RawRing;
use std::alloc::Global;
use std::marker::Model;

/// A configuration, and what serves to seal and to open each of its items: the key schedules of the raw recipients, and
/// the pairs that each header stores. Made once.
///
/// Contracts see the configuration.
#[derive(Drop)]
pub struct Rings {
    config: Config,
    raw: Vec<RawRing>,
    stored: Pairs,
    salt: EmptySalt,
}

impl Model for Rings {
    ghost use Rattle.std.specs.Prelude.{◌≡◌};
    ghost use Rattle.dbe_config.specs.Setting.{Setting};
    ghost use Rattle.dbe_item.specs.Sealed.{raw_rings, stored_pairs};

    ghost Value = { Setting };

    ghost view = { λ r. r.config };

    ghost invariant = { λ r. (r.raw.items ≡ raw_rings r.config.recipients) × (r.stored ≡ stored_pairs r.config) };
}

impl Rings {
    pub fn new(alloc: Global, config: Config) -> Result<Rings, Memory>
        ensures { IfOk result (λ r. r ≡ config) }
    {
        config.keeps_bounds();
        let raw = raw_rings(alloc, config.recipients())?;
        let stored = stored_pairs(alloc, config.context())?;
        Ok(Rings {
            config,
            raw,
            stored,
            salt: EmptySalt::new(),
        })
    }

    /// A law: the configuration keeps its bounds, and what sealing needs. Does nothing.
    pub fn is_sealing(&self)
        ensures { IsSealing self.now }
    {
        self.config.keeps_bounds();
        self.config.keeps_built();
        self.config.keeps_few_recipients();
    }

    pub fn config(&self) -> &Config
        ensures { result.now ≡ self.now }
    {
        &self.config
    }

    /// The rings of the raw recipients, in the order of the configuration.
    pub(crate) fn raw(&self) -> &[RawRing]
        ensures { result.now ≡ raw_rings self.now.recipients }
    {
        self.raw.as_slice()
    }

    /// The pairs of the configuration, in order of their keys.
    pub(crate) fn stored(&self) -> &Pairs
        ensures { result.now ≡ stored_pairs self.now }
    {
        &self.stored
    }

    pub(crate) fn salt(&self) -> &EmptySalt {
        &self.salt
    }
}
