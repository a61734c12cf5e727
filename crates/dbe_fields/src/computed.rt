ghost use Rattle.std.specs.Prelude.{◌≡◌};
ghost use Rattle.dbe_config.specs.Rules.{is_among, compound_names, virtual_names};
ghost use Rattle.dbe_fields.specs.Plain.{is_computed};

use dbe_config::{Compound, Config, Virtual};
use dbe_num::Text;

/// Whether a name is that of a virtual field or a compound. Takes no memory.
pub fn is_computed(config: &Config, name: &Text) -> bool
    ensures { result ≡ is_computed config.now name.now }
{
    is_compound(config.compounds(), name) || is_virtual(config.virtuals(), name)
}

fn is_compound(compounds: &[Compound], name: &Text) -> bool
    ensures { result ≡ is_among name.now (compound_names compounds.now) }
{
    for compound in compounds {
        if name.as_bytes() == compound.name.as_bytes() {
            return true;
        }
    }
    false
}

fn is_virtual(virtuals: &[Virtual], name: &Text) -> bool
    ensures { result ≡ is_among name.now (virtual_names virtuals.now) }
{
    for field in virtuals {
        if name.as_bytes() == field.name.as_bytes() {
            return true;
        }
    }
    false
}
