ghost use Rattle.std.specs.Prelude.{◌≡◌, IfOk, option_map};
ghost use Rattle.dbe_config.specs.Rules.{ring_name, has_ring_twice, is_branch, has_branch};

use crate::Recipient;
use dbe_num::Memory;
use std::alloc::Global;
use std::collections::BTreeSet;

// Namespace and name of a raw ring. All branch rings are alike.
fn ring_name(ring: &Recipient) -> Option<(&str, &str)>
    ensures { option_map (λ n. (n.0.now, n.1.now)) result ≡ ring_name ring.now }
{
    match ring {
        Recipient::Raw {
            namespace,
            name,
            ..
        } => Some((namespace.as_str(), name.as_str())),
        Recipient::Branch { .. } => None,
    }
}

// Two raw rings of one namespace and name, or two branch rings.
pub(crate) fn has_ring_twice(alloc: Global, rings: &[Recipient]) -> Result<bool, Memory>
    ensures { IfOk result (λ b. b ≡ has_ring_twice rings.now) }
{
    let mut seen = BTreeSet::new(alloc);
    for ring in rings {
        if !seen.insert(ring_name(ring))? {
            return Ok(true);
        }
    }
    Ok(false)
}

fn is_branch(ring: &Recipient) -> bool
    ensures { result ≡ is_branch ring.now }
{
    match ring {
        Recipient::Raw { .. } => false,
        Recipient::Branch { .. } => true,
    }
}

// Whether a recipient is of a branch.
pub(crate) fn has_branch(rings: &[Recipient]) -> bool
    ensures { result ≡ has_branch rings.now }
{
    rings.iter().any(|ring| is_branch(ring))
}
