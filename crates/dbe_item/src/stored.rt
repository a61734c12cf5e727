ghost use Rattle.std.specs.Prelude.{◌≡◌, ◌≤◌, IfOk, length};
ghost use Rattle.std.specs.List.{All};
ghost use Rattle.dbe_config.specs.Bounds.{AreInOrder, IsPair};
ghost use Rattle.dbe_item.specs.Sealed.{pairs_of};

use dbe_config::ContextPair;
use dbe_frame::Pairs;
use dbe_num::{Bytes, Memory};
use std::alloc::Global;

/// The pairs of a context as a header stores them.
pub(crate) fn stored_pairs(alloc: Global, context: &[ContextPair]) -> Result<Pairs, Memory>
    requires count { length context.now ≤ 32 }
    requires pairs { All IsPair context.now }
    requires order { AreInOrder context.now }
    ensures { IfOk result (λ pairs. pairs ≡ pairs_of context.now) }
{
    let pairs = copied(alloc, context)?;
    Ok(Pairs::new(pairs).unwrap())
}

fn copied(alloc: Global, context: &[ContextPair]) -> Result<Vec<(Bytes, Bytes)>, Memory>
    ensures { IfOk result (λ pairs. pairs.items ≡ pairs_of context.now) }
{
    let mut pairs = Vec::with_capacity(alloc, context.len())?;
    for pair in context {
        let key = Bytes::copy_of(alloc, pair.key.as_bytes())?;
        let value = Bytes::copy_of(alloc, pair.value.as_bytes())?;
        pairs.push((key, value))?;
    }
    Ok(pairs)
}
