ghost use Rattle.std.specs.Prelude.{IfOk, IfErr};
ghost use Rattle.dbe_frame.specs.Footer.{AreTags, IsFooterFault};

use crate::FrameFault;
use crate::sizes::TAG_SIZE;
use std::alloc::Global;

/// The tags of a footer, one for each of `n` data keys. Fails with `FooterLength` exactly where there are not 48
/// bytes for each.
pub fn read_footer(alloc: Global, bytes: &[u8], n: usize) -> Result<Vec<[u8; TAG_SIZE]>, FrameFault>
    ensures tags { IfOk result (λ tags. AreTags n tags.items bytes.now) }
    ensures fault { IfErr result (λ f. IsFooterFault f n bytes.now) }
{
    if bytes.len() % TAG_SIZE != 0 || bytes.len() / TAG_SIZE != n {
        return Err(FrameFault::FooterLength);
    }
    let (tags, _) = bytes.as_chunks::<TAG_SIZE>();
    Ok(Vec::from_slice(alloc, tags)?)
}
