ghost use Rattle.std.specs.Prelude.{◌≡◌, IfOk, length};
ghost use Rattle.dbe_canon.specs.Reading.{Gives, bytes_at, count_at, string_at};

use crate::CanonFault;

/// So many bytes at the front, and those behind them.
#[tactic(auto, unfolding(crate::specs::Reading::bytes_at))]
pub fn bytes_at(count: u64, bytes: &[u8]) -> Result<(&[u8], &[u8]), CanonFault>
    ensures gives { Gives (λ x. (x.0.now, x.1.now)) result (bytes_at count bytes.now) }
    ensures length { IfOk result (λ x. length x.0.now ≡ count) }
{
    if (bytes.len() as u64) < count {
        return Err(CanonFault::NotCanonical);
    }
    Ok(bytes.split_at(count as usize))
}

/// A count of 8 bytes at the front.
#[tactic(auto, unfolding(crate::specs::Reading::count_at))]
pub fn count_at(bytes: &[u8]) -> Result<(u64, &[u8]), CanonFault>
    ensures { Gives (λ x. (x.0, x.1.now)) result (count_at bytes.now) }
{
    let (b, rest) = bytes_at(8, bytes)?;
    let count = u64::from_be_bytes([b[0], b[1], b[2], b[3], b[4], b[5], b[6], b[7]]);
    Ok((count, rest))
}

/// Bytes behind their length.
#[tactic(auto, unfolding(crate::specs::Reading::string_at))]
pub fn string_at(bytes: &[u8]) -> Result<(&[u8], &[u8]), CanonFault>
    ensures { Gives (λ x. (x.0.now, x.1.now)) result (string_at bytes.now) }
{
    let (count, rest) = count_at(bytes)?;
    bytes_at(count, rest)
}
