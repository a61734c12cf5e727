ghost use Rattle.std.specs.Prelude.{◌≡◌, ◌↔◌, None, IfSome, IsSome, option_map};
ghost use Rattle.std.specs.Bool.{IsTrue};
ghost use Rattle.dbe_frame.specs.Header.{ArePairs};
ghost use Rattle.dbe_frame.specs.Reading.{takes_pair, takes_pairs};

use crate::reading::comes_after;
use crate::sizes::MOST_COUNTED;
use dbe_num::Bytes;
use std::marker::Model;

/// The pairs of a context: at most 65,535, each key and each value of at most 65,535 bytes, and each key below those
/// after it by bytes.
///
/// Contracts see the list of the pairs.
#[derive(Debug, Drop)]
pub struct Pairs {
    pairs: Vec<(Bytes, Bytes)>,
}

impl Model for Pairs {
    ghost use Rattle.std.specs.Prelude.{List, ℕ};
    ghost use Rattle.dbe_frame.specs.Header.{ArePairs};

    ghost Value = { List (List ℕ × List ℕ) };

    ghost view = { λ p. p.pairs.items };

    ghost invariant = { λ p. ArePairs p.pairs.items };
}

impl Pairs {
    /// The pairs, or none where a header cannot hold them: there are more than 65,535, a key or a value has more than
    /// 65,535 bytes, or a key is not below the next one. Takes no memory.
    pub fn new(pairs: Vec<(Bytes, Bytes)>) -> Option<Pairs>
        ensures pairs { IfSome result (λ p. p ≡ pairs.items) }
        ensures some { IsSome result ↔ ArePairs pairs.items }
    {
        match are_pairs(&pairs) {
            true => Some(Pairs::from_vec(pairs)),
            false => None,
        }
    }

    /// Pairs that are known to be in order. Takes no memory.
    pub(crate) fn from_vec(pairs: Vec<(Bytes, Bytes)>) -> Pairs
        requires { ArePairs pairs.items }
        ensures { result ≡ pairs.items }
    {
        Pairs { pairs }
    }

    pub fn as_slice(&self) -> &[(Bytes, Bytes)]
        ensures pairs { result.now ≡ self.now }
        ensures are_pairs { ArePairs self.now }
    {
        self.pairs.as_slice()
    }

    /// Takes no memory.
    pub fn into_vec(self) -> Vec<(Bytes, Bytes)>
        ensures pairs { result.items ≡ self }
        ensures are_pairs { ArePairs self }
    {
        self.pairs
    }
}

/// Whether a header may hold the pairs.
fn are_pairs(pairs: &[(Bytes, Bytes)]) -> bool
    ensures { IsTrue result ↔ ArePairs pairs.now }
{
    pairs.len() <= MOST_COUNTED && takes_pairs(pairs)
}

/// Whether the pairs are short and in order.
fn takes_pairs(pairs: &[(Bytes, Bytes)]) -> bool
    ensures { result ≡ takes_pairs None pairs.now }
{
    let mut before = None;
    for i in 0..pairs.len() {
        let pair = &pairs[i];
        if !takes_pair(before, pair.0.as_slice(), pair.1.as_slice()) {
            return false;
        }
        before = Some(pair.0.as_slice());
    }
    true
}

/// Whether a pair is short, and its key comes after the one before it.
fn takes_pair(before: Option<&[u8]>, key: &[u8], value: &[u8]) -> bool
    ensures { result ≡ takes_pair (option_map (λ k. k.now) before.entry) (key.now, value.now) }
{
    key.len() <= MOST_COUNTED && value.len() <= MOST_COUNTED && comes_after(before, key)
}
