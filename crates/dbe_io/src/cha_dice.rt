ghost use Rattle.std.specs.Prelude.{◌≡◌, ◌+◌, ◌%◌, ◌^◌, None, Ok, length, is_err, is_some, IsOk};
ghost use Rattle.rand_chacha.specs.ChaCha.{key_of};
ghost use Rattle.dbe_io.specs.Causes.{HasCause};
ghost use Rattle.dbe_io.specs.Dice.{FillConsumes};
ghost use Rattle.dbe_io.specs.KeyStream.{AreNext, stream_after, key_stream_byte};

use crate::{Dice, Failed};
use rand_chacha::ChaCha20Rng;
use rand_core::SeedableRng;
use rand_core::utils::NextWord;
use std::marker::Model;

/// The key stream of ChaCha20 as random bytes. It never fails, and tells no bytes.
///
/// Contracts see the record `KeyStream`.
#[derive(Drop)]
pub struct ChaDice {
    rng: ChaCha20Rng,
    // The last word that was drawn, and how many of its bytes were given.
    word: [u8; 4],
    given: usize,
}

impl Model for ChaDice {
    ghost use Rattle.dbe_io.specs.KeyStream.{KeyStream};

    ghost Value = { KeyStream };

    ghost use Rattle.std.specs.Prelude.{◌≡◌, ◌<◌, ◌≤◌, ◌+◌, ◌-◌, ◌*◌, ◌%◌, ◌^◌};
    ghost use Rattle.std.specs.Int.{w32, to_le_bytes};
    ghost use Rattle.rand_chacha.specs.ChaCha.{word_at};

    ghost view = { λ d. record { key = d.rng.key; at = (4 * d.rng.word_pos + (2 ^ 70 - 4) + d.given) % 2 ^ 70 } };

    ghost invariant = { λ d. (d.given ≤ 4) × (d.rng.stream ≡ 0) × (d.rng.word_pos < 2 ^ 68)
        × (d.given < 4 → d.word ≡ to_le_bytes w32 (word_at 10 d.rng.key 0 ((d.rng.word_pos + (2 ^ 68 - 1)) % 2 ^ 68))) };
}

impl ChaDice {
    /// The stream of a seed, from its first byte: the words of `ChaCha20Rng` in their order, each as
    /// 4 bytes, low byte first.
    pub fn from_seed(seed: [u8; 32]) -> ChaDice
        ensures { result ≡ record { key = key_of seed; at = 0 } }
    {
        ChaDice {
            rng: ChaCha20Rng::from_seed(seed),
            word: [0; 4],
            given: 4,
        }
    }

    fn next_byte(&mut self) -> u8
        ensures byte { result ≡ key_stream_byte self.old.key self.old.at }
        ensures next { self.new ≡ stream_after self.old 1 }
    {
        if self.given == 4 {
            self.word = self.rng.next_word().to_le_bytes();
            self.given = 0;
        }
        let byte = self.word[self.given];
        self.given += 1;
        byte
    }
}

impl Dice for ChaDice {
    ghost left = { λ _. None };

    ghost faults = { λ _. 0 };

    fn fill(&mut self, out: &mut [u8]) -> Result<(), Failed>
        ensures never_fails { result ≡ Ok tt }
        ensures next { AreNext self.old out.new }
        ensures after { self.new ≡ stream_after self.old (length out.new) }
    {
        // For the proof: the place is below 2^70, whatever the loop does.
        let _ = &self.given;
        for byte in out.iter_mut() {
            *byte = self.next_byte();
        }
        Ok(())
    }
}

#[cfg(test)]
mod tests {
    use super::*;
    use std::test::Fail;

    // RFC 8439, A.1, test vector 1: the first words of the zero key's stream, low byte first.
    #[test]
    fn gives_the_key_stream(rt: HostRuntime) -> Result<(), Fail> {
        let mut dice = ChaDice::from_seed([0; 32]);
        for word in [0xade0_b876, 0x903d_f1a0, 0xe56a_5d40, 0x28bd_8653] {
            let mut bytes = [0; 4];
            dice.fill(&mut bytes)?;
            assert_eq!(rt; u32::from_le_bytes(bytes), word);
        }
        Ok(())
    }

    #[test]
    fn one_stream_however_it_is_cut(rt: HostRuntime) -> Result<(), Fail> {
        let mut whole = [0; 177];
        ChaDice::from_seed([0; 32]).fill(&mut whole)?;
        let mut dice = ChaDice::from_seed([0; 32]);
        let mut rest = whole.as_slice();
        for count in [1, 3, 0, 4, 5, 64, 100] {
            let mut piece = [0; 100];
            assert!(rt; count <= 100 && count <= rest.len());
            dice.fill(&mut piece[..count])?;
            assert_eq!(rt; &piece[..count], &rest[..count]);
            rest = &rest[count..];
        }
        assert!(rt; rest.is_empty());
        Ok(())
    }
}
