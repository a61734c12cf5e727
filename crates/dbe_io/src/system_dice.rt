ghost use Rattle.std.specs.Prelude.{◌≡◌, None, length, is_err, is_ok, is_some, option_map, IfSome};
ghost use Rattle.dbe_io.specs.Causes.{HasCause};
ghost use Rattle.dbe_io.specs.KeyStream.{AreNext, stream_after};
ghost use Rattle.dbe_io.specs.Memory.{counted};

use crate::{ChaDice, Dice, Failed};
use std::fs::Files;
use std::io::{self, Read};
use std::marker::Model;

const SEED: usize = 32;

/// The stream of a seed that the system gave. It tells no bytes.
///
/// Contracts see the record `SeededDice`.
#[derive(Drop)]
pub struct SystemDice {
    stream: Option<ChaDice>,
    faults: u64,
}

impl Model for SystemDice {
    ghost use Rattle.dbe_io.specs.KeyStream.{SeededDice};

    ghost Value = { SeededDice };

    ghost view = { λ d. record { stream = d.stream; faults = d.faults } };
}

impl SystemDice {
    /// Reads 32 bytes of `/dev/urandom` as the seed of a [`ChaDice`]. Where that failed, each `fill`
    /// fails, so this call itself answers no error. The dice have not failed yet.
    pub fn new<R: Files>(rt: &R) -> SystemDice
        ensures faults { result.faults ≡ 0 }
        ensures first { IfSome result.stream (λ s. s.at ≡ 0) }
    {
        SystemDice {
            stream: read_seed(rt).ok().map(ChaDice::from_seed),
            faults: 0,
        }
    }
}

impl Dice for SystemDice {
    ghost left = { λ _. None };

    ghost faults = { λ d. d.faults };

    fn fill(&mut self, out: &mut [u8]) -> Result<(), Failed>
        ensures cause { HasCause (is_err result) self.old.faults self.new.faults }
        ensures seeded { is_ok result ≡ is_some self.old.stream }
        ensures next { IfSome self.old.stream (λ s. AreNext s out.new) }
        ensures after { self.new.stream ≡ option_map (λ s. stream_after s (length out.new)) self.old.stream }
        ensures faults { self.new.faults ≡ counted (is_err result) self.old.faults }
    {
        match &mut self.stream {
            Some(stream) => stream.fill(out),
            None => {
                self.faults = self.faults.saturating_add(1);
                Err(Failed)
            }
        }
    }
}

fn read_seed<R: Files>(rt: &R) -> io::Result<[u8; SEED]> {
    let mut seed = [0; SEED];
    std::fs::open(rt, "/dev/urandom")?.read_exact(&mut seed)?;
    Ok(seed)
}

#[cfg(test)]
mod tests {
    use super::*;
    use std::test::Fail;

    #[test]
    fn two_seeds_differ(rt: HostRuntime) -> Result<(), Fail> {
        let mut outs = [[0; 32]; 2];
        for out in outs.iter_mut() {
            SystemDice::new(&rt).fill(out)?;
            assert_ne!(rt; *out, [0; 32]);
        }
        assert_ne!(rt; outs[0], outs[1]);
        Ok(())
    }
}
