ghost use Rattle.std.specs.Prelude.{◌≡◌, ◌||◌, Some, length, nat_lt, is_err, is_some};
ghost use Rattle.dbe_io.specs.Causes.{HasCause};
ghost use Rattle.dbe_io.specs.Dice.{FillConsumes};
ghost use Rattle.dbe_io.specs.Memory.{counted, fails_at, one_more};

use crate::{Dice, Failed, FailurePlan};
use std::marker::Model;

/// Given bytes in place of random ones, whose calls fail by a plan.
///
/// Contracts see the record `DiceInMemory`.
#[derive(Drop)]
pub struct MemDice {
    bytes: Vec<u8>,
    at: usize,
    plan: FailurePlan,
}

impl Model for MemDice {
    ghost use Rattle.dbe_io.specs.Memory.{DiceInMemory};

    ghost Value = { DiceInMemory };

    ghost use Rattle.std.specs.Prelude.{◌≤◌, drop, length};

    ghost view = { λ d. record { left = drop d.at d.bytes.items; calls = d.plan.calls; fails = d.plan.fails; faults = d.plan.faults } };

    ghost invariant = { λ d. d.at ≤ length d.bytes.items };
}

impl MemDice {
    /// Dice that give these bytes in their order.
    ///
    /// `fails` is the plan of failures: the k-th call of `fill`, counted from 1, fails where k is in
    /// it. Every other call fails exactly where fewer bytes are left than it asks for.
    pub fn new(bytes: Vec<u8>, fails: Vec<u64>) -> MemDice
        ensures { result ≡ record { left = bytes.items; calls = 0; fails = fails.items; faults = 0 } }
    {
        MemDice {
            bytes,
            at: 0,
            plan: FailurePlan::new(fails),
        }
    }

    /// The bytes still to come.
    pub fn left(&self) -> &[u8]
        ensures { result.now ≡ self.now.left }
    {
        &self.bytes[self.at..]
    }
}

impl Dice for MemDice {
    ghost left = { λ d. Some d.left };

    ghost faults = { λ d. d.faults };

    fn fill(&mut self, out: &mut [u8]) -> Result<(), Failed>
        ensures bytes { FillConsumes (Some self.old.left) (Some self.new.left) result out.new }
        ensures told { is_some (Some self.new.left) ≡ is_some (Some self.old.left) }
        ensures cause { HasCause (is_err result) self.old.faults self.new.faults }
        ensures calls { self.new.calls ≡ one_more self.old.calls }
        ensures planned { is_err result ≡ (fails_at self.old.fails self.new.calls || nat_lt (length self.old.left) (length out.new)) }
        ensures same { self.new ≡ record self.old { left = self.new.left; calls = self.new.calls; faults = self.new.faults } }
        ensures faults { self.new.faults ≡ counted (is_err result) self.old.faults }
    {
        if self.plan.count_call() {
            return Err(Failed);
        }
        let next = &self.bytes[self.at..];
        if next.len() < out.len() {
            self.plan.count_failure();
            return Err(Failed);
        }
        out.copy_from_slice(&next[..out.len()]);
        self.at += out.len();
        Ok(())
    }
}

#[cfg(test)]
mod tests {
    use super::*;
    use std::process::Abort;
    use std::test::Fail;

    // A case has how many bytes a call asks for, at most 4, its answer, and the bytes left then.
    fn each_answers(
        rt: &impl Abort,
        dice: &mut MemDice,
        cases: &[(usize, Result<(), Failed>, &[u8])],
    ) {
        let mut out = [0; 4];
        for (count, answer, left) in cases {
            assert!(rt; *count <= 4);
            assert!(rt; dice.fill(&mut out[..*count]) == *answer);
            assert!(rt; dice.left() == *left);
        }
        assert_eq!(rt; out, *b"bc\0\0");
    }

    #[test]
    fn gives_its_bytes_in_order(rt: HostRuntime) -> Result<(), Fail> {
        let mut dice = MemDice::new(b"abcd".to_vec(rt.alloc())?, vec![in rt.alloc(); 2]?);
        each_answers(
            &rt,
            &mut dice,
            &[
                (1, Ok(()), b"bcd"),
                (1, Err(Failed), b"bcd"),
                (4, Err(Failed), b"bcd"),
                (2, Ok(()), b"d"),
                (0, Ok(()), b"d"),
            ],
        );
        Ok(())
    }
}
