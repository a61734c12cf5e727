ghost use Rattle.std.specs.Prelude.{◌≡◌, ◌<◌, ◌≤◌, Some, length, take, min, is_err, IfOk};
ghost use Rattle.std.specs.Io.{ReadsAtMost};
ghost use Rattle.std.specs.Io.KnownBytes.{ReadConsumes};
ghost use Rattle.dbe_io.specs.Causes.{HasCause};
ghost use Rattle.dbe_io.specs.Memory.{counted, fails_at, one_more};

use crate::{Failed, FailurePlan, Source};
use std::marker::Model;

/// A source in memory, whose calls fail by a plan.
///
/// Contracts see the record `SourceInMemory`.
#[derive(Drop)]
pub struct MemSource {
    bytes: Vec<u8>,
    at: usize,
    most: usize,
    plan: FailurePlan,
}

impl Model for MemSource {
    ghost use Rattle.dbe_io.specs.Memory.{SourceInMemory};

    ghost Value = { SourceInMemory };

    ghost use Rattle.std.specs.Prelude.{◌<◌, ◌≤◌, drop, length};

    ghost view = { λ s. record { left = drop s.at s.bytes.items; most = s.most; calls = s.plan.calls; fails = s.plan.fails; faults = s.plan.faults } };

    ghost invariant = { λ s. (s.at ≤ length s.bytes.items) × (0 < s.most) };
}

impl MemSource {
    /// A source of these bytes. Each call gives as many of them as are left and have room.
    ///
    /// `fails` is the plan of failures: the k-th call of `read`, counted from 1, fails exactly where
    /// k is in it. An empty list lets no call fail.
    pub fn new(bytes: Vec<u8>, fails: Vec<u64>) -> MemSource
        ensures { result ≡ record { left = bytes.items; most = usize.MAX; calls = 0; fails = fails.items; faults = 0 } }
    {
        MemSource::in_pieces(bytes, usize::MAX, fails)
    }

    /// As `new`, but each call gives at most `most` bytes, which is at least 1.
    pub fn in_pieces(bytes: Vec<u8>, most: usize, fails: Vec<u64>) -> MemSource
        requires { 0 < most }
        ensures { result ≡ record { left = bytes.items; most = most; calls = 0; fails = fails.items; faults = 0 } }
    {
        MemSource {
            bytes,
            at: 0,
            most,
            plan: FailurePlan::new(fails),
        }
    }

    /// The bytes still to come.
    pub fn left(&self) -> &[u8]
        ensures { result.now ≡ self.now.left }
    {
        &self.bytes[self.at..]
    }
}

impl Source for MemSource {
    ghost left = { λ s. Some s.left };

    ghost faults = { λ s. s.faults };

    fn read(&mut self, out: &mut [u8]) -> Result<usize, Failed>
        ensures bound { ReadsAtMost result out.new }
        ensures bytes { ReadConsumes (Some self.old.left) (Some self.new.left) result out.new }
        ensures cause { HasCause (is_err result) self.old.faults self.new.faults }
        ensures calls { self.new.calls ≡ one_more self.old.calls }
        ensures planned { is_err result ≡ fails_at self.old.fails self.new.calls }
        ensures same { self.new ≡ record self.old { left = self.new.left; calls = self.new.calls; faults = self.new.faults } }
        ensures faults { self.new.faults ≡ counted (is_err result) self.old.faults }
        ensures count { IfOk result (λ n. n ≡ min (min (length self.old.left) (length out.new)) self.old.most) }
    {
        if self.plan.count_call() {
            return Err(Failed);
        }
        let count = copy_front(&self.bytes[self.at..], self.most, out);
        self.at += count;
        Ok(count)
    }
}

// Copies as many bytes as there are and fit, and at most `most`.
fn copy_front(from: &[u8], most: usize, out: &mut [u8]) -> usize
    ensures count { result ≡ min (min (length from.now) (length out.new)) most }
    ensures same { take result out.new ≡ take result from.now }
{
    let count = from.len().min(out.len()).min(most);
    out[..count].copy_from_slice(&from[..count]);
    count
}
