ghost use Rattle.std.specs.Prelude.{◌≡◌, ◌-◌, ◌≤◌, [], Some, true, false, length, min, is_ok, is_err, IfOk, OnErr};
ghost use Rattle.dbe_io.specs.Causes.{HasCause, TookNothing};
ghost use Rattle.dbe_io.specs.Memory.{counted, fails_at, one_more};
ghost use Rattle.dbe_io.specs.Prefix.{Takes};

use crate::{Failed, FailurePlan, Sink};
use dbe_num::Memory;
use std::alloc::Global;
use std::marker::Model;

/// A sink in memory with a room that never grows, whose calls fail by a plan.
///
/// Contracts see the record `SinkInMemory`.
#[derive(Drop)]
pub struct MemSink {
    bytes: Vec<u8>,
    room: usize,
    most: usize,
    plan: FailurePlan,
    idle: u64,
    finished: bool,
}

impl Model for MemSink {
    ghost use Rattle.dbe_io.specs.Memory.{SinkInMemory};

    ghost Value = { SinkInMemory };

    ghost use Rattle.std.specs.Prelude.{◌≤◌, vec_len, vec_capacity};

    ghost view = { λ s. record { written = s.bytes.items; room = s.room; most = s.most; calls = s.plan.calls; fails = s.plan.fails; faults = s.plan.faults; idle = s.idle; finished = s.finished } };

    ghost invariant = { λ s. (vec_len s.bytes ≤ s.room) × (s.room ≤ vec_capacity s.bytes) };
}

impl MemSink {
    /// A sink that takes `room` bytes in all, which may be 0. A write takes as much of its piece as
    /// the room still holds, and nothing where that is none.
    ///
    /// `fails` is the plan of failures: the k-th call of `write` and `finish` together, counted from
    /// 1, fails exactly where k is in it, and takes nothing then. An empty list lets no call fail.
    ///
    /// `Memory`: the room could not be had.
    pub fn new(alloc: Global, room: usize, fails: Vec<u64>) -> Result<MemSink, Memory>
        ensures { IfOk result (λ sink. sink ≡ record { written = []; room = room; most = usize.MAX; calls = 0; fails = fails.items; faults = 0; idle = 0; finished = false }) }
    {
        MemSink::in_pieces(alloc, usize::MAX, room, fails)
    }

    /// As `new`, but each write takes at most `most` bytes, and so nothing where `most` is 0.
    pub fn in_pieces(
        alloc: Global,
        most: usize,
        room: usize,
        fails: Vec<u64>,
    ) -> Result<MemSink, Memory>
        ensures { IfOk result (λ sink. sink ≡ record { written = []; room = room; most = most; calls = 0; fails = fails.items; faults = 0; idle = 0; finished = false }) }
    {
        Ok(MemSink {
            bytes: Vec::with_capacity(alloc, room)?,
            room,
            most,
            plan: FailurePlan::new(fails),
            idle: 0,
            finished: false,
        })
    }

    /// The bytes that were written.
    pub fn written(&self) -> &[u8]
        ensures { result.now ≡ self.now.written }
    {
        &self.bytes
    }
}

impl Sink for MemSink {
    ghost written = { λ s. Some s.written };

    ghost faults = { λ s. s.faults };

    ghost idle = { λ s. s.idle };

    ghost finished = { λ s. s.finished };

    fn write(&mut self, piece: &[u8]) -> Result<usize, Failed>
        ensures bound { IfOk result (λ n. n ≤ length piece.now) }
        ensures bytes { Takes (Some self.old.written) (Some self.new.written) result piece.now }
        ensures cause { HasCause (is_err result) self.old.faults self.new.faults }
        ensures idle { TookNothing self.old.idle self.new.idle result (length piece.now) }
        ensures unfinished { self.new.finished ≡ false }
        ensures calls { self.new.calls ≡ one_more self.old.calls }
        ensures planned { is_err result ≡ fails_at self.old.fails self.new.calls }
        ensures same { self.new ≡ record self.old { written = self.new.written; calls = self.new.calls; faults = self.new.faults; idle = self.new.idle; finished = self.new.finished } }
        ensures faults { self.new.faults ≡ counted (is_err result) self.old.faults }
        ensures failed { OnErr result (self.new.written ≡ self.old.written) }
        ensures count { IfOk result (λ n. n ≡ min (min (length piece.now) self.old.most) (self.old.room - length self.old.written)) }
    {
        self.finished = false;
        if self.plan.count_call() {
            return Err(Failed);
        }
        let spare = self.room - self.bytes.len();
        let count = piece.len().min(self.most).min(spare);
        if self.bytes.extend_from_slice(&piece[..count]).is_err() {
            unreachable!()
        }
        if count == 0 && !piece.is_empty() {
            self.idle = self.idle.saturating_add(1);
        }
        Ok(count)
    }

    fn finish(&mut self) -> Result<(), Failed>
        ensures written { self.new.written ≡ self.old.written }
        ensures cause { HasCause (is_err result) self.old.faults self.new.faults }
        ensures idle { self.new.idle ≡ self.old.idle }
        ensures finished { self.new.finished ≡ is_ok result }
        ensures calls { self.new.calls ≡ one_more self.old.calls }
        ensures planned { is_err result ≡ fails_at self.old.fails self.new.calls }
        ensures same { self.new ≡ record self.old { calls = self.new.calls; faults = self.new.faults; finished = self.new.finished } }
        ensures faults { self.new.faults ≡ counted (is_err result) self.old.faults }
    {
        self.finished = !self.plan.count_call();
        if !self.finished {
            return Err(Failed);
        }
        Ok(())
    }
}
