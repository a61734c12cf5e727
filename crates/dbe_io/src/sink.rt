ghost use Rattle.std.specs.Prelude.{◌≡◌, ◌≤◌, ◌<◌, List, ℕ, Bool, false, length, is_ok, is_err, IsOk, IfOk, OnOk};
ghost use Rattle.std.specs.Io.KnownBytes.{Appends};
ghost use Rattle.std.specs.declared.option.Option.{Option};
ghost use Rattle.dbe_io.specs.Causes.{HasCause, TookNothing};
ghost use Rattle.dbe_io.specs.Faults.{is_failed, is_idle};
ghost use Rattle.dbe_io.specs.Prefix.{AppendsPrefix, Takes};

use crate::Failed;

/// What bytes go to.
///
/// A sink may tell the bytes that were written. It counts its failures, and the writes that took
/// nothing.
pub trait Sink {
    /// The bytes that were written, in their order, where the sink tells them.
    ghost written: { Self → Option (List ℕ) };

    /// How often it has failed. The count stays at its greatest value.
    ghost faults: { Self → ℕ };

    /// How many writes took nothing of a piece that has bytes. The count stays at its greatest value.
    ghost idle: { Self → ℕ };

    /// Whether the last call was a `finish` that was Ok.
    ghost finished: { Self → Bool };

    /// Takes a prefix of the piece and answers how many bytes that is, from none to all of them. The
    /// sink is not finished then. `idle` rises by one where it takes none of a piece that has bytes,
    /// and in no other case.
    ///
    /// `Failed`: the sink failed in this call. `faults` rises then, and in no other case. A prefix of
    /// the piece may be written then too.
    fn write(&mut self, piece: &[u8]) -> Result<usize, Failed>
        ensures bound { IfOk result (λ n. n ≤ length piece.now) }
        ensures bytes { Takes (written self.old) (written self.new) result piece.now }
        ensures cause { HasCause (is_err result) (faults self.old) (faults self.new) }
        ensures idle { TookNothing (idle self.old) (idle self.new) result (length piece.now) }
        ensures unfinished { finished self.new ≡ false };

    /// Hands on all that was written. The bytes that are told and `idle` stay as they were.
    ///
    /// `Failed`: the sink failed in this call. `faults` rises then, and in no other case. The sink is
    /// finished where the call is Ok, and only there.
    fn finish(&mut self) -> Result<(), Failed>
        ensures written { written self.new ≡ written self.old }
        ensures cause { HasCause (is_err result) (faults self.old) (faults self.new) }
        ensures idle { idle self.new ≡ idle self.old }
        ensures finished { finished self.new ≡ is_ok result };
}

/// Why not all bytes were written.
#[derive(Clone, Copy, Debug, PartialEq, Eq)]
pub enum WriteFault {
    /// A write failed.
    Failed,
    /// A write took nothing of the bytes that were left.
    TookNothing,
}

/// Writes all the bytes, in as many pieces as the sink takes them. Takes no memory. Where there are no
/// bytes it asks the sink nothing and is Ok; else the sink is not finished from then on.
///
/// Where it answers a fault, a prefix of the bytes was written, which may be none or all of them.
/// `Failed`: a write failed. The sink's `faults` rises then, and in no other case.
/// `TookNothing`: a write took nothing. The sink's `idle` rises then, and in no other case.
pub fn write_all<O: Sink>(sink: &mut O, bytes: &[u8]) -> Result<(), WriteFault>
    ensures ok { OnOk result (Appends (O.written sink.old) (O.written sink.new) bytes.now) }
    ensures prefix { AppendsPrefix (O.written sink.old) (O.written sink.new) bytes.now }
    ensures cause { HasCause (is_failed result) (O.faults sink.old) (O.faults sink.new) }
    ensures idle { HasCause (is_idle result) (O.idle sink.old) (O.idle sink.new) }
    ensures unfinished { 0 < length bytes.now → O.finished sink.new ≡ false }
    ensures no_bytes { length bytes.now ≡ 0 → IsOk result × (sink.new ≡ sink.old) }
{
    let mut at = 0;
    'pieces: while at < bytes.len() {
        match sink.write(&bytes[at..]) {
            Ok(0) => return Err(WriteFault::TookNothing),
            Ok(count) => at += count,
            Err(Failed) => return Err(WriteFault::Failed),
        }
    }
    Ok(())
}

#[cfg(test)]
mod tests {
    use super::*;
    use crate::MemSink;
    use std::alloc::Global;
    use std::process::Abort;
    use std::test::Fail;

    // A case has the most bytes of a write, the room, the call that fails, the answer to writing
    // `abc`, and what was written.
    fn each_answers(
        rt: &impl Abort,
        alloc: Global,
        cases: &[(usize, usize, u64, Result<(), WriteFault>, &[u8])],
    ) -> Result<(), Fail> {
        for (most, room, fails, answer, written) in cases {
            let mut sink = MemSink::in_pieces(alloc, *most, *room, vec![in alloc; *fails]?)?;
            assert!(rt; write_all(&mut sink, b"abc") == *answer);
            assert!(rt; sink.written() == *written);
        }
        Ok(())
    }

    #[test]
    fn writes_all_or_a_prefix(rt: HostRuntime) -> Result<(), Fail> {
        each_answers(
            &rt,
            rt.alloc(),
            &[
                (usize::MAX, 3, 0, Ok(()), b"abc"),
                (1, 3, 0, Ok(()), b"abc"),
                (2, 4, 0, Ok(()), b"abc"),
                (1, 2, 0, Err(WriteFault::TookNothing), b"ab"),
                (0, 3, 0, Err(WriteFault::TookNothing), b""),
                (1, 3, 1, Err(WriteFault::Failed), b""),
                (1, 3, 2, Err(WriteFault::Failed), b"a"),
                (1, 3, 3, Err(WriteFault::Failed), b"ab"),
            ],
        )
    }

    #[test]
    fn a_sink_in_memory_ends(rt: HostRuntime) -> Result<(), Fail> {
        let mut sink = MemSink::new(rt.alloc(), 1, Vec::new(rt.alloc()))?;
        assert_eq!(rt; sink.finish(), Ok(()));
        Ok(())
    }
}
