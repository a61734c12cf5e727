ghost use Rattle.std.specs.Prelude.{◌≡◌, ◌≢◌, ◌≤◌, ◌+◌, ◌<◌, ◌⊎◌, ◌++◌, ◌∷◌, [], length, true, false, Ok, IfOk, IfErr, OnOk, OnErr, OnSome, IfSome, IfNone, Some, None, MatchOption};
ghost use Rattle.std.specs.Io.KnownBytes.{IsAtEnd, Keeps};
ghost use Rattle.dbe_io.specs.Causes.{HasCause};
ghost use Rattle.dbe_io.specs.Faults.{is_read};
ghost use Rattle.dbe_io.specs.Lines.{first_piece, HasNone};
ghost use Rattle.dbe_io.specs.Reading.{NeedsNoBytes, Given, IsLineReaderState, Stops, IsCause, fails_to_read, budget, most_of};
ghost use Rattle.dbe_io.specs.Steps.{IsLineAt, IsOpen, Took, Refused, reads_left};

use crate::Source;
use crate::held::Held;
use dbe_num::Memory;
use std::alloc::Global;
use std::marker::Model;

/// Why a line was not given. The limits are those that the reader was made with.
#[derive(Clone, Copy, Debug, PartialEq, Eq)]
pub enum LineFault {
    /// Memory ran out.
    Memory,
    /// The source failed, and the bytes that were taken and not yet given hold no newline and neither
    /// of the causes below.
    Read,
    /// The line has more than `limit` bytes, of which the first `limit + 1` are among the first
    /// `total` bytes of the source.
    LineTooLong,
    /// The line is not `LineTooLong`, it does not end within the first `total` bytes of the source, its
    /// newline included, and more bytes follow them.
    TooMuch,
}

/// The lines of a source, each within a limit, and all within a total.
///
/// Contracts see the record `LineReaderState`.
#[derive(Drop)]
pub struct LineReader {
    limit: usize,
    total: u64,
    given: u64,
    held: Held,
    ended: bool,
    fault: Option<LineFault>,
}

impl Model for LineReader {
    ghost use Rattle.dbe_io.specs.Reading.{LineReaderState, IsLineReaderState};

    ghost Value = { LineReaderState };

    ghost use Rattle.std.specs.Prelude.{◌+◌, length};

    ghost view = { λ r. record { limit = r.limit; total = r.total; held = r.held; taken = r.given + length r.held; ended = r.ended; fault = r.fault } };

    ghost invariant = { λ r. IsLineReaderState (record { limit = r.limit; total = r.total; held = r.held; taken = r.given + length r.held; ended = r.ended; fault = r.fault }) };
}

impl LineReader {
    /// A reader of lines of at most `limit` bytes, without their newlines, among the first `total`
    /// bytes of a source. It takes at most one byte past them. Both may be 0.
    ///
    /// `Memory`: the room for a block of 65,536 bytes could not be had.
    pub fn new(alloc: Global, limit: usize, total: u64) -> Result<LineReader, Memory>
        ensures { IfOk result (λ r. r ≡ record { limit = limit; total = total; held = []; taken = 0; ended = false; fault = None }) }
    {
        Ok(LineReader {
            limit,
            total,
            given: 0,
            held: Held::new(alloc)?,
            ended: false,
            fault: None,
        })
    }

    /// The next line without its newline, and none at the end of the source. A last piece without a
    /// newline is a line. The source is asked only where no whole line is held when the call begins,
    /// and not again at its end or after a fault.
    ///
    /// Each fault has the cause that `LineFault` names. What was taken of the source stays held then,
    /// and each later call answers the same fault, `Memory` too. The source's `faults` rises where
    /// `Read` is answered for the first time, and in no other case.
    pub fn next<S: Source>(&mut self, source: &mut S) -> Result<Option<Vec<u8>>, LineFault>
        ensures line { IfOk result (Given self.old self.new (S.left source.old) (S.left source.new)) }
        ensures stop { IfErr result (Stops self.old self.new (S.left source.old) (S.left source.new)) }
        ensures shrinks { IfOk result (λ line. OnSome line (budget self.new < budget self.old)) }
        ensures cause { HasCause (fails_to_read self.old result) (S.faults source.old) (S.faults source.new) }
        ensures ended { self.old.ended ≡ true → (result ≡ Ok None) × (self.new ≡ self.old) }
        ensures unasked { NeedsNoBytes self.old → source.new ≡ source.old }
        ensures within { IsLineReaderState self.new }
    {
        if let Some(fault) = self.fault {
            return Err(fault);
        }
        if self.ended {
            return Ok(None);
        }
        match self.seek(source) {
            Ok(line) => Ok(line),
            Err(fault) => {
                self.fault = Some(fault);
                Err(fault)
            }
        }
    }

    // The next line, read on until it ends.
    fn seek<S: Source>(&mut self, source: &mut S) -> Result<Option<Vec<u8>>, LineFault>
        requires no_fault { self.old.fault ≡ None }
        requires not_ended { self.old.ended ≡ false }
        ensures line { IfOk result (Given self.old self.new (S.left source.old) (S.left source.new)) }
        ensures refused { IfErr result (Refused self.old self.new (S.left source.old) (S.left source.new)) }
        ensures shrinks { IfOk result (λ line. OnSome line (budget self.new < budget self.old)) }
        ensures cause { HasCause (is_read result) (S.faults source.old) (S.faults source.new) }
        ensures unasked { ¬ HasNone 10 self.old.held → source.new ≡ source.old }
    {
        'pieces: loop {
            if let Some(at) = self.newline()? {
                return self.take_line(at);
            }
            match self.refill(source) {
                Ok(false) => {}
                Ok(true) => return self.take_last(),
                Err(fault) => return Err(fault),
            }
        }
    }

    // Where the line that is held ends.
    fn newline(&self) -> Result<Option<usize>, LineFault>
        ensures found { IfOk result (λ place. MatchOption place (IsOpen self.now) (IsLineAt self.now)) }
        ensures cause { IfErr result (IsCause self.now.limit (most_of self.now) self.now.held) }
        ensures not_read { is_read result ≡ false }
        ensures few { length self.now.held ≤ self.now.limit + 1 }
    {
        let most = self.total - self.given;
        let place = self.held.newline();
        let length = place.unwrap_or(self.held.len());
        if self.limit < length && (self.limit as u64) < most {
            return Err(LineFault::LineTooLong);
        }
        if most < length as u64 || (most == length as u64 && place.is_some()) {
            return Err(LineFault::TooMuch);
        }
        Ok(place)
    }

    // The line that ends at a place.
    fn take_line(&mut self, at: usize) -> Result<Option<Vec<u8>>, LineFault>
        requires line { IsLineAt self.old at }
        requires not_ended { self.old.ended ≡ false }
        ensures some { IfOk result (λ line. line ≢ None) }
        ensures line { IfOk result (λ line. IfSome line (λ v. self.old.held ≡ v.items ++ 10 ∷ self.new.held)) }
        ensures first { IfOk result (λ line. IfSome line (λ v. v.items ≡ first_piece self.old.held)) }
        ensures same { OnOk result (self.new ≡ record self.old { held = self.new.held }) }
        ensures err { OnErr result (self.new ≡ self.old) }
        ensures memory { IfErr result (λ fault. fault ≡ LineFault.Memory) }
    {
        let Ok(line) = self.held.take_line(at) else {
            return Err(LineFault::Memory);
        };
        self.given += at as u64 + 1;
        Ok(Some(line))
    }

    // The last piece, where it has bytes, at the end of the source.
    fn take_last(&mut self) -> Result<Option<Vec<u8>>, LineFault>
        requires open { IsOpen self.old }
        requires no_fault { self.old.fault ≡ None }
        ensures none { IfOk result (λ line. IfNone line (self.old.held ≡ [])) }
        ensures some { IfOk result (λ line. IfSome line (λ v. (v.items ≡ self.old.held) × (0 < length v.items))) }
        ensures same { OnOk result (self.new ≡ record self.old { held = []; ended = true }) }
        ensures err { OnErr result (self.new ≡ self.old) }
        ensures memory { IfErr result (λ fault. fault ≡ LineFault.Memory) }
    {
        let length = self.held.len();
        if length == 0 {
            self.ended = true;
            return Ok(None);
        }
        let Ok(line) = self.held.take_all() else {
            return Err(LineFault::Memory);
        };
        self.given += length as u64;
        self.ended = true;
        Ok(Some(line))
    }

    // Reads on, and answers whether the source is at its end. No more is held than one byte past the
    // limit, and no more is taken than one past the total.
    fn refill<S: Source>(&mut self, source: &mut S) -> Result<bool, LineFault>
        requires open { IsOpen self.old }
        requires not_ended { self.old.ended ≡ false }
        ensures took { OnOk result (Took self.old self.new (S.left source.old) (S.left source.new)) }
        ensures end { IfOk result (λ end. end ≡ true → (self.new ≡ self.old) × IsAtEnd (S.left source.new)) }
        ensures fewer { IfOk result (λ end. end ≡ false → reads_left self.new < reads_left self.old) }
        ensures same { OnErr result (self.new ≡ self.old) }
        ensures kept { OnErr result (Keeps (S.left source.old) (S.left source.new)) }
        ensures cause { HasCause (is_read result) (S.faults source.old) (S.faults source.new) }
        ensures causes { IfErr result (λ fault. (fault ≡ LineFault.Memory) ⊎ (fault ≡ LineFault.Read)) }
    {
        let held = self.held.len();
        let spare = (self.total - self.given - held as u64) as usize;
        let most = spare.min(self.limit - held).saturating_add(1);
        let count = self.held.refill(most, source)?;
        Ok(count == 0)
    }
}

#[cfg(test)]
mod tests {
    use super::*;
    use crate::MemSource;
    use std::process::Abort;
    use std::test::Fail;

    // What five calls of a new reader answer.
    fn answers(
        alloc: Global,
        limit: usize,
        total: u64,
        source: &mut MemSource,
    ) -> Result<Vec<u8>, Fail> {
        let mut reader = LineReader::new(alloc, limit, total)?;
        let mut shown = Vec::new(alloc);
        for _ in 0..5u8 {
            match reader.next(source) {
                Ok(Some(line)) => {
                    shown.push(b'<')?;
                    shown.extend_from_slice(&line)?;
                    shown.push(b'>')?;
                }
                Ok(None) => shown.push(b'.')?,
                Err(fault) => shown.push(letter(fault))?,
            }
        }
        Ok(shown)
    }

    fn letter(fault: LineFault) -> u8 {
        match fault {
            LineFault::Memory => b'M',
            LineFault::Read => b'R',
            LineFault::LineTooLong => b'L',
            LineFault::TooMuch => b'T',
        }
    }

    // A case has a limit, a total, the source's bytes and the answers, however the source is cut.
    fn each_answers(
        rt: &impl Abort,
        alloc: Global,
        cases: &[(usize, u64, &[u8], &[u8])],
    ) -> Result<(), Fail> {
        for (limit, total, bytes, wanted) in cases {
            for most in [1, 2, 7, usize::MAX] {
                let bytes = bytes.to_vec(alloc)?;
                let mut source = MemSource::in_pieces(bytes, most, Vec::new(alloc));
                let shown = answers(alloc, *limit, *total, &mut source)?;
                assert_eq!(rt; shown.as_slice(), *wanted);
            }
        }
        Ok(())
    }

    #[test]
    fn lines_are_the_same_however_they_are_cut(rt: HostRuntime) -> Result<(), Fail> {
        each_answers(
            &rt,
            rt.alloc(),
            &[
                (100, 100, b"", b"....."),
                (100, 100, b"a", b"<a>...."),
                (100, 100, b"a\n", b"<a>...."),
                (100, 100, b"\n", b"<>...."),
                (100, 100, b"\n\n", b"<><>..."),
                (
                    100,
                    100,
                    b"a\n\n\0\xff\xc3\nlast",
                    b"<a><><\0\xff\xc3><last>.",
                ),
                (100, 100, b"long line\r\nrest\n", b"<long line\r><rest>..."),
            ],
        )
    }

    #[test]
    fn stops_at_its_limits(rt: HostRuntime) -> Result<(), Fail> {
        each_answers(
            &rt,
            rt.alloc(),
            &[
                (2, 100, b"ab\ncd", b"<ab><cd>..."),
                (2, 100, b"abc\n", b"LLLLL"),
                (2, 100, b"ab\nabc", b"<ab>LLLL"),
                (0, 100, b"\n\na", b"<><>LLL"),
                (9, 3, b"ab\n", b"<ab>...."),
                (9, 3, b"abc", b"<abc>...."),
                (9, 3, b"abc\n", b"TTTTT"),
                (9, 3, b"ab\nc", b"<ab>TTTT"),
                (9, 3, b"abcd", b"TTTTT"),
                (9, 0, b"", b"....."),
                (9, 0, b"\n", b"TTTTT"),
                (2, 3, b"abc", b"LLLLL"),
                (3, 3, b"abcd", b"TTTTT"),
                (2, 4, b"a\nbcd", b"<a>TTTT"),
                (2, 5, b"a\nbcd", b"<a>LLLL"),
            ],
        )
    }

    // A case has the call that fails, of a source that gives a byte a call, and the answers.
    fn each_stays(rt: &impl Abort, alloc: Global, cases: &[(u64, &[u8])]) -> Result<(), Fail> {
        for (call, wanted) in cases {
            let bytes = b"a\nb\n".to_vec(alloc)?;
            let mut source = MemSource::in_pieces(bytes, 1, vec![in alloc; *call]?);
            let shown = answers(alloc, 9, 9, &mut source)?;
            assert_eq!(rt; shown.as_slice(), *wanted);
        }
        Ok(())
    }

    #[test]
    fn a_failed_read_stays(rt: HostRuntime) -> Result<(), Fail> {
        each_stays(
            &rt,
            rt.alloc(),
            &[
                (1, b"RRRRR"),
                (2, b"RRRRR"),
                (3, b"<a>RRRR"),
                (4, b"<a>RRRR"),
                (5, b"<a><b>RRR"),
                (6, b"<a><b>..."),
            ],
        )
    }

    #[test]
    fn a_line_may_be_longer_than_a_block(rt: HostRuntime) -> Result<(), Fail> {
        let mut bytes = vec![in rt.alloc(); b'x'; 131_072]?;
        bytes.extend_from_slice(b"\ny")?;
        let mut source = MemSource::new(bytes, Vec::new(rt.alloc()));
        let mut reader = LineReader::new(rt.alloc(), 200_000, 200_000)?;
        let long = reader.next(&mut source)?.ok_or("no line")?;
        assert_eq!(rt; long.len(), 131_072);
        let last = reader.next(&mut source)?.ok_or("no line")?;
        assert_eq!(rt; last.as_slice(), b"y".as_slice());
        Ok(())
    }
}
