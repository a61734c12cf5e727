ghost use Rattle.std.specs.Prelude.{◌≡◌, ◌≢◌, ◌≤◌, ◌<◌, ◌++◌, ◌∷◌, ◌⊎◌, [], length, take, vec_len, IfOk, IfErr, OnOk, OnErr, is_err, MatchOption};
ghost use Rattle.std.specs.Io.KnownBytes.{Keeps, Consumes, IsAtEnd};
ghost use Rattle.dbe_io.specs.Causes.{HasCause};
ghost use Rattle.dbe_io.specs.Faults.{is_read};
ghost use Rattle.dbe_io.specs.Lines.{first_piece};
ghost use Rattle.dbe_io.specs.Steps.{EndsAt, Gave};

use crate::{LineFault, Source};
use dbe_num::Memory;
use memchr::memchr;
use std::alloc::Global;
use std::marker::Model;
use std::mem;

const NEWLINE: u8 = b'\n';

/// How many bytes are read at once.
const BLOCK: usize = 65536;

/// Bytes that were taken and not yet given.
#[derive(Drop)]
pub(crate) struct Held {
    partial: Vec<u8>,
    block: Vec<u8>,
    start: usize,
    end: usize,
    alloc: Global,
}

impl Model for Held {
    ghost use Rattle.std.specs.Prelude.{List, ℕ};

    ghost Value = { List ℕ };

    ghost use Rattle.dbe_io.specs.Held.{held_bytes, IsHeld};

    ghost view = { held_bytes };

    ghost invariant = { IsHeld };
}

impl Held {
    pub(crate) fn new(alloc: Global) -> Result<Held, Memory>
        ensures { IfOk result (λ held. held ≡ []) }
    {
        Ok(Held {
            partial: Vec::new(alloc),
            block: block_of(alloc, BLOCK)?,
            start: 0,
            end: 0,
            alloc,
        })
    }

    pub(crate) fn len(&self) -> usize
        ensures { result ≡ length self.now }
    {
        self.partial.len() + (self.end - self.start)
    }

    /// Where the first newline is.
    pub(crate) fn newline(&self) -> Option<usize>
        ensures { MatchOption result (first_piece self.now ≡ self.now) (EndsAt self.now) }
    {
        match memchr(NEWLINE, &self.block[self.start..self.end]) {
            None => None,
            Some(at) => Some(self.partial.len() + at),
        }
    }

    /// The bytes before the first newline, which goes with them.
    pub(crate) fn take_line(&mut self, at: usize) -> Result<Vec<u8>, Memory>
        requires { EndsAt self.old at }
        ensures ok { IfOk result (λ line. self.old ≡ line.items ++ 10 ∷ self.new) }
        ensures line { IfOk result (λ line. line.items ≡ first_piece self.old) }
        ensures err { OnErr result (self.new ≡ self.old) }
    {
        let end = self.start + (at - self.partial.len());
        let line = joined(self.alloc, &mut self.partial, &self.block[self.start..end])?;
        self.start = end + 1;
        Ok(line)
    }

    /// All the bytes.
    pub(crate) fn take_all(&mut self) -> Result<Vec<u8>, Memory>
        ensures ok { IfOk result (λ all. all.items ≡ self.old) }
        ensures empty { OnOk result (self.new ≡ []) }
        ensures err { OnErr result (self.new ≡ self.old) }
    {
        let all = joined(
            self.alloc,
            &mut self.partial,
            &self.block[self.start..self.end],
        )?;
        self.start = self.end;
        Ok(all)
    }

    /// Moves at most `most` bytes from the source to the end of these.
    pub(crate) fn refill<S: Source>(
        &mut self,
        most: usize,
        source: &mut S,
    ) -> Result<usize, LineFault>
        requires some { 0 < most }
        requires searched { first_piece self.old ≡ self.old }
        ensures gave { IfOk result (Gave self.old self.new (S.left source.old) (S.left source.new)) }
        ensures most { IfOk result (λ count. count ≤ most) }
        ensures same { OnErr result (self.new ≡ self.old) }
        ensures kept { OnErr result (Keeps (S.left source.old) (S.left source.new)) }
        ensures cause { HasCause (is_read result) (S.faults source.old) (S.faults source.new) }
        ensures causes { IfErr result (λ fault. (fault ≡ LineFault.Memory) ⊎ (fault ≡ LineFault.Read)) }
    {
        if self
            .partial
            .extend_from_slice(&self.block[self.start..self.end])
            .is_err()
        {
            return Err(LineFault::Memory);
        }
        self.start = 0;
        self.end = 0;
        let Ok(count) = fill(&mut self.block, most, source) else {
            return Err(LineFault::Read);
        };
        self.end = count;
        Ok(count)
    }
}

// Room for some bytes.
fn block_of(alloc: Global, room: usize) -> Result<Vec<u8>, Memory>
    requires { 0 < room }
    ensures { IfOk result (λ block. 0 < length block.items) }
{
    Ok(Vec::from_elem(alloc, 0u8, room)?)
}

// What was partial and more, in one piece. What was partial is then empty.
fn joined(alloc: Global, partial: &mut Vec<u8>, more: &[u8]) -> Result<Vec<u8>, Memory>
    ensures ok { IfOk result (λ all. all.items ≡ partial.old.items ++ more.now) }
    ensures empty { OnOk result (partial.new.items ≡ []) }
    ensures err { OnErr result (partial.new.items ≡ partial.old.items) }
{
    if partial.is_empty() {
        return Ok(Vec::from_slice(alloc, more)?);
    }
    partial.extend_from_slice(more)?;
    Ok(mem::replace(partial, Vec::new(alloc)))
}

// Reads at most `most` bytes to the front of the block.
fn fill<S: Source>(block: &mut [u8], most: usize, source: &mut S) -> Result<usize, crate::Failed>
    requires some { 0 < most }
    requires room { 0 < length block.old }
    ensures within { IfOk result (λ count. count ≤ length block.new) }
    ensures most { IfOk result (λ count. count ≤ most) }
    ensures bytes { IfOk result (λ count. Consumes (S.left source.old) (S.left source.new) (take count block.new)) }
    ensures end { IfOk result (λ count. count ≡ 0 → IsAtEnd (S.left source.new)) }
    ensures kept { OnErr result (Keeps (S.left source.old) (S.left source.new)) }
    ensures cause { HasCause (is_err result) (S.faults source.old) (S.faults source.new) }
{
    let room = block.len().min(most);
    source.read(&mut block[..room])
}
