ghost use Rattle.std.specs.Prelude.{◌≡◌, None};

use crate::{Failed, Source};
use std::io::{Input, Read};

/// The standard input, of which no bytes are told.
#[derive(Drop)]
pub struct StdSource<I> {
    input: I,
    faults: u64,
}

impl<I: Read + Drop> StdSource<I> {
    /// Reads the standard input of the runtime. The source has not failed yet.
    pub fn new<R: Input<Reader = I>>(rt: &R) -> StdSource<I>
        ensures { ⟦<StdSource<I> as Source>⟧.faults result ≡ 0 }
    {
        StdSource {
            input: rt.reader(),
            faults: 0,
        }
    }
}

impl<I: Read> Source for StdSource<I> {
    ghost left = { λ _. None };

    ghost faults = { λ s. s.faults };

    fn read(&mut self, out: &mut [u8]) -> Result<usize, Failed> {
        match self.input.read(out) {
            Ok(count) => Ok(count),
            Err(_) => {
                self.faults = self.faults.saturating_add(1);
                Err(Failed)
            }
        }
    }
}

#[cfg(test)]
mod tests {
    use super::*;

    #[test]
    fn reads_nothing_into_no_room(rt: HostRuntime) {
        let mut source = StdSource::new(&rt);
        assert_eq!(rt; source.read(&mut []), Ok(0));
    }
}
