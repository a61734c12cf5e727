ghost use Rattle.std.specs.Prelude.{◌≡◌, None, false};

use crate::{Failed, Sink};
use std::io::Print;

/// The standard output, of which no bytes are told.
#[derive(Drop)]
pub struct StdSink<P> {
    out: P,
    faults: u64,
    idle: u64,
    finished: bool,
}

impl<P: Print> StdSink<P> {
    /// Prints to `out`: the runtime, or its standard output. The sink has not failed yet, counts no
    /// idle write, and is not finished.
    pub fn new(out: P) -> StdSink<P>
        ensures faults { ⟦<StdSink<P> as Sink>⟧.faults result ≡ 0 }
        ensures idle { ⟦<StdSink<P> as Sink>⟧.idle result ≡ 0 }
        ensures finished { ⟦<StdSink<P> as Sink>⟧.finished result ≡ false }
    {
        StdSink {
            out,
            faults: 0,
            idle: 0,
            finished: false,
        }
    }
}

impl<P: Print> Sink for StdSink<P> {
    ghost written = { λ _. None };

    ghost faults = { λ s. s.faults };

    ghost idle = { λ s. s.idle };

    ghost finished = { λ s. s.finished };

    fn write(&mut self, piece: &[u8]) -> Result<usize, Failed> {
        self.finished = false;
        match self.out.write_some(piece) {
            Ok(0) if !piece.is_empty() => {
                self.idle = self.idle.saturating_add(1);
                Ok(0)
            }
            Ok(count) => Ok(count),
            Err(_) => {
                self.faults = self.faults.saturating_add(1);
                Err(Failed)
            }
        }
    }

    // Each write reaches the system at once, so there is nothing to hand on.
    fn finish(&mut self) -> Result<(), Failed> {
        self.finished = true;
        Ok(())
    }
}

#[cfg(test)]
mod tests {
    use super::*;
    use crate::write_all;
    use std::test::Fail;

    #[test]
    fn prints(rt: HostRuntime) -> Result<(), Fail> {
        let mut sink = StdSink::new(rt.stdout());
        assert_eq!(rt; sink.write(b""), Ok(0));
        write_all(&mut sink, b"printed\n")?;
        assert_eq!(rt; sink.finish(), Ok(()));
        Ok(())
    }
}
