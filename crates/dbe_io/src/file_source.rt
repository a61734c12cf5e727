ghost use Rattle.std.specs.Prelude.{◌≡◌, None};

use crate::{Failed, Source};
use std::fs::Files;
use std::io::{ErrorKind, Read};

/// What became of the opening of a file.
#[derive(Drop)]
enum Opened<F> {
    File(F),
    Empty,
    Failing,
}

/// A file that is read from its front, of which no bytes are told.
#[derive(Drop)]
pub struct FileSource<F> {
    opened: Opened<F>,
    faults: u64,
}

impl<F: Read + Drop> FileSource<F> {
    /// Opens the file of a name for reading. A missing file counts as an empty one where
    /// `absent_is_empty` says so. Of any other file that does not open each read fails, so this call
    /// itself answers no error. The source has not failed yet.
    pub fn new<R: Files<File = F>>(rt: &R, name: &str, absent_is_empty: bool) -> FileSource<F>
        ensures { ⟦<FileSource<F> as Source>⟧.faults result ≡ 0 }
    {
        let opened = match std::fs::open(rt, name) {
            Ok(file) => Opened::File(file),
            Err(e) if absent_is_empty && e.kind() == ErrorKind::NotFound => Opened::Empty,
            Err(_) => Opened::Failing,
        };
        FileSource { opened, faults: 0 }
    }
}

impl<F: Read> Source for FileSource<F> {
    ghost left = { λ _. None };

    ghost faults = { λ s. s.faults };

    fn read(&mut self, out: &mut [u8]) -> Result<usize, Failed> {
        let answer = match &mut self.opened {
            Opened::File(file) => file.read(out).ok(),
            Opened::Empty => Some(0),
            Opened::Failing => None,
        };
        match answer {
            Some(count) => Ok(count),
            None => {
                self.faults = self.faults.saturating_add(1);
                Err(Failed)
            }
        }
    }
}

#[cfg(test)]
mod tests {
    use super::*;
    use std::fs;
    use std::test::Fail;

    #[test]
    fn reads_a_file(rt: HostRuntime) -> Result<(), Fail> {
        fs::write(&rt, "dbe_io.lines", b"a\n\xff")?;
        let mut source = FileSource::new(&rt, "dbe_io.lines", false);
        let mut out = [0; 4];
        assert_eq!(rt; source.read(&mut out)?, 3);
        assert_eq!(rt; out, *b"a\n\xff\0");
        assert_eq!(rt; source.read(&mut out)?, 0);
        fs::remove_file(&rt, "dbe_io.lines")?;
        Ok(())
    }

    #[test]
    fn a_missing_file_is_empty_where_asked(rt: HostRuntime) {
        let mut empty = FileSource::new(&rt, "dbe_io.missing", true);
        let mut failing = FileSource::new(&rt, "dbe_io.missing", false);
        for _ in 0..2u8 {
            assert_eq!(rt; empty.read(&mut [0; 4]), Ok(0));
            assert_eq!(rt; failing.read(&mut [0; 4]), Err(Failed));
        }
        let mut folder_below_none = FileSource::new(&rt, "dbe_io.missing/file", true);
        assert_eq!(rt; folder_below_none.read(&mut [0; 4]), Ok(0));
    }
}
