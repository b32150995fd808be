ghost use Rattle.std.specs.Prelude.{◌≡◌, ◌≤◌, ◌<◌, None, Err, IfOk, IfSome, length};
ghost use Rattle.dl_io.specs.Causes.{Rose};
ghost use Rattle.dl_io.specs.declared.files.FilesRefusal.TheVariants as refusal;

use crate::files::{Files, FilesRefusal};
use std::alloc::Global;
use std::io::{ErrorKind, Read};
use std::{fs, rt};

/// The files of the system. What they hold is not told.
#[derive(Drop)]
pub struct StdFiles<'r, R> {
    rt: &'r R,
    faults: u64,
}

impl<'r, R: rt::Files> StdFiles<'r, R> {
    /// The files that the runtime reaches, without a fault so far.
    pub fn new(rt: &'r R) -> StdFiles<'r, R>
        ensures { ⟦<StdFiles<'r, R> as Files>⟧.faults result ≡ 0 }
    {
        StdFiles { rt, faults: 0 }
    }

    fn fail(&mut self) -> FilesRefusal
        ensures failed { result ≡ refusal.Failed }
        ensures later { self.old.faults ≤ self.new.faults }
        ensures rose { Rose self.old.faults self.new.faults }
    {
        self.faults = self.faults.saturating_add(1);
        FilesRefusal::Failed
    }
}

impl<'r, R: rt::Files> Files for StdFiles<'r, R> {
    ghost contents = { λ s. None };

    ghost faults = { λ s. s.faults };

    fn read(&mut self, alloc: Global, name: &str, limit: usize) -> Result<Vec<u8>, FilesRefusal> {
        match fs::open(self.rt, name) {
            Ok(mut file) => match read_within(alloc, &mut file, limit) {
                Ok(bytes) => Ok(bytes),
                Err(FilesRefusal::Failed) => Err(self.fail()),
                Err(refusal) => Err(refusal),
            },
            Err(error) => match error.kind() {
                ErrorKind::NotFound | ErrorKind::NotADirectory => Err(FilesRefusal::Missing),
                ErrorKind::OutOfMemory => Err(FilesRefusal::OutOfMemory),
                _ => Err(self.fail()),
            },
        }
    }
}

/// All bytes of the reader where they are at most `limit`; of more, at most one byte past the limit is read.
fn read_within<R: Read>(
    alloc: Global,
    reader: &mut R,
    limit: usize,
) -> Result<Vec<u8>, FilesRefusal>
    ensures within { IfOk result (λ bytes. length bytes.items ≤ limit) }
    ensures whole { IfOk result (λ bytes. IfSome (R.remaining reader.old) (λ rest. bytes.items ≡ rest)) }
    ensures long { result ≡ Err refusal.TooLong → IfSome (R.remaining reader.old) (λ rest. limit < length rest) }
{
    let mut bytes = Vec::new(alloc);
    let mut buffer = [0u8; 65536];
    'reading: for _ in 0..u64::MAX {
        let most = buffer.len().min((limit - bytes.len()).saturating_add(1));
        match reader.read(&mut buffer[..most]) {
            Ok(0) => return Ok(bytes),
            Ok(count) if count > limit - bytes.len() => return Err(FilesRefusal::TooLong),
            Ok(count) => match bytes.extend_from_slice(&buffer[..count]) {
                Ok(()) => {}
                Err(_) => return Err(FilesRefusal::OutOfMemory),
            },
            Err(error) => match error.kind() {
                ErrorKind::Interrupted => {}
                _ => return Err(FilesRefusal::Failed),
            },
        }
    }
    Err(FilesRefusal::Failed)
}

#[cfg(test)]
mod tests {
    use super::*;
    use crate::sinks::write_all;
    use crate::std_sink::StdSink;
    use std::io;
    use std::test::Fail;

    /// Gives its pieces in turn: `None` is interrupted, and an empty one is a fault.
    #[derive(Drop)]
    struct Giving<'a> {
        pieces: &'a [Option<&'a [u8]>],
        at: usize,
    }

    impl<'a> Read for Giving<'a> {
        fn read(&mut self, buffer: &mut [u8]) -> io::Result<usize> {
            let Some(given) = self.pieces.get(self.at) else {
                return Ok(0);
            };
            self.at = self.at.saturating_add(1);
            match given {
                None => Err(io::Error::from(ErrorKind::Interrupted)),
                Some([]) => Err(io::Error::from(ErrorKind::BrokenPipe)),
                Some(piece) => {
                    let count = piece.len().min(buffer.len());
                    buffer[..count].copy_from_slice(&piece[..count]);
                    Ok(count)
                }
            }
        }
    }

    #[test]
    fn a_reader_is_read_to_its_end_or_its_fault(rt: HostRuntime) -> Result<(), Fail> {
        let alloc = rt.alloc();
        let whole: &[Option<&[u8]>] = &[Some(b"ab"), None, Some(b"c")];
        let faulty: &[Option<&[u8]>] = &[Some(b"ab"), Some(b""), Some(b"c")];
        for (place, (pieces, limit, want)) in [
            (whole, 3, Ok("abc")),
            (whole, 2, Err(FilesRefusal::TooLong)),
            (faulty, 9, Err(FilesRefusal::Failed)),
        ]
        .into_iter()
        .enumerate()
        {
            let told = match (
                read_within(alloc, &mut Giving { pieces, at: 0 }, limit),
                want,
            ) {
                (Ok(bytes), Ok(text)) => bytes.as_slice() == text.as_bytes(),
                (Err(refusal), Err(other)) => refusal == other,
                _ => false,
            };
            assert!(rt; told, "reader {place}");
        }
        Ok(())
    }

    // What was written to a file is read from it.
    #[test]
    fn files_of_the_system_are_written_and_read(rt: HostRuntime) -> Result<(), Fail> {
        let alloc = rt.alloc();
        let name = "dl_io_test_file";
        let mut sink = StdSink::new(fs::create(&rt, name)?);
        assert_eq!(rt; write_all(&mut sink, b"a few bytes"), Ok(()));
        let mut files = StdFiles::new(&rt);
        let short = files.read(alloc, name, 10).err();
        let whole = files.read(alloc, name, 11);
        fs::remove_file(&rt, name)?;
        assert_eq!(rt; short, Some(FilesRefusal::TooLong));
        assert_eq!(rt; whole?.as_slice(), b"a few bytes".as_slice());
        assert_eq!(rt;
            files.read(alloc, name, 11).err(),
            Some(FilesRefusal::Missing)
        );
        Ok(())
    }
}
