ghost use Rattle.std.specs.Prelude.{◌≡◌, None};

use crate::sinks::{Put, Sink};
use std::io::Write;

/// A writer of std as a sink. What it holds is not told.
#[derive(Drop)]
pub struct StdSink<W> {
    inner: W,
    faults: u64,
}

impl<W: Write> StdSink<W> {
    /// A sink over the writer, without a fault so far.
    pub fn new(inner: W) -> StdSink<W>
        ensures { ⟦<StdSink<W> as Sink>⟧.faults result ≡ 0 }
    {
        StdSink { inner, faults: 0 }
    }
}

impl<W: Write> Sink for StdSink<W> {
    ghost written = { λ s. None };

    ghost faults = { λ s. s.faults };

    fn write(&mut self, piece: &[u8]) -> Put {
        match self.inner.write(piece) {
            Ok(count) if count > 0 || piece.is_empty() => Put::Took(count),
            _ => {
                self.faults = self.faults.saturating_add(1);
                Put::Failed
            }
        }
    }
}

#[cfg(test)]
mod tests {
    use super::*;
    use std::io;

    /// Takes at most so many bytes a call; `None` fails.
    #[derive(Drop)]
    struct Taking {
        most: Option<usize>,
    }

    impl Write for Taking {
        fn write(&mut self, piece: &[u8]) -> io::Result<usize> {
            match self.most {
                Some(most) => Ok(piece.len().min(most)),
                None => Err(io::Error::from(io::ErrorKind::BrokenPipe)),
            }
        }

        fn flush(&mut self) -> io::Result<()> {
            Ok(())
        }
    }

    #[test]
    fn a_writer_that_takes_nothing_has_failed(rt: HostRuntime) {
        for (place, (most, piece, want)) in [
            (Some(2), "abc", Put::Took(2)),
            (Some(0), "abc", Put::Failed),
            (Some(0), "", Put::Took(0)),
            (None, "abc", Put::Failed),
            (None, "", Put::Failed),
        ]
        .into_iter()
        .enumerate()
        {
            let mut sink = StdSink::new(Taking { most });
            assert_eq!(rt; sink.write(piece.as_bytes()), want, "write {place}");
        }
    }
}
