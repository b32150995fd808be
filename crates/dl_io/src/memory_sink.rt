ghost use Rattle.std.specs.Prelude.{◌≡◌, ◌≤◌, [], IfOk, length};

use crate::sinks::{Put, Sink};
use std::alloc::{AllocError, Global};
use std::marker::Model;

/// A sink in memory of a fixed capacity. A write takes as many bytes of the piece as fit; where none fits it fails.
#[derive(Drop)]
pub struct MemorySink {
    bytes: Vec<u8>,
    capacity: usize,
    failing: Vec<u64>,
    calls: u64,
    faults: u64,
}

impl Model for MemorySink {
    ghost use Rattle.std.specs.Prelude.{◌≤◌, length, vec_capacity};
    ghost use Rattle.dl_io.specs.Memory.{SinkState};

    ghost Value = { SinkState };

    ghost view = { λ s. record { written = s.bytes.items; capacity = s.capacity; failing = s.failing.items; calls = s.calls; faults = s.faults } };

    ghost invariant = { λ s. length s.bytes.items ≤ s.capacity };
}

impl MemorySink {
    /// A sink for so many bytes. `failing` lists the writes that are to fail, counted from 0.
    pub fn new(alloc: Global, capacity: usize, failing: Vec<u64>) -> Result<MemorySink, AllocError>
        ensures { IfOk result (λ sink. sink ≡ record { written = []; capacity = capacity; failing = failing.items; calls = 0; faults = 0 }) }
    {
        Ok(MemorySink {
            bytes: Vec::with_capacity(alloc, capacity)?,
            capacity,
            failing,
            calls: 0,
            faults: 0,
        })
    }

    /// The bytes written so far.
    pub fn bytes(&self) -> &[u8]
        ensures { result.now ≡ self.now.written }
    {
        self.bytes.as_slice()
    }
}

impl Sink for MemorySink {
    ghost use Rattle.std.specs.Prelude.{Some};

    ghost written = { λ s. Some s.written };

    ghost faults = { λ s. s.faults };

    fn write(&mut self, piece: &[u8]) -> Put {
        let call = self.calls;
        self.calls = self.calls.saturating_add(1);
        let count = piece.len().min(self.capacity - self.bytes.len());
        let fits = count > 0 || piece.is_empty();
        if fits && !self.failing.contains(&call) {
            if let Ok(()) = self.bytes.extend_from_slice(&piece[..count]) {
                return Put::Took(count);
            }
        }
        self.faults = self.faults.saturating_add(1);
        Put::Failed
    }
}

#[cfg(test)]
mod tests {
    use super::*;
    use std::test::Fail;

    // The second write fails, and later ones fill the sink.
    #[test]
    fn a_sink_in_memory_fills_up(rt: HostRuntime) -> Result<(), Fail> {
        let alloc = rt.alloc();
        let mut sink = MemorySink::new(alloc, 5, Vec::from_slice(alloc, &[1])?)?;
        for (place, (piece, want)) in [
            ("abc", Put::Took(3)),
            ("d", Put::Failed),
            ("", Put::Took(0)),
            ("efg", Put::Took(2)),
            ("g", Put::Failed),
            ("", Put::Took(0)),
        ]
        .into_iter()
        .enumerate()
        {
            assert_eq!(rt; sink.write(piece.as_bytes()), want, "write {place}");
        }
        assert_eq!(rt; sink.bytes(), b"abcef".as_slice());
        Ok(())
    }
}
