ghost use Rattle.std.specs.Prelude.{◌≡◌, ◌≤◌, ◌<◌, ℕ, List, Option, length, take, OnOk, OnErr};
ghost use Rattle.dl_io.specs.Causes.{Rose};
ghost use Rattle.dl_io.specs.Writing.{Appends, AppendsFront, Writes, FailsOnlyWhere};

/// What a write did: it took so many bytes, or failed.
#[derive(Clone, Copy, Debug, PartialEq, Eq)]
pub enum Put {
    Took(usize),
    Failed,
}

/// A write failed.
#[derive(Clone, Copy, Debug, PartialEq, Eq)]
pub struct WriteFault;

/// Where bytes are written.
pub trait Sink {
    /// The bytes written so far, where they are told.
    ghost written: { Self → Option (List ℕ) };

    /// How often it has failed; at the last value of its counter the count stands still.
    ghost faults: { Self → ℕ };

    /// Writes a front of the piece: at least one byte of a piece that isn't empty. A failed write changes nothing that is told.
    fn write(&mut self, piece: &[u8]) -> Put
        ensures writes { Writes result piece.now (written self.old) (written self.new) }
        ensures later { faults self.old ≤ faults self.new }
        ensures failed { FailsOnlyWhere result (Rose (faults self.old) (faults self.new)) };
}

/// Writes all the bytes, or a front of them and then a fault. It takes no memory.
pub fn write_all<K: Sink>(sink: &mut K, bytes: &[u8]) -> Result<(), WriteFault>
    ensures ok { OnOk result (Appends (K.written sink.old) (K.written sink.new) bytes.now) }
    ensures front { AppendsFront (K.written sink.old) (K.written sink.new) bytes.now }
    ensures later { K.faults sink.old ≤ K.faults sink.new }
    ensures failed { OnErr result (Rose (K.faults sink.old) (K.faults sink.new)) }
{
    let mut at = 0;
    while at < bytes.len() {
        match sink.write(&bytes[at..]) {
            Put::Took(count) => at += count,
            Put::Failed => return Err(WriteFault),
        }
    }
    Ok(())
}

#[cfg(test)]
mod tests {
    use super::*;
    use crate::memory_sink::MemorySink;
    use std::alloc::Global;
    use std::test::Fail;

    /// Takes one byte a call.
    #[derive(Drop)]
    struct Dripping {
        inner: MemorySink,
    }

    impl Sink for Dripping {
        ghost use Rattle.std.specs.Prelude.{Some};

        ghost written = { λ s. Some s.inner.written };

        ghost faults = { λ s. s.inner.faults };

        fn write(&mut self, piece: &[u8]) -> Put {
            self.inner.write(&piece[..piece.len().min(1)])
        }
    }

    fn byte_by_byte(alloc: Global, capacity: usize, failing: &[u64]) -> Result<Dripping, Fail> {
        let inner = MemorySink::new(alloc, capacity, Vec::from_slice(alloc, failing)?)?;
        Ok(Dripping { inner })
    }

    // A sink that holds it all, one that fills up, and one whose third write fails.
    #[test]
    fn all_is_written_byte_by_byte_or_a_front(rt: HostRuntime) -> Result<(), Fail> {
        let alloc = rt.alloc();
        for (place, (capacity, failing, want, held)) in [
            (9, [9], Ok(()), "abcdef"),
            (4, [9], Err(WriteFault), "abcd"),
            (9, [2], Err(WriteFault), "ab"),
        ]
        .into_iter()
        .enumerate()
        {
            let mut sink = byte_by_byte(alloc, capacity, &failing)?;
            assert_eq!(rt; write_all(&mut sink, b"abcdef"), want, "sink {place}");
            assert_eq!(rt; sink.inner.bytes(), held.as_bytes(), "sink {place}");
        }
        Ok(())
    }
}
