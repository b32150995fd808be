ghost use Rattle.std.specs.Prelude.{◌≡◌, map, string_bytes};
ghost use Rattle.std.specs.Option.{option_copied};
ghost use Rattle.dl_io.specs.Memory.{content_of, seen};

use crate::files::{Files, FilesRefusal};
use std::alloc::Global;
use std::marker::Model;

/// Files in memory: names with contents. Of two with one name the first counts.
#[derive(Drop)]
pub struct MemoryFiles {
    files: Vec<(String, Vec<u8>)>,
    failing: Vec<u64>,
    calls: u64,
    faults: u64,
}

impl Model for MemoryFiles {
    ghost use Rattle.std.specs.Prelude.{map};
    ghost use Rattle.dl_io.specs.Memory.{FilesState, seen};

    ghost Value = { FilesState };

    ghost view = { λ f. record { files = map seen f.files.items; failing = f.failing.items; calls = f.calls; faults = f.faults } };
}

impl MemoryFiles {
    /// These files. `failing` lists the reads that are to fail, counted from 0.
    pub fn new(files: Vec<(String, Vec<u8>)>, failing: Vec<u64>) -> MemoryFiles
        ensures { result ≡ record { files = map seen files.items; failing = failing.items; calls = 0; faults = 0 } }
    {
        MemoryFiles {
            files,
            failing,
            calls: 0,
            faults: 0,
        }
    }
}

impl Files for MemoryFiles {
    ghost use Rattle.std.specs.Prelude.{Some};

    ghost contents = { λ f. Some (content_of f.files) };

    ghost faults = { λ f. f.faults };

    fn read(&mut self, alloc: Global, name: &str, limit: usize) -> Result<Vec<u8>, FilesRefusal> {
        let call = self.calls;
        self.calls = self.calls.saturating_add(1);
        if self.failing.contains(&call) {
            self.faults = self.faults.saturating_add(1);
            return Err(FilesRefusal::Failed);
        }
        match find(self.files.as_slice(), name) {
            Some(bytes) if bytes.len() > limit => Err(FilesRefusal::TooLong),
            Some(bytes) => match Vec::from_slice(alloc, bytes) {
                Ok(copy) => Ok(copy),
                Err(_) => Err(FilesRefusal::OutOfMemory),
            },
            None => Err(FilesRefusal::Missing),
        }
    }
}

/// The content of the first file of this name.
fn find<'f>(files: &'f [(String, Vec<u8>)], name: &str) -> Option<&'f [u8]>
    ensures { option_copied result ≡ content_of (map seen files.now) name.now }
{
    for file in files {
        if file.0.as_str() == name {
            return Some(file.1.as_slice());
        }
    }
    None
}

#[cfg(test)]
mod tests {
    use super::*;
    use std::test::Fail;

    fn files(alloc: Global, failing: &[u64]) -> Result<MemoryFiles, Fail> {
        let mut files = Vec::new(alloc);
        for (name, text) in [("a", "12345"), ("b", ""), ("a", "other")] {
            let name = String::from_str(alloc, name)?;
            files.push((name, Vec::from_slice(alloc, text.as_bytes())?))?;
        }
        Ok(MemoryFiles::new(files, Vec::from_slice(alloc, failing)?))
    }

    // The third read fails, and the fourth reads the same file.
    #[test]
    fn files_in_memory_are_read(rt: HostRuntime) -> Result<(), Fail> {
        let alloc = rt.alloc();
        let mut files = files(alloc, &[2])?;
        for (place, (name, limit, want)) in [
            ("a", 5, Ok("12345")),
            ("a", 4, Err(FilesRefusal::TooLong)),
            ("a", 5, Err(FilesRefusal::Failed)),
            ("a", 6, Ok("12345")),
            ("b", 0, Ok("")),
            ("c", 9, Err(FilesRefusal::Missing)),
        ]
        .into_iter()
        .enumerate()
        {
            let told = match (files.read(alloc, name, limit), want) {
                (Ok(bytes), Ok(text)) => bytes.as_slice() == text.as_bytes(),
                (Err(refusal), Err(other)) => refusal == other,
                _ => false,
            };
            assert!(rt; told, "read {place}");
        }
        Ok(())
    }
}
