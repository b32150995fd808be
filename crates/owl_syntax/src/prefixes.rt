ghost use Rattle.std.specs.Prelude.{◌≡◌, ◌++◌, ◌∷◌, [], IfOk};
ghost use Rattle.owl_syntax.specs.Grammar.{has_name};
ghost use Rattle.owl_syntax.specs.Names.{HasSameNames};

use crate::nodes::PrefixLine;
use dl_base::{Name, OutOfMemory};
use std::alloc::Global;
use std::collections::BTreeSet;

/// The `Prefix` lines read so far, and their names, to find a second line of one name.
#[derive(Debug, Drop)]
pub struct Prefixes {
    pub lines: Vec<PrefixLine>,
    pub names: BTreeSet<Name>,
    ghost same: { HasSameNames lines.items names.keys },
}

impl Prefixes {
    pub fn new(alloc: Global) -> Prefixes
        ensures { result.lines.items ≡ [] }
    {
        Prefixes {
            lines: Vec::new(alloc),
            names: BTreeSet::new(alloc),
        }
    }

    /// Whether a line has the name.
    pub fn has(&self, alloc: Global, name: &[u8]) -> Result<bool, OutOfMemory>
        ensures { IfOk result (λ has. has ≡ has_name self.now.lines.items name.now) }
    {
        let name = Name::of(alloc, name)?;
        Ok(self.names.contains(&name))
    }

    /// With one line more.
    pub fn with(
        self,
        alloc: Global,
        line: u64,
        name: &[u8],
        iri: &[u8],
    ) -> Result<Prefixes, OutOfMemory>
        ensures { IfOk result (λ p. p.lines.items ≡ self.lines.items ++ record { line = line; name = name.now; iri = iri.now } ∷ []) }
    {
        let Prefixes {
            mut lines,
            mut names,
        } = self;
        let name = Name::of(alloc, name)?;
        let iri = Name::of(alloc, iri)?;
        let _was_new = names.insert(name.copy(alloc)?)?;
        lines.push(PrefixLine { line, name, iri })?;
        Ok(Prefixes { lines, names })
    }

    pub fn into_lines(self) -> Vec<PrefixLine>
        ensures { result.items ≡ self.lines.items }
    {
        let Prefixes { lines, names: _ } = self;
        lines
    }
}
