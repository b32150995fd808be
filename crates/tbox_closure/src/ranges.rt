ghost use Rattle.std.specs.Prelude.{IfOk};
ghost use Rattle.tbox_closure.specs.Tables.{AreRanges};

use dl_base::{Axiom, Name, OutOfMemory, Term};
use std::alloc::Global;

/// The declared ranges of attributes.
pub fn ranges_of(alloc: Global, axioms: &[Axiom]) -> Result<Vec<(Term, Name)>, OutOfMemory>
    ensures { IfOk result (λ ranges. AreRanges axioms.now ranges.items) }
{
    let mut ranges = Vec::new(alloc);
    for it in axioms {
        match it {
            Axiom::Range(attr, datatype) => ranges.push((*attr, datatype.copy(alloc)?))?,
            _ => {}
        }
    }
    Ok(ranges)
}
