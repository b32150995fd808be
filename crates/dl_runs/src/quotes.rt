ghost use Rattle.std.specs.Prelude.{ℕ, List, MatchOption};
ghost use Rattle.dl_runs.specs.Quotes.{IsQuoted};

use crate::cuts::cut_at_either;

/// The raw text of a string behind its opening `"`, and what stands behind the `"` that ends it: a `\` takes the byte behind it along.
///
/// `STRING_LITERAL_QUOTE` of RDF 1.1 N-Triples, `quotedString` of OWL 2 Functional-Style Syntax.
pub fn cut_text(after: &[u8]) -> Option<(&[u8], &[u8])>
    ensures { MatchOption result ((inner rest : List ℕ) → ¬ IsQuoted after.now inner rest)
        (λ cut. IsQuoted after.now cut.0.now cut.1.now) }
{
    let mut here = after;
    while let Some((_front, found, behind)) = cut_at_either(here, b'"', b'\\') {
        if found == b'"' {
            return Some((&after[..after.len() - behind.len() - 1], behind));
        }
        let Some((_escaped, more)) = behind.split_first() else {
            return None;
        };
        here = more;
    }
    None
}
