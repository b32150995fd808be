ghost use Rattle.std.specs.Prelude.{◌≡◌};
ghost use Rattle.owl_read.specs.Outcomes.{refusal_at};

use dl_text::{ReadKind, ReadRefusal, TextFault};

/// The refusal of this kind at the line.
pub fn refused(line: u64, kind: ReadKind) -> ReadRefusal
    ensures { result ≡ ReadRefusal.Refused line kind }
{
    ReadRefusal::Refused { line, kind }
}

/// The refusal that the fault of a name or a value leads to.
pub fn refusal_at(line: u64, fault: TextFault) -> ReadRefusal
    ensures { result ≡ refusal_at line fault }
{
    match fault {
        TextFault::BadIri => refused(line, ReadKind::BadIri),
        TextFault::BadEscape => refused(line, ReadKind::BadEscape),
        TextFault::BadLiteral => refused(line, ReadKind::BadLiteral),
        TextFault::NameTooLong => refused(line, ReadKind::NameTooLong),
        TextFault::UnknownPrefix => refused(line, ReadKind::UnknownPrefix),
        TextFault::OutOfMemory => ReadRefusal::OutOfMemory,
    }
}
