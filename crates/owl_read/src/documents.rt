ghost use Rattle.std.specs.Prelude.{◌≡◌, [], IfOk, map};
ghost use Rattle.owl_syntax.specs.Trees.{attach, none};
ghost use Rattle.owl_read.specs.Documents.{bindings_of, Takes};
ghost use Rattle.owl_read.specs.Held.{held};
ghost use Rattle.owl_read.specs.Items.{item_of, inside};

use crate::nodes::line_of;
use crate::outcomes::refused;
use crate::reader::Reader;
use dl_base::{OutOfMemory, Restriction};
use dl_text::{Prefixes, ReadKind, ReadRefusal};
use owl_syntax::{Node, PrefixLine};
use std::alloc::Global;

/// The standard prefixes, and those of the lines, which replace them.
pub fn bindings_of(alloc: Global, lines: &[PrefixLine]) -> Result<Prefixes, OutOfMemory>
    ensures { IfOk result (λ prefixes. prefixes ≡ bindings_of lines.now) }
{
    let mut prefixes = Prefixes::standard(alloc)?;
    for line in lines {
        prefixes.set(line.name.as_slice(), &line.iri)?;
    }
    Ok(prefixes)
}

/// Takes the nodes from left to right.
fn take_all(alloc: Global, reader: &mut Reader, nodes: &[Node<'_>]) -> Result<(), ReadRefusal>
    requires { reader.old.axioms.items ≡ [] }
    ensures { Takes (held reader.old) (map item_of nodes.now) (held reader.new) result }
{
    let mut restriction = Restriction::new(alloc);
    for node in nodes {
        let before = reader.axioms.as_slice().len();
        reader.take(node)?;
        if let Some(_) = restriction.first_from(reader.axioms.as_slice(), before)? {
            return Err(refused(line_of(node), ReadKind::FunctionalSpecialised));
        }
    }
    Ok(())
}

/// Takes the nodes inside the root.
pub fn take_document(alloc: Global, reader: &mut Reader, root: &Node<'_>) -> Result<(), ReadRefusal>
    requires { reader.old.axioms.items ≡ [] }
    ensures { Takes (held reader.old) (inside (attach none root.now)) (held reader.new) result }
{
    match root {
        Node::Word { args, .. } => take_all(alloc, reader, args),
        Node::Group { .. } => Ok(()),
        Node::Iri { .. } => Ok(()),
        Node::Prefixed { .. } => Ok(()),
        Node::Blank { .. } => Ok(()),
        Node::Digits { .. } => Ok(()),
        Node::Literal { .. } => Ok(()),
    }
}
