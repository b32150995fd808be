ghost use Rattle.std.specs.Prelude.{◌≡◌};
ghost use Rattle.dl_base.specs.Derivation.{inverse};
ghost use Rattle.owl_read.specs.Items.{item_of};
ghost use Rattle.owl_read.specs.Outcomes.{Gives};
ghost use Rattle.owl_read.specs.Places.{inverse_of, role_at, attr_at, individual_at, iri_at};
ghost use Rattle.std.specs.Prelude.{map};

use crate::nodes::word_in;
use crate::outcomes::refused;
use crate::scope::Scope;
use dl_base::{Kind, Name, RoleSide, Term};
use dl_text::{ReadKind, ReadRefusal};
use owl_syntax::Node;

/// The inverse of a side.
pub fn inverse(side: RoleSide) -> RoleSide
    ensures { result ≡ inverse side }
{
    match side {
        RoleSide::Direct(p) => RoleSide::Inverse(p),
        RoleSide::Inverse(p) => RoleSide::Direct(p),
    }
}

impl Scope {
    /// The inverse of the named role that is the one argument.
    #[tactic(auto, unfolding(crate::specs::Places::inverse_of))]
    fn inverse_of(&mut self, line: u64, args: &[Node<'_>]) -> Result<RoleSide, ReadRefusal>
        ensures { Gives self.new result (inverse_of self.old line (map item_of args.now)) }
    {
        match args {
            [named] => Ok(RoleSide::Inverse(self.property(Kind::Role, named)?)),
            _ => Err(refused(line, ReadKind::Syntax)),
        }
    }

    /// A role: its name, or the inverse of a named one.
    #[tactic(auto, unfolding(crate::specs::Places::role_at))]
    pub fn role(&mut self, node: &Node<'_>) -> Result<RoleSide, ReadRefusal>
        ensures { Gives self.new result (role_at self.old (item_of node.now)) }
    {
        match word_in(node) {
            Some((line, text, args)) => {
                if text == b"ObjectInverseOf".as_slice() {
                    self.inverse_of(line, args)
                } else {
                    Err(refused(line, ReadKind::NotDlLite))
                }
            }
            None => Ok(RoleSide::Direct(self.property(Kind::Role, node)?)),
        }
    }

    /// An attribute, by its name.
    pub fn attr(&mut self, node: &Node<'_>) -> Result<Term, ReadRefusal>
        ensures { Gives self.new result (attr_at self.old (item_of node.now)) }
    {
        self.property(Kind::Attr, node)
    }

    /// An individual, by its name.
    pub fn individual(&mut self, node: &Node<'_>) -> Result<Name, ReadRefusal>
        ensures { Gives self.new result (individual_at self.old (item_of node.now)) }
    {
        let name = self.name(ReadKind::BlankNode, node)?;
        self.shared(name)
    }

    /// A datatype or another IRI that is no term.
    pub fn iri(&mut self, node: &Node<'_>) -> Result<Name, ReadRefusal>
        ensures { Gives self.new result (iri_at self.old (item_of node.now)) }
    {
        let name = self.name(ReadKind::Syntax, node)?;
        self.shared(name)
    }
}
