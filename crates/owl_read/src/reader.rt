ghost use Rattle.std.specs.Prelude.{◌≡◌, ◌++◌, [], map};
ghost use Rattle.dl_text.specs.Outcomes.{seen};
ghost use Rattle.owl_read.specs.Held.{held};
ghost use Rattle.owl_read.specs.Items.{item_of};
ghost use Rattle.owl_read.specs.Outcomes.{Gives, Does};
ghost use Rattle.owl_read.specs.Rows.{side_at, sides_at, listed_at, form_row, taken};

use crate::forms::{Form, form_of};
use crate::nodes::word_in;
use crate::outcomes::refused;
use crate::scope::Scope;
use crate::sides::{Side, Sort};
use dl_base::{Axiom, Fact};
use dl_text::{ReadKind, ReadRefusal};
use owl_syntax::Node;
use std::alloc::Global;

/// What a document has said so far: its terms, its axioms and its assertions in order, and how many were skipped.
#[derive(Drop)]
pub struct Reader {
    pub scope: Scope,
    pub axioms: Vec<Axiom>,
    pub facts: Vec<Fact>,
    pub skipped: u64,
}

impl Scope {
    /// A left side of concepts, a role or an attribute.
    #[tactic(auto, unfolding(crate::specs::Rows::side_at))]
    pub fn side(&mut self, sort: Sort, node: &Node<'_>) -> Result<Side, ReadRefusal>
        ensures { Gives self.new result (side_at sort self.old (item_of node.now)) }
    {
        match sort {
            Sort::Concepts => self.left(node),
            Sort::Roles => Ok(Side::Role(self.role(node)?)),
            Sort::Attrs => Ok(Side::Attr(self.attr(node)?)),
        }
    }

    /// Sides beside each other.
    #[tactic(auto, unfolding(crate::specs::Rows::sides_at))]
    fn sides(&mut self, sort: Sort, nodes: &[Node<'_>]) -> Result<Vec<Side>, ReadRefusal>
        ensures { Gives self.new (seen (λ sides. sides.items) result) (sides_at sort self.old (map item_of nodes.now)) }
    {
        let mut sides = Vec::new(self.alloc());
        for node in nodes {
            let side = self.side(sort, node)?;
            sides.push(side)?;
        }
        Ok(sides)
    }

    /// Two or more sides.
    #[tactic(auto, unfolding(crate::specs::Rows::listed_at))]
    pub fn listed(
        &mut self,
        sort: Sort,
        line: u64,
        args: &[Node<'_>],
    ) -> Result<Vec<Side>, ReadRefusal>
        ensures { Gives self.new (seen (λ sides. sides.items) result) (listed_at sort self.old line (map item_of args.now)) }
    {
        let nodes = self.some(line, args)?;
        self.sides(sort, nodes)
    }
}

impl Reader {
    pub fn new(alloc: Global, scope: Scope) -> Reader
        ensures { held result ≡ record { scope = scope; axioms = []; facts = []; skipped = 0 } }
    {
        Reader {
            scope,
            axioms: Vec::new(alloc),
            facts: Vec::new(alloc),
            skipped: 0,
        }
    }

    /// One node of a document: an axiom, an import or an annotation by its word, or the document's own IRI or version IRI.
    #[tactic(auto, unfolding(crate::specs::Rows::taken))]
    pub fn take(&mut self, node: &Node<'_>) -> Result<(), ReadRefusal>
        ensures { Does (held self.new) result (taken (held self.old) (item_of node.now)) }
    {
        let Some((line, text, args)) = word_in(node) else {
            self.scope.iri(node)?;
            return Ok(());
        };
        let Some(form) = form_of(text) else {
            return Err(refused(line, ReadKind::NotDlLite));
        };
        self.take_form(form, line, args)
    }

    #[tactic(auto, unfolding(crate::specs::Rows::form_row))]
    fn take_form(&mut self, form: Form, line: u64, args: &[Node<'_>]) -> Result<(), ReadRefusal>
        ensures { Does (held self.new) result (form_row form (held self.old) line (map item_of args.now)) }
    {
        match form {
            Form::Class(form) => self.class_axiom(form, line, args),
            Form::Role(form) => self.role_axiom(form, line, args),
            Form::Attr(form) => self.attr_axiom(form, line, args),
            Form::Fact(form) => self.assertion(form, line, args),
            Form::Note(form) => self.scope.noted(form, line, args),
        }
    }
}
