ghost use Rattle.std.specs.Prelude.{◌≡◌, ◌++◌, ◌∷◌, [], map};
ghost use Rattle.dl_text.specs.Outcomes.{seen};
ghost use Rattle.owl_syntax.specs.Trees.{forest_of};
ghost use Rattle.owl_read.specs.Concepts.{related, partner_in, complement_of, parts_of, single_right, named_right, word_right, right_at, rights_in};
ghost use Rattle.owl_read.specs.Items.{item_of};
ghost use Rattle.owl_read.specs.Outcomes.{Gives, Does, with_front};

use crate::nodes::word_in;
use crate::outcomes::refused;
use crate::scope::Scope;
use crate::sides::{Concept, Part};
use dl_base::{Basic, RoleSide};
use dl_text::{ReadKind, ReadRefusal};
use owl_syntax::Node;

/// The part of a right side that 'some partner in the concept' is.
fn related(role: RoleSide, concept: Concept) -> Part
    ensures { result ≡ related role concept }
{
    match concept {
        Concept::Basic(basic) => Part::Related(role, basic),
        Concept::Thing => Part::Within(Basic::Exists(role)),
        Concept::Nothing => Part::Empty,
    }
}

impl Scope {
    /// `ObjectSomeValuesFrom( Q B )`
    #[tactic(auto, unfolding(crate::specs::Concepts::partner_in))]
    fn partner_in(&mut self, line: u64, args: &[Node<'_>]) -> Result<Part, ReadRefusal>
        ensures { Gives self.new result (partner_in self.old line (map item_of args.now)) }
    {
        match args {
            [role, filler] => {
                let role = self.role(role)?;
                let concept = self.concept(filler)?;
                Ok(related(role, concept))
            }
            _ => Err(refused(line, ReadKind::Syntax)),
        }
    }

    /// `ObjectComplementOf( B )`
    #[tactic(auto, unfolding(crate::specs::Concepts::complement_of))]
    fn complement_of(&mut self, line: u64, args: &[Node<'_>]) -> Result<Part, ReadRefusal>
        ensures { Gives self.new result (complement_of self.old line (map item_of args.now)) }
    {
        match args {
            [node] => Ok(Part::Outside(self.basic(node)?)),
            _ => Err(refused(line, ReadKind::Syntax)),
        }
    }

    /// A right side by its word, which is no intersection.
    #[tactic(auto, unfolding(crate::specs::Concepts::single_right))]
    fn single_right(
        &mut self,
        line: u64,
        text: &[u8],
        args: &[Node<'_>],
    ) -> Result<Part, ReadRefusal>
        ensures { Gives self.new result (single_right self.old line text.now (map item_of args.now)) }
    {
        if text == b"ObjectComplementOf".as_slice() {
            self.complement_of(line, args)
        } else if text == b"ObjectSomeValuesFrom".as_slice() {
            self.partner_in(line, args)
        } else {
            Ok(Part::Within(self.existential(line, text, args)?))
        }
    }

    #[tactic(auto, unfolding(crate::specs::Concepts::named_right))]
    /// A right side that is `owl:Thing`, `owl:Nothing` or a class.
    fn named_right(&mut self, node: &Node<'_>, parts: &mut Vec<Part>) -> Result<(), ReadRefusal>
        ensures { Does (self.new, parts.new.items) result (with_front parts.old.items (named_right self.old (item_of node.now))) }
    {
        match self.concept(node)? {
            Concept::Thing => Ok(()),
            Concept::Nothing => Ok(parts.push(Part::Empty)?),
            Concept::Basic(basic) => Ok(parts.push(Part::Within(basic))?),
        }
    }

    /// Puts the parts of a right side behind those that are there.
    #[cycle(rights)]
    #[tactic(auto, unfolding(crate::specs::Concepts::right_with))]
    pub fn right(&mut self, node: &Node<'_>, parts: &mut Vec<Part>) -> Result<(), ReadRefusal>
        ensures { Does (self.new, parts.new.items) result (with_front parts.old.items (right_at self.old (item_of node.now))) }
    {
        match node {
            Node::Word { line, text, args } => self.word_right(*line, text, args, parts),
            Node::Group { .. } => self.named_right(node, parts),
            Node::Iri { .. } => self.named_right(node, parts),
            Node::Prefixed { .. } => self.named_right(node, parts),
            Node::Blank { .. } => self.named_right(node, parts),
            Node::Digits { .. } => self.named_right(node, parts),
            Node::Literal { .. } => self.named_right(node, parts),
        }
    }

    /// The same for a right side by its word.
    #[cycle(rights)]
    #[tactic(auto, unfolding(crate::specs::Concepts::word_right))]
    fn word_right(
        &mut self,
        line: u64,
        text: &[u8],
        args: &[Node<'_>],
        parts: &mut Vec<Part>,
    ) -> Result<(), ReadRefusal>
        ensures { Does (self.new, parts.new.items) result
            (with_front parts.old.items (word_right (λ s. rights_in s (forest_of args.now)) self.old line text.now (map item_of args.now))) }
    {
        if text != b"ObjectIntersectionOf".as_slice() {
            parts.push(self.single_right(line, text, args)?)?;
            return Ok(());
        }
        if args.len() < 2 {
            return Err(refused(line, ReadKind::Syntax));
        }
        self.rights(args, parts)
    }

    /// The same for right sides beside each other.
    #[cycle(rights)]
    fn rights(&mut self, nodes: &[Node<'_>], parts: &mut Vec<Part>) -> Result<(), ReadRefusal>
        ensures { Does (self.new, parts.new.items) result (with_front parts.old.items (rights_in self.old (forest_of nodes.now))) }
    {
        for node in nodes {
            self.right(node, parts)?;
        }
        Ok(())
    }

    /// The parts of a right side.
    pub fn parts(&mut self, node: &Node<'_>) -> Result<Vec<Part>, ReadRefusal>
        ensures { Gives self.new (seen (λ parts. parts.items) result) (right_at self.old (item_of node.now)) }
    {
        let mut parts = Vec::new(self.alloc());
        self.right(node, &mut parts)?;
        Ok(parts)
    }
}
