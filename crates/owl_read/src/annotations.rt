ghost use Rattle.std.specs.Prelude.{◌≡◌, Some, map};
ghost use Rattle.owl_read.specs.Annotations.{note_named, note_at, subject_at, annotated_at, names_annotation, behind, front_by, front_at, annotation_of, annotations_at, annotation_at};
ghost use Rattle.owl_read.specs.Items.{item_of, word_in};
ghost use Rattle.owl_read.specs.Outcomes.{Gives, Does};

use crate::builtins::is_fixed_note;
use crate::nodes::{is_blank, is_literal, line_of, word_in};
use crate::outcomes::refused;
use crate::scope::Scope;
use dl_base::Kind;
use dl_text::{ReadKind, ReadRefusal};
use owl_syntax::Node;

fn is_annotation(node: &Node<'_>) -> bool
    ensures { result ≡ names_annotation (word_in (item_of node.now)) }
{
    match word_in(node) {
        Some((_, text, _)) => text == b"Annotation".as_slice(),
        None => false,
    }
}

/// What stands behind the annotations in front.
pub fn behind<'a, 'b>(nodes: &'a [Node<'b>]) -> &'a [Node<'b>]
    ensures { map item_of result.now ≡ behind (map item_of nodes.now) }
{
    for (place, node) in nodes.iter().enumerate() {
        if !is_annotation(node) {
            return &nodes[place..];
        }
    }
    &nodes[nodes.len()..]
}

impl Scope {
    #[tactic(auto, unfolding(crate::specs::Annotations::note_named))]
    fn note_named(&mut self, line: u64, name: &[u8]) -> Result<(), ReadRefusal>
        ensures { Does self.new result (note_named self.old line name.now) }
    {
        if is_fixed_note(name) {
            return Ok(());
        }
        self.term(Kind::Note, line, name)?;
        Ok(())
    }

    /// An annotation property, by its name.
    #[tactic(auto, unfolding(crate::specs::Annotations::note_at))]
    pub fn note(&mut self, node: &Node<'_>) -> Result<(), ReadRefusal>
        ensures { Does self.new result (note_at self.old (item_of node.now)) }
    {
        let name = self.name(ReadKind::Syntax, node)?;
        self.note_named(line_of(node), name.as_slice())
    }

    /// What is annotated: an IRI or a blank node.
    #[tactic(auto, unfolding(crate::specs::Annotations::subject_at))]
    pub fn subject(&mut self, node: &Node<'_>) -> Result<(), ReadRefusal>
        ensures { Does self.new result (subject_at self.old (item_of node.now)) }
    {
        if is_blank(node) {
            return Ok(());
        }
        self.iri(node)?;
        Ok(())
    }

    /// The value of an annotation: an IRI, a blank node or a literal.
    #[tactic(auto, unfolding(crate::specs::Annotations::annotated_at))]
    pub fn annotated(&mut self, node: &Node<'_>) -> Result<(), ReadRefusal>
        ensures { Does self.new result (annotated_at self.old (item_of node.now)) }
    {
        if is_literal(node) {
            self.literal(node)?;
            return Ok(());
        }
        self.subject(node)
    }

    /// The annotations in front of the nodes.
    #[cycle(annotations)]
    #[tactic(auto, unfolding(crate::specs::Annotations::annotations_at))]
    pub fn annotations(&mut self, nodes: &[Node<'_>]) -> Result<(), ReadRefusal>
        ensures { Does self.new result (annotations_at self.old (map item_of nodes.now)) }
    {
        for node in nodes {
            if !self.front(node)? {
                return Ok(());
            }
        }
        Ok(())
    }

    /// Reads the node if it is an annotation, and tells whether it is one.
    #[cycle(annotations)]
    #[tactic(auto, unfolding(crate::specs::Annotations::front_at))]
    fn front(&mut self, node: &Node<'_>) -> Result<bool, ReadRefusal>
        ensures { Gives self.new result (front_at self.old (item_of node.now)) }
    {
        match node {
            Node::Word { line, text, args } => self.word_front(*line, text, args),
            Node::Group { .. } => Ok(false),
            Node::Iri { .. } => Ok(false),
            Node::Prefixed { .. } => Ok(false),
            Node::Blank { .. } => Ok(false),
            Node::Digits { .. } => Ok(false),
            Node::Literal { .. } => Ok(false),
        }
    }

    /// The same for a word.
    #[cycle(annotations)]
    #[tactic(auto, unfolding(crate::specs::Annotations::annotation_at))]
    fn word_front(&mut self, line: u64, text: &[u8], args: &[Node<'_>]) -> Result<bool, ReadRefusal>
        ensures { Gives self.new result (front_by (λ t. annotations_at t (map item_of args.now)) self.old (Some (line, text.now, map item_of args.now))) }
    {
        if text != b"Annotation".as_slice() {
            return Ok(false);
        }
        self.annotation(line, args)?;
        Ok(true)
    }

    /// An annotation, with what stands in its parentheses.
    #[cycle(annotations)]
    #[tactic(auto, unfolding(crate::specs::Annotations::annotation_at))]
    pub fn annotation(&mut self, line: u64, args: &[Node<'_>]) -> Result<(), ReadRefusal>
        ensures { Does self.new result (annotation_at self.old line (map item_of args.now)) }
    {
        self.annotation_of(line, args, behind(args))
    }

    /// An annotation, with what stands behind its own annotations.
    #[cycle(annotations)]
    #[tactic(auto, unfolding(crate::specs::Annotations::annotation_of))]
    fn annotation_of(
        &mut self,
        line: u64,
        args: &[Node<'_>],
        rest: &[Node<'_>],
    ) -> Result<(), ReadRefusal>
        ensures { Does self.new result (annotation_of (λ t. annotations_at t (map item_of args.now)) self.old line (map item_of rest.now)) }
    {
        let [property, value] = rest else {
            return Err(refused(line, ReadKind::Syntax));
        };
        self.annotations(args)?;
        self.note(property)?;
        self.annotated(value)
    }
}
