ghost use Rattle.std.specs.Prelude.{map};
ghost use Rattle.owl_read.specs.Items.{item_of};
ghost use Rattle.owl_read.specs.Outcomes.{Does};
ghost use Rattle.owl_read.specs.Rows.{entity_named, entity_in, entity_by, entity_at, declaration, note_assertion, note_pair, note_iri, note_row};

use crate::forms::{Entity, NoteForm, entity_of};
use crate::nodes::{line_of, word_in};
use crate::outcomes::refused;
use crate::scope::Scope;
use dl_base::Kind;
use dl_text::{ReadKind, ReadRefusal};
use owl_syntax::Node;

impl Scope {
    /// The name of a declared thing.
    #[tactic(auto, unfolding(crate::specs::Rows::entity_named))]
    fn entity_named(&mut self, entity: Entity, node: &Node<'_>) -> Result<(), ReadRefusal>
        ensures { Does self.new result (entity_named entity self.old (item_of node.now)) }
    {
        match entity {
            Entity::Class => {
                self.class(node)?;
            }
            Entity::ObjectProperty => {
                self.property(Kind::Role, node)?;
            }
            Entity::DataProperty => {
                self.property(Kind::Attr, node)?;
            }
            Entity::AnnotationProperty => self.note(node)?,
            Entity::Datatype => {
                self.iri(node)?;
            }
            Entity::NamedIndividual => {
                self.individual(node)?;
            }
        }
        Ok(())
    }

    fn entity_in(&mut self, line: u64, entity: Entity, args: &[Node<'_>]) -> Result<(), ReadRefusal>
        ensures { Does self.new result (entity_in self.old line entity (map item_of args.now)) }
    {
        match args {
            [node] => self.entity_named(entity, node),
            _ => Err(refused(line, ReadKind::Syntax)),
        }
    }

    /// A declared thing: its word and its name.
    #[tactic(auto, unfolding(crate::specs::Rows::entity_at))]
    fn entity(&mut self, node: &Node<'_>) -> Result<(), ReadRefusal>
        ensures { Does self.new result (entity_at self.old (item_of node.now)) }
    {
        let Some((line, text, args)) = word_in(node) else {
            self.iri(node)?;
            return Err(refused(line_of(node), ReadKind::Syntax));
        };
        match entity_of(text) {
            Some(entity) => self.entity_in(line, entity, args),
            None => Err(refused(line, ReadKind::NotDlLite)),
        }
    }

    /// `Declaration( entity )`
    #[tactic(auto, unfolding(crate::specs::Rows::declaration))]
    fn declaration(&mut self, line: u64, args: &[Node<'_>]) -> Result<(), ReadRefusal>
        ensures { Does self.new result (declaration self.old line (map item_of args.now)) }
    {
        let node = self.one(line, args)?;
        self.entity(node)
    }

    /// `AnnotationAssertion( P subject value )`
    #[tactic(auto, unfolding(crate::specs::Rows::note_assertion))]
    fn note_assertion(&mut self, line: u64, args: &[Node<'_>]) -> Result<(), ReadRefusal>
        ensures { Does self.new result (note_assertion self.old line (map item_of args.now)) }
    {
        let (property, subject, value) = self.three(line, args)?;
        self.note(property)?;
        self.subject(subject)?;
        self.annotated(value)
    }

    /// `SubAnnotationPropertyOf( P S )`
    #[tactic(auto, unfolding(crate::specs::Rows::note_pair))]
    fn note_pair(&mut self, line: u64, args: &[Node<'_>]) -> Result<(), ReadRefusal>
        ensures { Does self.new result (note_pair self.old line (map item_of args.now)) }
    {
        let (one, two) = self.two(line, args)?;
        self.note(one)?;
        self.note(two)
    }

    /// An annotation property and an IRI.
    #[tactic(auto, unfolding(crate::specs::Rows::note_iri))]
    fn note_iri(&mut self, line: u64, args: &[Node<'_>]) -> Result<(), ReadRefusal>
        ensures { Does self.new result (note_iri self.old line (map item_of args.now)) }
    {
        let (property, iri) = self.two(line, args)?;
        self.note(property)?;
        self.iri(iri)?;
        Ok(())
    }

    /// A declaration, or what has no meaning for facts.
    #[tactic(auto, unfolding(crate::specs::Rows::note_row))]
    pub fn noted(&mut self, form: NoteForm, line: u64, args: &[Node<'_>]) -> Result<(), ReadRefusal>
        ensures { Does self.new result (note_row form self.old line (map item_of args.now)) }
    {
        match form {
            NoteForm::Import => Err(refused(line, ReadKind::Import)),
            NoteForm::Annotation => self.annotation(line, args),
            NoteForm::Declaration => self.declaration(line, args),
            NoteForm::AnnotationAssertion => self.note_assertion(line, args),
            NoteForm::SubAnnotationPropertyOf => self.note_pair(line, args),
            NoteForm::AnnotationPropertyDomain => self.note_iri(line, args),
            NoteForm::AnnotationPropertyRange => self.note_iri(line, args),
        }
    }
}
