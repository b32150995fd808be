ghost use Rattle.std.specs.Prelude.{◌≡◌, map};
ghost use Rattle.owl_read.specs.Concepts.{class_named, class_at, some_partner, some_value, existential_at, concept_of, concept_at, basic_of, basic_at, left_of, left_at};
ghost use Rattle.owl_read.specs.Items.{item_of};
ghost use Rattle.owl_read.specs.Outcomes.{Gives};

use crate::builtins::{Builtin, iri_of, is_builtin};
use crate::nodes::{line_of, word_in};
use crate::outcomes::refused;
use crate::scope::Scope;
use crate::sides::{ClassName, Concept, Side};
use dl_base::{Basic, Kind};
use dl_text::{ReadKind, ReadRefusal};
use owl_syntax::Node;

fn concept_of(name: ClassName) -> Concept
    ensures { result ≡ concept_of name }
{
    match name {
        ClassName::Thing => Concept::Thing,
        ClassName::Nothing => Concept::Nothing,
        ClassName::Named(class) => Concept::Basic(Basic::Class(class)),
    }
}

impl Scope {
    /// The class of this name.
    #[tactic(auto, unfolding(crate::specs::Concepts::class_named))]
    fn class_named(&mut self, line: u64, name: &[u8]) -> Result<ClassName, ReadRefusal>
        ensures { Gives self.new result (class_named self.old line name.now) }
    {
        if is_builtin(Builtin::Thing, name) {
            return Ok(ClassName::Thing);
        }
        if is_builtin(Builtin::Nothing, name) {
            return Ok(ClassName::Nothing);
        }
        Ok(ClassName::Named(self.term(Kind::Class, line, name)?))
    }

    /// A class, by its name.
    #[tactic(auto, unfolding(crate::specs::Concepts::class_at))]
    pub fn class(&mut self, node: &Node<'_>) -> Result<ClassName, ReadRefusal>
        ensures { Gives self.new result (class_at self.old (item_of node.now)) }
    {
        let name = self.name(ReadKind::Syntax, node)?;
        self.class_named(line_of(node), name.as_slice())
    }

    /// `ObjectSomeValuesFrom( Q owl:Thing )`
    #[tactic(auto, unfolding(crate::specs::Concepts::some_partner))]
    fn some_partner(&mut self, line: u64, args: &[Node<'_>]) -> Result<Basic, ReadRefusal>
        ensures { Gives self.new result (some_partner self.old line (map item_of args.now)) }
    {
        match args {
            [role, filler] => {
                if !self.is_name(iri_of(Builtin::Thing), filler)? {
                    return Err(refused(line, ReadKind::NotDlLite));
                }
                Ok(Basic::Exists(self.role(role)?))
            }
            _ => Err(refused(line, ReadKind::Syntax)),
        }
    }

    /// `DataSomeValuesFrom( U rdfs:Literal )`
    #[tactic(auto, unfolding(crate::specs::Concepts::some_value))]
    fn some_value(&mut self, line: u64, args: &[Node<'_>]) -> Result<Basic, ReadRefusal>
        ensures { Gives self.new result (some_value self.old line (map item_of args.now)) }
    {
        match args {
            [attr, filler] => {
                if !self.is_name(iri_of(Builtin::Literal), filler)? {
                    return Err(refused(line, ReadKind::NotDlLite));
                }
                Ok(Basic::Domain(self.attr(attr)?))
            }
            _ => Err(refused(line, ReadKind::Syntax)),
        }
    }

    /// An expression that is a basic concept and no name.
    #[tactic(auto, unfolding(crate::specs::Concepts::existential_at))]
    pub fn existential(
        &mut self,
        line: u64,
        text: &[u8],
        args: &[Node<'_>],
    ) -> Result<Basic, ReadRefusal>
        ensures { Gives self.new result (existential_at self.old line text.now (map item_of args.now)) }
    {
        if text == b"ObjectSomeValuesFrom".as_slice() {
            self.some_partner(line, args)
        } else if text == b"DataSomeValuesFrom".as_slice() {
            self.some_value(line, args)
        } else {
            Err(refused(line, ReadKind::NotDlLite))
        }
    }

    /// `owl:Thing`, `owl:Nothing` or a basic concept.
    #[tactic(auto, unfolding(crate::specs::Concepts::concept_at))]
    pub fn concept(&mut self, node: &Node<'_>) -> Result<Concept, ReadRefusal>
        ensures { Gives self.new result (concept_at self.old (item_of node.now)) }
    {
        match word_in(node) {
            Some((line, text, args)) => Ok(Concept::Basic(self.existential(line, text, args)?)),
            None => Ok(concept_of(self.class(node)?)),
        }
    }

    /// A basic concept.
    #[tactic(auto, unfolding(crate::specs::Concepts::basic_at))]
    pub fn basic(&mut self, node: &Node<'_>) -> Result<Basic, ReadRefusal>
        ensures { Gives self.new result (basic_at self.old (item_of node.now)) }
    {
        match self.concept(node)? {
            Concept::Basic(basic) => Ok(basic),
            Concept::Thing => Err(refused(line_of(node), ReadKind::NotDlLite)),
            Concept::Nothing => Err(refused(line_of(node), ReadKind::NotDlLite)),
        }
    }

    /// A left side: a basic concept or `owl:Nothing`.
    #[tactic(auto, unfolding(crate::specs::Concepts::left_at))]
    pub fn left(&mut self, node: &Node<'_>) -> Result<Side, ReadRefusal>
        ensures { Gives self.new result (left_at self.old (item_of node.now)) }
    {
        match self.concept(node)? {
            Concept::Basic(basic) => Ok(Side::Concept(basic)),
            Concept::Thing => Err(refused(line_of(node), ReadKind::NotDlLite)),
            Concept::Nothing => Ok(Side::Nothing),
        }
    }
}
