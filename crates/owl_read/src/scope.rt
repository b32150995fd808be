ghost use Rattle.std.specs.Prelude.{◌≡◌, IfOk, None, position, map};
ghost use Rattle.std.specs.Str.{bytes_eq};
ghost use Rattle.dl_base.specs.Vocabularies.{names_of};
ghost use Rattle.owl_read.specs.Items.{item_of, line_of};
ghost use Rattle.owl_read.specs.Outcomes.{Yields, Gives};
ghost use Rattle.owl_read.specs.Scopes.{same_kind, resolved, name_at, is_name, added, numbered, term_named, property_at, IsSound};

use crate::builtins::is_barred;
use crate::nodes::line_of;
use crate::outcomes::{refusal_at, refused};
use dl_base::{Kind, Name, OutOfMemory, Term};
use dl_text::{NamePool, Prefixes, ReadKind, ReadRefusal};
use indexmap::IndexMap;
use owl_syntax::Node;
use std::alloc::Global;
use std::marker::Model;

/// How many terms an ontology may have.
pub const MOST_TERMS: usize = 4000;

/// What names are read by: the prefixes, and the terms so far, each with its kind, in the order in which they appear first.
#[derive(Drop)]
pub struct Scope {
    alloc: Global,
    prefixes: Prefixes,
    terms: IndexMap<Vec<u8>, Kind>,
    pool: NamePool,
}

impl Model for Scope {
    ghost use Rattle.std.specs.Prelude.{ℕ, List, Vec, ◌≤◌, length, map};
    ghost use Rattle.dl_base.specs.declared.terms.Kind.{Kind};
    ghost use Rattle.owl_read.specs.Scopes.{Naming};

    ghost Value = { Naming };

    ghost view = { λ s. record { prefixes = s.prefixes; terms = map (λ e. (e.0.items, e.1)) s.terms.entries } };

    ghost invariant = { λ s. length s.terms.entries ≤ 4000 };
}

fn same_kind(one: Kind, other: Kind) -> bool
    ensures { result ≡ same_kind one other }
{
    match (one, other) {
        (Kind::Class, Kind::Class) => true,
        (Kind::Role, Kind::Role) => true,
        (Kind::Attr, Kind::Attr) => true,
        (Kind::Note, Kind::Note) => true,
        _ => false,
    }
}

/// The terms by their names.
fn copied(alloc: Global, base: &[(Name, Kind)]) -> Result<IndexMap<Vec<u8>, Kind>, OutOfMemory>
    requires { IsSound base.now }
    ensures { IfOk result (λ terms. map (λ e. (e.0.items, e.1)) terms.entries ≡ base.now) }
{
    let mut terms = IndexMap::new(alloc);
    for (name, kind) in base {
        terms.insert(Vec::from_slice(alloc, name.as_slice())?, *kind)?;
    }
    Ok(terms)
}

impl Scope {
    /// These prefixes, and these terms first, which are few and named once.
    pub fn over(
        alloc: Global,
        prefixes: Prefixes,
        base: &[(Name, Kind)],
    ) -> Result<Scope, OutOfMemory>
        requires { IsSound base.now }
        ensures { IfOk result (λ scope. scope ≡ record { prefixes = prefixes; terms = base.now }) }
    {
        let terms = copied(alloc, base)?;
        Ok(Scope {
            alloc,
            prefixes,
            terms,
            pool: NamePool::new(alloc),
        })
    }

    /// The terms by number, each with its name and kind.
    pub fn entries(&self) -> Result<Vec<(Name, Kind)>, OutOfMemory>
        ensures { IfOk result (λ terms. terms.items ≡ self.now.terms) }
    {
        let mut terms = Vec::new(self.alloc);
        for place in 0..self.terms.len() {
            let Some((name, kind)) = self.terms.get_index(place) else {
                return Err(OutOfMemory);
            };
            terms.push((Name::of(self.alloc, name.as_slice())?, *kind))?;
        }
        Ok(terms)
    }

    pub fn alloc(&self) -> Global {
        self.alloc
    }

    /// An equal name, which shares its bytes with names that were read before.
    pub fn shared(&mut self, name: Name) -> Result<Name, ReadRefusal>
        ensures { Gives self.new result (Ok (self.old, name)) }
    {
        Ok(self.pool.name(name.as_slice())?)
    }

    /// The name that a prefixed name stands for.
    #[tactic(auto, unfolding(crate::specs::Scopes::resolved), using(crate::proofs::ScopeLaws::resolves_is))]
    pub fn resolved(&self, line: u64, prefix: &[u8], local: &[u8]) -> Result<Name, ReadRefusal>
        ensures { Yields result (resolved self.now.prefixes line prefix.now local.now) }
    {
        match self.prefixes.resolve(prefix, local, false) {
            Ok(name) => Ok(name),
            Err(fault) => Err(refusal_at(line, fault)),
        }
    }

    /// The name at a place where nothing else may stand. `blanks` is the refusal of a blank node there.
    #[tactic(auto, unfolding(crate::specs::Scopes::name_at))]
    pub fn name(&self, blanks: ReadKind, node: &Node<'_>) -> Result<Name, ReadRefusal>
        ensures { Gives self.now result (name_at blanks self.now (item_of node.now)) }
    {
        match node {
            Node::Iri { line: _, text } => Ok(Name::of(self.alloc, text)?),
            Node::Prefixed {
                line,
                prefix,
                local,
            } => self.resolved(*line, prefix, local),
            Node::Blank { line, .. } => Err(refused(*line, blanks)),
            Node::Word { line, .. } => Err(refused(*line, ReadKind::NotDlLite)),
            Node::Group { line, .. } => Err(refused(*line, ReadKind::Syntax)),
            Node::Digits { line, .. } => Err(refused(*line, ReadKind::Syntax)),
            Node::Literal { line, .. } => Err(refused(*line, ReadKind::Syntax)),
        }
    }

    /// Whether a name stands there that stands for the one that is sought.
    #[tactic(auto, unfolding(crate::specs::Scopes::is_name))]
    pub fn is_name(&self, sought: &[u8], node: &Node<'_>) -> Result<bool, OutOfMemory>
        ensures { IfOk result (λ is. is ≡ is_name sought.now self.now (item_of node.now)) }
    {
        match self.name(ReadKind::Syntax, node) {
            Ok(name) => Ok(name.as_slice() == sought),
            Err(ReadRefusal::OutOfMemory) => Err(OutOfMemory),
            Err(_) => Ok(false),
        }
    }

    /// A new term, which comes last.
    fn added(&mut self, kind: Kind, line: u64, name: &[u8]) -> Result<Term, ReadRefusal>
        requires { position (bytes_eq name.now) (names_of self.old.terms) ≡ None }
        ensures { Gives self.new result (added self.old kind line name.now) }
    {
        let number = self.terms.len();
        if number >= MOST_TERMS {
            return Err(refused(line, ReadKind::TooManyTerms));
        }
        let key = Vec::from_slice(self.alloc, name)?;
        self.terms.insert(key, kind)?;
        Ok(Term(number as u32))
    }

    /// The term of the name: the one that has it, which must be of this kind, or else a new one.
    #[tactic(auto, unfolding(crate::specs::Scopes::numbered))]
    fn numbered(&mut self, kind: Kind, line: u64, name: &[u8]) -> Result<Term, ReadRefusal>
        ensures { Gives self.new result (numbered kind self.old line name.now) }
    {
        if let Some((number, _, held)) = self.terms.get_full(name) {
            return if same_kind(*held, kind) {
                Ok(Term(number as u32))
            } else {
                Err(refused(line, ReadKind::TwoKinds))
            };
        }
        self.added(kind, line, name)
    }

    /// The name as a term of this kind, unless it has another meaning.
    #[tactic(auto, unfolding(crate::specs::Scopes::term_named))]
    pub fn term(&mut self, kind: Kind, line: u64, name: &[u8]) -> Result<Term, ReadRefusal>
        ensures { Gives self.new result (term_named kind self.old line name.now) }
    {
        if is_barred(kind, name) {
            return Err(refused(line, ReadKind::NotDlLite));
        }
        self.numbered(kind, line, name)
    }

    /// The term at a place of a property.
    #[tactic(auto, unfolding(crate::specs::Scopes::property_at))]
    pub fn property(&mut self, kind: Kind, node: &Node<'_>) -> Result<Term, ReadRefusal>
        ensures { Gives self.new result (property_at kind self.old (item_of node.now)) }
    {
        let name = self.name(ReadKind::Syntax, node)?;
        self.term(kind, line_of(node), name.as_slice())
    }
}
