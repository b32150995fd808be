ghost use Rattle.std.specs.Prelude.{◌≡◌};
ghost use Rattle.owl_read.specs.Builtins.{iri_of, is_builtin, is_fixed_class, is_fixed_note, is_extreme, is_no_property, is_barred};

use dl_base::Kind;

/// A name of OWL 2, RDF or RDF Schema that has a meaning of its own.
#[derive(Clone, Copy, Debug, PartialEq, Eq)]
pub enum Builtin {
    Thing,
    Nothing,
    TopObjectProperty,
    BottomObjectProperty,
    TopDataProperty,
    BottomDataProperty,
    RdfType,
    Label,
    Comment,
    SeeAlso,
    IsDefinedBy,
    Literal,
}

#[tactic(auto, unfolding(crate::specs::Builtins::iri_of))]
pub fn iri_of(builtin: Builtin) -> &'static [u8]
    ensures { result.now ≡ iri_of builtin }
{
    match builtin {
        Builtin::Thing => b"http://www.w3.org/2002/07/owl#Thing",
        Builtin::Nothing => b"http://www.w3.org/2002/07/owl#Nothing",
        Builtin::TopObjectProperty => b"http://www.w3.org/2002/07/owl#topObjectProperty",
        Builtin::BottomObjectProperty => b"http://www.w3.org/2002/07/owl#bottomObjectProperty",
        Builtin::TopDataProperty => b"http://www.w3.org/2002/07/owl#topDataProperty",
        Builtin::BottomDataProperty => b"http://www.w3.org/2002/07/owl#bottomDataProperty",
        Builtin::RdfType => b"http://www.w3.org/1999/02/22-rdf-syntax-ns#type",
        Builtin::Label => b"http://www.w3.org/2000/01/rdf-schema#label",
        Builtin::Comment => b"http://www.w3.org/2000/01/rdf-schema#comment",
        Builtin::SeeAlso => b"http://www.w3.org/2000/01/rdf-schema#seeAlso",
        Builtin::IsDefinedBy => b"http://www.w3.org/2000/01/rdf-schema#isDefinedBy",
        Builtin::Literal => b"http://www.w3.org/2000/01/rdf-schema#Literal",
    }
}

pub fn is_builtin(builtin: Builtin, name: &[u8]) -> bool
    ensures { result ≡ is_builtin builtin name.now }
{
    name == iri_of(builtin)
}

/// Whether it is `owl:Thing` or `owl:Nothing`, which are classes and no terms.
fn is_fixed_class(name: &[u8]) -> bool
    ensures { result ≡ is_fixed_class name.now }
{
    is_builtin(Builtin::Thing, name) || is_builtin(Builtin::Nothing, name)
}

/// Whether it is one of the annotation properties of RDF Schema that are no terms.
pub fn is_fixed_note(name: &[u8]) -> bool
    ensures { result ≡ is_fixed_note name.now }
{
    is_builtin(Builtin::Label, name)
        || is_builtin(Builtin::Comment, name)
        || is_builtin(Builtin::SeeAlso, name)
        || is_builtin(Builtin::IsDefinedBy, name)
}

/// Whether it is one of the four top and bottom properties.
fn is_extreme(name: &[u8]) -> bool
    ensures { result ≡ is_extreme name.now }
{
    is_builtin(Builtin::TopObjectProperty, name)
        || is_builtin(Builtin::BottomObjectProperty, name)
        || is_builtin(Builtin::TopDataProperty, name)
        || is_builtin(Builtin::BottomDataProperty, name)
}

/// Whether it is no property that an ontology may use.
fn is_no_property(name: &[u8]) -> bool
    ensures { result ≡ is_no_property name.now }
{
    is_extreme(name) || is_fixed_class(name) || is_builtin(Builtin::RdfType, name)
}

/// Whether the name can't be a term of this kind.
pub fn is_barred(kind: Kind, name: &[u8]) -> bool
    ensures { result ≡ is_barred kind name.now }
{
    match kind {
        Kind::Class => is_extreme(name) || is_fixed_note(name),
        Kind::Role => is_no_property(name) || is_fixed_note(name),
        Kind::Attr => is_no_property(name) || is_fixed_note(name),
        Kind::Note => is_no_property(name),
    }
}
