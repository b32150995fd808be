ghost use Rattle.std.specs.Prelude.{◌≡◌};
ghost use Rattle.dl_text.specs.Namespaces.{rdf_namespace, rdfs_namespace, xsd_namespace, owl_namespace, xsd_integer, xsd_boolean, xsd_string, lang_string};

#[tactic(auto, unfolding(crate::specs::Namespaces::rdf_namespace))]
/// The namespace of RDF.
pub fn rdf_namespace() -> &'static [u8]
    ensures { result.now ≡ rdf_namespace }
{
    b"http://www.w3.org/1999/02/22-rdf-syntax-ns#"
}

#[tactic(auto, unfolding(crate::specs::Namespaces::rdfs_namespace))]
/// The namespace of RDF Schema.
pub fn rdfs_namespace() -> &'static [u8]
    ensures { result.now ≡ rdfs_namespace }
{
    b"http://www.w3.org/2000/01/rdf-schema#"
}

#[tactic(auto, unfolding(crate::specs::Namespaces::xsd_namespace))]
/// The namespace of the datatypes of XML Schema.
pub fn xsd_namespace() -> &'static [u8]
    ensures { result.now ≡ xsd_namespace }
{
    b"http://www.w3.org/2001/XMLSchema#"
}

#[tactic(auto, unfolding(crate::specs::Namespaces::owl_namespace))]
/// The namespace of OWL.
pub fn owl_namespace() -> &'static [u8]
    ensures { result.now ≡ owl_namespace }
{
    b"http://www.w3.org/2002/07/owl#"
}

#[tactic(auto, unfolding(crate::specs::Namespaces::xsd_integer))]
/// The datatype of integers.
pub fn xsd_integer() -> &'static [u8]
    ensures { result.now ≡ xsd_integer }
{
    b"http://www.w3.org/2001/XMLSchema#integer"
}

#[tactic(auto, unfolding(crate::specs::Namespaces::xsd_boolean))]
/// The datatype of truth values.
pub fn xsd_boolean() -> &'static [u8]
    ensures { result.now ≡ xsd_boolean }
{
    b"http://www.w3.org/2001/XMLSchema#boolean"
}

#[tactic(auto, unfolding(crate::specs::Namespaces::xsd_string))]
/// The datatype of a literal that is written with none and without a tag.
pub fn xsd_string() -> &'static [u8]
    ensures { result.now ≡ xsd_string }
{
    b"http://www.w3.org/2001/XMLSchema#string"
}

#[tactic(auto, unfolding(crate::specs::Namespaces::lang_string))]
/// The datatype of a literal with a tag.
pub fn lang_string() -> &'static [u8]
    ensures { result.now ≡ lang_string }
{
    b"http://www.w3.org/1999/02/22-rdf-syntax-ns#langString"
}
