ghost use Rattle.std.specs.Prelude.{◌≡◌};
ghost use Rattle.triples.specs.Names.{rdf_type, owl_thing, owl_named_individual, rdfs_label, rdfs_comment, rdfs_see_also, rdfs_is_defined_by};

#[tactic(auto, unfolding(crate::specs::Names::rdf_type))]
/// The predicate that says which class a subject is in.
pub fn rdf_type() -> &'static [u8]
    ensures { result.now ≡ rdf_type }
{
    b"http://www.w3.org/1999/02/22-rdf-syntax-ns#type"
}

#[tactic(auto, unfolding(crate::specs::Names::owl_thing))]
/// The class of everything.
pub fn owl_thing() -> &'static [u8]
    ensures { result.now ≡ owl_thing }
{
    b"http://www.w3.org/2002/07/owl#Thing"
}

#[tactic(auto, unfolding(crate::specs::Names::owl_named_individual))]
/// The class of individuals that have a name.
pub fn owl_named_individual() -> &'static [u8]
    ensures { result.now ≡ owl_named_individual }
{
    b"http://www.w3.org/2002/07/owl#NamedIndividual"
}

#[tactic(auto, unfolding(crate::specs::Names::rdfs_label))]
pub fn rdfs_label() -> &'static [u8]
    ensures { result.now ≡ rdfs_label }
{
    b"http://www.w3.org/2000/01/rdf-schema#label"
}

#[tactic(auto, unfolding(crate::specs::Names::rdfs_comment))]
pub fn rdfs_comment() -> &'static [u8]
    ensures { result.now ≡ rdfs_comment }
{
    b"http://www.w3.org/2000/01/rdf-schema#comment"
}

#[tactic(auto, unfolding(crate::specs::Names::rdfs_see_also))]
pub fn rdfs_see_also() -> &'static [u8]
    ensures { result.now ≡ rdfs_see_also }
{
    b"http://www.w3.org/2000/01/rdf-schema#seeAlso"
}

#[tactic(auto, unfolding(crate::specs::Names::rdfs_is_defined_by))]
pub fn rdfs_is_defined_by() -> &'static [u8]
    ensures { result.now ≡ rdfs_is_defined_by }
{
    b"http://www.w3.org/2000/01/rdf-schema#isDefinedBy"
}
