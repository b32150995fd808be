ghost use Rattle.std.specs.Prelude.{◌≡◌};
ghost use Rattle.owl_read.specs.Forms.{class_form, role_form, attr_form, fact_form, note_form, form_of, entity_of};

/// The form of an axiom of a document, by its word.
#[derive(Clone, Copy, Debug, PartialEq, Eq)]
pub enum Form {
    Class(ClassForm),
    Role(RoleForm),
    Attr(AttrForm),
    Fact(FactForm),
    Note(NoteForm),
}

/// Axioms about classes.
#[derive(Clone, Copy, Debug, PartialEq, Eq)]
pub enum ClassForm {
    SubClassOf,
    EquivalentClasses,
    DisjointClasses,
}

/// Axioms about object properties.
#[derive(Clone, Copy, Debug, PartialEq, Eq)]
pub enum RoleForm {
    SubObjectPropertyOf,
    EquivalentObjectProperties,
    DisjointObjectProperties,
    InverseObjectProperties,
    ObjectPropertyDomain,
    ObjectPropertyRange,
    SymmetricObjectProperty,
    AsymmetricObjectProperty,
    FunctionalObjectProperty,
    InverseFunctionalObjectProperty,
}

/// Axioms about data properties.
#[derive(Clone, Copy, Debug, PartialEq, Eq)]
pub enum AttrForm {
    SubDataPropertyOf,
    EquivalentDataProperties,
    DisjointDataProperties,
    DataPropertyDomain,
    DataPropertyRange,
    FunctionalDataProperty,
}

/// Axioms about individuals.
#[derive(Clone, Copy, Debug, PartialEq, Eq)]
pub enum FactForm {
    ClassAssertion,
    ObjectPropertyAssertion,
    DataPropertyAssertion,
    DifferentIndividuals,
}

/// Declarations, and what has no meaning for facts.
#[derive(Clone, Copy, Debug, PartialEq, Eq)]
pub enum NoteForm {
    Import,
    Annotation,
    Declaration,
    AnnotationAssertion,
    SubAnnotationPropertyOf,
    AnnotationPropertyDomain,
    AnnotationPropertyRange,
}

/// What a declaration declares.
#[derive(Clone, Copy, Debug, PartialEq, Eq)]
pub enum Entity {
    Class,
    ObjectProperty,
    DataProperty,
    AnnotationProperty,
    Datatype,
    NamedIndividual,
}

#[tactic(auto, unfolding(crate::specs::Forms::class_form))]
fn class_form(word: &[u8]) -> Option<ClassForm>
    ensures { result ≡ class_form word.now }
{
    if word == b"SubClassOf".as_slice() {
        Some(ClassForm::SubClassOf)
    } else if word == b"EquivalentClasses".as_slice() {
        Some(ClassForm::EquivalentClasses)
    } else if word == b"DisjointClasses".as_slice() {
        Some(ClassForm::DisjointClasses)
    } else {
        None
    }
}

#[tactic(auto, unfolding(crate::specs::Forms::role_form))]
fn role_form(word: &[u8]) -> Option<RoleForm>
    ensures { result ≡ role_form word.now }
{
    if word == b"SubObjectPropertyOf".as_slice() {
        Some(RoleForm::SubObjectPropertyOf)
    } else if word == b"EquivalentObjectProperties".as_slice() {
        Some(RoleForm::EquivalentObjectProperties)
    } else if word == b"DisjointObjectProperties".as_slice() {
        Some(RoleForm::DisjointObjectProperties)
    } else if word == b"InverseObjectProperties".as_slice() {
        Some(RoleForm::InverseObjectProperties)
    } else if word == b"ObjectPropertyDomain".as_slice() {
        Some(RoleForm::ObjectPropertyDomain)
    } else if word == b"ObjectPropertyRange".as_slice() {
        Some(RoleForm::ObjectPropertyRange)
    } else if word == b"SymmetricObjectProperty".as_slice() {
        Some(RoleForm::SymmetricObjectProperty)
    } else if word == b"AsymmetricObjectProperty".as_slice() {
        Some(RoleForm::AsymmetricObjectProperty)
    } else if word == b"FunctionalObjectProperty".as_slice() {
        Some(RoleForm::FunctionalObjectProperty)
    } else if word == b"InverseFunctionalObjectProperty".as_slice() {
        Some(RoleForm::InverseFunctionalObjectProperty)
    } else {
        None
    }
}

#[tactic(auto, unfolding(crate::specs::Forms::attr_form))]
fn attr_form(word: &[u8]) -> Option<AttrForm>
    ensures { result ≡ attr_form word.now }
{
    if word == b"SubDataPropertyOf".as_slice() {
        Some(AttrForm::SubDataPropertyOf)
    } else if word == b"EquivalentDataProperties".as_slice() {
        Some(AttrForm::EquivalentDataProperties)
    } else if word == b"DisjointDataProperties".as_slice() {
        Some(AttrForm::DisjointDataProperties)
    } else if word == b"DataPropertyDomain".as_slice() {
        Some(AttrForm::DataPropertyDomain)
    } else if word == b"DataPropertyRange".as_slice() {
        Some(AttrForm::DataPropertyRange)
    } else if word == b"FunctionalDataProperty".as_slice() {
        Some(AttrForm::FunctionalDataProperty)
    } else {
        None
    }
}

#[tactic(auto, unfolding(crate::specs::Forms::fact_form))]
fn fact_form(word: &[u8]) -> Option<FactForm>
    ensures { result ≡ fact_form word.now }
{
    if word == b"ClassAssertion".as_slice() {
        Some(FactForm::ClassAssertion)
    } else if word == b"ObjectPropertyAssertion".as_slice() {
        Some(FactForm::ObjectPropertyAssertion)
    } else if word == b"DataPropertyAssertion".as_slice() {
        Some(FactForm::DataPropertyAssertion)
    } else if word == b"DifferentIndividuals".as_slice() {
        Some(FactForm::DifferentIndividuals)
    } else {
        None
    }
}

#[tactic(auto, unfolding(crate::specs::Forms::note_form))]
fn note_form(word: &[u8]) -> Option<NoteForm>
    ensures { result ≡ note_form word.now }
{
    if word == b"Import".as_slice() {
        Some(NoteForm::Import)
    } else if word == b"Annotation".as_slice() {
        Some(NoteForm::Annotation)
    } else if word == b"Declaration".as_slice() {
        Some(NoteForm::Declaration)
    } else if word == b"AnnotationAssertion".as_slice() {
        Some(NoteForm::AnnotationAssertion)
    } else if word == b"SubAnnotationPropertyOf".as_slice() {
        Some(NoteForm::SubAnnotationPropertyOf)
    } else if word == b"AnnotationPropertyDomain".as_slice() {
        Some(NoteForm::AnnotationPropertyDomain)
    } else if word == b"AnnotationPropertyRange".as_slice() {
        Some(NoteForm::AnnotationPropertyRange)
    } else {
        None
    }
}

/// The form that the word of an axiom names.
#[tactic(auto, unfolding(crate::specs::Forms::form_of))]
pub fn form_of(word: &[u8]) -> Option<Form>
    ensures { result ≡ form_of word.now }
{
    if let Some(form) = class_form(word) {
        return Some(Form::Class(form));
    }
    if let Some(form) = role_form(word) {
        return Some(Form::Role(form));
    }
    if let Some(form) = attr_form(word) {
        return Some(Form::Attr(form));
    }
    if let Some(form) = fact_form(word) {
        return Some(Form::Fact(form));
    }
    if let Some(form) = note_form(word) {
        return Some(Form::Note(form));
    }
    None
}

/// What the word of a declaration names.
#[tactic(auto, unfolding(crate::specs::Forms::entity_of))]
pub fn entity_of(word: &[u8]) -> Option<Entity>
    ensures { result ≡ entity_of word.now }
{
    if word == b"Class".as_slice() {
        Some(Entity::Class)
    } else if word == b"ObjectProperty".as_slice() {
        Some(Entity::ObjectProperty)
    } else if word == b"DataProperty".as_slice() {
        Some(Entity::DataProperty)
    } else if word == b"AnnotationProperty".as_slice() {
        Some(Entity::AnnotationProperty)
    } else if word == b"Datatype".as_slice() {
        Some(Entity::Datatype)
    } else if word == b"NamedIndividual".as_slice() {
        Some(Entity::NamedIndividual)
    } else {
        None
    }
}
