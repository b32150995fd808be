use dl_base::{Basic, RoleSide, Term};

/// A class by its name.
#[derive(Clone, Copy, Debug, PartialEq, Eq)]
pub enum ClassName {
    Thing,
    Nothing,
    Named(Term),
}

/// `owl:Thing`, `owl:Nothing` or a basic concept.
#[derive(Clone, Copy, Debug, PartialEq, Eq)]
pub enum Concept {
    Thing,
    Nothing,
    Basic(Basic),
}

/// What stands on one side of an inclusion or a disjointness: `owl:Nothing`, a basic concept, a role or an attribute.
#[derive(Clone, Copy, Debug, PartialEq, Eq)]
pub enum Side {
    Nothing,
    Concept(Basic),
    Role(RoleSide),
    Attr(Term),
}

/// Which sides stand at a place.
#[derive(Clone, Copy, Debug, PartialEq, Eq)]
pub enum Sort {
    Concepts,
    Roles,
    Attrs,
}

/// A part of the right side of an inclusion of classes.
#[derive(Clone, Copy, Debug, PartialEq, Eq)]
pub enum Part {
    /// What is on the left is within the concept.
    Within(Basic),
    /// It has some partner in the role that is in the concept.
    Related(RoleSide, Basic),
    /// It is outside the concept.
    Outside(Basic),
    /// There is none of it.
    Empty,
}

/// Which parts of a right side give their axioms: these passes are made one after another.
#[derive(Clone, Copy, Debug, PartialEq, Eq)]
pub enum Pass {
    Within,
    Related,
    Outside,
    Empty,
}
