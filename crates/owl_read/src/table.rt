ghost use Rattle.std.specs.Prelude.{◌≡◌, ◌++◌, OnOk};
ghost use Rattle.std.specs.List.{flat_map};
ghost use Rattle.owl_read.specs.Table.{same_term, same_role, included, apart, ring, all_apart, given, limited, subclass, ranged};

use crate::builtins::{Builtin, is_builtin};
use crate::sides::{Part, Pass, Side};
use dl_base::{Axiom, Basic, Name, OutOfMemory, RoleSide, Term};

fn same_term(one: Term, other: Term) -> bool
    ensures { result ≡ same_term one other }
{
    one.0 == other.0
}

fn same_role(one: RoleSide, other: RoleSide) -> bool
    ensures { result ≡ same_role one other }
{
    match (one, other) {
        (RoleSide::Direct(p), RoleSide::Direct(q)) => same_term(p, q),
        (RoleSide::Inverse(p), RoleSide::Inverse(q)) => same_term(p, q),
        _ => false,
    }
}

/// One side is included in the other.
pub fn include(axioms: &mut Vec<Axiom>, one: Side, other: Side) -> Result<(), OutOfMemory>
    ensures { OnOk result (axioms.new.items ≡ axioms.old.items ++ included one other) }
{
    match (one, other) {
        (Side::Concept(b), Side::Concept(c)) => Ok(axioms.push(Axiom::ConceptIn(b, c))?),
        (Side::Concept(b), Side::Nothing) => Ok(axioms.push(Axiom::ConceptApart(b, b))?),
        (Side::Role(q), Side::Role(r)) => {
            if same_role(q, r) {
                return Ok(());
            }
            Ok(axioms.push(Axiom::RoleIn(q, r))?)
        }
        (Side::Attr(u), Side::Attr(w)) => {
            if same_term(u, w) {
                return Ok(());
            }
            Ok(axioms.push(Axiom::AttrIn(u, w))?)
        }
        _ => Ok(()),
    }
}

/// Two sides are disjoint.
fn separate(axioms: &mut Vec<Axiom>, one: Side, other: Side) -> Result<(), OutOfMemory>
    ensures { OnOk result (axioms.new.items ≡ axioms.old.items ++ apart one other) }
{
    match (one, other) {
        (Side::Concept(b), Side::Concept(c)) => Ok(axioms.push(Axiom::ConceptApart(b, c))?),
        (Side::Role(q), Side::Role(r)) => Ok(axioms.push(Axiom::RoleApart(q, r))?),
        (Side::Attr(u), Side::Attr(w)) => Ok(axioms.push(Axiom::AttrApart(u, w))?),
        _ => Ok(()),
    }
}

/// Each side is included in the next, and the last in the first.
pub fn close_ring(axioms: &mut Vec<Axiom>, sides: &[Side]) -> Result<(), OutOfMemory>
    ensures { OnOk result (axioms.new.items ≡ axioms.old.items ++ ring sides.now) }
{
    let Some((first, rest)) = sides.split_first() else {
        return Ok(());
    };
    let mut one = *first;
    for two in rest {
        include(axioms, one, *two)?;
        one = *two;
    }
    include(axioms, one, *first)
}

/// One side is disjoint from each other.
fn separate_all(axioms: &mut Vec<Axiom>, one: Side, others: &[Side]) -> Result<(), OutOfMemory>
    ensures { OnOk result (axioms.new.items ≡ axioms.old.items ++ flat_map (apart one) others.now) }
{
    for other in others {
        separate(axioms, one, *other)?;
    }
    Ok(())
}

/// Each two sides are disjoint.
pub fn separate_each(axioms: &mut Vec<Axiom>, sides: &[Side]) -> Result<(), OutOfMemory>
    ensures { OnOk result (axioms.new.items ≡ axioms.old.items ++ all_apart sides.now) }
{
    let mut rest = sides;
    while let Some((one, others)) = rest.split_first() {
        separate_all(axioms, *one, others)?;
        rest = others;
    }
    Ok(())
}

/// What a part gives in this pass.
fn give_part(
    axioms: &mut Vec<Axiom>,
    pass: Pass,
    concept: Basic,
    part: Part,
) -> Result<(), OutOfMemory>
    ensures { OnOk result (axioms.new.items ≡ axioms.old.items ++ given pass concept part) }
{
    match (pass, part) {
        (Pass::Within, Part::Within(c)) => Ok(axioms.push(Axiom::ConceptIn(concept, c))?),
        (Pass::Related, Part::Related(q, c)) => Ok(axioms.push(Axiom::ConceptSome(concept, q, c))?),
        (Pass::Outside, Part::Outside(c)) => Ok(axioms.push(Axiom::ConceptApart(concept, c))?),
        (Pass::Empty, Part::Empty) => Ok(axioms.push(Axiom::ConceptApart(concept, concept))?),
        _ => Ok(()),
    }
}

/// What the parts give in this pass.
fn give_parts(
    axioms: &mut Vec<Axiom>,
    pass: Pass,
    concept: Basic,
    parts: &[Part],
) -> Result<(), OutOfMemory>
    ensures { OnOk result (axioms.new.items ≡ axioms.old.items ++ flat_map (given pass concept) parts.now) }
{
    for part in parts {
        give_part(axioms, pass, concept, *part)?;
    }
    Ok(())
}

/// The concept is within a right side of these parts.
pub fn limit(axioms: &mut Vec<Axiom>, concept: Basic, parts: &[Part]) -> Result<(), OutOfMemory>
    ensures { OnOk result (axioms.new.items ≡ axioms.old.items ++ limited concept parts.now) }
{
    give_parts(axioms, Pass::Within, concept, parts)?;
    give_parts(axioms, Pass::Related, concept, parts)?;
    give_parts(axioms, Pass::Outside, concept, parts)?;
    give_parts(axioms, Pass::Empty, concept, parts)
}

/// A left side is within a right side of these parts.
pub fn include_parts(axioms: &mut Vec<Axiom>, left: Side, parts: &[Part]) -> Result<(), OutOfMemory>
    ensures { OnOk result (axioms.new.items ≡ axioms.old.items ++ subclass left parts.now) }
{
    match left {
        Side::Concept(concept) => limit(axioms, concept, parts),
        Side::Nothing => Ok(()),
        Side::Role(_) => Ok(()),
        Side::Attr(_) => Ok(()),
    }
}

/// The attribute's values are of the datatype.
pub fn give_range(axioms: &mut Vec<Axiom>, attr: Term, datatype: Name) -> Result<(), OutOfMemory>
    ensures { OnOk result (axioms.new.items ≡ axioms.old.items ++ ranged attr datatype) }
{
    if is_builtin(Builtin::Literal, datatype.as_slice()) {
        return Ok(());
    }
    Ok(axioms.push(Axiom::Range(attr, datatype))?)
}
