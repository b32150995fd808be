ghost use Rattle.std.specs.Prelude.{◌≡◌, ◌++◌, OnOk, IfOk};
ghost use Rattle.dl_laws.specs.Edges as edge;
ghost use Rattle.tbox_closure.specs.Edges.{all_edges, edges_of};

use crate::edges::Part;
use crate::nodes::{concept_number, merged_number, role_number, turned};
use dl_base::{Axiom, Basic, OutOfMemory};
use std::alloc::Global;

/// The part's edges of all the axioms.
pub fn gather(
    alloc: Global,
    part: Part,
    axioms: &[Axiom],
) -> Result<Vec<(usize, usize)>, OutOfMemory>
    ensures { IfOk result (λ edges. edges.items ≡ all_edges part axioms.now) }
{
    let mut edges = Vec::new(alloc);
    for it in axioms {
        add(part, it, &mut edges)?;
    }
    Ok(edges)
}

fn add(part: Part, it: &Axiom, edges: &mut Vec<(usize, usize)>) -> Result<(), OutOfMemory>
    ensures { OnOk result (edges.new.items ≡ edges.old.items ++ edges_of part it.now) }
{
    match part {
        Part::ConceptEdges => add_concept_edges(it, edges),
        Part::RoleEdges => add_role_edges(it, edges),
        Part::AttrEdges => add_attr_edges(it, edges),
        Part::NeedEdges => add_need_edges(it, edges),
    }
}

fn add_concept_edges(it: &Axiom, edges: &mut Vec<(usize, usize)>) -> Result<(), OutOfMemory>
    ensures { OnOk result (edges.new.items ≡ edges.old.items ++ edge.concept_edges it.now) }
{
    match it {
        Axiom::ConceptIn(b, c) => edges.push((concept_number(*b), concept_number(*c)))?,
        Axiom::RoleIn(q, r) => {
            edges.push((
                concept_number(Basic::Exists(*q)),
                concept_number(Basic::Exists(*r)),
            ))?;
            edges.push((
                concept_number(Basic::Exists(turned(*q))),
                concept_number(Basic::Exists(turned(*r))),
            ))?;
        }
        Axiom::AttrIn(u, w) => edges.push((
            concept_number(Basic::Domain(*u)),
            concept_number(Basic::Domain(*w)),
        ))?,
        Axiom::ConceptSome(b, q, _) => {
            edges.push((concept_number(*b), concept_number(Basic::Exists(*q))))?
        }
        _ => {}
    }
    Ok(())
}

fn add_role_edges(it: &Axiom, edges: &mut Vec<(usize, usize)>) -> Result<(), OutOfMemory>
    ensures { OnOk result (edges.new.items ≡ edges.old.items ++ edge.role_edges it.now) }
{
    if let Axiom::RoleIn(q, r) = it {
        edges.push((role_number(*q), role_number(*r)))?;
        edges.push((role_number(turned(*q)), role_number(turned(*r))))?;
    }
    Ok(())
}

fn add_attr_edges(it: &Axiom, edges: &mut Vec<(usize, usize)>) -> Result<(), OutOfMemory>
    ensures { OnOk result (edges.new.items ≡ edges.old.items ++ edge.attr_edges it.now) }
{
    if let Axiom::AttrIn(u, w) = it {
        edges.push((u.0 as usize, w.0 as usize))?;
    }
    Ok(())
}

fn add_need_edges(it: &Axiom, edges: &mut Vec<(usize, usize)>) -> Result<(), OutOfMemory>
    ensures { OnOk result (edges.new.items ≡ edges.old.items ++ edge.need_edges it.now) }
{
    match it {
        Axiom::ConceptIn(b, c) => edges.push((merged_number(*b), merged_number(*c)))?,
        Axiom::RoleIn(q, r) => edges.push((
            merged_number(Basic::Exists(*q)),
            merged_number(Basic::Exists(*r)),
        ))?,
        Axiom::AttrIn(u, w) => edges.push((
            merged_number(Basic::Domain(*u)),
            merged_number(Basic::Domain(*w)),
        ))?,
        Axiom::ConceptSome(b, q, c) => {
            edges.push((merged_number(*b), merged_number(Basic::Exists(*q))))?;
            edges.push((merged_number(*b), merged_number(*c)))?;
        }
        _ => {}
    }
    Ok(())
}
