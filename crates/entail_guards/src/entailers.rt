ghost use Rattle.std.specs.Prelude.{◌≡◌, ◌↔◌, ◌⊎◌, ◌∷◌, [], IsTrue, IfOk, length};
ghost use Rattle.dl_base.specs.Derivation.{InClosure};
ghost use Rattle.dl_base.specs.Ontologies.{IsTerm};
ghost use Rattle.dl_base.specs.Validity.{IsOntology};
ghost use Rattle.dl_base.specs.declared.terms.Kind.TheVariants as kind;
ghost use Rattle.dl_base.specs.Reach.{ConceptReaches};
ghost use Rattle.dl_base.specs.Clash.{RoleReaches, AttrReaches};
ghost use Rattle.dl_base.specs.declared.terms.Basic.TheVariants as basic;
ghost use Rattle.dl_base.specs.declared.terms.RoleSide.TheVariants.{Direct};
ghost use Rattle.entail_guards.specs.Entailing.{EntailsClass, EntailsRole, EntailsAttr};

use dl_base::{Basic, Fact, Name, OutOfMemory, RoleSide, Term, Value};
use std::marker::Model;
use tbox_closure::Implied;

/// What single facts entail under an ontology.
#[derive(Drop)]
pub struct Entailers {
    implied: Implied,
}

impl Model for Entailers {
    ghost use Rattle.dl_base.specs.Ontologies.{Theory};

    ghost Value = { Theory };

    ghost view = { λ e. e.implied };
}

impl Entailers {
    /// What follows from the inclusions of the ontology, shared.
    pub fn compile(implied: &Implied) -> Result<Entailers, OutOfMemory>
        ensures { IfOk result (λ entailers. entailers ≡ implied.now) }
    {
        let implied = implied.share()?;
        Ok(Entailers { implied })
    }

    /// The number of terms.
    pub fn terms(&self) -> usize
        ensures count { result ≡ length self.now.terms }
        ensures sound { IsOntology self.now }
    {
        self.implied.terms()
    }

    pub(crate) fn is_role(&self, term: Term) -> bool
        ensures { IsTrue result ↔ IsTerm self.now term kind.Role }
    {
        self.implied.is_role(term)
    }

    /// Whether the closure of the first fact holds the second.
    pub fn entails(&self, first: &Fact, second: &Fact) -> bool
        ensures { IsTrue result ↔ InClosure self.now.axioms (first.now ∷ []) second.now }
    {
        match second {
            Fact::Class(class, name) => self.entails_class(first, *class, name),
            Fact::Role(role, from, to) => self.entails_role(first, *role, from, to),
            Fact::Attr(attr, from, value) => self.entails_attr(first, *attr, from, value),
        }
    }

    fn entails_class(&self, given: &Fact, class: Term, name: &Name) -> bool
        ensures { IsTrue result ↔ EntailsClass self.now.axioms given.now class name.now }
    {
        match given {
            Fact::Class(t, a) => name.is(a) && self.reaches_class(Basic::Class(*t), class),
            Fact::Role(p, a, b) => {
                if name.is(a) && self.reaches_class(Basic::Exists(RoleSide::Direct(*p)), class) {
                    return true;
                }
                name.is(b) && self.reaches_class(Basic::Exists(RoleSide::Inverse(*p)), class)
            }
            Fact::Attr(u, a, _) => name.is(a) && self.reaches_class(Basic::Domain(*u), class),
        }
    }

    pub(crate) fn reaches_class(&self, from: Basic, class: Term) -> bool
        ensures { IsTrue result ↔ ConceptReaches self.now.axioms from (basic.Class class) }
    {
        self.implied.concept(from, Basic::Class(class))
    }

    fn entails_role(&self, given: &Fact, role: Term, from: &Name, to: &Name) -> bool
        ensures { IsTrue result ↔ EntailsRole self.now.axioms given.now role from.now to.now }
    {
        match given {
            Fact::Role(q, a, b) => {
                if from.is(a) && to.is(b) && self.reaches_role(RoleSide::Direct(*q), role) {
                    return true;
                }
                from.is(b) && to.is(a) && self.reaches_role(RoleSide::Inverse(*q), role)
            }
            _ => false,
        }
    }

    pub(crate) fn reaches_role(&self, from: RoleSide, role: Term) -> bool
        ensures { IsTrue result ↔ RoleReaches self.now.axioms from (Direct role) }
    {
        self.implied.role(from, RoleSide::Direct(role))
    }

    fn entails_attr(&self, given: &Fact, attr: Term, from: &Name, value: &Value) -> bool
        ensures { IsTrue result ↔ EntailsAttr self.now.axioms given.now attr from.now value.now }
    {
        match given {
            Fact::Attr(u, a, v) => from.is(a) && value.is(v) && self.reaches_attr(*u, attr),
            _ => false,
        }
    }

    pub(crate) fn reaches_attr(&self, from: Term, attr: Term) -> bool
        ensures { IsTrue result ↔ AttrReaches self.now.axioms from attr }
    {
        self.implied.attr(from, attr)
    }
}

#[cfg(test)]
mod tests {
    use super::*;
    use crate::samples::{ROWS, entailers, fact, ontology};
    use std::test::Fail;

    // Each fact of the rows is entailed by those in whose rows it stands.
    #[test]
    fn facts_are_entailed_as_their_rows_say(rt: HostRuntime) -> Result<(), Fail> {
        let alloc = rt.alloc();
        let entailers = entailers(alloc, &ontology(alloc)?)?;
        assert_eq!(rt; entailers.terms(), 8);
        for (given, entailed) in ROWS {
            let given = fact(alloc, given)?;
            for line in ROWS.iter().flat_map(|row| row.1.iter()) {
                let other = fact(alloc, *line)?;
                assert_eq!(rt;
                    entailers.entails(&given, &other),
                    entailed.contains(line),
                    "{line:?}"
                );
            }
        }
        Ok(())
    }
}
