ghost use Rattle.std.specs.Prelude.{◌≡◌, [], IfErr, OnOk, map};
ghost use Rattle.std.specs.List.{list_any};
ghost use Rattle.std.specs.Str.{bytes_eq};
ghost use Rattle.owl_read.specs.Held.{held};
ghost use Rattle.owl_read.specs.Items.{item_of};
ghost use Rattle.owl_read.specs.Outcomes.{Gives, Does};
ghost use Rattle.owl_read.specs.Scopes.{Naming};
ghost use Rattle.owl_read.specs.Rows.{asserted_class, in_class, class_fact, role_fact, object_fact, data_fact, different_at, different_row, fact_row};

use crate::forms::FactForm;
use crate::nodes::line_of;
use crate::outcomes::refused;
use crate::reader::Reader;
use crate::scope::Scope;
use crate::sides::ClassName;
use dl_base::{Fact, Name, OutOfMemory, RoleSide, Term};
use dl_text::{ReadKind, ReadRefusal};
use owl_syntax::Node;
use std::collections::BTreeSet;

/// Two individuals stand in the role, or in the other order where it is an inverse.
fn role_fact(role: RoleSide, from: Name, to: Name) -> Fact
    ensures { result ≡ role_fact role from to }
{
    match role {
        RoleSide::Direct(p) => Fact::Role(p, from, to),
        RoleSide::Inverse(p) => Fact::Role(p, to, from),
    }
}

/// The class of an assertion: a term, or none for `owl:Thing`.
fn asserted_class(line: u64, name: ClassName) -> Result<Option<Term>, ReadRefusal>
    ensures { (s : Naming) → Gives s result (asserted_class s line name) }
{
    match name {
        ClassName::Named(class) => Ok(Some(class)),
        ClassName::Thing => Ok(None),
        ClassName::Nothing => Err(refused(line, ReadKind::NotDlLite)),
    }
}

impl Scope {
    /// Individuals of which none is named twice.
    #[tactic(auto, unfolding(crate::specs::Rows::different_at))]
    fn different(&mut self, nodes: &[Node<'_>]) -> Result<(), ReadRefusal>
        ensures { Does self.new result (different_at [] self.old (map item_of nodes.now)) }
    {
        let mut seen = BTreeSet::new(self.alloc());
        for node in nodes {
            let name = self.individual(node)?;
            if !seen.insert(name)? {
                return Err(refused(line_of(node), ReadKind::NotDlLite));
            }
        }
        Ok(())
    }
}

impl Reader {
    /// An individual is in the class; that it is in `owl:Thing` is skipped.
    fn put_in_class(&mut self, class: Option<Term>, individual: Name) -> Result<(), ReadRefusal>
        ensures ok { OnOk result (held self.new ≡ in_class (held self.old) self.old.scope class individual) }
        ensures memory { IfErr result (λ e. e ≡ ReadRefusal.OutOfMemory) }
    {
        match class {
            Some(class) => Ok(self.facts.push(Fact::Class(class, individual))?),
            None => match self.skipped.checked_add(1) {
                Some(skipped) => {
                    self.skipped = skipped;
                    Ok(())
                }
                None => Err(ReadRefusal::OutOfMemory),
            },
        }
    }

    /// `ClassAssertion( C a )`
    #[tactic(auto, unfolding(crate::specs::Rows::class_fact))]
    fn class_fact(&mut self, line: u64, args: &[Node<'_>]) -> Result<(), ReadRefusal>
        ensures { Does (held self.new) result (class_fact (held self.old) line (map item_of args.now)) }
    {
        let (class, individual) = self.scope.two(line, args)?;
        let name = self.scope.class(class)?;
        let class = asserted_class(line_of(class), name)?;
        let individual = self.scope.individual(individual)?;
        self.put_in_class(class, individual)
    }

    /// `ObjectPropertyAssertion( Q a b )`
    #[tactic(auto, unfolding(crate::specs::Rows::object_fact))]
    fn object_fact(&mut self, line: u64, args: &[Node<'_>]) -> Result<(), ReadRefusal>
        ensures { Does (held self.new) result (object_fact (held self.old) line (map item_of args.now)) }
    {
        let (role, from, to) = self.scope.three(line, args)?;
        let role = self.scope.role(role)?;
        let from = self.scope.individual(from)?;
        let to = self.scope.individual(to)?;
        Ok(self.facts.push(role_fact(role, from, to))?)
    }

    /// `DataPropertyAssertion( U a literal )`
    #[tactic(auto, unfolding(crate::specs::Rows::data_fact))]
    fn data_fact(&mut self, line: u64, args: &[Node<'_>]) -> Result<(), ReadRefusal>
        ensures { Does (held self.new) result (data_fact (held self.old) line (map item_of args.now)) }
    {
        let (attr, individual, value) = self.scope.three(line, args)?;
        let attr = self.scope.attr(attr)?;
        let individual = self.scope.individual(individual)?;
        let value = self.scope.literal(value)?;
        Ok(self.facts.push(Fact::Attr(attr, individual, value))?)
    }

    /// `DifferentIndividuals( a b .. )`
    #[tactic(auto, unfolding(crate::specs::Rows::different_row))]
    fn different_individuals(&mut self, line: u64, args: &[Node<'_>]) -> Result<(), ReadRefusal>
        ensures { Does (held self.new) result (different_row (held self.old) line (map item_of args.now)) }
    {
        let nodes = self.scope.some(line, args)?;
        self.scope.different(nodes)
    }

    /// An axiom about individuals.
    #[tactic(auto, unfolding(crate::specs::Rows::fact_row))]
    pub fn assertion(
        &mut self,
        form: FactForm,
        line: u64,
        args: &[Node<'_>],
    ) -> Result<(), ReadRefusal>
        ensures { Does (held self.new) result (fact_row form (held self.old) line (map item_of args.now)) }
    {
        match form {
            FactForm::ClassAssertion => self.class_fact(line, args),
            FactForm::ObjectPropertyAssertion => self.object_fact(line, args),
            FactForm::DataPropertyAssertion => self.data_fact(line, args),
            FactForm::DifferentIndividuals => self.different_individuals(line, args),
        }
    }
}
