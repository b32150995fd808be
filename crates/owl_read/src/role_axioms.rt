ghost use Rattle.std.specs.Prelude.{map};
ghost use Rattle.owl_read.specs.Held.{held};
ghost use Rattle.owl_read.specs.Items.{item_of};
ghost use Rattle.owl_read.specs.Outcomes.{Gives, Does};
ghost use Rattle.owl_read.specs.Rows.{inverse_row, limited_by, domain_row, range_row, one_role, role_row};

use crate::forms::RoleForm;
use crate::reader::Reader;
use crate::roles::inverse;
use crate::scope::Scope;
use crate::sides::{Side, Sort};
use crate::table::{include, limit};
use dl_base::{Axiom, Basic, RoleSide};
use dl_text::ReadRefusal;
use owl_syntax::Node;

impl Scope {
    /// The one role behind the annotations.
    #[tactic(auto, unfolding(crate::specs::Rows::one_role))]
    fn one_role(&mut self, line: u64, args: &[Node<'_>]) -> Result<RoleSide, ReadRefusal>
        ensures { Gives self.new result (one_role self.old line (map item_of args.now)) }
    {
        let node = self.one(line, args)?;
        self.role(node)
    }
}

impl Reader {
    /// `InverseObjectProperties( Q R )`
    #[tactic(auto, unfolding(crate::specs::Rows::inverse_row))]
    fn inverse_roles(&mut self, line: u64, args: &[Node<'_>]) -> Result<(), ReadRefusal>
        ensures { Does (held self.new) result (inverse_row (held self.old) line (map item_of args.now)) }
    {
        let (one, two) = self.scope.two(line, args)?;
        let one = self.scope.role(one)?;
        let two = inverse(self.scope.role(two)?);
        include(&mut self.axioms, Side::Role(one), Side::Role(two))?;
        include(&mut self.axioms, Side::Role(two), Side::Role(one))?;
        Ok(())
    }

    /// The concept is within the right side at the node.
    #[tactic(auto, unfolding(crate::specs::Rows::limited_by))]
    pub fn limited_by(&mut self, concept: Basic, node: &Node<'_>) -> Result<(), ReadRefusal>
        ensures { Does (held self.new) result (limited_by (held self.old) self.old.scope concept (item_of node.now)) }
    {
        let parts = self.scope.parts(node)?;
        limit(&mut self.axioms, concept, parts.as_slice())?;
        Ok(())
    }

    /// `ObjectPropertyDomain( Q right )`
    #[tactic(auto, unfolding(crate::specs::Rows::domain_row, crate::specs::Rows::limited_by))]
    fn role_domain(&mut self, line: u64, args: &[Node<'_>]) -> Result<(), ReadRefusal>
        ensures { Does (held self.new) result (domain_row (held self.old) line (map item_of args.now)) }
    {
        let (role, right) = self.scope.two(line, args)?;
        let role = self.scope.role(role)?;
        self.limited_by(Basic::Exists(role), right)
    }

    /// `ObjectPropertyRange( Q right )`
    #[tactic(auto, unfolding(crate::specs::Rows::range_row, crate::specs::Rows::limited_by))]
    fn role_range(&mut self, line: u64, args: &[Node<'_>]) -> Result<(), ReadRefusal>
        ensures { Does (held self.new) result (range_row (held self.old) line (map item_of args.now)) }
    {
        let (role, right) = self.scope.two(line, args)?;
        let role = self.scope.role(role)?;
        self.limited_by(Basic::Exists(inverse(role)), right)
    }

    /// An axiom about object properties.
    #[tactic(auto, unfolding(crate::specs::Rows::role_row))]
    pub fn role_axiom(
        &mut self,
        form: RoleForm,
        line: u64,
        args: &[Node<'_>],
    ) -> Result<(), ReadRefusal>
        ensures { Does (held self.new) result (role_row form (held self.old) line (map item_of args.now)) }
    {
        match form {
            RoleForm::SubObjectPropertyOf => self.sub_property(Sort::Roles, line, args),
            RoleForm::EquivalentObjectProperties => self.equivalent(Sort::Roles, line, args),
            RoleForm::DisjointObjectProperties => self.disjoint(Sort::Roles, line, args),
            RoleForm::InverseObjectProperties => self.inverse_roles(line, args),
            RoleForm::ObjectPropertyDomain => self.role_domain(line, args),
            RoleForm::ObjectPropertyRange => self.role_range(line, args),
            RoleForm::SymmetricObjectProperty => {
                let role = self.scope.one_role(line, args)?;
                Ok(self.axioms.push(Axiom::RoleIn(role, inverse(role)))?)
            }
            RoleForm::AsymmetricObjectProperty => {
                let role = self.scope.one_role(line, args)?;
                Ok(self.axioms.push(Axiom::RoleApart(role, inverse(role)))?)
            }
            RoleForm::FunctionalObjectProperty => {
                let role = self.scope.one_role(line, args)?;
                Ok(self.axioms.push(Axiom::FunctionalRole(role))?)
            }
            RoleForm::InverseFunctionalObjectProperty => {
                let role = self.scope.one_role(line, args)?;
                Ok(self.axioms.push(Axiom::FunctionalRole(inverse(role)))?)
            }
        }
    }
}
