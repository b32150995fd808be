ghost use Rattle.std.specs.Prelude.{map};
ghost use Rattle.owl_read.specs.Held.{held};
ghost use Rattle.owl_read.specs.Items.{item_of};
ghost use Rattle.owl_read.specs.Outcomes.{Does};
ghost use Rattle.owl_read.specs.Rows.{attr_domain_row, attr_range_row, functional_attr_row, attr_row};

use crate::forms::AttrForm;
use crate::reader::Reader;
use crate::sides::Sort;
use crate::table::give_range;
use dl_base::{Axiom, Basic};
use dl_text::ReadRefusal;
use owl_syntax::Node;

impl Reader {
    /// `DataPropertyDomain( U right )`
    #[tactic(auto, unfolding(crate::specs::Rows::attr_domain_row, crate::specs::Rows::limited_by))]
    fn attr_domain(&mut self, line: u64, args: &[Node<'_>]) -> Result<(), ReadRefusal>
        ensures { Does (held self.new) result (attr_domain_row (held self.old) line (map item_of args.now)) }
    {
        let (attr, right) = self.scope.two(line, args)?;
        let attr = self.scope.attr(attr)?;
        self.limited_by(Basic::Domain(attr), right)
    }

    /// `DataPropertyRange( U datatype )`
    #[tactic(auto, unfolding(crate::specs::Rows::attr_range_row))]
    fn attr_range(&mut self, line: u64, args: &[Node<'_>]) -> Result<(), ReadRefusal>
        ensures { Does (held self.new) result (attr_range_row (held self.old) line (map item_of args.now)) }
    {
        let (attr, datatype) = self.scope.two(line, args)?;
        let attr = self.scope.attr(attr)?;
        let datatype = self.scope.iri(datatype)?;
        give_range(&mut self.axioms, attr, datatype)?;
        Ok(())
    }

    /// `FunctionalDataProperty( U )`
    #[tactic(auto, unfolding(crate::specs::Rows::functional_attr_row))]
    fn functional_attr(&mut self, line: u64, args: &[Node<'_>]) -> Result<(), ReadRefusal>
        ensures { Does (held self.new) result (functional_attr_row (held self.old) line (map item_of args.now)) }
    {
        let node = self.scope.one(line, args)?;
        let attr = self.scope.attr(node)?;
        Ok(self.axioms.push(Axiom::FunctionalAttr(attr))?)
    }

    /// An axiom about data properties.
    #[tactic(auto, unfolding(crate::specs::Rows::attr_row))]
    pub fn attr_axiom(
        &mut self,
        form: AttrForm,
        line: u64,
        args: &[Node<'_>],
    ) -> Result<(), ReadRefusal>
        ensures { Does (held self.new) result (attr_row form (held self.old) line (map item_of args.now)) }
    {
        match form {
            AttrForm::SubDataPropertyOf => self.sub_property(Sort::Attrs, line, args),
            AttrForm::EquivalentDataProperties => self.equivalent(Sort::Attrs, line, args),
            AttrForm::DisjointDataProperties => self.disjoint(Sort::Attrs, line, args),
            AttrForm::DataPropertyDomain => self.attr_domain(line, args),
            AttrForm::DataPropertyRange => self.attr_range(line, args),
            AttrForm::FunctionalDataProperty => self.functional_attr(line, args),
        }
    }
}
