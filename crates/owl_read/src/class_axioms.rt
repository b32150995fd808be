ghost use Rattle.std.specs.Prelude.{map};
ghost use Rattle.owl_read.specs.Held.{held};
ghost use Rattle.owl_read.specs.Items.{item_of};
ghost use Rattle.owl_read.specs.Outcomes.{Does};
ghost use Rattle.owl_read.specs.Rows.{equivalent, disjoint, sub_property, sub_class, class_row};

use crate::forms::ClassForm;
use crate::reader::Reader;
use crate::sides::Sort;
use crate::table::{close_ring, include, include_parts, separate_each};
use dl_text::ReadRefusal;
use owl_syntax::Node;

impl Reader {
    /// Each of two or more is included in the next, and the last in the first.
    #[tactic(auto, unfolding(crate::specs::Rows::equivalent))]
    pub fn equivalent(
        &mut self,
        sort: Sort,
        line: u64,
        args: &[Node<'_>],
    ) -> Result<(), ReadRefusal>
        ensures { Does (held self.new) result (equivalent sort (held self.old) line (map item_of args.now)) }
    {
        let sides = self.scope.listed(sort, line, args)?;
        close_ring(&mut self.axioms, sides.as_slice())?;
        Ok(())
    }

    /// Each two of two or more are disjoint.
    #[tactic(auto, unfolding(crate::specs::Rows::disjoint))]
    pub fn disjoint(&mut self, sort: Sort, line: u64, args: &[Node<'_>]) -> Result<(), ReadRefusal>
        ensures { Does (held self.new) result (disjoint sort (held self.old) line (map item_of args.now)) }
    {
        let sides = self.scope.listed(sort, line, args)?;
        separate_each(&mut self.axioms, sides.as_slice())?;
        Ok(())
    }

    /// One role or attribute is included in another.
    #[tactic(auto, unfolding(crate::specs::Rows::sub_property))]
    pub fn sub_property(
        &mut self,
        sort: Sort,
        line: u64,
        args: &[Node<'_>],
    ) -> Result<(), ReadRefusal>
        ensures { Does (held self.new) result (sub_property sort (held self.old) line (map item_of args.now)) }
    {
        let (one, two) = self.scope.two(line, args)?;
        let one = self.scope.side(sort, one)?;
        let two = self.scope.side(sort, two)?;
        include(&mut self.axioms, one, two)?;
        Ok(())
    }

    /// `SubClassOf( left right )`
    #[tactic(auto, unfolding(crate::specs::Rows::sub_class))]
    fn sub_class(&mut self, line: u64, args: &[Node<'_>]) -> Result<(), ReadRefusal>
        ensures { Does (held self.new) result (sub_class (held self.old) line (map item_of args.now)) }
    {
        let (left, right) = self.scope.two(line, args)?;
        let left = self.scope.left(left)?;
        let parts = self.scope.parts(right)?;
        include_parts(&mut self.axioms, left, parts.as_slice())?;
        Ok(())
    }

    /// An axiom about classes.
    #[tactic(auto, unfolding(crate::specs::Rows::class_row))]
    pub fn class_axiom(
        &mut self,
        form: ClassForm,
        line: u64,
        args: &[Node<'_>],
    ) -> Result<(), ReadRefusal>
        ensures { Does (held self.new) result (class_row form (held self.old) line (map item_of args.now)) }
    {
        match form {
            ClassForm::SubClassOf => self.sub_class(line, args),
            ClassForm::EquivalentClasses => self.equivalent(Sort::Concepts, line, args),
            ClassForm::DisjointClasses => self.disjoint(Sort::Concepts, line, args),
        }
    }
}
