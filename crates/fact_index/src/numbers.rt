ghost use Rattle.std.specs.Prelude.{◌≡◌, ◌↔◌, ◌<◌, ◌≤◌, ◌^◌, [], ℕ, Some, IfOk, MatchOption, length, slice_get};
ghost use Rattle.dl_base.specs.declared.statements.Fact.TheVariants as fact_form;
ghost use Rattle.fact_index.specs.Numbers.{AreOnce, IsGrown, IsLinkOf, IsWithin, Extends, StandsFor, fact_at, name_at, value_at};
ghost use Rattle.fact_index.specs.Looking.{Covers, LinksMatch};
ghost use Rattle.fact_index.specs.declared.places.Link as link_type;
ghost use Rattle.fact_index.specs.declared.places.Shape.TheVariants as shape_form;

use crate::places::{Link, Place, Run, Shape};
use dl_base::{Fact, Name, OutOfMemory, Pattern, Term, Value};
use indexmap::IndexSet;
use std::alloc::Global;
use std::hash::Hash;
use std::marker::Model;

/// Names and values, each with a number: its place, from 0. A number stays with its name or value for good.
#[derive(Drop)]
pub struct Numbers {
    names: IndexSet<Name>,
    values: IndexSet<Value>,
}

impl Model for Numbers {
    ghost use Rattle.std.specs.Prelude.{◌≤◌, ◌^◌, length};
    ghost use Rattle.fact_index.specs.Numbers.{Numbered, AreOnce};

    ghost Value = { Numbered };

    ghost view = { λ n. record { names = n.names.keys; values = n.values.keys } };

    ghost invariant = { λ n. AreOnce n.names.keys × AreOnce n.values.keys × (length n.names.keys ≤ 2 ^ 32) × (length n.values.keys ≤ 2 ^ 32) };
}

impl Numbers {
    /// No name and no value. It takes no memory.
    pub fn new(alloc: Global) -> Numbers
        ensures { result ≡ record { names = []; values = [] } }
    {
        Numbers {
            names: IndexSet::new(alloc),
            values: IndexSet::new(alloc),
        }
    }

    /// How many names have a number. No name and no value has two.
    pub fn names(&self) -> usize
        ensures names { result ≡ length self.now.names }
        ensures once { AreOnce self.now.names × AreOnce self.now.values }
    {
        self.names.len()
    }

    /// The number of the name.
    fn of_name(&self, name: &Name) -> Option<u32>
        ensures { (i : ℕ) → (slice_get self.now.names i ≡ Some name.now) ↔ (result ≡ Some i) }
    {
        number_of(&self.names, name)
    }

    /// The number of the value.
    fn of_value(&self, value: &Value) -> Option<u32>
        ensures { (i : ℕ) → (slice_get self.now.values i ≡ Some value.now) ↔ (result ≡ Some i) }
    {
        number_of(&self.values, value)
    }

    /// The link that stands for the fact. It takes no memory.
    pub fn link_of(&self, fact: &Fact) -> Option<Link>
        ensures { (l : link_type.Link) → IsLinkOf self.now fact.now l ↔ (result ≡ Some l) }
    {
        match fact {
            Fact::Class(class, a) => self.of_class(*class, a),
            Fact::Role(role, a, b) => self.of_role(*role, a, b),
            Fact::Attr(attr, a, v) => self.of_attr(*attr, a, v),
        }
    }

    fn of_class(&self, class: Term, a: &Name) -> Option<Link>
        ensures { (l : link_type.Link) → IsLinkOf self.now (fact_form.Class class a.now) l ↔ (result ≡ Some l) }
    {
        let from = self.of_name(a)?;
        Some(link(Shape::Class, class, from, 0))
    }

    fn of_role(&self, role: Term, a: &Name, b: &Name) -> Option<Link>
        ensures { (l : link_type.Link) → IsLinkOf self.now (fact_form.Role role a.now b.now) l ↔ (result ≡ Some l) }
    {
        let from = self.of_name(a)?;
        let to = self.of_name(b)?;
        Some(link(Shape::Role, role, from, to))
    }

    fn of_attr(&self, attr: Term, a: &Name, v: &Value) -> Option<Link>
        ensures { (l : link_type.Link) → IsLinkOf self.now (fact_form.Attr attr a.now v.now) l ↔ (result ≡ Some l) }
    {
        let from = self.of_name(a)?;
        let to = self.of_value(v)?;
        Some(link(Shape::Attr, attr, from, to))
    }

    /// The number of the name, which it gets now where it has none.
    fn name_in(&mut self, alloc: Global, name: &Name) -> Result<u32, OutOfMemory>
        ensures numbered { IfOk result (λ n. slice_get self.new.names n ≡ Some name.now) }
        ensures grown { Extends self.old self.new }
        ensures once { AreOnce self.new.names × AreOnce self.new.values }
    {
        number_in(&mut self.names, name.copy(alloc)?)
    }

    /// The number of the value, which it gets now where it has none.
    fn value_in(&mut self, alloc: Global, value: &Value) -> Result<u32, OutOfMemory>
        ensures numbered { IfOk result (λ n. slice_get self.new.values n ≡ Some value.now) }
        ensures grown { Extends self.old self.new }
        ensures once { AreOnce self.new.names × AreOnce self.new.values }
    {
        number_in(&mut self.values, value.copy(alloc)?)
    }

    /// The link that stands for the fact from now on.
    pub fn link_in(&mut self, alloc: Global, fact: &Fact) -> Result<Link, OutOfMemory>
        ensures linked { IfOk result (λ link. (l : link_type.Link) → IsLinkOf self.new fact.now l ↔ (l ≡ link)) }
        ensures grown { Extends self.old self.new }
    {
        match fact {
            Fact::Class(class, a) => self.class_in(alloc, *class, a),
            Fact::Role(role, a, b) => self.role_in(alloc, *role, a, b),
            Fact::Attr(attr, a, v) => self.attr_in(alloc, *attr, a, v),
        }
    }

    fn class_in(&mut self, alloc: Global, class: Term, a: &Name) -> Result<Link, OutOfMemory>
        ensures linked { IfOk result (λ link. (l : link_type.Link) → IsLinkOf self.new (fact_form.Class class a.now) l ↔ (l ≡ link)) }
        ensures grown { Extends self.old self.new }
    {
        let from = self.name_in(alloc, a)?;
        Ok(link(Shape::Class, class, from, 0))
    }

    fn role_in(
        &mut self,
        alloc: Global,
        role: Term,
        a: &Name,
        b: &Name,
    ) -> Result<Link, OutOfMemory>
        ensures linked { IfOk result (λ link. (l : link_type.Link) → IsLinkOf self.new (fact_form.Role role a.now b.now) l ↔ (l ≡ link)) }
        ensures grown { Extends self.old self.new }
    {
        let from = self.name_in(alloc, a)?;
        let to = self.name_in(alloc, b)?;
        Ok(link(Shape::Role, role, from, to))
    }

    fn attr_in(
        &mut self,
        alloc: Global,
        attr: Term,
        a: &Name,
        v: &Value,
    ) -> Result<Link, OutOfMemory>
        ensures linked { IfOk result (λ link. (l : link_type.Link) → IsLinkOf self.new (fact_form.Attr attr a.now v.now) l ↔ (l ≡ link)) }
        ensures grown { Extends self.old self.new }
    {
        let from = self.name_in(alloc, a)?;
        let to = self.value_in(alloc, v)?;
        Ok(link(Shape::Attr, attr, from, to))
    }

    fn name_at(&self, alloc: Global, number: u32) -> Result<Name, OutOfMemory>
        requires { number < length self.now.names }
        ensures { IfOk result (λ name. name ≡ name_at self.now number) }
    {
        self.names.as_slice()[number as usize].copy(alloc)
    }

    fn value_at(&self, alloc: Global, number: u32) -> Result<Value, OutOfMemory>
        requires { number < length self.now.values }
        ensures { IfOk result (λ value. value ≡ value_at self.now number) }
    {
        self.values.as_slice()[number as usize].copy(alloc)
    }

    /// The fact that the link stands for.
    pub fn fact_of(&self, alloc: Global, link: &Link) -> Result<Fact, OutOfMemory>
        requires { IsWithin self.now link.now }
        ensures { IfOk result (λ fact. fact ≡ fact_at self.now link.now) }
    {
        let term = link.term;
        match link.shape {
            Shape::Class => Ok(Fact::Class(term, self.name_at(alloc, link.from)?)),
            Shape::Role => Ok(Fact::Role(
                term,
                self.name_at(alloc, link.from)?,
                self.name_at(alloc, link.to)?,
            )),
            Shape::Attr => Ok(Fact::Attr(
                term,
                self.name_at(alloc, link.from)?,
                self.value_at(alloc, link.to)?,
            )),
        }
    }

    /// Where the links of the facts that match stand. `None` where none can match.
    pub fn place_of(&self, pattern: &Pattern) -> Option<Place>
        ensures { Covers (LinksMatch self.now pattern.now) result }
    {
        match pattern {
            Pattern::Class(c) => Some(all_of(Shape::Class, *c)),
            Pattern::ClassOf(c, a) => self.all_from(Shape::Class, *c, a),
            Pattern::Role(p) => Some(all_of(Shape::Role, *p)),
            Pattern::RoleFrom(p, a) => self.all_from(Shape::Role, *p, a),
            Pattern::RoleTo(p, b) => self.all_to(*p, b),
            Pattern::RoleBoth(p, a, b) => Some(Place::One(self.of_role(*p, a, b)?)),
            Pattern::RoleFromExcept(p, a, _) => self.all_from(Shape::Role, *p, a),
            Pattern::RoleToExcept(p, b, _) => self.all_to(*p, b),
            Pattern::Attr(u) => Some(all_of(Shape::Attr, *u)),
            Pattern::AttrOf(u, a) => self.all_from(Shape::Attr, *u, a),
            Pattern::AttrValue(u, v) => self.all_with(*u, v),
            Pattern::AttrBoth(u, a, v) => Some(Place::One(self.of_attr(*u, a, v)?)),
            Pattern::AttrOfExcept(u, a, _) => self.all_from(Shape::Attr, *u, a),
        }
    }

    /// The links of the term from the name.
    fn all_from(&self, shape: Shape, term: Term, a: &Name) -> Option<Place>
        ensures { Covers (λ l. (l.shape ≡ shape) × (l.term ≡ term) × (slice_get self.now.names l.from ≡ Some a.now)) result }
    {
        let from = Some(self.of_name(a)?);
        Some(Place::Forth(Run { shape, term, from }))
    }

    /// The links of the role to the name.
    fn all_to(&self, term: Term, b: &Name) -> Option<Place>
        ensures { Covers (λ l. (l.shape ≡ shape_form.Role) × (l.term ≡ term) × (slice_get self.now.names l.to ≡ Some b.now)) result }
    {
        let from = Some(self.of_name(b)?);
        let shape = Shape::Role;
        Some(Place::Back(Run { shape, term, from }))
    }

    /// The links of the attribute to the value.
    fn all_with(&self, term: Term, v: &Value) -> Option<Place>
        ensures { Covers (λ l. (l.shape ≡ shape_form.Attr) × (l.term ≡ term) × (slice_get self.now.values l.to ≡ Some v.now)) result }
    {
        let from = Some(self.of_value(v)?);
        let shape = Shape::Attr;
        Some(Place::Back(Run { shape, term, from }))
    }
}

/// The links of the term.
fn all_of(shape: Shape, term: Term) -> Place
    ensures { Covers (λ l. (l.shape ≡ shape) × (l.term ≡ term)) (Some result) }
{
    let from = None;
    Place::Forth(Run { shape, term, from })
}

fn link(shape: Shape, term: Term, from: u32, to: u32) -> Link
    ensures { result ≡ record { shape = shape; term = term; from = from; to = to } }
{
    Link {
        shape,
        term,
        from,
        to,
    }
}

/// The number of the item in the table.
fn number_of<T: Eq + Hash>(table: &IndexSet<T>, item: &T) -> Option<u32>
    requires { length table.now.keys ≤ 2 ^ 32 }
    ensures { MatchOption result ((i : ℕ) (k : T) → ¬ StandsFor T.eq table.now.keys item.now i k) (λ n. (k : T) × StandsFor T.eq table.now.keys item.now n k) }
{
    let (place, _) = table.get_full(item)?;
    Some(place as u32)
}

/// The number of the item, which it gets now where it has none.
fn number_in<T: Eq + Hash + Drop>(table: &mut IndexSet<T>, item: T) -> Result<u32, OutOfMemory>
    requires { length table.old.keys ≤ 2 ^ 32 }
    ensures numbered { IfOk result (λ n. (k : T) × StandsFor T.eq table.new.keys item n k) }
    ensures grown { IsGrown table.old.keys table.new.keys }
    ensures small { length table.new.keys ≤ 2 ^ 32 }
    ensures once { AreOnce table.new.keys }
{
    if table.len() > u32::MAX as usize {
        return Err(OutOfMemory);
    }
    let (place, _) = table.insert_full(item)?;
    Ok(place as u32)
}
