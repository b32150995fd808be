ghost use Rattle.std.specs.Prelude.{◌≡◌, ◌↔◌, ◌⊎◌, [], Contains, IsTrue, IfOk, OnOk, OnErr, length};
ghost use Rattle.fact_index.specs.Links.{IsAt, IsIn, turned};
ghost use Rattle.fact_index.specs.Numbers.{AreOnce};
ghost use Rattle.fact_index.specs.declared.places.Link as link_type;

use crate::places::{Link, Place, Run};
use dl_base::OutOfMemory;
use std::alloc::Global;
use std::collections::BTreeSet;
use std::marker::Model;

/// Links in two orders: by their first number, and turned round by their second.
#[derive(Drop)]
pub struct Links {
    forth: BTreeSet<Link>,
    back: BTreeSet<Link>,
}

impl Model for Links {
    ghost use Rattle.std.specs.Prelude.{List};
    ghost use Rattle.fact_index.specs.declared.places.Link.{Link};

    ghost Value = { List Link };

    ghost use Rattle.fact_index.specs.Links.{AreBothWays};

    ghost view = { λ s. s.forth.keys };

    ghost invariant = { λ s. AreBothWays s.forth.keys s.back.keys };
}

impl Links {
    /// No link. It takes no memory.
    pub fn new(alloc: Global) -> Links
        ensures { result ≡ [] }
    {
        Links {
            forth: BTreeSet::new(alloc),
            back: BTreeSet::new(alloc),
        }
    }

    /// The links, repeats dropped. Both orders are made at once, each by one sorting.
    pub fn of(alloc: Global, links: Vec<Link>) -> Result<Links, OutOfMemory>
        ensures { IfOk result (λ made. (l : link_type.Link) → Contains made l ↔ Contains links.items l) }
    {
        let turned = all_turned(alloc, links.as_slice())?;
        Ok(Links {
            forth: in_order(alloc, links)?,
            back: in_order(alloc, turned)?,
        })
    }

    /// Takes the link in; true exactly where it wasn't held.
    pub fn insert(&mut self, link: Link) -> Result<bool, OutOfMemory>
        ensures added { IfOk result (λ added. IsTrue added ↔ ¬ Contains self.old link) }
        ensures held { OnOk result ((l : link_type.Link) → Contains self.new l ↔ ((l ≡ link) ⊎ Contains self.old l)) }
        ensures refused { OnErr result (self.new ≡ self.old) }
    {
        let back = link.turned();
        if !self.back.insert(back)? {
            return Ok(false);
        }
        match self.forth.insert(link) {
            Ok(_) => Ok(true),
            Err(_) => {
                self.back.remove(&back);
                Err(OutOfMemory)
            }
        }
    }

    /// Takes the link out; true exactly where it was held. It takes no memory.
    pub fn remove(&mut self, link: &Link) -> bool
        ensures removed { IsTrue result ↔ Contains self.old link.now }
        ensures held { (l : link_type.Link) → Contains self.new l ↔ (Contains self.old l × ¬ (l ≡ link.now)) }
    {
        self.back.remove(&link.turned());
        self.forth.remove(link)
    }

    /// Whether it has the link. It takes no memory.
    pub fn has(&self, link: &Link) -> bool
        ensures { IsTrue result ↔ Contains self.now link.now }
    {
        self.forth.contains(link)
    }

    /// How many links it has.
    pub fn len(&self) -> usize
        ensures len { result ≡ length self.now }
        ensures once { AreOnce self.now }
    {
        self.forth.len()
    }

    /// All links in order.
    pub fn all(&self, alloc: Global) -> Result<Vec<Link>, OutOfMemory>
        ensures { IfOk result (λ all. all.items ≡ self.now) }
    {
        let all: Vec<Link> = self.forth.iter().copied().collect(alloc)?;
        Ok(all)
    }

    /// The links at the place.
    pub fn at(&self, alloc: Global, place: &Place) -> Result<Vec<Link>, OutOfMemory>
        ensures { IfOk result (λ found. (l : link_type.Link) → Contains found.items l ↔ (Contains self.now l × IsAt place.now l)) }
    {
        match place {
            Place::Forth(run) => in_run(alloc, &self.forth, run),
            Place::Back(run) => {
                let turned = in_run(alloc, &self.back, run)?;
                let found = all_turned(alloc, turned.as_slice())?;
                Ok(found)
            }
            Place::One(link) => {
                let mut found = Vec::new(alloc);
                if self.has(link) {
                    found.push(*link)?;
                }
                Ok(found)
            }
        }
    }
}

/// The set of the links: they are sorted once, and the set is made of them in order.
fn in_order(alloc: Global, links: Vec<Link>) -> Result<BTreeSet<Link>, OutOfMemory>
    ensures { IfOk result (λ set. (l : link_type.Link) → Contains set.keys l ↔ Contains links.items l) }
{
    let set: BTreeSet<Link> = links.into_iter().collect(alloc)?;
    Ok(set)
}

/// The links of the run: a range of the set, from the least one on up to the first that is in the run no more.
fn in_run(alloc: Global, links: &BTreeSet<Link>, run: &Run) -> Result<Vec<Link>, OutOfMemory>
    ensures { IfOk result (λ found. (l : link_type.Link) → Contains found.items l ↔ (Contains links.now.keys l × IsIn run.now l)) }
{
    let least = run.least();
    let mut found = Vec::new(alloc);
    for link in links.range(&least..) {
        if !run.has(link) {
            return Ok(found);
        }
        found.push(*link)?;
    }
    Ok(found)
}

fn all_turned(alloc: Global, links: &[Link]) -> Result<Vec<Link>, OutOfMemory>
    ensures { IfOk result (λ found. (l : link_type.Link) → Contains found.items l ↔ Contains links.now (turned l)) }
{
    let mut found = Vec::new(alloc);
    for link in links {
        found.push(link.turned())?;
    }
    Ok(found)
}
