ghost use Rattle.std.specs.Prelude.{◌≡◌, ◌↔◌, IsTrue};
ghost use Rattle.fact_index.specs.Links.{IsIn, least_of, turned};

use dl_base::Term;

/// Whether a link is a class fact, a role fact or an attribute fact.
#[derive(Clone, Copy, Debug, PartialEq, Eq, PartialOrd, Ord)]
pub enum Shape {
    Class,
    Role,
    Attr,
}

/// A fact by numbers: its term, and the numbers of its subject and its object. A class fact has no object, and there 0.
#[derive(Clone, Copy, Debug, PartialEq, Eq, PartialOrd, Ord)]
pub struct Link {
    pub shape: Shape,
    pub term: Term,
    pub from: u32,
    pub to: u32,
}

impl Link {
    /// The link, its two numbers exchanged.
    pub fn turned(&self) -> Link
        ensures { result ≡ turned self.now }
    {
        Link {
            shape: self.shape,
            term: self.term,
            from: self.to,
            to: self.from,
        }
    }
}

/// The links of a term: all of them, or those from one number.
#[derive(Clone, Copy, Debug)]
pub struct Run {
    pub shape: Shape,
    pub term: Term,
    pub from: Option<u32>,
}

impl Run {
    /// The least link that it can have.
    pub fn least(&self) -> Link
        ensures { result ≡ least_of self.now }
    {
        Link {
            shape: self.shape,
            term: self.term,
            from: match self.from {
                Some(number) => number,
                None => 0,
            },
            to: 0,
        }
    }

    pub fn has(&self, link: &Link) -> bool
        ensures { IsTrue result ↔ IsIn self.now link.now }
    {
        self.shape == link.shape
            && self.term == link.term
            && match self.from {
                Some(number) => number == link.from,
                None => true,
            }
    }
}

/// Where links are looked for: in a run, in a run of the links turned round, or at one link.
#[derive(Clone, Copy, Debug)]
pub enum Place {
    Forth(Run),
    Back(Run),
    One(Link),
}
