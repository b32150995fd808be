use crate::nodes::Node;
use crate::prefixes::Prefixes;

/// What opened parentheses: a word or nothing.
#[derive(Clone, Copy, Debug)]
pub enum Head<'b> {
    Word(u64, &'b [u8]),
    Group(u64),
}

/// Parentheses that are open: the nodes before them, beside them, and what opened them.
#[derive(Debug, Drop)]
pub struct Opened<'b> {
    pub before: Vec<Node<'b>>,
    pub head: Head<'b>,
}

/// A node of which more tokens are to come, or may come.
#[derive(Clone, Copy, Debug)]
pub enum Pending<'b> {
    Nothing,
    /// A word, whose parenthesis is to come.
    Word(u64, &'b [u8]),
    /// A string, behind which a tag or `^^` may come.
    Text(u64, &'b [u8]),
    /// A string and `^^`, whose datatype is to come.
    Hats(u64, &'b [u8]),
}

/// The nodes read inside `Ontology( .. )`.
#[derive(Debug, Drop)]
pub struct Nest<'b> {
    /// The rank of the last part of the frame.
    pub rank: u8,
    /// The parentheses that are open, the innermost last.
    pub outer: Vec<Opened<'b>>,
    /// The nodes since the innermost of them.
    pub since: Vec<Node<'b>>,
    /// The node behind those.
    pub pending: Pending<'b>,
}

/// What a token makes of the nodes inside a document: they go on, the document's last parenthesis closes, or no document goes on with it.
#[derive(Clone, Copy, Debug)]
pub enum Turn {
    On,
    Closed,
    Stuck,
}

/// How far a `Prefix` line has been read behind its word.
#[derive(Clone, Copy, Debug)]
pub enum Part<'b> {
    Begun,
    Opened,
    Named(&'b [u8]),
    Equalled(&'b [u8]),
    Valued(&'b [u8], &'b [u8]),
}

/// The part of a document in which its last token stands.
#[derive(Clone, Copy, Debug)]
pub enum Phase<'b> {
    Lines,
    Prefix(Part<'b>),
    Root,
    Body,
    Done,
}

/// What has been read of a document.
#[derive(Debug, Drop)]
pub struct State<'b> {
    pub prefixes: Prefixes,
    /// The line of the last word outside `Ontology( .. )`, which is `Prefix` or `Ontology`.
    pub line: u64,
    /// The word `Ontology`, from the phase `Root` on.
    pub text: &'b [u8],
    pub nest: Nest<'b>,
    pub phase: Phase<'b>,
}
