ghost use Rattle.std.specs.Prelude.{◌≡◌, length, List, ℕ, [], IfOk};
ghost use Rattle.dl_text.specs.Outcomes.{seen};
ghost use Rattle.owl_syntax.specs.Grammar.{rank_of};
ghost use Rattle.owl_syntax.specs.Shapes.{shape_of};
ghost use Rattle.owl_syntax.specs.Trees.{attach, forest_of, none, literal, untyped, datatype_of};
ghost use Rattle.owl_syntax.specs.Trees as trees;
ghost use Rattle.owl_syntax.specs.Reading as reading;
ghost use Rattle.owl_syntax.specs.Reading.{nest_of, outer_of, turn_of, head_of, pending_of, is_frame, grown, put_leaf, put_name, put_word, put_text, put_group, open_with, closed, ready, behind_text, behind_hats, stepped, close_with, Gives, Nothing};

use crate::nodes::Node;
use crate::pieces::Piece;
use crate::states::{Head, Nest, Opened, Pending, Turn};
use dl_base::OutOfMemory;
use std::alloc::Global;
use std::mem;

/// How many arguments most words have.
const USUAL_ARGS: usize = 2;

/// The rank of a word's part of the frame: imports, then annotations, then axioms.
fn rank_of(word: &[u8]) -> u8
    ensures { result ≡ rank_of word.now }
{
    if word == b"Import".as_slice() {
        2
    } else if word == b"Annotation".as_slice() {
        3
    } else {
        4
    }
}

impl<'b> Nest<'b> {
    pub fn new(alloc: Global) -> Nest<'b>
        ensures nest { nest_of result ≡ reading.nest 0 [] none }
        ensures pending { pending_of result.pending ≡ Nothing }
    {
        Nest {
            rank: 0,
            outer: Vec::new(alloc),
            since: Vec::new(alloc),
            pending: Pending::Nothing,
        }
    }

    /// Whether no parentheses are open but those of the document.
    fn is_frame(&self) -> bool
        ensures { result ≡ is_frame (outer_of self.now.outer.items) }
    {
        self.outer.is_empty()
    }

    /// How many parentheses are open inside those of the document.
    pub fn depth(&self) -> usize
        ensures { result ≡ length (outer_of self.now.outer.items) }
    {
        self.outer.len()
    }

    /// One node more.
    fn add(&mut self, node: Node<'b>) -> Result<(), OutOfMemory>
        ensures { IfOk result (λ _. (nest_of self.new ≡ grown (nest_of self.old) node.entry) × (pending_of self.new.pending ≡ Nothing)) }
    {
        self.since.reserve(1)?;
        self.since.push_reserved(node);
        self.pending = Pending::Nothing;
        Ok(())
    }

    /// A node that may not stand in the frame.
    fn leaf(&mut self, node: Node<'b>) -> Result<Turn, OutOfMemory>
        ensures { Gives (put_leaf (nest_of self.old) (λ f. attach f node.entry)) (seen (turn_of self.new) result) }
    {
        if self.is_frame() {
            return Ok(Turn::Stuck);
        }
        self.add(node)?;
        Ok(Turn::On)
    }

    /// A name, of which the frame has at most two.
    fn name(&mut self, node: Node<'b>) -> Result<Turn, OutOfMemory>
        ensures { Gives (put_name (nest_of self.old) (λ f. attach f node.entry)) (seen (turn_of self.new) result) }
    {
        if self.is_frame() {
            if self.rank >= 2 {
                return Ok(Turn::Stuck);
            }
            self.rank += 1;
        }
        self.add(node)?;
        Ok(Turn::On)
    }

    /// A word, which stands in the frame by its rank.
    fn word(&mut self, line: u64, text: &'b [u8]) -> Turn
        ensures { turn_of self.new result ≡ put_word (nest_of self.old) line text.now }
    {
        if self.is_frame() {
            let rank = rank_of(text);
            if self.rank > rank {
                return Turn::Stuck;
            }
            self.rank = rank;
        }
        self.pending = Pending::Word(line, text);
        Turn::On
    }

    fn text(&mut self, line: u64, text: &'b [u8]) -> Turn
        ensures { turn_of self.new result ≡ put_text (nest_of self.old) line text.now }
    {
        if self.is_frame() {
            return Turn::Stuck;
        }
        self.pending = Pending::Text(line, text);
        Turn::On
    }

    fn group(&mut self, alloc: Global, line: u64) -> Result<Turn, OutOfMemory>
        ensures { Gives (put_group (nest_of self.old) line) (seen (turn_of self.new) result) }
    {
        if self.is_frame() {
            return Ok(Turn::Stuck);
        }
        self.open(alloc, Head::Group(line))
    }

    /// One parenthesis more.
    fn open(&mut self, alloc: Global, head: Head<'b>) -> Result<Turn, OutOfMemory>
        ensures { Gives (open_with (nest_of self.old) (head_of head.entry)) (seen (turn_of self.new) result) }
    {
        let since = Vec::with_capacity(alloc, USUAL_ARGS)?;
        let before = mem::replace(&mut self.since, since);
        self.outer.push(Opened { before, head })?;
        self.pending = Pending::Nothing;
        Ok(Turn::On)
    }

    /// One parenthesis less.
    fn close(&mut self) -> Result<Turn, OutOfMemory>
        ensures { Gives (closed (nest_of self.old)) (seen (turn_of self.new) result) }
    {
        match self.outer.pop() {
            None => Ok(Turn::Closed),
            Some(Opened { before, head }) => {
                let args = mem::replace(&mut self.since, before);
                self.add(node_of(head, args))?;
                Ok(Turn::On)
            }
        }
    }

    /// A token where no node is pending.
    fn ready(&mut self, alloc: Global, piece: Piece<'b>, line: u64) -> Result<Turn, OutOfMemory>
        ensures { Gives (ready (nest_of self.old) line (shape_of piece.entry)) (seen (turn_of self.new) result) }
    {
        match piece {
            Piece::Iri(text) => self.name(Node::Iri { line, text }),
            Piece::Prefixed(prefix, local) => self.name(Node::Prefixed {
                line,
                prefix,
                local,
            }),
            Piece::Blank(label) => self.leaf(Node::Blank { line, label }),
            Piece::Digits(text) => self.leaf(Node::Digits { line, text }),
            Piece::Text(text) => Ok(self.text(line, text)),
            Piece::Word(text) => Ok(self.word(line, text)),
            Piece::Open => self.group(alloc, line),
            Piece::Close => self.close(),
            _ => Ok(Turn::Stuck),
        }
    }

    /// A token behind a string.
    fn behind_text(
        &mut self,
        alloc: Global,
        at: u64,
        text: &'b [u8],
        piece: Piece<'b>,
        line: u64,
    ) -> Result<Turn, OutOfMemory>
        ensures { Gives (behind_text (nest_of self.old) at text.now line (shape_of piece.entry)) (seen (turn_of self.new) result) }
    {
        match piece {
            Piece::Hats => {
                self.pending = Pending::Hats(at, text);
                Ok(Turn::On)
            }
            Piece::Tag(tag) => {
                self.add(literal(at, text, tag))?;
                Ok(Turn::On)
            }
            _ => {
                self.add(literal(at, text, &text[..0]))?;
                self.ready(alloc, piece, line)
            }
        }
    }

    /// A token behind a string and `^^`.
    fn behind_hats(
        &mut self,
        alloc: Global,
        at: u64,
        text: &'b [u8],
        piece: Piece<'b>,
        line: u64,
    ) -> Result<Turn, OutOfMemory>
        ensures { Gives (behind_hats (nest_of self.old) at text.now line (shape_of piece.entry)) (seen (turn_of self.new) result) }
    {
        let datatype = match piece {
            Piece::Iri(text) => Node::Iri { line, text },
            Piece::Prefixed(prefix, local) => Node::Prefixed {
                line,
                prefix,
                local,
            },
            _ => return Ok(Turn::Stuck),
        };
        self.add(typed(alloc, at, text, datatype)?)?;
        Ok(Turn::On)
    }

    /// One token more.
    pub fn step(&mut self, alloc: Global, piece: Piece<'b>, line: u64) -> Result<Turn, OutOfMemory>
        ensures { Gives (stepped (nest_of self.old) (pending_of self.old.pending) line (shape_of piece.entry)) (seen (turn_of self.new) result) }
    {
        match self.pending {
            Pending::Nothing => self.ready(alloc, piece, line),
            Pending::Word(at, text) => match piece {
                Piece::Open => self.open(alloc, Head::Word(at, text)),
                _ => Ok(Turn::Stuck),
            },
            Pending::Text(at, text) => self.behind_text(alloc, at, text, piece, line),
            Pending::Hats(at, text) => self.behind_hats(alloc, at, text, piece, line),
        }
    }
}

fn node_of<'b>(head: Head<'b>, args: Vec<Node<'b>>) -> Node<'b>
    ensures { (before : trees.Forest) → attach before result ≡ close_with before (head_of head.entry) (forest_of args.entry.items) }
{
    match head {
        Head::Word(line, text) => Node::Word { line, text, args },
        Head::Group(line) => Node::Group { line, args },
    }
}

/// The word with what stands in its parentheses.
pub fn root_of<'b>(line: u64, text: &'b [u8], args: Vec<Node<'b>>) -> Node<'b>
    ensures { attach none result ≡ trees.word none line text.now (forest_of args.entry.items) }
{
    node_of(Head::Word(line, text), args)
}

fn literal<'b>(line: u64, text: &'b [u8], tag: &'b [u8]) -> Node<'b>
    ensures { (before : trees.Forest) → attach before result ≡ trees.leaf before (literal line text.now tag.now untyped) }
{
    Node::Literal {
        line,
        text,
        tag,
        datatype: None,
    }
}

fn typed<'b>(
    alloc: Global,
    line: u64,
    text: &'b [u8],
    datatype: Node<'b>,
) -> Result<Node<'b>, OutOfMemory>
    ensures { IfOk result (λ node. (before : trees.Forest) → attach before node ≡ trees.leaf before (literal line text.now [] (datatype_of datatype.entry))) }
{
    let datatype = Box::new(alloc, datatype)?;
    Ok(Node::Literal {
        line,
        text,
        tag: &text[..0],
        datatype: Some(datatype),
    })
}
