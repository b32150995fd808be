ghost use Rattle.std.specs.Prelude.{◌≡◌, MatchOption, Some, None, map};
ghost use Rattle.owl_read.specs.Annotations.{is_blank, is_literal, behind};
ghost use Rattle.owl_read.specs.Items.{item_of, line_of, word_in};

use owl_syntax::Node;

/// The line of a node's first token.
pub fn line_of(node: &Node<'_>) -> u64
    ensures { result ≡ line_of (item_of node.now) }
{
    match node {
        Node::Word { line, .. } => *line,
        Node::Group { line, .. } => *line,
        Node::Iri { line, .. } => *line,
        Node::Prefixed { line, .. } => *line,
        Node::Blank { line, .. } => *line,
        Node::Digits { line, .. } => *line,
        Node::Literal { line, .. } => *line,
    }
}

/// A word's line, its text and what stands in its parentheses.
pub fn word_in<'a, 'b>(node: &'a Node<'b>) -> Option<(u64, &'b [u8], &'a [Node<'b>])>
    ensures { MatchOption result (word_in (item_of node.now) ≡ None) (λ word. word_in (item_of node.now) ≡ Some (word.0, word.1.now, map item_of word.2.now)) }
{
    match node {
        Node::Word { line, text, args } => Some((*line, *text, args.as_slice())),
        Node::Group { .. } => None,
        Node::Iri { .. } => None,
        Node::Prefixed { .. } => None,
        Node::Blank { .. } => None,
        Node::Digits { .. } => None,
        Node::Literal { .. } => None,
    }
}

pub fn is_blank(node: &Node<'_>) -> bool
    ensures { result ≡ is_blank (item_of node.now) }
{
    match node {
        Node::Blank { .. } => true,
        Node::Word { .. } => false,
        Node::Group { .. } => false,
        Node::Iri { .. } => false,
        Node::Prefixed { .. } => false,
        Node::Digits { .. } => false,
        Node::Literal { .. } => false,
    }
}

pub fn is_literal(node: &Node<'_>) -> bool
    ensures { result ≡ is_literal (item_of node.now) }
{
    match node {
        Node::Literal { .. } => true,
        Node::Word { .. } => false,
        Node::Group { .. } => false,
        Node::Iri { .. } => false,
        Node::Prefixed { .. } => false,
        Node::Blank { .. } => false,
        Node::Digits { .. } => false,
    }
}
