use dl_base::Name;

/// An ontology document: its `Prefix` lines in order, and the tree of its one `Ontology`.
#[derive(Debug, Drop)]
pub struct Document<'b> {
    pub prefixes: Vec<PrefixLine>,
    pub root: Node<'b>,
}

/// A line `Prefix( name: = <IRI> )`: the line of its word, the name without its colon, and the IRI.
#[derive(Debug, Drop)]
pub struct PrefixLine {
    pub line: u64,
    pub name: Name,
    pub iri: Name,
}

/// A node of a document's tree. Each text is a slice of the input, and each line is that of the node's first token.
#[derive(Debug, Drop)]
pub enum Node<'b> {
    /// A word with what stands in its parentheses.
    Word {
        line: u64,
        text: &'b [u8],
        args: Vec<Node<'b>>,
    },
    /// Parentheses without a word before them.
    Group {
        line: u64,
        args: Vec<Node<'b>>,
    },
    /// What stands between `<` and `>`.
    Iri {
        line: u64,
        text: &'b [u8],
    },
    Prefixed {
        line: u64,
        prefix: &'b [u8],
        local: &'b [u8],
    },
    /// A blank node, with what stands behind `_:`.
    Blank {
        line: u64,
        label: &'b [u8],
    },
    Digits {
        line: u64,
        text: &'b [u8],
    },
    /// What stands between the quotes, with its escapes. The tag is empty where there is none, and a datatype is an `Iri` or a `Prefixed`.
    Literal {
        line: u64,
        text: &'b [u8],
        tag: &'b [u8],
        datatype: Option<Box<Node<'b>>>,
    },
}
