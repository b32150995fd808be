use dl_base::Name;

/// A sign of an update. `Open` is `(` or `[`, and `Close` is `)` or `]`.
#[derive(Clone, Copy, Debug, PartialEq, Eq)]
pub enum Mark {
    Dot,
    Comma,
    Semicolon,
    OpenBrace,
    CloseBrace,
    Hats,
    Open,
    Close,
}

/// What a bare word is.
#[derive(Clone, Copy, Debug, PartialEq, Eq)]
pub enum Keyword {
    Prefix,
    Base,
    Insert,
    Delete,
    Data,
    Graph,
    True,
    False,
    /// `a`, which is `rdf:type` as a verb.
    A,
    Other,
}

/// What stands at a place of the text, by its first bytes: a blank or a comment, or the raw text of a token.
#[derive(Clone, Copy, Debug, PartialEq, Eq)]
pub enum Piece<'b> {
    Gap,
    Variable,
    Blank,
    Sign(Mark),
    Number(&'b [u8]),
    Iri(&'b [u8]),
    Text(&'b [u8]),
    Tag(&'b [u8]),
    Word(&'b [u8]),
    Prefixed(&'b [u8], &'b [u8]),
}

/// A token of an update, with the escapes of IRIs and strings undone.
#[derive(Debug, Drop)]
pub enum Token {
    Variable,
    Blank,
    Sign(Mark),
    Number(Name),
    Iri(Name),
    Text(Name),
    Tag(Name),
    Word(Keyword),
    /// A prefix and a local part, which stands as it is written.
    Prefixed(Name, Name),
}
