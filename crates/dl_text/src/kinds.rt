ghost use Rattle.std.specs.Prelude.{◌≡◌};
ghost use Rattle.dl_text.specs.Kinds.{number_of, name_of};

/// Why a text of an ontology, of facts or of an update is refused.
#[derive(Clone, Copy, Debug, PartialEq, Eq)]
pub enum ReadKind {
    BadUtf8,
    BadIri,
    BadEscape,
    BadLiteral,
    NameTooLong,
    UnknownPrefix,
    Syntax,
    TooDeep,
    NotDlLite,
    Import,
    TwoKinds,
    FunctionalSpecialised,
    TooManyTerms,
    BlankNode,
    UnknownTerm,
    WrongKind,
    Variable,
    OtherOperation,
    TooManyFacts,
}

impl ReadKind {
    /// The number by which replies and logs give it.
    pub fn number(self) -> u32
        ensures { result ≡ number_of self }
    {
        match self {
            ReadKind::BadUtf8 => 1,
            ReadKind::BadIri => 2,
            ReadKind::BadEscape => 3,
            ReadKind::BadLiteral => 4,
            ReadKind::NameTooLong => 5,
            ReadKind::UnknownPrefix => 6,
            ReadKind::Syntax => 10,
            ReadKind::TooDeep => 11,
            ReadKind::NotDlLite => 12,
            ReadKind::Import => 13,
            ReadKind::TwoKinds => 14,
            ReadKind::FunctionalSpecialised => 15,
            ReadKind::TooManyTerms => 16,
            ReadKind::BlankNode => 20,
            ReadKind::UnknownTerm => 21,
            ReadKind::WrongKind => 22,
            ReadKind::Variable => 23,
            ReadKind::OtherOperation => 24,
            ReadKind::TooManyFacts => 25,
        }
    }

    /// The word that is printed for it.
    pub fn name(self) -> &'static str
        ensures { result.now ≡ name_of self }
    {
        match self {
            ReadKind::BadUtf8 => "BadUtf8",
            ReadKind::BadIri => "BadIri",
            ReadKind::BadEscape => "BadEscape",
            ReadKind::BadLiteral => "BadLiteral",
            ReadKind::NameTooLong => "NameTooLong",
            ReadKind::UnknownPrefix => "UnknownPrefix",
            ReadKind::Syntax => "Syntax",
            ReadKind::TooDeep => "TooDeep",
            ReadKind::NotDlLite => "NotDlLite",
            ReadKind::Import => "Import",
            ReadKind::TwoKinds => "TwoKinds",
            ReadKind::FunctionalSpecialised => "FunctionalSpecialised",
            ReadKind::TooManyTerms => "TooManyTerms",
            ReadKind::BlankNode => "BlankNode",
            ReadKind::UnknownTerm => "UnknownTerm",
            ReadKind::WrongKind => "WrongKind",
            ReadKind::Variable => "Variable",
            ReadKind::OtherOperation => "OtherOperation",
            ReadKind::TooManyFacts => "TooManyFacts",
        }
    }
}
