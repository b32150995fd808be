/// What stands at a place of the text, by its first byte: a blank or a comment, or the raw text of a token.
#[derive(Clone, Copy, Debug, PartialEq, Eq)]
pub enum Piece<'b> {
    Gap,
    Open,
    Close,
    Equals,
    Hats,
    Tag(&'b [u8]),
    Word(&'b [u8]),
    Iri(&'b [u8]),
    Prefixed(&'b [u8], &'b [u8]),
    Blank(&'b [u8]),
    Digits(&'b [u8]),
    Text(&'b [u8]),
}
