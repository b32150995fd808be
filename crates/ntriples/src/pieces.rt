/// What stands at a place of a line, by its first byte: a blank or a comment, or the raw text of a token.
#[derive(Clone, Copy, Debug, PartialEq, Eq)]
pub enum Piece<'b> {
    Gap,
    Dot,
    Hats,
    Iri(&'b [u8]),
    Text(&'b [u8]),
    Tag(&'b [u8]),
    Node(&'b [u8]),
}
