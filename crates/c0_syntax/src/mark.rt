//! Tokens that are to be written, with what stands between them.

use c0_source::kind::Kind;

/// What stands before a token.
#[derive(Clone, Copy, Debug, PartialEq, Eq)]
pub enum Gap {
    /// Nothing, or a blank where the two tokens would read as other ones without it.
    Touching,
    /// A blank.
    Blank,
    /// The end of the line, and this many levels of indentation.
    Line(usize),
    /// The end of the line and an empty line.
    EmptyLine,
}

/// A token by what the grammar sees of it.
#[derive(Clone, Copy, Debug)]
pub enum Terminal<'a> {
    Word(&'a str),
    Text(&'a str),
    UseName(&'a str),
    UseText(&'a str),
    Sign(Kind),
}

/// A token and the gap before it.
#[derive(Clone, Copy, Debug)]
pub struct Mark<'a> {
    pub gap: Gap,
    pub terminal: Terminal<'a>,
}
