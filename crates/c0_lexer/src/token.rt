//! Tokens.

use c0_source::kind::Kind;

/// A token: what it is, its bytes, which are a slice of the text, and how many bytes of the text stand before them.
#[derive(Clone, Copy, Debug)]
pub struct Token<'a> {
    pub kind: Kind,
    pub text: &'a [u8],
    pub start: usize,
}
