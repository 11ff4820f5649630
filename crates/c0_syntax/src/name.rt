//! Names.

use c0_source::fault::Span;

/// A name: its letters, and where they stand.
#[derive(Debug, PartialEq, Eq, Drop)]
pub struct Name {
    pub text: String,
    pub span: Span,
}
