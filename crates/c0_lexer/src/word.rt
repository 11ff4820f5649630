//! Keywords and names.

ghost use Rattle.std.specs.Prelude.{◌≡◌, ◌<◌, ◌≤◌, length, slice_index, true, false};
ghost use Rattle.std.specs.List.{prefix_len};
ghost use Rattle.c0_source.specs.Bytes as spec;
ghost use Rattle.c0_source.specs.Spelling.{Cut, keywords, lookup, or_name, word_kind};

use crate::byte::is_word;
use crate::longest::LongestPiece;
use crate::table::{CLAUSES, KEYWORDS, lookup};
use c0_source::kind::{Kind, Mode, Piece};

/// How many of the first bytes are letters, digits and `_`.
pub(crate) fn word_length(text: &[u8]) -> usize
    ensures value { result ≡ prefix_len spec.is_word text.now }
    ensures within { result ≤ length text.now }
{
    let mut n = 0;
    while n < text.len() && is_word(text[n]) {
        n += 1;
    }
    n
}

/// What a word outside annotations is: a keyword or a name.
fn plain_kind(text: &[u8]) -> Kind
    ensures { result ≡ or_name (lookup keywords text.now) }
{
    lookup(&KEYWORDS, text).unwrap_or(Kind::Name)
}

/// What a word is: a keyword, among them those of annotations where it stands in one, or a name.
pub(crate) fn word_kind(mode: Mode, text: &[u8]) -> Kind
    ensures { result ≡ word_kind mode text.now }
{
    match mode {
        Mode::Plain => plain_kind(text),
        _ => match lookup(&CLAUSES, text) {
            Some(kind) => kind,
            None => plain_kind(text),
        },
    }
}

/// The word at the front of a text whose first byte is a letter or `_`.
pub(crate) fn word(mode: Mode, text: &[u8]) -> LongestPiece
    requires some { 0 < length text.now }
    requires blank { spec.is_blank (slice_index text.now 0) ≡ false }
    requires letter { spec.is_letter (slice_index text.now 0) ≡ true }
    ensures { Cut mode text.now result.length result.piece }
{
    let length = word_length(text);
    LongestPiece {
        length,
        piece: Piece::Token(word_kind(mode, &text[..length])),
    }
}
