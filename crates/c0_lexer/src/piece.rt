//! The longest piece at the front of a text.

ghost use Rattle.std.specs.Prelude.{◌≡◌, ◌<◌, ◌==◌, if◌then◌else◌, Some, length, slice_index};
ghost use Rattle.c0_source.specs.Spelling.{after, kind_of_piece, newline_of};
ghost use Rattle.c0_source.specs.declared.kind.Piece.TheVariants.{Gap, Token};
ghost use Rattle.c0_lexer.specs.Pieces.{Gives, IsSignByte};
ghost use Rattle.c0_lexer.specs.Tables.{found};

use crate::byte::{is_blank, is_digit, is_letter};
use crate::comment::slash;
use crate::literal::{character, text_literal, use_directive};
use crate::longest::LongestPiece;
use crate::number::number;
use crate::table::{
    AMPERSANDS, BANGS, BARS, CARETS, ENDS, EQUALS, GREATER, LESS, MINUS, PERCENTS, PLUS, RESULTS,
    STARS, first_entry,
};
use crate::word::word;
use c0_source::kind::{Kind, Mode, Piece};

/// What a blank is: a newline ends an annotation of a line.
fn blank(mode: Mode, first: u8) -> Piece
    ensures { result ≡ (if first == 10 then newline_of mode else Gap) }
{
    match (mode, first) {
        (Mode::Line, b'\n') => Piece::Token(Kind::End),
        _ => Piece::Gap,
    }
}

/// What begins with `\`: `\result` and `\length` in annotations.
fn backslash(mode: Mode, text: &[u8]) -> Option<LongestPiece>
    requires { slice_index text.now 0 ≡ 92 }
    ensures { Gives mode text.now result }
{
    match mode {
        Mode::Plain => None,
        _ => first_entry(&RESULTS, text),
    }
}

/// What begins with `@`: the end of an annotation of a block.
fn annotation_end(mode: Mode, text: &[u8]) -> Option<LongestPiece>
    requires { slice_index text.now 0 ≡ 64 }
    ensures { Gives mode text.now result }
{
    match mode {
        Mode::Block => first_entry(&ENDS, text),
        _ => None,
    }
}

/// A sign of one byte.
fn one_byte(kind: Kind) -> Option<LongestPiece>
    ensures { found result ≡ Some (1, Token kind) }
{
    Some(LongestPiece {
        length: 1,
        piece: Piece::Token(kind),
    })
}

/// A sign that does not begin with `/`. With most first bytes no longer one begins.
fn sign(mode: Mode, text: &[u8]) -> Option<LongestPiece>
    requires some { 0 < length text.now }
    requires first { IsSignByte (slice_index text.now 0) }
    ensures { Gives mode text.now result }
{
    match text[0] {
        b'(' => one_byte(Kind::LParen),
        b')' => one_byte(Kind::RParen),
        b'{' => one_byte(Kind::LBrace),
        b'}' => one_byte(Kind::RBrace),
        b'[' => one_byte(Kind::LBracket),
        b']' => one_byte(Kind::RBracket),
        b';' => one_byte(Kind::Semi),
        b',' => one_byte(Kind::Comma),
        b'.' => one_byte(Kind::Dot),
        b'?' => one_byte(Kind::Question),
        b':' => one_byte(Kind::Colon),
        b'~' => one_byte(Kind::Tilde),
        b'<' => first_entry(&LESS, text),
        b'>' => first_entry(&GREATER, text),
        b'-' => first_entry(&MINUS, text),
        b'+' => first_entry(&PLUS, text),
        b'|' => first_entry(&BARS, text),
        b'&' => first_entry(&AMPERSANDS, text),
        b'=' => first_entry(&EQUALS, text),
        b'!' => first_entry(&BANGS, text),
        b'*' => first_entry(&STARS, text),
        b'%' => first_entry(&PERCENTS, text),
        b'^' => first_entry(&CARETS, text),
        _ => None,
    }
}

/// The longest piece at the front of a text that is not empty.
pub(crate) fn longest_piece(mode: Mode, text: &[u8]) -> Option<LongestPiece>
    requires { 0 < length text.now }
    ensures { Gives mode text.now result }
{
    let first = text[0];
    if is_blank(first) {
        return Some(LongestPiece {
            length: 1,
            piece: blank(mode, first),
        });
    }
    if is_letter(first) {
        return Some(word(mode, text));
    }
    if is_digit(first) {
        return number(mode, text);
    }
    match first {
        b'/' => slash(mode, text),
        b'"' => text_literal(mode, text),
        b'\'' => character(mode, text),
        b'\\' => backslash(mode, text),
        b'#' => use_directive(mode, text),
        b'@' => annotation_end(mode, text),
        _ => sign(mode, text),
    }
}

/// The mode behind a piece.
pub(crate) fn mode_after(mode: Mode, piece: Piece) -> Mode
    ensures { result ≡ after mode piece }
{
    match piece {
        Piece::Opens(next) => next,
        Piece::Token(Kind::End) => Mode::Plain,
        _ => mode,
    }
}

/// The kind of the token that a piece is; a blank or a comment is none.
pub(crate) fn kind_of(piece: Piece) -> Option<Kind>
    ensures { result ≡ kind_of_piece piece }
{
    match piece {
        Piece::Gap => None,
        Piece::Opens(_) => Some(Kind::Begin),
        Piece::Token(kind) => Some(kind),
    }
}
