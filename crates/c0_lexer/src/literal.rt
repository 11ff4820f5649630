//! Texts, characters and `#use`.

ghost use Rattle.std.specs.Prelude.{◌≡◌, ◌+◌, ◌^◌, ◌<◌, ◌≤◌, length, slice_index, false, IfSome};
ghost use Rattle.c0_lexer.specs.Ends.{text_end, name_end, use_end};
ghost use Rattle.c0_lexer.specs.Characters.{escaped_value, plain_value};
ghost use Rattle.c0_lexer.specs.Pieces.{Gives};

use crate::byte::{byte_at, escape, is_blank_in_line, is_digit, is_printable, is_word};
use crate::longest::LongestPiece;
use c0_source::kind::{Kind, Mode, Piece};

/// Where a text ends, of which this stands behind the opening quote, after `at` bytes; none where the bytes are no text.
fn text_length(mut text: &[u8], mut at: usize) -> Option<usize>
    requires { at + length text.now < 2 ^ 64 }
    ensures value { result ≡ text_end false at text.entry.now }
    ensures within { IfSome result (λ n. n ≤ at + length text.entry.now) }
{
    let mut escaped = false;
    while let [b, rest @ ..] = text {
        if escaped {
            let _byte = escape(*b)?;
            escaped = false;
        } else if *b == b'"' {
            return Some(at + 1);
        } else if *b == b'\\' {
            escaped = true;
        } else if !is_printable(*b) {
            return None;
        }
        at += 1;
        text = rest;
    }
    None
}

/// The text at the front, which begins with a quote.
pub(crate) fn text_literal(mode: Mode, text: &[u8]) -> Option<LongestPiece>
    requires { slice_index text.now 0 ≡ 34 }
    ensures { Gives mode text.now result }
{
    let length = text_length(&text[1..], 1)?;
    Some(LongestPiece {
        length,
        piece: Piece::Token(Kind::Text),
    })
}

/// The code of a character with a `\` behind its opening quote.
fn escaped_code(text: &[u8]) -> Option<u8>
    ensures { result ≡ escaped_value text.now }
{
    if text.len() < 4 || text[3] != b'\'' {
        None
    } else if text[2] == b'0' {
        Some(0)
    } else {
        escape(text[2])
    }
}

/// The code of a character without a `\`.
fn plain_code(text: &[u8]) -> Option<u8>
    ensures { result ≡ plain_value text.now }
{
    if text.len() < 3 || text[2] != b'\'' || text[1] == b'\'' || !is_printable(text[1]) {
        None
    } else {
        Some(text[1])
    }
}

/// The character at the front, which begins with a single quote.
pub(crate) fn character(mode: Mode, text: &[u8]) -> Option<LongestPiece>
    requires { slice_index text.now 0 ≡ 39 }
    ensures { Gives mode text.now result }
{
    if byte_at(text, 1) == b'\\' {
        let code = escaped_code(text)?;
        return Some(LongestPiece {
            length: 4,
            piece: Piece::Token(Kind::Character(code)),
        });
    }
    let code = plain_code(text)?;
    Some(LongestPiece {
        length: 3,
        piece: Piece::Token(Kind::Character(code)),
    })
}

/// Where a name and the `>` behind it end, of which this stands behind `<`, after `at` bytes; none where the bytes are no name.
fn name_length(mut text: &[u8], mut at: usize) -> Option<usize>
    requires { at + length text.now < 2 ^ 64 }
    ensures value { result ≡ name_end false at text.entry.now }
    ensures within { IfSome result (λ n. n ≤ at + length text.entry.now) }
{
    let mut begun = false;
    while let [b, rest @ ..] = text {
        if *b == b'>' {
            return if begun { Some(at + 1) } else { None };
        }
        if !is_word(*b) || (!begun && is_digit(*b)) {
            return None;
        }
        begun = true;
        at += 1;
        text = rest;
    }
    None
}

/// The length of what `#use` names, counted from behind `use`: blanks, and a name between `<` and `>` or a text.
fn used_length(text: &[u8]) -> Option<usize>
    ensures value { result ≡ use_end 0 text.now }
    ensures within { IfSome result (λ n. n ≤ length text.now) }
{
    let mut at: usize = 0;
    while at < text.len() && is_blank_in_line(text[at]) {
        at += 1;
    }
    if at == text.len() {
        return None;
    }
    match text[at] {
        b'<' => name_length(&text[at + 1..], at + 1),
        b'"' => text_length(&text[at + 1..], at + 1),
        _ => None,
    }
}

/// The `#use` at the front, which begins with `#`.
pub(crate) fn use_directive(mode: Mode, text: &[u8]) -> Option<LongestPiece>
    requires { slice_index text.now 0 ≡ 35 }
    ensures { Gives mode text.now result }
{
    if !text.starts_with(b"#use") {
        return None;
    }
    let length = used_length(&text[4..])?;
    Some(LongestPiece {
        length: length + 4,
        piece: Piece::Token(Kind::Use),
    })
}
