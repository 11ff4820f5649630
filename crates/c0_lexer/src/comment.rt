//! Comments, the openings of annotations, `/` and `/=`.

ghost use Rattle.std.specs.Prelude.{◌≡◌, ◌<◌, ◌≤◌, length, slice_index, IfSome};
ghost use Rattle.std.specs.List.{prefix_len};
ghost use Rattle.c0_source.specs.Bytes as spec;
ghost use Rattle.c0_lexer.specs.Ends.{comment_end};
ghost use Rattle.c0_lexer.specs.Pieces.{Gives};
ghost use Rattle.c0_source.specs.Spelling.{Cut, begins_annotation};

use crate::byte::byte_at;
use crate::longest::LongestPiece;
use c0_source::kind::{Kind, Mode, Operator, Piece};

/// The length of a nested comment, counted from behind its `/*`; none where it is not closed.
fn comment_length(mut text: &[u8]) -> Option<usize>
    ensures value { result ≡ comment_end 0 0 0 text.entry.now }
    ensures within { IfSome result (λ n. n ≤ length text.entry.now) }
{
    let mut deeper: usize = 0;
    let mut before: u8 = 0;
    let mut at: usize = 0;
    while let [b, rest @ ..] = text {
        if before == b'*' && *b == b'/' {
            if deeper == 0 {
                return Some(at + 1);
            }
            deeper -= 1;
            before = 0;
        } else if before == b'/' && *b == b'*' {
            deeper += 1;
            before = 0;
        } else {
            before = *b;
        }
        at += 1;
        text = rest;
    }
    None
}

/// How many bytes stand before the end of the line.
fn line_length(text: &[u8]) -> usize
    ensures value { result ≡ prefix_len spec.not_newline text.now }
    ensures within { result ≤ length text.now }
{
    let mut n = 0;
    while n < text.len() && text[n] != b'\n' {
        n += 1;
    }
    n
}

/// Whether what stands behind `//` or `/*` opens an annotation.
fn opens_annotation(mode: Mode, text: &[u8]) -> bool
    ensures { result ≡ begins_annotation mode text.now }
{
    match (mode, text) {
        (Mode::Plain, [b, ..]) => *b == b'@',
        _ => false,
    }
}

/// What begins with `//`: the opening of an annotation, where it stands in none, or a comment.
fn line_comment(mode: Mode, text: &[u8]) -> LongestPiece
    requires first { slice_index text.now 0 ≡ 47 }
    requires second { slice_index text.now 1 ≡ 47 }
    ensures { Cut mode text.now result.length result.piece }
{
    if opens_annotation(mode, &text[2..]) {
        return LongestPiece {
            length: 3,
            piece: Piece::Opens(Mode::Line),
        };
    }
    LongestPiece {
        length: line_length(&text[2..]) + 2,
        piece: Piece::Gap,
    }
}

/// What begins with `/*`: the opening of an annotation, where it stands in none, or a comment, where it is closed.
fn block_comment(mode: Mode, text: &[u8]) -> Option<LongestPiece>
    requires first { slice_index text.now 0 ≡ 47 }
    requires second { slice_index text.now 1 ≡ 42 }
    ensures { Gives mode text.now result }
{
    if opens_annotation(mode, &text[2..]) {
        return Some(LongestPiece {
            length: 3,
            piece: Piece::Opens(Mode::Block),
        });
    }
    let length = comment_length(&text[2..])?;
    Some(LongestPiece {
        length: length + 2,
        piece: Piece::Gap,
    })
}

/// What begins with `/`.
pub(crate) fn slash(mode: Mode, text: &[u8]) -> Option<LongestPiece>
    requires { slice_index text.now 0 ≡ 47 }
    ensures { Gives mode text.now result }
{
    match byte_at(text, 1) {
        b'/' => Some(line_comment(mode, text)),
        b'*' => block_comment(mode, text),
        b'=' => Some(LongestPiece {
            length: 2,
            piece: Piece::Token(Kind::Update(Operator::Divide)),
        }),
        _ => Some(LongestPiece {
            length: 1,
            piece: Piece::Token(Kind::Infix(Operator::Divide)),
        }),
    }
}
