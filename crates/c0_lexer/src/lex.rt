//! From a text to its tokens.

ghost use Rattle.std.specs.Prelude.{◌≡◌, ◌++◌, ◌∷◌, ◌<◌, ◌≤◌, List, [], length, map, IfOk, IfErr, OnOk};
ghost use Rattle.c0_source.specs.Spelling.{AreSlices, Lexeme, Rise, Spells, opening_by, kind_of_piece, add_lexeme, end_at, ending};
ghost use Rattle.c0_source.specs.FaultNumbers.{memory_fault};
ghost use Rattle.c0_lexer.specs.Lexed.{Answers, IsFault, IsLexed, lexeme, rest_fault};

use crate::piece::{kind_of, longest_piece, mode_after};
use crate::token::Token;
use c0_source::fault::{Fault, FaultKind};
use c0_source::kind::{Kind, Mode, Piece};
use c0_source::source::Source;
use std::alloc::Global;

/// Adds the token that a piece is, if it is one.
fn push_piece<'a>(
    tokens: &mut Vec<Token<'a>>,
    piece: Piece,
    text: &'a [u8],
    start: usize,
) -> Result<(), Fault>
    ensures ok { OnOk result (map lexeme tokens.new.items ≡ map lexeme tokens.old.items ++ add_lexeme (kind_of_piece piece) text.entry.now start []) }
    ensures memory { IfErr result (λ f. f ≡ memory_fault) }
{
    if let Some(kind) = kind_of(piece) {
        tokens.push(Token { kind, text, start })?;
    }
    Ok(())
}

/// Where the last annotation opens, behind one more piece.
fn opening_after(piece: Piece, at: usize, opening: usize) -> usize
    ensures { result ≡ opening_by piece at opening }
{
    match piece {
        Piece::Opens(_) => at,
        _ => opening,
    }
}

/// The fault of a text at whose rest no piece stands.
fn fault_at(mode: Mode, opening: usize, at: usize, rest: &[u8]) -> Fault
    requires before { opening ≤ at }
    requires within { at < usize.MAX }
    ensures { result ≡ rest_fault mode opening at rest.now }
{
    let comment = rest.starts_with(b"/*");
    if !comment && !rest.is_empty() {
        return Fault::at(FaultKind::BadToken, at);
    }
    let start = if mode == Mode::Block { opening } else { at };
    Fault::at(FaultKind::OpenComment, start)
}

/// Adds the tokens of no bytes at the end of a text: the end of an annotation of a line, where one is open, and the end of the text.
fn push_ends<'a>(
    tokens: &mut Vec<Token<'a>>,
    mode: Mode,
    rest: &'a [u8],
    at: usize,
) -> Result<(), Fault>
    requires { length rest.now ≡ 0 }
    ensures ok { OnOk result (map lexeme tokens.new.items ≡ map lexeme tokens.old.items ++ ending mode at ++ end_at at ∷ []) }
    ensures memory { IfErr result (λ f. f ≡ memory_fault) }
{
    match mode {
        Mode::Line => {
            push_piece(tokens, Piece::Token(Kind::End), rest, at)?;
            push_piece(tokens, Piece::Token(Kind::EndOfText), rest, at)
        }
        _ => push_piece(tokens, Piece::Token(Kind::EndOfText), rest, at),
    }
}

/// The tokens of a text.
fn tokens_of<'a>(alloc: Global, text: &'a [u8]) -> Result<Vec<Token<'a>>, Fault>
    requires { length text.now < usize.MAX }
    ensures spelled { IfOk result (λ v. IsLexed text.entry.now (map lexeme v.items)) }
    ensures fault { IfErr result (λ f. IsFault f.kind text.entry.now f) }
{
    let mut tokens = Vec::new(alloc);
    let mut mode = Mode::Plain;
    let mut opening = 0;
    let mut at = 0;
    while at < text.len() {
        let rest = &text[at..];
        let Some(longest) = longest_piece(mode, rest) else {
            return Err(fault_at(mode, opening, at, rest));
        };
        let next = at + longest.length;
        push_piece(&mut tokens, longest.piece, &text[at..next], at)?;
        opening = opening_after(longest.piece, at, opening);
        mode = mode_after(mode, longest.piece);
        at = next;
    }
    match mode {
        Mode::Block => Err(fault_at(mode, opening, at, &text[at..])),
        _ => {
            push_ends(&mut tokens, mode, &text[at..], at)?;
            Ok(tokens)
        }
    }
}

/// The tokens that the text of the source spells, in their order, and behind them one of no bytes at the end of the text. Its fault is
/// 11 or 12 at the first byte that no piece of the text begins with, but 12 at the opening of an annotation that is not closed; or 50,
/// where memory runs out.
pub fn lex<'a>(alloc: Global, source: &'a Source) -> Result<Vec<Token<'a>>, Fault>
    // What is given is spelled so.
    ensures spelled { IfOk result (λ v. IsLexed source.entry.now (map lexeme v.items)) }
    // Each token's text is the part of the source at its start, and none begins before the end of the one in front of it.
    ensures parts { IfOk result (λ v. AreSlices source.entry.now (map lexeme v.items)) }
    ensures rise { IfOk result (λ v. Rise 0 (length source.entry.now) (map lexeme v.items)) }
    // What is spelled is given, unless memory runs out.
    ensures only { (ts : List Lexeme) → Spells source.entry.now ts → Answers source.entry.now ts result }
    // A fault holds at its place.
    ensures fault { IfErr result (λ f. IsFault f.kind source.entry.now f) }
{
    tokens_of(alloc, source.bytes())
}
