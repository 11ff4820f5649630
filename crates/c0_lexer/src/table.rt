//! Tables of texts: keywords and signs.

ghost use Rattle.std.specs.Prelude.{◌≡◌, map};
ghost use Rattle.c0_source.specs.Spelling.{lookup};
ghost use Rattle.c0_lexer.specs.Tables.{entry, first_entry, found};

use crate::longest::LongestPiece;
use c0_source::kind::{Base, Clause, Kind, Operator, Piece};

/// The keywords.
pub(crate) static KEYWORDS: [(&str, Kind); 21] = [
    ("int", Kind::Base(Base::Int)),
    ("bool", Kind::Base(Base::Bool)),
    ("char", Kind::Base(Base::Char)),
    ("string", Kind::Base(Base::String)),
    ("void", Kind::Base(Base::Void)),
    ("struct", Kind::Struct),
    ("typedef", Kind::Typedef),
    ("if", Kind::If),
    ("else", Kind::Else),
    ("while", Kind::While),
    ("for", Kind::For),
    ("return", Kind::Return),
    ("assert", Kind::Assert),
    ("error", Kind::Error),
    ("true", Kind::Truth(true)),
    ("false", Kind::Truth(false)),
    ("NULL", Kind::Null),
    ("alloc", Kind::Alloc),
    ("alloc_array", Kind::AllocArray),
    ("break", Kind::Break),
    ("continue", Kind::Continue),
];

/// The keywords of annotations alone.
pub(crate) static CLAUSES: [(&str, Kind); 3] = [
    ("requires", Kind::Clause(Clause::Requires)),
    ("ensures", Kind::Clause(Clause::Ensures)),
    ("loop_invariant", Kind::Clause(Clause::LoopInvariant)),
];

/// The words behind `\` in annotations.
pub(crate) static RESULTS: [(&str, Kind); 2] = [
    ("\\result", Kind::Result),
    ("\\length", Kind::Length),
];

/// The end of an annotation of a block.
pub(crate) static ENDS: [(&str, Kind); 1] = [("@*/", Kind::End)];

/// The signs that begin with `<`, the longer ones first.
pub(crate) static LESS: [(&str, Kind); 4] = [
    ("<<=", Kind::Update(Operator::ShiftLeft)),
    ("<=", Kind::Infix(Operator::LessEqual)),
    ("<<", Kind::Infix(Operator::ShiftLeft)),
    ("<", Kind::Infix(Operator::Less)),
];

/// The signs that begin with `>`, the longer ones first.
pub(crate) static GREATER: [(&str, Kind); 4] = [
    (">>=", Kind::Update(Operator::ShiftRight)),
    (">=", Kind::Infix(Operator::GreaterEqual)),
    (">>", Kind::Infix(Operator::ShiftRight)),
    (">", Kind::Infix(Operator::Greater)),
];

/// The signs that begin with `-`, the longer ones first.
pub(crate) static MINUS: [(&str, Kind); 4] = [
    ("->", Kind::Arrow),
    ("--", Kind::MinusMinus),
    ("-=", Kind::Update(Operator::Subtract)),
    ("-", Kind::Infix(Operator::Subtract)),
];

/// The signs that begin with `+`, the longer ones first.
pub(crate) static PLUS: [(&str, Kind); 3] = [
    ("++", Kind::PlusPlus),
    ("+=", Kind::Update(Operator::Add)),
    ("+", Kind::Infix(Operator::Add)),
];

/// The signs that begin with `|`, the longer ones first.
pub(crate) static BARS: [(&str, Kind); 3] = [
    ("||", Kind::Infix(Operator::Or)),
    ("|=", Kind::Update(Operator::BitOr)),
    ("|", Kind::Infix(Operator::BitOr)),
];

/// The signs that begin with `&`, the longer ones first.
pub(crate) static AMPERSANDS: [(&str, Kind); 3] = [
    ("&&", Kind::Infix(Operator::And)),
    ("&=", Kind::Update(Operator::BitAnd)),
    ("&", Kind::Infix(Operator::BitAnd)),
];

/// The signs that begin with `=`, the longer ones first.
pub(crate) static EQUALS: [(&str, Kind); 2] = [
    ("==", Kind::Infix(Operator::Equal)),
    ("=", Kind::Assign),
];

/// The signs that begin with `!`, the longer ones first.
pub(crate) static BANGS: [(&str, Kind); 2] = [
    ("!=", Kind::Infix(Operator::NotEqual)),
    ("!", Kind::Bang),
];

/// The signs that begin with `*`, the longer ones first.
pub(crate) static STARS: [(&str, Kind); 2] = [
    ("*=", Kind::Update(Operator::Multiply)),
    ("*", Kind::Infix(Operator::Multiply)),
];

/// The signs that begin with `%`, the longer ones first.
pub(crate) static PERCENTS: [(&str, Kind); 2] = [
    ("%=", Kind::Update(Operator::Modulo)),
    ("%", Kind::Infix(Operator::Modulo)),
];

/// The signs that begin with `^`, the longer ones first.
pub(crate) static CARETS: [(&str, Kind); 2] = [
    ("^=", Kind::Update(Operator::BitXor)),
    ("^", Kind::Infix(Operator::BitXor)),
];

/// What the table says that the text is.
pub(crate) fn lookup(table: &[(&str, Kind)], text: &[u8]) -> Option<Kind>
    ensures { result ≡ lookup (map entry table.now) text.now }
{
    for (word, kind) in table {
        if word.as_bytes() == text {
            return Some(*kind);
        }
    }
    None
}

/// The first entry of the table that the text begins with, as a piece.
pub(crate) fn first_entry(table: &[(&str, Kind)], text: &[u8]) -> Option<LongestPiece>
    ensures { found result ≡ first_entry (map entry table.now) text.now }
{
    for (sign, kind) in table {
        if text.starts_with(sign.as_bytes()) {
            return Some(LongestPiece {
                length: sign.len(),
                piece: Piece::Token(*kind),
            });
        }
    }
    None
}
