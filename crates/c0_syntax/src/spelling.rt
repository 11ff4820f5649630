//! How each token is written.

ghost use Rattle.std.specs.Prelude.{◌≡◌, ◌++◌, IfOk};
ghost use Rattle.std.specs.String.{string_bytes};
ghost use Rattle.c0_syntax.specs.Spellings as s;
ghost use Rattle.c0_syntax.specs.Marks.{terminal_of};

use crate::mark::Terminal;
use c0_source::kind::{Base, Clause, Kind, Operator};
use std::alloc::{AllocError, Global};
use std::fmt::Write;

fn operator_text(operator: Operator) -> &'static str
    ensures { result.now ≡ s.operator_text operator }
{
    match operator {
        Operator::Or => "||",
        Operator::And => "&&",
        Operator::BitOr => "|",
        Operator::BitXor => "^",
        Operator::BitAnd => "&",
        Operator::Equal => "==",
        Operator::NotEqual => "!=",
        Operator::Less => "<",
        Operator::LessEqual => "<=",
        Operator::Greater => ">",
        Operator::GreaterEqual => ">=",
        Operator::ShiftLeft => "<<",
        Operator::ShiftRight => ">>",
        Operator::Add => "+",
        Operator::Subtract => "-",
        Operator::Multiply => "*",
        Operator::Divide => "/",
        Operator::Modulo => "%",
    }
}

fn base_text(base: Base) -> &'static str
    ensures { result.now ≡ s.base_text base }
{
    match base {
        Base::Int => "int",
        Base::Bool => "bool",
        Base::Char => "char",
        Base::String => "string",
        Base::Void => "void",
    }
}

fn clause_text(clause: Clause) -> &'static str
    ensures { result.now ≡ s.clause_text clause }
{
    match clause {
        Clause::Requires => "requires",
        Clause::Ensures => "ensures",
        Clause::LoopInvariant => "loop_invariant",
    }
}

fn truth_text(truth: bool) -> &'static str
    ensures { result.now ≡ s.truth_text truth }
{
    if truth { "true" } else { "false" }
}

fn fixed_text(kind: Kind) -> &'static str
    ensures { result.now ≡ s.fixed_text kind }
{
    match kind {
        Kind::Null => "NULL",
        Kind::Struct => "struct",
        Kind::Typedef => "typedef",
        Kind::If => "if",
        Kind::Else => "else",
        Kind::While => "while",
        Kind::For => "for",
        Kind::Return => "return",
        Kind::Assert => "assert",
        Kind::Error => "error",
        Kind::Alloc => "alloc",
        Kind::AllocArray => "alloc_array",
        Kind::Break => "break",
        Kind::Continue => "continue",
        Kind::Result => "\\result",
        Kind::Length => "\\length",
        Kind::Begin => "/*@",
        Kind::End => "@*/",
        Kind::LParen => "(",
        Kind::RParen => ")",
        Kind::LBrace => "{",
        Kind::RBrace => "}",
        Kind::LBracket => "[",
        Kind::RBracket => "]",
        Kind::Semi => ";",
        Kind::Comma => ",",
        Kind::Dot => ".",
        Kind::Arrow => "->",
        Kind::Question => "?",
        Kind::Colon => ":",
        Kind::Bang => "!",
        Kind::Tilde => "~",
        Kind::Assign => "=",
        Kind::PlusPlus => "++",
        Kind::MinusMinus => "--",
        _ => "",
    }
}

// A byte of a text or a character.
fn push_escaped(text: &mut String, byte: u8) -> Result<(), AllocError>
    ensures { IfOk result (λ _. string_bytes text.new ≡ string_bytes text.old ++ s.escaped byte) }
{
    match byte {
        0 => text.push_str("\\0"),
        10 => text.push_str("\\n"),
        9 => text.push_str("\\t"),
        11 => text.push_str("\\v"),
        8 => text.push_str("\\b"),
        13 => text.push_str("\\r"),
        12 => text.push_str("\\f"),
        7 => text.push_str("\\a"),
        92 => text.push_str("\\\\"),
        39 => text.push_str("\\'"),
        34 => text.push_str("\\\""),
        _ if byte < 128 => text.push(byte as char),
        _ => text.push_str("?"),
    }
}

fn push_quoted(text: &mut String, quoted: &str) -> Result<(), AllocError>
    ensures { IfOk result (λ _. string_bytes text.new ≡ string_bytes text.old ++ s.quoted_text quoted.now) }
{
    text.push_str("\"")?;
    for byte in quoted.as_bytes() {
        push_escaped(text, *byte)?;
    }
    text.push_str("\"")
}

fn push_character(text: &mut String, code: u8) -> Result<(), AllocError>
    ensures { IfOk result (λ _. string_bytes text.new ≡ string_bytes text.old ++ s.character_text code) }
{
    text.push_str("'")?;
    push_escaped(text, code)?;
    text.push_str("'")
}

fn push_number(text: &mut String, value: u32) -> Result<(), AllocError>
    ensures { IfOk result (λ _. string_bytes text.new ≡ string_bytes text.old ++ s.number_text value) }
{
    if value <= 1 << 31 {
        write!(text, "{value}")
    } else {
        write!(text, "0x{value:x}")
    }
}

fn push_kind(text: &mut String, kind: Kind) -> Result<(), AllocError>
    ensures { IfOk result (λ _. string_bytes text.new ≡ string_bytes text.old ++ s.kind_text kind) }
{
    match kind {
        Kind::Number(value) => push_number(text, value),
        Kind::Character(code) => push_character(text, code),
        Kind::Truth(truth) => text.push_str(truth_text(truth)),
        Kind::Base(base) => text.push_str(base_text(base)),
        Kind::Clause(clause) => text.push_str(clause_text(clause)),
        Kind::Infix(operator) => text.push_str(operator_text(operator)),
        Kind::Update(operator) => {
            text.push_str(operator_text(operator))?;
            text.push_str("=")
        }
        _ => text.push_str(fixed_text(kind)),
    }
}

/// The bytes of a token.
pub fn spelling(alloc: Global, terminal: Terminal<'_>) -> Result<String, AllocError>
    ensures { IfOk result (λ t. string_bytes t ≡ s.spelling (terminal_of terminal.entry)) }
{
    let mut text = String::new(alloc);
    match terminal {
        Terminal::Word(name) => text.push_str(name)?,
        Terminal::Text(quoted) => push_quoted(&mut text, quoted)?,
        Terminal::UseName(name) => {
            text.push_str("#use <")?;
            text.push_str(name)?;
            text.push_str(">")?;
        }
        Terminal::UseText(quoted) => {
            text.push_str("#use ")?;
            push_quoted(&mut text, quoted)?;
        }
        Terminal::Sign(kind) => push_kind(&mut text, kind)?,
    }
    Ok(text)
}
