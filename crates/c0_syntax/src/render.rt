//! The text of tokens with the gaps between them.

ghost use Rattle.std.specs.Prelude.{◌≡◌, ◌++◌, map, true, IfOk};
ghost use Rattle.std.specs.String.{string_bytes};
ghost use Rattle.c0_source.specs.Bytes.{is_word as spec_is_word};
ghost use Rattle.c0_syntax.specs.declared.mark.Gap.TheVariants as g;
ghost use Rattle.c0_syntax.specs.Marks.{mark_of};
ghost use Rattle.c0_syntax.specs.Printing as p;

use crate::mark::{Gap, Mark};
use crate::spelling::spelling;
use std::alloc::{AllocError, Global};

fn is_word(byte: u8) -> bool
    ensures { result ≡ spec_is_word byte }
{
    matches!(byte, b'a'..=b'z' | b'A'..=b'Z' | b'_' | b'0'..=b'9')
}

fn doubles(byte: u8) -> bool
    ensures { result ≡ p.doubles byte }
{
    matches!(byte, b'+' | b'-' | b'&' | b'|' | b'<' | b'>' | b'/')
}

// Whether a token that begins with `next` may read as part of the one before it.
fn joins(before: u8, next: u8) -> bool
    ensures { result ≡ p.joins before next }
{
    is_word(next) && is_word(before)
        || next == b'='
        || doubles(next) && before == next
        || next == b'>' && before == b'-'
        || next == b'*' && before == b'/'
}

fn first_of(text: &str) -> u8
    ensures { result ≡ p.first_of text.now }
{
    match text.as_bytes() {
        [first, ..] => *first,
        [] => 0,
    }
}

#[tactic(auto, using(crate::proofs::Indents::no_level))]
fn push_line(text: &mut String, level: usize) -> Result<(), AllocError>
    ensures { IfOk result (λ _. string_bytes text.new ≡ string_bytes text.old ++ p.gap_text (g.Line level) true) }
{
    text.push_str("\n")?;
    for _turn in 0..level {
        text.push_str("    ")?;
    }
    Ok(())
}

fn push_gap(text: &mut String, gap: Gap, joined: bool) -> Result<(), AllocError>
    ensures { IfOk result (λ _. string_bytes text.new ≡ string_bytes text.old ++ p.gap_text gap joined) }
{
    match gap {
        Gap::Touching if joined => text.push_str(" "),
        Gap::Touching => Ok(()),
        Gap::Blank => text.push_str(" "),
        Gap::Line(level) => push_line(text, level),
        Gap::EmptyLine => text.push_str("\n\n"),
    }
}

/// The text of these tokens, with the end of a line behind them.
pub fn render(alloc: Global, marks: &[Mark<'_>]) -> Result<String, AllocError>
    ensures { IfOk result (λ text. string_bytes text ≡ p.rendered 0 (map mark_of marks.now)) }
{
    let mut text = String::new(alloc);
    let mut before = 0;
    for mark in marks {
        let token = spelling(alloc, mark.terminal)?;
        let next = first_of(&token);
        push_gap(&mut text, mark.gap, joins(before, next))?;
        text.push_str(&token)?;
        before = next;
    }
    text.push_str("\n")?;
    Ok(text)
}
