//! How the lines of a schedule are read.
ghost use Rattle.std.specs.Prelude.{◌≡◌, ◌≢◌, ◌+◌, ◌*◌, ◌≤◌, ◌^◌, ◌++◌, ℕ, List, MatchOption};
ghost use Rattle.schedule_lines.specs.Lines.{IsLine, IsNoLine};
ghost use Rattle.schedule_lines.specs.Numerals.{HasDigits, IsChosen, IsLast, IsNamed, IsNoNumber, IsNoPair, IsNotChosen, IsNotLast, IsNotNamed, IsNotNumbered, IsNumber, IsNumbered, IsPair, IsTooGreat, is_plain as spec_is_plain};

use world_semantics::event::{Actor, Choice};

/// What stands behind the word that begins the text.
fn skip<'a>(text: &'a [u8], word: &[u8]) -> Option<&'a [u8]>
    ensures { MatchOption result ((rest : List ℕ) → text.now ≢ word.now ++ rest) (λ rest. text.now ≡ word.now ++ rest.now) }
{
    match (text, word) {
        (_, []) => Some(text),
        ([byte, rest @ ..], [first, others @ ..]) if byte == first => skip(rest, others),
        _ => None,
    }
}

/// The number that one digit more makes of this one. None where that has more than 32 bits.
fn with_digit(number: u32, digit: u8) -> Option<u32>
    ensures { MatchOption result (2 ^ 32 ≤ number * 10 + digit) (λ next. next ≡ number * 10 + digit) }
{
    let next = u64::from(number) * 10 + u64::from(digit);
    if next <= u64::from(u32::MAX) {
        Some(next as u32)
    } else {
        None
    }
}

/// The number that the digits at the beginning of the text write, and what stands behind them. None where it has more than 32 bits.
fn digits_of(text: &[u8]) -> Option<(u32, &[u8])>
    ensures { MatchOption result (IsTooGreat 0 text.now) (λ p. HasDigits 0 text.now p.0 p.1.now) }
{
    let mut number = 0;
    let mut rest = text;
    while let [byte, others @ ..] = rest {
        if !byte.is_ascii_digit() {
            return Some((number, rest));
        }
        let Some(next) = with_digit(number, *byte - b'0') else {
            return None;
        };
        number = next;
        rest = others;
    }
    Some((number, rest))
}

/// Whether so many digits at the beginning of the text are a number as it is printed.
fn is_plain(text: &[u8], count: usize) -> bool
    ensures { result ≡ spec_is_plain text.now count }
{
    match text {
        [b'0', ..] => count == 1,
        _ => count > 0,
    }
}

/// The number that begins the text, and what stands behind it.
#[tactic(auto, using(crate::proofs::Numbers::is_number, crate::proofs::Numbers::is_no_number, crate::proofs::Numbers::no_great_number))]
fn number(text: &[u8]) -> Option<(u32, &[u8])>
    ensures { MatchOption result (IsNoNumber text.now) (λ p. IsNumber p.0 p.1.now text.now) }
{
    match digits_of(text) {
        Some((number, rest)) => {
            if is_plain(text, text.len() - rest.len()) {
                Some((number, rest))
            } else {
                None
            }
        }
        None => None,
    }
}

/// The number behind a word that begins the text, and what stands behind it.
fn numbered<'a>(text: &'a [u8], word: &[u8]) -> Option<(u32, &'a [u8])>
    ensures { MatchOption result (IsNotNumbered word.now text.now) (λ p. IsNumbered word.now p.0 p.1.now text.now) }
{
    match skip(text, word) {
        Some(rest) => number(rest),
        None => None,
    }
}

/// The number between a word that begins the text and a newline, and what stands behind that.
fn last<'a>(text: &'a [u8], word: &[u8]) -> Option<(u32, &'a [u8])>
    ensures { MatchOption result (IsNotLast word.now text.now) (λ p. IsLast word.now p.0 p.1.now text.now) }
{
    match numbered(text, word) {
        Some((number, rest)) => match skip(rest, b"\n") {
            Some(others) => Some((number, others)),
            None => None,
        },
        None => None,
    }
}

/// The two numbers, with a blank between them, between a word that begins the text and a newline, and what stands behind that.
#[tactic(auto, using(crate::proofs::Numbers::is_pair, crate::proofs::Numbers::no_pair))]
fn pair<'a>(text: &'a [u8], word: &[u8]) -> Option<((u32, u32), &'a [u8])>
    ensures { MatchOption result (IsNoPair word.now text.now) (λ p. IsPair word.now p.0.0 p.0.1 p.1.now text.now) }
{
    match numbered(text, word) {
        Some((first, rest)) => match last(rest, b" ") {
            Some((second, others)) => Some(((first, second), others)),
            None => None,
        },
        None => None,
    }
}

/// The choice that begins the text, and what stands behind the newline.
fn choice(text: &[u8]) -> Option<(Choice, &[u8])>
    ensures { MatchOption result (IsNotChosen text.now) (λ p. IsChosen p.0 p.1.now text.now) }
{
    if let Some(rest) = skip(text, b"\n") {
        Some((Choice::Next, rest))
    } else if let Some((frame, rest)) = last(text, b" look ") {
        Some((Choice::Look(frame), rest))
    } else if let Some((frame, rest)) = last(text, b" claim ") {
        Some((Choice::Claim(frame), rest))
    } else if let Some((object, rest)) = last(text, b" begin ") {
        Some((Choice::Begin(object), rest))
    } else if let Some(((object, frame), rest)) = pair(text, b" mark ") {
        Some((Choice::Mark(object, frame), rest))
    } else if let Some(((object, frame), rest)) = pair(text, b" leave ") {
        Some((Choice::Leave(object, frame), rest))
    } else {
        None
    }
}

/// The actor that begins the text, and what stands behind it.
fn actor(text: &[u8]) -> Option<(Actor, &[u8])>
    ensures { MatchOption result (IsNotNamed text.now) (λ p. IsNamed p.0 p.1.now text.now) }
{
    if let Some((number, rest)) = numbered(text, b"p") {
        Some((Actor::Program(number), rest))
    } else if let Some((number, rest)) = numbered(text, b"e") {
        Some((Actor::Evacuator(number), rest))
    } else if let Some((number, rest)) = numbered(text, b"f") {
        Some((Actor::Fetcher(number), rest))
    } else {
        None
    }
}

/// The line that begins the text, and what stands behind its newline. A line is an actor (`p`, `e` or `f` and its number from 0), then nothing,
/// or a blank, a verb and its numbers, and a newline; single blanks, numbers decimal without leading zeros and of at most 32 bits.
pub fn read_line(text: &[u8]) -> Option<(Actor, Choice, &[u8])>
    ensures { MatchOption result (IsNoLine text.now) (λ p. IsLine (record { actor = p.0; choice = p.1 }) p.2.now text.now) }
{
    match actor(text) {
        Some((actor, rest)) => match choice(rest) {
            Some((choice, others)) => Some((actor, choice, others)),
            None => None,
        },
        None => None,
    }
}
