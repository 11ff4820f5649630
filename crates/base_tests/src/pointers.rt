//! Pointer words.
ghost use Rattle.std.specs.Prelude.{◌<◌, IfSome};

use pointer_word::{KEEP_COMING, KEEP_HERE, KEEP_PLAIN, Word};
use std::alloc::AllocError;
use std::fmt::Write;

/// The number that a word is, if it has 16 bits.
fn small(word: &str) -> Option<u64>
    ensures { IfSome result (λ number. number < 65536) }
{
    let number: u16 = word.parse().ok()?;
    Some(u64::from(number))
}

/// The bits that a word is, in hexadecimal digits.
fn bits(word: &str) -> Option<u64> {
    u64::from_str_radix(word, 16).ok()
}

/// What these bits are where only some of them stay.
fn kept(name: &str, bits: u64) -> Option<u64> {
    match name {
        "is-written" => Some(bits & KEEP_PLAIN),
        "stays" => Some(bits & KEEP_HERE),
        "retreats" => Some(bits & KEEP_COMING),
        "of" => Some(bits),
        _ => None,
    }
}

/// The bits of the pointer word of a name and one word.
fn of_one(name: &str, word: &str) -> Option<u64> {
    match name {
        "away" => Some(Word::away(small(word)?).bits),
        "clean" => Some(Word::clean_here(small(word)?).bits),
        _ => kept(name, bits(word)?),
    }
}

/// The bits of the pointer word of a name and two numbers.
fn of_two(name: &str, first: &str, second: &str) -> Option<u64> {
    let first = small(first)?;
    let second = small(second)?;
    match name {
        "coming" => Some(Word::coming(first, second).bits),
        "here" => Some(Word::here(first, second).bits),
        "leaving" => Some(Word::leaving(first, second).bits),
        _ => None,
    }
}

/// The bits of a pointer word whose object this mover brings into this frame.
fn arrived(word: &str, mover: &str, frame: &str) -> Option<u64> {
    let arrival = Word::arrival(small(mover)?, small(frame)?);
    Some(bits(word)?.wrapping_add(arrival))
}

/// The bits of the pointer word of these words.
fn asked(words: &[&str]) -> Option<u64> {
    match words {
        [name, word] => of_one(name, word),
        [name, first, second] => of_two(name, first, second),
        ["arrives", word, mover, frame] => arrived(word, mover, frame),
        _ => None,
    }
}

/// What a pointer word is besides its state.
fn put_marks(word: Word, told: &mut String) -> Result<(), AllocError> {
    if word.marked() {
        told.push_str(", marked")?;
    }
    if word.out() {
        told.push_str(", out")?;
    }
    if word.clean() {
        told.push_str(", clean")?;
    }
    Ok(())
}

/// The bits of the pointer word of these words, and what they say.
pub(crate) fn put_word(words: &[&str], told: &mut String) -> Result<(), AllocError> {
    let Some(bits) = asked(words) else {
        return told.push_str("no word");
    };
    let word = Word { bits };
    let state = word.state();
    let frame = word.frame();
    let mover = word.mover();
    let count = word.count();
    write!(
        told,
        "{bits:x}: {state:?}, frame {frame}, mover {mover}, count {count}"
    )?;
    put_marks(word, told)
}
