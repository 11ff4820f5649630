//! What is told of a row.

use crate::code::put_blocks;
use crate::ends::put_end;
use crate::faults::put_fault;
use crate::meaning::put_unassigned;
use crate::operators::put_value;
use crate::pointers::put_word;
use crate::same::put_same;
use c0_source::source::Source;
use schedule_lines::line::read_line;
use std::alloc::{AllocError, Global};
use std::fmt::Write;
use std::io;
use std::str::from_utf8;

/// What is asked of the rows of a file.
#[derive(Clone, Copy)]
pub enum Asked {
    Operators,
    Ends,
    Faults,
    Words,
    Same,
    Source,
    Schedule,
    Unassigned,
    Code,
}

impl Asked {
    /// What is asked of the rows of the file of this name.
    pub(crate) fn of(name: &str) -> Option<Asked> {
        match name {
            "operators.rows" => Some(Asked::Operators),
            "ends.rows" => Some(Asked::Ends),
            "faults.rows" => Some(Asked::Faults),
            "words.rows" => Some(Asked::Words),
            "same.rows" => Some(Asked::Same),
            "source.rows" => Some(Asked::Source),
            "schedule.rows" => Some(Asked::Schedule),
            "unassigned.rows" => Some(Asked::Unassigned),
            "code.rows" => Some(Asked::Code),
            _ => None,
        }
    }
}

/// What the source of a text has.
fn put_source(alloc: Global, text: &str, told: &mut String) -> Result<(), AllocError> {
    match Source::new(alloc, text.as_bytes()) {
        Ok(source) => {
            let taken = from_utf8(source.bytes()).unwrap_or("no text");
            told.push_str(taken)
        }
        Err(fault) => write!(told, "{fault}"),
    }
}

/// The actor and the choice of the line that begins a text, and how many bytes stand behind it.
fn put_line(text: &str, told: &mut String) -> Result<(), AllocError> {
    match read_line(text.as_bytes()) {
        Some((actor, choice, rest)) => {
            let behind = rest.len();
            write!(told, "{actor:?} {choice:?} {behind}")
        }
        None => told.push_str("no line"),
    }
}

/// The answer to a line of these words.
fn put_answer(alloc: Global, asked: Asked, words: &[&str], told: &mut String) -> io::Result<()> {
    match asked {
        Asked::Operators => put_value(words, told)?,
        Asked::Ends => put_end(alloc, words, told)?,
        Asked::Faults => put_fault(alloc, words, told)?,
        Asked::Words => put_word(words, told)?,
        Asked::Same | Asked::Source | Asked::Schedule | Asked::Unassigned | Asked::Code => {}
    }
    Ok(())
}

/// The answer to each line of a text.
fn put_answers(alloc: Global, asked: Asked, text: &str, told: &mut String) -> io::Result<()> {
    for line in text.split('\n') {
        if !told.is_empty() {
            told.push('\n')?;
        }
        let words: Vec<&str> = line.split(' ').collect(alloc)?;
        put_answer(alloc, asked, &words, told)?;
    }
    Ok(())
}

/// What is told of a row.
pub(crate) fn tell(alloc: Global, asked: Asked, given: &[u8]) -> io::Result<String> {
    let mut told = String::new(alloc);
    let Ok(text) = from_utf8(given) else {
        return Ok(told);
    };
    match asked {
        Asked::Same => put_same(alloc, text, &mut told)?,
        Asked::Source => put_source(alloc, text, &mut told)?,
        Asked::Schedule => put_line(text, &mut told)?,
        Asked::Unassigned => put_unassigned(alloc, text, &mut told)?,
        Asked::Code => put_blocks(alloc, text, &mut told)?,
        _ => put_answers(alloc, asked, text, &mut told)?,
    }
    Ok(told)
}
