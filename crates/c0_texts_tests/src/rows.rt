//! Reading a row of command lines.

use std::str::from_utf8;

/// What a line says.
#[derive(Clone, Copy)]
pub(crate) enum RowLine<'a> {
    /// The text of a file of this name follows.
    File(&'a str),
    /// A part of a text: so many times these bytes.
    Repeated(usize, &'a [u8]),
    /// A part of a text: so many times this line.
    Lines(usize, &'a [u8]),
    /// A folder of this name.
    Folder(&'a str),
    /// After so many writes of the next command to its standard output, one fails.
    FailingOut(u8),
    /// The same of its standard error.
    FailingErr(u8),
    /// A command line.
    Command(&'a str),
    /// A command line, of which the first line that it writes is told.
    Refused(&'a str),
    /// A line of a text.
    Text(&'a [u8]),
}

/// What stands behind these bytes, where the line begins with them, as text.
fn behind<'a>(line: &'a [u8], mark: &[u8]) -> Option<&'a str> {
    match line.strip_prefix(mark) {
        Some(rest) => from_utf8(rest).ok(),
        None => None,
    }
}

/// The number and the bytes of a line that is this mark, a number, a blank and bytes.
fn repeated<'a>(line: &'a [u8], mark: &[u8]) -> Option<(usize, &'a [u8])> {
    let rest = line.strip_prefix(mark)?;
    let end = rest.iter().position(|byte| *byte == b' ')?;
    let number = from_utf8(rest.get(..end)?).ok()?;
    Some((number.parse().ok()?, rest.get(end + 1..)?))
}

impl<'a> RowLine<'a> {
    /// What this line says: a line that is no other row is one of a text.
    pub(crate) fn of(line: &'a [u8]) -> RowLine<'a> {
        if let Some(name) = behind(line, b"= ") {
            return RowLine::File(name);
        }
        if let Some(words) = behind(line, b"$ ") {
            return RowLine::Command(words);
        }
        if let Some(words) = behind(line, b"? ") {
            return RowLine::Refused(words);
        }
        if let Some((count, bytes)) = repeated(line, b"* ") {
            return RowLine::Repeated(count, bytes);
        }
        if let Some((count, text)) = repeated(line, b"+ ") {
            return RowLine::Lines(count, text);
        }
        if let Some(name) = behind(line, b"! folder ") {
            return RowLine::Folder(name);
        }
        if let Some(Ok(after)) = behind(line, b"! out ").map(|number| number.parse()) {
            return RowLine::FailingOut(after);
        }
        if let Some(Ok(after)) = behind(line, b"! err ").map(|number| number.parse()) {
            return RowLine::FailingErr(after);
        }
        RowLine::Text(line)
    }
}
