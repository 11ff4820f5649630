//! Reading rows.
//!
//! A line that begins with `==` begins a row, and goes on with its title. Behind it come the lines of a text, a line `--`, and the lines of what must be
//! told. The last line of each has no newline behind it.
ghost use Rattle.std.specs.List.{filter};
ghost use Rattle.std.specs.Prelude.{◌≡◌, ◌≢◌, ◌++◌, IfOk, MatchBool, OnOk, map};
ghost use Rattle.test_rows.specs.Rows.{is_kept, lines_of, row_of, rows_of, text_row};

use crate::lines::{joined, lines, own, parts, title};
use std::alloc::{AllocError, Global};
use std::io;
use std::io::Write;

/// A text with its title, and what must be told of it.
#[derive(Drop)]
pub struct Row {
    /// What stands behind the `==`.
    pub title: Vec<u8>,
    /// The text.
    pub given: Vec<u8>,
    /// What must be told of it.
    pub wanted: Vec<u8>,
}

/// The row of this title, with what stands behind it up to the next.
fn titled(alloc: Global, title: &[u8], lines: &[&[u8]]) -> Result<Row, AllocError>
    ensures { IfOk result (λ r. row_of r ≡ text_row title.now (map (λ x. x.now) lines.now)) }
{
    let (given, wanted) = parts(lines);
    Ok(Row {
        title: title.to_vec(alloc)?,
        given: joined(alloc, given)?,
        wanted: joined(alloc, wanted)?,
    })
}

/// The rows that these lines begin, behind others.
fn put_rows(alloc: Global, lines: &[&[u8]], rows: &mut Vec<Row>) -> Result<(), AllocError>
    ensures { OnOk result (map row_of rows.new.items ≡ map row_of rows.old.items ++ rows_of (map (λ x. x.now) lines.now)) }
{
    let [line, others @ ..] = lines else {
        return Ok(());
    };
    if let Some(title) = title(line) {
        rows.push(titled(alloc, title, own(others))?)?;
    }
    put_rows(alloc, others, rows)
}

/// The rows of a text, in order. What stands before the first of them counts for nothing. `Err` where memory is refused.
pub fn rows(alloc: Global, text: &[u8]) -> Result<Vec<Row>, AllocError>
    ensures { IfOk result (λ v. map row_of v.items ≡ rows_of (lines_of text.now)) }
{
    let lines = lines(alloc, text)?;
    let mut rows = Vec::new(alloc);
    put_rows(alloc, &lines, &mut rows)?;
    Ok(rows)
}

/// The text without its blanks and newlines. `Err` where memory is refused.
pub fn without_blanks(alloc: Global, text: &[u8]) -> Result<Vec<u8>, AllocError>
    ensures { IfOk result (λ v. v.items ≡ filter is_kept text.now) }
{
    let mut kept = Vec::new(alloc);
    for byte in text {
        if *byte != b' ' && *byte != b'\n' {
            kept.push(*byte)?;
        }
    }
    Ok(kept)
}

/// Whether this is what must be told of the row. Where it is not, the row and what was told of it are shown. `Err` where that can't be written.
pub fn compare<O: Write>(row: &Row, told: &[u8], out: &mut O) -> io::Result<bool>
    ensures { IfOk result (λ same. MatchBool same (told.now ≡ row.now.wanted.items) (told.now ≢ row.now.wanted.items)) }
{
    if told == row.wanted.as_slice() {
        return Ok(true);
    }
    out.write_all(b"==")?;
    out.write_all(&row.title)?;
    writeln!(out)?;
    out.write_all(&row.given)?;
    writeln!(out)?;
    writeln!(out, "told:")?;
    out.write_all(told)?;
    writeln!(out)?;
    Ok(false)
}
