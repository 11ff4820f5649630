//! Rows of texts, and what is told of each.

mod repeats;
mod tables;
mod tell;
mod trees;

use crate::questions::repeats::expanded;
pub(crate) use crate::questions::tell::Question;
use crate::questions::tell::tell;
use std::alloc::Global;
use std::io;
use std::io::Write;
use test_rows::{compare, rows};

/// Shows the rows of a file of which something else is told than what is wanted, and how many rows there are. Whether none is shown.
pub(crate) fn ask<O: Write>(
    alloc: Global,
    question: Question,
    name: &str,
    text: &[u8],
    out: &mut O,
) -> io::Result<bool> {
    let rows = rows(alloc, text)?;
    let mut all = true;
    for row in &rows {
        let text = expanded(alloc, &row.given)?;
        let told = tell(alloc, question, &text)?;
        all = compare(row, &told, out)? && all;
    }
    let count = rows.len();
    writeln!(out, "{name}: {count} rows")?;
    Ok(all)
}
