//! Lines, and which of them make a row.
ghost use Rattle.std.specs.List.{join_with_byte, slice_split};
ghost use Rattle.std.specs.Option.{option_map};
ghost use Rattle.std.specs.Prelude.{◌≡◌, ◌==◌, ◌+◌, ◌≤◌, ◌++◌, IfOk, OnOk, drop, length, map, take};
ghost use Rattle.test_rows.specs.Rows.{before, behind, begins_row, is_parting, lines_of, own, title_of, without_end};

use std::alloc::{AllocError, Global};

/// The text without the newline at its end, where there is one.
fn without_end(text: &[u8]) -> &[u8]
    ensures { result.now ≡ without_end text.now }
{
    match text.strip_suffix(b"\n") {
        Some(front) => front,
        None => text,
    }
}

/// What stands between the newlines of a text.
fn pieces(alloc: Global, text: &[u8]) -> Result<Vec<&[u8]>, AllocError>
    ensures { IfOk result (λ v. map (λ x. x.now) v.items ≡ slice_split (λ b. b == 10) text.now) }
{
    text.split(|byte| *byte == b'\n').collect(alloc)
}

/// The lines of a text, of which a newline ends the last or does not.
pub(crate) fn lines(alloc: Global, text: &[u8]) -> Result<Vec<&[u8]>, AllocError>
    ensures { IfOk result (λ v. map (λ x. x.now) v.items ≡ lines_of text.now) }
{
    pieces(alloc, without_end(text))
}

/// The title of the row that this line begins, if it begins one.
pub(crate) fn title(line: &[u8]) -> Option<&[u8]>
    ensures { option_map (λ x. x.now) result ≡ title_of line.now }
{
    match line {
        [b'=', b'=', title @ ..] => Some(title),
        _ => None,
    }
}

/// Whether this line parts a text from what must be told of it.
fn is_parting(line: &[u8]) -> bool
    ensures { result ≡ is_parting line.now }
{
    match line {
        [first, second] => *first == b'-' && *second == b'-',
        _ => false,
    }
}

/// How many lines stand before the first that begins a row, or at all.
fn own_count(lines: &[&[u8]]) -> usize
    ensures bound { result ≤ length lines.now }
    ensures own { map (λ x. x.now) (take result lines.now) ≡ own (map (λ x. x.now) lines.now) }
{
    let [line, others @ ..] = lines else {
        return 0;
    };
    if title(line).is_some() {
        0
    } else {
        own_count(others) + 1
    }
}

/// How many lines stand before the first that parts, or at all.
fn before_count(lines: &[&[u8]]) -> usize
    ensures bound { result ≤ length lines.now }
    ensures before { map (λ x. x.now) (take result lines.now) ≡ before (map (λ x. x.now) lines.now) }
    ensures behind { map (λ x. x.now) (drop (result + 1) lines.now) ≡ behind (map (λ x. x.now) lines.now) }
{
    let [line, others @ ..] = lines else {
        return 0;
    };
    if is_parting(line) {
        0
    } else {
        before_count(others) + 1
    }
}

/// These lines, with a newline between two of them, behind a text.
fn put_lines(lines: &[&[u8]], text: &mut Vec<u8>) -> Result<(), AllocError>
    ensures { OnOk result (text.new.items ≡ text.old.items ++ join_with_byte 10 (map (λ x. x.now) lines.now)) }
{
    match lines {
        [] => Ok(()),
        [line] => text.extend_from_slice(line),
        [line, others @ ..] => {
            text.extend_from_slice(line)?;
            text.push(b'\n')?;
            put_lines(others, text)
        }
    }
}

/// These lines, with a newline between two of them. `Err` where memory is refused.
pub(crate) fn joined(alloc: Global, lines: &[&[u8]]) -> Result<Vec<u8>, AllocError>
    ensures { IfOk result (λ v. v.items ≡ join_with_byte 10 (map (λ x. x.now) lines.now)) }
{
    let mut text = Vec::new(alloc);
    put_lines(lines, &mut text)?;
    Ok(text)
}

/// The lines before the first that begins a row.
pub(crate) fn own<'a, 'b>(lines: &'b [&'a [u8]]) -> &'b [&'a [u8]]
    ensures { map (λ x. x.now) result.now ≡ own (map (λ x. x.now) lines.now) }
{
    &lines[..own_count(lines)]
}

/// The lines before the first that parts, and those behind it.
pub(crate) fn parts<'a, 'b>(lines: &'b [&'a [u8]]) -> (&'b [&'a [u8]], &'b [&'a [u8]])
    ensures before { map (λ x. x.now) result.0.now ≡ before (map (λ x. x.now) lines.now) }
    ensures behind { map (λ x. x.now) result.1.now ≡ behind (map (λ x. x.now) lines.now) }
{
    let count = before_count(lines);
    let behind = if count < lines.len() {
        &lines[count + 1..]
    } else {
        &lines[count..]
    };
    (&lines[..count], behind)
}
