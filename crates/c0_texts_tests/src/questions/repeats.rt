//! Texts in which a line `@@ N PART` stands for `N` times `PART`, with no newline before and behind.

use std::alloc::{AllocError, Global};
use std::str::from_utf8;

/// The number and the part of `N PART`, which stands behind `@@ `.
fn repeated(line: &[u8]) -> Option<(usize, &[u8])> {
    let text = from_utf8(line.strip_prefix(b"@@ ")?).ok()?;
    let (number, part) = text.split_once(' ')?;
    Some((number.parse().ok()?, part.as_bytes()))
}

/// So many times this part more.
fn put_often(text: &mut Vec<u8>, count: usize, part: &[u8]) -> Result<(), AllocError> {
    for _ in 0..count {
        text.extend_from_slice(part)?;
    }
    Ok(())
}

/// The text that these lines stand for.
pub(crate) fn expanded(alloc: Global, lines: &[u8]) -> Result<Vec<u8>, AllocError> {
    let mut text = Vec::new(alloc);
    let mut ended = false;
    for line in lines.split(|byte| *byte == b'\n') {
        if let Some((count, part)) = repeated(line) {
            put_often(&mut text, count, part)?;
            ended = false;
            continue;
        }
        if ended {
            text.push(b'\n')?;
        }
        text.extend_from_slice(line)?;
        ended = true;
    }
    Ok(text)
}
