//! What a `#use` names.

ghost use Rattle.std.specs.Prelude.{◌≡◌, ◌&&◌, [], not, true, IfOk, option_map};
ghost use Rattle.std.specs.String.{string_bytes};
ghost use Rattle.c0_source.specs.Bytes as bytes;
ghost use Rattle.c0_source.specs.Spelling.{angled as spec_angled, use_of, use_value};
ghost use Rattle.c0_parser_cursor.specs.FoundUses.{used_first, used_of};

use crate::letters::{push_byte, text_value};
use std::alloc::{AllocError, Global};

/// What a `#use` names.
#[derive(Debug, Drop)]
pub enum Used {
    /// A name between `<` and `>`.
    Name(String),
    Text(String),
}

fn is_blank_in_line(byte: u8) -> bool
    ensures { result ≡ (bytes.is_blank byte && bytes.not_newline byte) }
{
    matches!(byte, b' ' | b'\t' | b'\r' | 11 | 12)
}

/// Whether a name of which this much stands may go on with this byte.
fn goes_on(byte: u8, first: bool) -> bool
    ensures { result ≡ (bytes.is_word byte && not (first && bytes.is_digit byte)) }
{
    match byte {
        b'a'..=b'z' | b'A'..=b'Z' | b'_' => true,
        b'0'..=b'9' => !first,
        _ => false,
    }
}

/// The name that stands before `>`, where nothing stands behind that.
fn angled(alloc: Global, bytes: &[u8]) -> Result<Option<String>, AllocError>
    ensures { IfOk result (λ name. option_map (λ x. (true, string_bytes x)) name ≡ spec_angled [] bytes.entry.now) }
{
    let mut rest = bytes;
    let mut name = String::new(alloc);
    while let [byte, others @ ..] = rest {
        if *byte == b'>' {
            return if others.is_empty() && !name.is_empty() {
                Ok(Some(name))
            } else {
                Ok(None)
            };
        }
        if !goes_on(*byte, name.is_empty()) {
            return Ok(None);
        }
        push_byte(&mut name, *byte)?;
        rest = others;
    }
    Ok(None)
}

/// What is used where this byte stands first, and these behind it.
fn used_by(alloc: Global, first: u8, bytes: &[u8]) -> Result<Option<Used>, AllocError>
    ensures { IfOk result (λ used. option_map used_of used ≡ used_first first bytes.now) }
{
    match first {
        b'<' => match angled(alloc, bytes)? {
            Some(name) => Ok(Some(Used::Name(name))),
            None => Ok(None),
        },
        b'"' => match text_value(alloc, bytes)? {
            Some(text) => Ok(Some(Used::Text(text))),
            None => Ok(None),
        },
        _ => Ok(None),
    }
}

/// What is used, of which this stands behind `use`.
fn used_value(alloc: Global, bytes: &[u8]) -> Result<Option<Used>, AllocError>
    ensures { IfOk result (λ used. option_map used_of used ≡ use_value bytes.entry.now) }
{
    let mut rest = bytes;
    while let [byte, others @ ..] = rest {
        if !is_blank_in_line(*byte) {
            return used_by(alloc, *byte, others);
        }
        rest = others;
    }
    Ok(None)
}

/// What a `#use` names, of which this stands behind `#`; none where it is no `#use`.
pub(crate) fn directive(alloc: Global, bytes: &[u8]) -> Result<Option<Used>, AllocError>
    ensures { IfOk result (λ used. option_map used_of used ≡ use_of bytes.now) }
{
    match bytes {
        [b'u', b's', b'e', rest @ ..] => used_value(alloc, rest),
        _ => Ok(None),
    }
}
