//! The letters of names and the values of texts.

ghost use Rattle.std.specs.Prelude.{◌≡◌, ◌<◌, ◌++◌, ◌∷◌, [], false, drop, All, IfOk, IfSome, option_map};
ghost use Rattle.std.specs.String.{string_bytes};
ghost use Rattle.c0_source.specs.Bytes as bytes;
ghost use Rattle.c0_source.specs.Spelling.{text_value as spec_text_value};
ghost use Rattle.c0_grammar_laws.specs.Tokens.{byte_value as spec_byte_value};

use std::alloc::{AllocError, Global};

pub(crate) fn push_byte(text: &mut String, byte: u8) -> Result<(), AllocError>
    requires { byte < 128 }
    ensures { IfOk result (λ _. string_bytes text.new ≡ string_bytes text.old ++ byte ∷ []) }
{
    text.push(byte as char)
}

/// These bytes as a text.
pub(crate) fn letters(alloc: Global, bytes: &[u8]) -> Result<String, AllocError>
    requires { All (λ b. b < 128) bytes.now }
    ensures { IfOk result (λ text. string_bytes text ≡ bytes.now) }
{
    let mut text = String::new(alloc);
    for byte in bytes {
        push_byte(&mut text, *byte)?;
    }
    Ok(text)
}

/// What stands for a byte behind `\`.
fn escape(byte: u8) -> Option<u8>
    ensures value { result ≡ bytes.escape byte }
    ensures small { IfSome result (λ b. b < 128) }
{
    match byte {
        b'n' => Some(b'\n'),
        b't' => Some(b'\t'),
        b'v' => Some(11),
        b'b' => Some(8),
        b'r' => Some(b'\r'),
        b'f' => Some(12),
        b'a' => Some(7),
        b'\\' | b'\'' | b'"' => Some(byte),
        _ => None,
    }
}

/// The byte of a text that a byte stands for, behind `\` or not.
fn byte_value(escaped: bool, byte: u8) -> Option<u8>
    ensures value { result ≡ spec_byte_value escaped byte }
    ensures small { IfSome result (λ b. b < 128) }
{
    if escaped {
        escape(byte)
    } else if 32 <= byte && byte <= 126 {
        Some(byte)
    } else {
        None
    }
}

/// The value of a text, of which this stands behind the opening quote; none where it is no text.
pub(crate) fn text_value(alloc: Global, bytes: &[u8]) -> Result<Option<String>, AllocError>
    ensures { IfOk result (λ value. option_map string_bytes value ≡ spec_text_value false bytes.entry.now) }
{
    let mut rest = bytes;
    let mut text = String::new(alloc);
    let mut escaped = false;
    while let [byte, others @ ..] = rest {
        if !escaped && *byte == b'"' {
            return if others.is_empty() {
                Ok(Some(text))
            } else {
                Ok(None)
            };
        }
        if !escaped && *byte == b'\\' {
            escaped = true;
        } else {
            let Some(value) = byte_value(escaped, *byte) else {
                return Ok(None);
            };
            push_byte(&mut text, value)?;
            escaped = false;
        }
        rest = others;
    }
    Ok(None)
}

/// The bytes behind the first one.
pub(crate) fn tail(bytes: &[u8]) -> &[u8]
    ensures { result.now ≡ drop 1 bytes.now }
{
    match bytes {
        [] => bytes,
        [_, rest @ ..] => rest,
    }
}
