//! Numbers.

ghost use Rattle.std.specs.Prelude.{◌≡◌, ◌<◌, length, slice_index, true, false};
ghost use Rattle.c0_source.specs.Bytes as spec;
ghost use Rattle.c0_lexer.specs.Pieces.{Gives};
ghost use Rattle.c0_lexer.specs.Numbers.{digits_value, hex_digit_value, hex_value, number_value};

use crate::byte::is_digit;
use crate::longest::LongestPiece;
use crate::word::word_length;
use c0_source::kind::{Kind, Mode, Piece};

/// The largest decimal number.
const LARGEST_DECIMAL: u64 = 1 << 31;

/// The largest hexadecimal number.
const LARGEST_HEXADECIMAL: u64 = u32::MAX as u64;

/// The value of a hexadecimal digit.
fn hex_digit(b: u8) -> Option<u64>
    ensures { result ≡ hex_digit_value b }
{
    match b {
        b'0'..=b'9' => Some(u64::from(b - b'0')),
        b'a'..=b'f' => Some(u64::from(b - b'a') + 10),
        b'A'..=b'F' => Some(u64::from(b - b'A') + 10),
        _ => None,
    }
}

/// The value of decimal digits, at most `LARGEST_DECIMAL`.
fn decimal_value(digits: &[u8]) -> Option<u32>
    ensures { result ≡ digits_value 0 digits.now }
{
    let mut value: u64 = 0;
    for b in digits {
        if !is_digit(*b) {
            return None;
        }
        value = value * 10 + u64::from(*b - b'0');
        if value > LARGEST_DECIMAL {
            return None;
        }
    }
    Some(value as u32)
}

/// The value of hexadecimal digits, at most `LARGEST_HEXADECIMAL`.
fn hexadecimal_value(digits: &[u8]) -> Option<u32>
    ensures { result ≡ hex_value 0 digits.now }
{
    let mut value: u64 = 0;
    for b in digits {
        let digit = hex_digit(*b)?;
        value = value * 16 + digit;
        if value > LARGEST_HEXADECIMAL {
            return None;
        }
    }
    Some(value as u32)
}

/// The value of a number: decimal digits of which the first of two or more is not 0, or `0x` or `0X` and hexadecimal digits.
fn number_value(text: &[u8]) -> Option<u32>
    ensures { result ≡ number_value text.now }
{
    match text {
        [b'0', b'x' | b'X', digits @ ..] => {
            if digits.is_empty() {
                None
            } else {
                hexadecimal_value(digits)
            }
        }
        [b'0', _, ..] => None,
        [] => None,
        digits => decimal_value(digits),
    }
}

/// The number at the front of a text whose first byte is a digit. It goes as far as letters, digits and `_` do.
pub(crate) fn number(mode: Mode, text: &[u8]) -> Option<LongestPiece>
    requires some { 0 < length text.now }
    requires blank { spec.is_blank (slice_index text.now 0) ≡ false }
    requires letter { spec.is_letter (slice_index text.now 0) ≡ false }
    requires digit { spec.is_digit (slice_index text.now 0) ≡ true }
    ensures { Gives mode text.now result }
{
    let length = word_length(text);
    let value = number_value(&text[..length])?;
    Some(LongestPiece {
        length,
        piece: Piece::Token(Kind::Number(value)),
    })
}
