//! Classes of bytes.

ghost use Rattle.std.specs.Prelude.{◌≡◌, ◌&&◌, slice_index};
ghost use Rattle.c0_source.specs.Bytes as spec;

/// The byte at an index, or 0 behind the end.
pub(crate) fn byte_at(text: &[u8], at: usize) -> u8
    ensures { result ≡ slice_index text.now at }
{
    if at < text.len() { text[at] } else { 0 }
}

/// Whether the byte is a blank, a newline among them.
pub(crate) fn is_blank(b: u8) -> bool
    ensures { result ≡ spec.is_blank b }
{
    b == b' ' || (9 <= b && b <= 13)
}

/// Whether the byte is a blank but no newline.
pub(crate) fn is_blank_in_line(b: u8) -> bool
    ensures { result ≡ (spec.is_blank b && spec.not_newline b) }
{
    is_blank(b) && b != b'\n'
}

/// Whether the byte is a letter or `_`.
pub(crate) fn is_letter(b: u8) -> bool
    ensures { result ≡ spec.is_letter b }
{
    b.is_ascii_lowercase() || b.is_ascii_uppercase() || b == b'_'
}

/// Whether the byte is a digit.
pub(crate) fn is_digit(b: u8) -> bool
    ensures { result ≡ spec.is_digit b }
{
    b.is_ascii_digit()
}

/// Whether the byte is a letter, a digit or `_`.
pub(crate) fn is_word(b: u8) -> bool
    ensures { result ≡ spec.is_word b }
{
    is_letter(b) || is_digit(b)
}

/// Whether a text or a character may hold the byte.
pub(crate) fn is_printable(b: u8) -> bool
    ensures { result ≡ spec.is_printable b }
{
    32 <= b && b <= 126
}

/// What stands for a byte behind `\`.
pub(crate) fn escape(b: u8) -> Option<u8>
    ensures { result ≡ spec.escape b }
{
    match b {
        b'n' => Some(b'\n'),
        b't' => Some(b'\t'),
        b'v' => Some(11),
        b'b' => Some(8),
        b'r' => Some(b'\r'),
        b'f' => Some(12),
        b'a' => Some(7),
        b'\\' | b'\'' | b'"' => Some(b),
        _ => None,
    }
}
