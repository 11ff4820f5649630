//! The bytes that are written of an image that was read.

/// Whether these bytes are written again of what was read of them: the same, or, of an image of version 1, those of version 2 for pieces of 64 cells.
pub(crate) fn is_written_again(bytes: &[u8], again: &[u8]) -> bool {
    match (bytes, again) {
        (
            [b'C', b'0', b'F', b'I', 1, 0, body @ ..],
            [b'C', b'0', b'F', b'I', 2, 0, 64, 0, written @ ..],
        ) => body == written,
        _ => bytes == again,
    }
}
