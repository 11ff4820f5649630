//! Words as bytes, and back.
ghost use Rattle.std.specs.Prelude.{◌≡◌, ◌*◌, length};
ghost use Rattle.file_store.specs.FileRows.{word_bytes, words_in};

use byteorder::{ByteOrder, LittleEndian};

/// Makes `bytes` the bytes of these words: eight for each, the lowest first.
pub(crate) fn put_words(words: &[u64], bytes: &mut [u8])
    requires { length bytes.old ≡ 8 * length words.now }
    ensures bytes { bytes.new ≡ word_bytes words.now }
    ensures back { words_in bytes.new ≡ words.now }
{
    LittleEndian::write_u64_into(words, bytes);
}

/// Makes `words` the words of these bytes.
pub(crate) fn take_words(bytes: &[u8], words: &mut [u64])
    requires { length bytes.now ≡ 8 * length words.old }
    ensures bytes { word_bytes words.new ≡ bytes.now }
    ensures back { words_in bytes.now ≡ words.new }
{
    LittleEndian::read_u64_into(bytes, words);
}
