//! The streams that a command writes to.
ghost use Rattle.std.specs.Prelude.{◌≡◌, ℕ, ◌+◌, ◌%◌, ◌^◌, List, Option, IfSome, MatchResult, OnOk};
ghost use Rattle.std.specs.Io.KnownBytes.{Appends};

use std::fmt::Display;
use std::io::Write;

/// A write failed.
#[derive(Clone, Copy, Debug, PartialEq, Eq)]
pub struct Failed;

/// A stream that tells of its failed writes, which std's `Write` does not. `contents` is what it holds, where it tells; after
/// a failed write nothing is known of it. `failures` counts the writes that failed, modulo 2^64.
pub trait Stream {
    ghost contents: { Self → Option (List ℕ) };

    ghost failures: { Self → ℕ };

    /// Writes all of these bytes.
    fn write_all(&mut self, bytes: &[u8]) -> Result<(), Failed>
        ensures written { OnOk result (Appends (contents self.old) (contents self.new) bytes.now) }
        ensures counted { MatchResult result (λ _. failures self.new ≡ failures self.old) (λ _. failures self.new ≡ (failures self.old + 1) % 2 ^ 64) };

    /// Writes what is printed of this value. `write!` and `writeln!` call it.
    fn write_fmt<D: Display + Drop>(&mut self, value: D) -> Result<(), Failed>
        ensures written { OnOk result (IfSome (D.output value) (Appends (contents self.old) (contents self.new))) }
        ensures counted { MatchResult result (λ _. failures self.new ≡ failures self.old) (λ _. failures self.new ≡ (failures self.old + 1) % 2 ^ 64) };
}

/// A writer of std whose failed writes are counted.
#[derive(Drop)]
pub struct CountedWriter<W> {
    writer: W,
    failures: u64,
}

impl<W: Write> CountedWriter<W> {
    /// A writer of which no write has failed yet.
    pub fn new(writer: W) -> CountedWriter<W>
        ensures writer { result.writer ≡ writer }
        ensures failures { result.failures ≡ 0 }
    {
        CountedWriter {
            writer,
            failures: 0,
        }
    }

    /// The writer.
    pub fn into_writer(self) -> W
        ensures { result ≡ self.writer }
    {
        let CountedWriter {
            writer,
            failures: _,
        } = self;
        writer
    }

    // Counts one more failed write.
    fn failed(&mut self) -> Failed
        ensures { self.new.failures ≡ (self.old.failures + 1) % 2 ^ 64 }
    {
        self.failures = self.failures.wrapping_add(1);
        Failed
    }
}

impl<W: Write> Stream for CountedWriter<W> {
    ghost contents = { λ s. W.contents s.writer };

    ghost failures = { λ s. s.failures };

    fn write_all(&mut self, bytes: &[u8]) -> Result<(), Failed> {
        match self.writer.write_all(bytes) {
            Ok(()) => Ok(()),
            Err(_told) => Err(self.failed()),
        }
    }

    fn write_fmt<D: Display + Drop>(&mut self, value: D) -> Result<(), Failed> {
        match self.writer.write_fmt(value) {
            Ok(()) => Ok(()),
            Err(_told) => Err(self.failed()),
        }
    }
}
