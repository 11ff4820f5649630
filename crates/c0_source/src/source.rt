//! The text of a program.

ghost use Rattle.std.specs.Prelude.{◌≡◌, MatchResult};
ghost use Rattle.c0_source.specs.SourceTexts.{IsRefused, IsSourceText};

use crate::fault::{Fault, FaultKind};
use std::alloc::Global;
use std::marker::Model;

/// The most bytes that a text may have.
pub const MOST_BYTES: usize = 1_048_576;

/// A text whose bytes are all below 128, of at most `MOST_BYTES` of them.
#[derive(Debug, Drop)]
pub struct Source {
    bytes: Vec<u8>,
}

impl Model for Source {
    ghost use Rattle.std.specs.Prelude.{List, ℕ};

    ghost Value = { List ℕ };

    ghost use Rattle.c0_source.specs.SourceTexts.{IsSourceText};

    ghost view = { λ s. s.bytes.items };

    ghost invariant = { λ s. IsSourceText s.bytes.items };
}

impl Source {
    /// Takes the text. Its fault is 10 at the first byte over 127, wherever that stands; else 22 at byte `MOST_BYTES` where the text
    /// is longer than that; else 50, where memory runs out.
    pub fn new(alloc: Global, text: &[u8]) -> Result<Source, Fault>
        ensures { MatchResult result (λ s. s ≡ text.now) (λ f. IsRefused text.now f) }
    {
        for (at, byte) in text.iter().enumerate() {
            if *byte > 127 {
                return Err(Fault::at(FaultKind::BadByte, at));
            }
        }
        if text.len() > MOST_BYTES {
            return Err(Fault::at(FaultKind::TooLarge, MOST_BYTES));
        }
        Ok(Source {
            bytes: text.to_vec(alloc)?,
        })
    }

    /// The text's bytes.
    pub fn bytes(&self) -> &[u8]
        ensures bytes { result.now ≡ self.now }
        ensures limits { IsSourceText self.now }
    {
        &self.bytes
    }
}
