//! What a pointer word that was found tells its finder.
ghost use Rattle.std.specs.Prelude.{◌≡◌};
ghost use Rattle.pointer_word.specs.Words.{Field};
ghost use Rattle.object_lock.specs.Telling.{held, begun, named};

use crate::answers::{Begin, Held};
use pointer_word::{Word, WordState};

/// Where the object is.
#[inline(always)]
pub(crate) fn held_of(bits: u64) -> Held
    ensures { Field bits (λ w. result ≡ held w.place) }
{
    let word = Word { bits };
    match word.state() {
        WordState::Here => Held::Here(word.frame() as usize),
        WordState::Coming => Held::Coming,
        WordState::Away => Held::Away,
    }
}

/// What is told of an object that could not be begun.
pub(crate) fn begin_of(bits: u64) -> Begin
    ensures { Field bits (λ w. result ≡ begun w.place) }
{
    let word = Word { bits };
    if word.state() == WordState::Here {
        Begin::Here(word.frame() as usize)
    } else {
        Begin::Busy
    }
}

/// Which object a frame's word names.
pub(crate) fn named_by(word: u64) -> Option<usize>
    ensures { result ≡ named word }
{
    if word == 0 {
        None
    } else {
        Some(word as usize - 1)
    }
}
