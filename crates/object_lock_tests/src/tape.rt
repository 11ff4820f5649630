//! What the calls of a scenario told, in their order.
use object_lock::{Begin, Held};
use std::fmt;

/// More than a scenario tells.
const MOST: usize = 24;

/// What one call told.
#[derive(Clone, Copy)]
pub(crate) enum Told {
    /// Where an open found the object.
    Opened(Held),
    /// What a try to begin answered.
    Begun(Begin),
    /// Whether something was done.
    Did(bool),
    /// The object that a frame's word names.
    Names(Option<usize>),
    /// An object's word.
    Word(u64),
    /// A cell, or a count.
    Number(u64),
}

impl fmt::Display for Told {
    fn fmt<W: fmt::Write>(&self, f: &mut fmt::Formatter<W>) -> fmt::Result {
        match self {
            Told::Opened(Held::Here(frame)) => write!(f, "in frame {frame}"),
            Told::Opened(Held::Away) => write!(f, "away"),
            Told::Opened(Held::Coming) => write!(f, "coming"),
            Told::Begun(Begin::Taken) => write!(f, "taken"),
            Told::Begun(Begin::Here(frame)) => write!(f, "here in frame {frame}"),
            Told::Begun(Begin::Busy) => write!(f, "busy"),
            Told::Did(true) => write!(f, "yes"),
            Told::Did(false) => write!(f, "no"),
            Told::Names(Some(object)) => write!(f, "object {object}"),
            Told::Names(None) => write!(f, "free"),
            Told::Word(bits) => write!(f, "{bits:#x}"),
            Told::Number(number) => write!(f, "{number}"),
        }
    }
}

/// What was told so far. What is told when it is full is lost.
#[derive(Clone, Copy)]
pub(crate) struct Tape {
    told: [Option<Told>; MOST],
    count: usize,
}

impl Tape {
    /// A tape on which nothing was told.
    pub(crate) fn new() -> Tape {
        Tape {
            told: [None; MOST],
            count: 0,
        }
    }

    fn note(&mut self, told: Told) {
        if self.count < MOST {
            self.told[self.count] = Some(told);
            self.count += 1;
        }
    }

    /// What was told, in its order; nothing behind the last.
    pub(crate) fn told(&self) -> &[Option<Told>] {
        &self.told
    }

    /// Tells where an open found the object.
    pub(crate) fn opened(&mut self, held: Held) {
        self.note(Told::Opened(held));
    }

    /// Tells what a try to begin answered.
    pub(crate) fn begun(&mut self, begin: Begin) {
        self.note(Told::Begun(begin));
    }

    /// Tells whether something was done.
    pub(crate) fn did(&mut self, done: bool) {
        self.note(Told::Did(done));
    }

    /// Tells what a frame's word names.
    pub(crate) fn names(&mut self, named: Option<usize>) {
        self.note(Told::Names(named));
    }

    /// Tells an object's word.
    pub(crate) fn word(&mut self, bits: u64) {
        self.note(Told::Word(bits));
    }

    /// Tells a cell or a count.
    pub(crate) fn number(&mut self, number: u64) {
        self.note(Told::Number(number));
    }
}
