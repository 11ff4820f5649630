//! The hints that a program gives of objects that it will want soon.
ghost use Rattle.std.specs.Prelude.{◌≡◌};

use hint_queue::{HintPass, Hints};
use std::marker::Model;
use std::sync::Wait;

/// A queue of hints with a pass of it.
#[derive(Drop)]
pub(crate) struct HintSender<'a> {
    hints: &'a Hints,
    pass: HintPass,
}

impl<'a> Model for HintSender<'a> {
    ghost use Rattle.hint_queue.specs.Queues.{HintsView};
    ghost use Rattle.std.specs.Prelude.{◌≡◌};

    ghost Value = { HintsView };

    ghost view = { λ h. h.hints.now };

    ghost invariant = { λ h. h.pass ≡ h.hints.now };
}

impl<'a> HintSender<'a> {
    /// Nothing has been hinted yet.
    pub(crate) fn new(hints: &'a Hints, pass: HintPass) -> HintSender<'a>
        requires { pass ≡ hints.now }
        ensures { result ≡ hints.now }
    {
        HintSender { hints, pass }
    }

    /// Hints the object. One that the queue is not for is not hinted. Whether the queue took it.
    pub(crate) fn hint<R: Wait>(&mut self, rt: &R, object: usize) -> bool
        ensures { self.new ≡ self.old }
    {
        if object < self.hints.objects() {
            self.hints.push(rt, &mut self.pass, object)
        } else {
            false
        }
    }
}
