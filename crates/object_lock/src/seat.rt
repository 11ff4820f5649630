//! A seat with its way to the store.
ghost use Rattle.std.specs.Prelude.{◌≡◌, ℕ, ◌+◌, ◌%◌, ◌<◌, ◌≤◌, ◌==◌, not, false, Some, IfOk, IsOk, MatchResult, length};
ghost use Rattle.pointer_word.specs.Hands.{listed};
ghost use Rattle.remote_store.specs.Kept.{Took, RefusedFor, next_version};
ghost use Rattle.remote_store.specs.Refusing.{RefusesGet, refused_once};
ghost use Rattle.object_lock.specs.Kept.{berth_keeps};
ghost use Rattle.object_lock.specs.SeatViews.{version_of};

use crate::table::Token;
use remote_store::{Berth, Failed, MOST_CELLS, Port, RawStore, Refusal, Refusals, RefusedCall};
use std::marker::Model;

/// A mover's seat at a table: its port, and the berths that it has in hand.
#[derive(Drop)]
pub struct MoverSeat<S: RawStore> {
    pub(crate) port: Port<S>,
    pub(crate) seat: Token<S::Cell>,
    pub(crate) brought: Option<Berth<S::Cell>>,
    pub(crate) taken: Option<Berth<S::Cell>>,
    pub(crate) source: usize,
    pub(crate) number: u64,
    pub(crate) low: usize,
    pub(crate) high: usize,
}

/// The seat of a program: a mover's seat with objects of its own, from `low` to below `high`. One view tells what it
/// holds and stored as an owner, and what it has in hand as a mover; a log has each step that had its effect, and each try to commit, in order. Of this nothing is kept at run time.
pub type OwnerSeat<S> = MoverSeat<S>;

impl<S: RawStore> Model for MoverSeat<S> {
    ghost use Rattle.object_lock.specs.SeatViews.{SeatView, InHand};

    ghost Value = { SeatView S S.Cell };

    ghost view = { λ s. record { table = s.seat.table_id; id = s.seat.id; view = s.seat.me.0.view; log = s.seat.me.0.log; brought = s.brought; taken = s.taken; store = s.port.store; refusals = s.port.refusals } };

    ghost invariant = { λ s. InHand S.fits S.content s.number s.low s.high s.source s.seat.me.0.view s.seat.me.1 s.brought s.taken };
}

impl<S: RawStore> MoverSeat<S> {
    /// The mover's number: that of a program is one more than the program's, counted from 0.
    pub fn number(&self) -> u64
        ensures { result ≡ self.now.view.number }
    {
        self.number
    }

    /// The first of its own objects.
    pub fn low(&self) -> usize
        ensures { result ≡ self.now.view.low }
    {
        self.low
    }

    /// The end of its own objects: one more than the last.
    pub fn high(&self) -> usize
        ensures { result ≡ self.now.view.high }
    {
        self.high
    }

    /// How many puts and gets were refused through its port, and the last of these.
    pub fn refusals(&self) -> Refusals
        ensures { result ≡ self.now.refusals }
    {
        self.port.refusals()
    }

    /// Whether something was put into the berth of the object that it is bringing in. Else the berth keeps zeros.
    pub fn stored(&self, obj: usize) -> bool
        requires { self.now.view.hand.bringing ≡ Some obj }
        ensures version { result ≡ not (version_of self.now.brought == 0) }
        ensures zeros { result ≡ false → (i : ℕ) → i < self.now.view.sizes.cells → listed self.now.view.hand.promised i ≡ 0 }
    {
        // Only the condition speaks of the object: its berth is the one in hand.
        let _ = obj;
        match &self.brought {
            Some(berth) => berth.version != 0,
            None => false,
        }
    }

    /// Gets the cells that the berth of the object that it is bringing in keeps, where something was put there: those that
    /// were promised when the object was begun, where the store is honest. After a refusal `words` are as they were.
    pub fn get(&mut self, obj: usize, words: &mut [u64]) -> Result<(), Refusal>
        requires brings { self.old.view.hand.bringing ≡ Some obj }
        requires stored { 0 < version_of self.old.brought }
        requires words { (length words.old ≡ self.old.view.sizes.cells) × (length words.old ≤ MOST_CELLS) }
        ensures length { length words.new ≡ length words.old }
        ensures same { self.new ≡ record self.old { store = self.new.store; refusals = self.new.refusals } }
        ensures got { IfOk result (λ _. S.honest → words.new ≡ self.old.view.hand.promised) }
        ensures sure { S.reliable → IsOk result }
        ensures counted { MatchResult result (λ _. (self.new.refusals ≡ self.old.refusals) × (S.failures self.new.store ≡ S.failures self.old.store))
            (λ why. (words.new ≡ words.old) × RefusesGet why obj self.old.refusals self.new.refusals × (why ≡ Refusal.Failed → S.failures self.new.store ≡ (S.failures self.old.store + 1) % 18446744073709551616)) }
        ensures read { (b : _) × (self.old.brought ≡ Some b) × MatchResult result (λ _. Took (length words.old) (λ row. S.read_gives self.old.store b.cell row self.new.store) b.version obj words.new)
            (λ why. RefusedFor (length words.old) (S.failures self.new.store ≡ (S.failures self.old.store + 1) % 18446744073709551616)
            (λ row. S.read_gives self.old.store b.cell row self.new.store × (S.failures self.new.store ≡ S.failures self.old.store)) b.version obj why) }
    {
        match &self.brought {
            Some(berth) => berth.get(&mut self.port, obj, words),
            None => unreachable!(),
        }
    }

    /// Puts the object's cells into the berth of the object that it is moving out, under the berth's next version. After a
    /// failure nothing is known of what the berth keeps.
    pub fn put(&mut self, obj: usize, words: &[u64]) -> Result<(), Failed>
        requires leaves { self.old.view.hand.leaving ≡ Some obj }
        requires words { (length words.now ≡ self.old.view.sizes.cells) × (length words.now ≤ MOST_CELLS) }
        ensures same { self.new ≡ record self.old { taken = self.new.taken; store = self.new.store; refusals = self.new.refusals } }
        ensures version { version_of self.new.taken ≡ next_version (version_of self.old.taken) }
        ensures sure { S.reliable → IsOk result }
        ensures put { IfOk result (λ _. (b : _) × (self.new.taken ≡ Some b) × berth_keeps S.fits S.content self.old.view.sizes.cells b obj words.now) }
        ensures counted { MatchResult result (λ _. (self.new.refusals ≡ self.old.refusals) × (S.failures self.new.store ≡ S.failures self.old.store))
            (λ failed. (self.new.refusals ≡ refused_once self.old.refusals (RefusedCall.Put obj failed.cause)) × (S.failures self.new.store ≡ (S.failures self.old.store + 1) % 18446744073709551616)) }
    {
        match &mut self.taken {
            Some(berth) => berth.put(&mut self.port, obj, words),
            None => unreachable!(),
        }
    }
}
