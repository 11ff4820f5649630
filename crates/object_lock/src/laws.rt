//! Laws of the views, for the proofs of callers.
ghost use Rattle.std.specs.Prelude.{◌≡◌, ◌≢◌, ℕ, ◌<◌, length};
ghost use Rattle.pointer_word.specs.Hands.{Note};
ghost use Rattle.object_lock.specs.Kept.{slot_keeps, slot_has};
ghost use Rattle.object_lock.specs.Seats.{View, note, with_note};
ghost use Rattle.object_lock.specs.EachStep.{EachStep};
ghost use Rattle.object_lock.specs.NewTable.{NewTable};
ghost use Rattle.object_lock.specs.OneList.{OneList};

use remote_store::RawStore;

/// What a view says of each object after the note of one object was changed.
pub fn changed_note()
    ensures here { (v : View) (o : ℕ) (x : Note) → o < length v.notes → note (with_note v o x) o ≡ x }
    ensures others { (v : View) (o p : ℕ) (x : Note) → p ≢ o → note (with_note v o x) p ≡ note v p }
    ensures length { (v : View) (o : ℕ) (x : Note) → length (with_note v o x).notes ≡ length v.notes }
{}

/// Each kind of step of the table is one call of the machine: it carries the rule of a table that shows a machine to the rule of
/// the machine that the call leaves.
pub fn each_step<S: RawStore>()
    ensures { (n : ℕ) → EachStep (slot_keeps S.fits S.content n) (slot_has S.fits n) S.honest }
{}

/// There is one machine, which the table's words show, and one list of steps that led to it, each of which found what the machine showed then: what each seat of the table
/// keeps of what it did, on whichever thread, is its part of this list, in order.
pub fn one_list<S: RawStore>()
    ensures { (n : ℕ) → OneList (slot_keeps S.fits S.content n) (slot_has S.fits n) S.honest }
{}

/// While no seat has made a call of a mover, as when the table was made: each object is away, its word is the count of its holds, which is 0 for
/// an owner that has none, nothing was put into its berth, which is at home, and each frame is free, with 0 in its cells.
pub fn new_table<S: RawStore>()
    ensures { (n : ℕ) → NewTable (slot_keeps S.fits S.content n) (slot_has S.fits n) S.honest }
{}
