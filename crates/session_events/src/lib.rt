//! What sessions do on threads as events of their programs, and all seats of a table as events of one world: laws.
#![tactic(auto)]

ghost use Rattle.session_events.specs.Laws.{EndsAreEvents, InstructionsAreEvents, RunsAreEvents};
ghost use Rattle.session_events.specs.Listed.{SessionsAreInTheList};
ghost use Rattle.session_events.specs.OneWorld.{SeatsAreAWorld, TheListIsAWorlds};
ghost use Rattle.session_events.specs.Together.{RunsAreSeats};
ghost use Rattle.object_lock.specs.Kept.{slot_has, slot_keeps};
ghost use Rattle.std.specs.Prelude.{ℕ};

use remote_store::RawStore;

/// What a session did by instructions that it completed, one behind the other, is what its program does in some events of a world, one behind the other: it is between
/// two instructions at first and at last, and each event is one that it may do at the state in which it comes.
pub fn instructions_are_events<S: RawStore>()
    ensures { InstructionsAreEvents S.honest }
{}

/// So is what a session that was going on did in a run, also where it wants objects, memory or the store; but for memory for the text of an error, and for code that is halted,
/// which is never so over an honest store.
pub fn runs_are_events<S: RawStore>()
    ensures { RunsAreEvents S.honest S.reliable }
{}

/// Each end that is told of a program that was run on threads over an honest store, by whatever number of turns, is that to which its program comes in a world by some events, from
/// its beginning on: with that output and as many instructions completed, stopped so or wanting this, for a cause among these events. Where memory was refused for the text of an error,
/// the program of a world is at that instruction still.
pub fn ends_are_events<S: RawStore>()
    ensures { EndsAreEvents S.reliable }
{}

/// Where all that a seat did its session did from its beginning on, over an honest store, and no call of the store was refused to it, the seat's steps of the one list are made by the
/// program of a world, by turns of its own, each at the machine in which it came. Between them it takes turns without a call, each of which it may take at every sound machine
/// that fits what its seat knows, such as the one in which the next step comes. Left out is a want of memory for the text of an error.
pub fn sessions_are_in_the_list<S: RawStore>()
    ensures { SessionsAreInTheList S.honest S.reliable }
{}

/// Over a reliable store, where what each seat kept of the one list of a table's steps is made by the actor of its number, that list is one list of events of a world, from its beginning on: they lead to the machine to which the
/// list leads, each program to where its part of the list leads it, and all movers to where they are idle.
pub fn the_list_is_a_worlds<S: RawStore>()
    ensures { TheListIsAWorlds S.honest S.reliable }
{}

/// Whatever a table is whose seats are those of some programs, evacuators and fetchers, over a store that is honest and reliable: where what each seat did is a run of its program, rounds, or what was done with hints,
/// what all of them did is one list of events of one world, which leads to the machine that the table shows. Each program is then at the place to which its session came.
pub fn seats_are_a_world<S: RawStore>()
    ensures { (n : ℕ) → SeatsAreAWorld (slot_keeps S.fits S.content n) (slot_has S.fits n) S.honest S.reliable }
{}

/// Where all programs of a region have run on threads over a store that is honest and reliable, beside evacuators and fetchers, each to the end of its code's run, and no end is a want
/// of memory for the text of an error: the seats of the state of the table in which they are told together are those of these programs, evacuators and fetchers, and each program is
/// where its end is told of, with as many instructions completed, that output and that stop or want.
pub fn runs_are_seats<S: RawStore>()
    ensures { (n : ℕ) → RunsAreSeats (slot_keeps S.fits S.content n) (slot_has S.fits n) S.honest S.reliable }
{}
