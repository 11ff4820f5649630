//! What evacuators and fetchers do on threads, as events of their actors in a world: laws.
#![tactic(auto)]

ghost use Rattle.mover_events.specs.Laws.{LivesAreEvents, RoundsAreEvents, ServesAreEvents};
ghost use Rattle.mover_events.specs.Making.{RoundsAreMade};
ghost use Rattle.mover_events.specs.Parts.{
  OwnersAreAlone,
  PartsAreSteps,
  RoundsAreInTheList,
  ServicesAreInTheList,
};

use remote_store::RawStore;

/// What an evacuator did by a round, visit by visit, is what the evacuator of a world does in some events, one behind the other: it is idle at first and at last, and
/// each event is one that it may do at the state in which it comes.
pub fn rounds_are_events()
    ensures { RoundsAreEvents }
{}

/// What a fetcher did with a hint is what the fetcher of a world does in some events, one behind the other: it is idle at first and at last, and each event is one
/// that it may do at the state in which it comes.
pub fn serves_are_events()
    ensures { ServesAreEvents }
{}

/// What an evacuator did in all its rounds, and a fetcher with all its hints, from its beginning on, is what that mover of a world does in some events, one behind the
/// other: it is idle at first and at last, and each event is one that it may do at the state in which it comes.
pub fn lives_are_events<S: RawStore>()
    ensures { LivesAreEvents S.reliable }
{}

/// The steps that came to an evacuator's log are steps that the evacuator of a world makes, each by turns of its own, at every machine in which the step may have come: one that
/// shows the number that was found, and where its calls may be made. What the evacuator is behind a step does not hang on which of these machines it was.
pub fn rounds_are_made<S: RawStore>()
    ensures { RoundsAreMade S.reliable S.honest }
{}

/// What a seat keeps of the one list of steps of a table are the steps of its log, each at the machine in which it came, which is sound. What the seat has in hand as a mover is, before each,
/// what its step before left: nobody else changes it.
pub fn parts_are_steps<S: RawStore>()
    ensures { PartsAreSteps S.honest }
{}

/// Where each owner's call that is kept was made by the seat that owns its object, as it was on a table, what a seat knows of its objects is, at each step that it keeps of the one list, what
/// its step before left: nobody else changes it, and a try to begin that is not kept tells the owner nothing new.
pub fn owners_are_alone<S: RawStore>()
    ensures { OwnersAreAlone S.honest }
{}

/// Where all that an evacuator did it did in rounds, its steps of the one list are made by the evacuator of a world, by turns of its own, each at the machine in which it came.
pub fn rounds_are_in_the_list<S: RawStore>()
    ensures { RoundsAreInTheList S.honest S.reliable }
{}

/// Where all that a fetcher did it did with hints, and the store, which is honest, refused it no get, as a reliable store never does, its steps of the one list are made by the fetcher of a world, by turns of its own, each at
/// the machine in which it came.
pub fn services_are_in_the_list<S: RawStore>()
    ensures { ServicesAreInTheList S.honest S.reliable }
{}
