//! As laws: the promise over every list of events, of programs that are admitted, and of the ends that a replay or a run on threads tells.
#![tactic(auto)]

ghost use Rattle.c0far_headline.specs.Admitted.{AdmittedHeadline, ReplayedHeadline};
ghost use Rattle.c0far_headline.specs.Headline.{Headline};
ghost use Rattle.c0far_headline.specs.Ran.{EndsSettle, RunHeadline};
ghost use Rattle.c0far_headline.specs.Shown.{HeadlineOfRuns, ReplayShows, RunShows, RunShowsEvents};
ghost use Rattle.c0far_headline.specs.Tables.{HeadlineOfTables};
ghost use Rattle.c0far_headline.specs.Threads.{HeadlineOfRunsTogether, HeadlineOfThreads};
ghost use Rattle.object_lock.specs.Kept.{slot_has, slot_keeps};
ghost use Rattle.std.specs.Prelude.{ℕ};

use c0_image::one_image;
use c0_typed::more_turns;
use code_form::run_laws;
use remote_store::RawStore;
use session_events::{runs_are_seats, seats_are_a_world};
use world_semantics::{enough_frames, programs_follow, wants};

/// Whatever events programs and evacuators make in whichever order, over an honest store: of every text that is accepted, at whichever
/// level, a program that runs its image has printed a beginning of what the text means; where it has stopped, the text means just that output
/// and that stop; where it wants something, the cause is among the events; and where the meaning ends, some number of its own completed
/// instructions, which is the text's for pieces of that size and the same in every run, leaves it stopped so.
pub fn headline()
    ensures { Headline }
{
    one_image();
    more_turns();
    run_laws();
    programs_follow();
    wants();
}

/// The same of programs that are admitted, in whose world a frame is free, or can be freed, wherever one of them seeks a frame.
pub fn headline_of_admitted()
    ensures { AdmittedHeadline }
{
    headline();
    enough_frames();
}

/// The same of the ends that the replay of a schedule tells of programs that are admitted.
pub fn headline_of_replays()
    ensures { ReplayedHeadline }
{
    headline_of_admitted();
}

/// The same of the ends that `run_all` answers, program by program, whatever its threads do: what was printed is a beginning of what the text means,
/// a stop is the meaning's with its whole output, and a want has its cause. And where the meaning ends, each end of a replay or of a run on
/// threads that completed as many instructions as the code has when it is stopped, or more, is that stop.
pub fn headline_of_ends()
    ensures ends { RunHeadline }
    ensures settled { EndsSettle }
{
    headline();
    one_image();
    more_turns();
    run_laws();
    programs_follow();
    wants();
}

/// The same of what the commands `run` and `replay` show, program by program.
pub fn headline_of_commands()
    ensures runs { RunShows }
    ensures replays { ReplayShows }
{
    headline_of_replays();
    one_image();
    more_turns();
    run_laws();
    programs_follow();
    wants();
}

/// Each end that the command `run` shows is that to which its program comes by some events, from its beginning on, with the number and the objects that it has in the world of
/// all programs that are run. Each program has a list for itself: that these are parts of one is not told.
pub fn events_of_commands()
    ensures { RunShowsEvents }
{}

/// The headline of runs on threads: of every text that the command `run` was given, what it shows of its program is a beginning of what the text means, and a stop is the meaning's with its
/// whole output. The program came there by a list of events of its own, in the world of all programs that are run. Where it wants something, the cause is in its code's run, and among these events,
/// but for memory that was refused for the text of an error: there the program stands at the instruction that ends it.
pub fn headline_of_runs()
    ensures { HeadlineOfRuns }
{
    one_image();
    more_turns();
    run_laws();
    programs_follow();
    wants();
}

/// The headline of tables, of every interleaving of threads: whatever a table is whose seats are those of some programs, evacuators and fetchers, over a store that is honest and reliable, where what each seat did is a run of its
/// program, rounds, or what was done with hints, all of it is one run of a world, from its beginning to what the table shows. Each program whose image a text was compiled to is then, where its session came to, as
/// promised of that text: what it printed is a beginning of what the text means, a stop is the meaning's with its whole output, a want has its cause among the events, and where the meaning ends, the
/// number of instructions that is the text's settles it.
pub fn headline_of_tables<S: RawStore>()
    ensures { (n : ℕ) → HeadlineOfTables (slot_keeps S.fits S.content n) (slot_has S.fits n) S.honest S.reliable }
{
    headline();
    seats_are_a_world::<S>();
}

/// The headline of what `run_all` answers, whatever its threads did in whichever order: where all programs of a region have run together, over a store that is honest and reliable, all that they and their movers did is one run of
/// a world, from its beginning on, and each program is then where its end is told of: with that output, so many instructions completed, stopped so or wanting what it wants. Of each whose image a text was compiled to all is as promised of that text.
pub fn headline_of_threads<S: RawStore>()
    ensures { (n : ℕ) → HeadlineOfThreads (slot_keeps S.fits S.content n) (slot_has S.fits n) S.honest S.reliable }
{
    headline_of_tables::<S>();
    runs_are_seats::<S>();
}

/// The headline of what the command `run` shows of all programs at once, whatever its threads did in whichever order: over the store in memory, where no call is to fail, and memory was refused for no text of an error, all that the
/// programs, evacuators and fetchers did is one run of one world, from its beginning on. Each program is then where its end is shown, and all of it is as promised of the text that its image was compiled to.
pub fn headline_of_runs_together()
    ensures { HeadlineOfRunsTogether }
{
    headline();
}
