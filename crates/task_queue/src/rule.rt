//! The rule of the queue of tasks.
use crossbeam_queue::protocol::{Lesson, Outcome, Protocol, Split};
use object_lock::TableName;
use program_run::ProgramRun;
use remote_store::RawStore;
use scope_verifier::Verified;
use std::collections::LinkedList;

/// The programs that are run, how many objects each has, and the table of their seats. No value of it is made.
pub struct Roster {
    pub programs: LinkedList<Verified>,
    pub objects: usize,
    pub table: TableName,
}

/// What a pass knows: the roster, and how many tasks are in hand with it. No value of it is made.
pub struct KnowsRoster {
    pub roster: Option<Roster>,
    pub in_hand: u64,
}

/// Each task is a program of the roster that all passes know, and no task is lost or doubled: those in the queue and those in hand are as many as the programs.
pub struct Tasked;

impl<'a, S: RawStore> Protocol<ProgramRun<'a, S>, KnowsRoster> for Tasked {
    ghost use Rattle.task_queue.specs.Tasked.{AreTasks, unknown};

    ghost holds = { AreTasks };

    ghost first = { unknown };
}

/// The first pass puts the first task, and from then on knows the roster, and has all other tasks in hand.
pub struct Founds;

impl<'a, S: RawStore> Outcome<ProgramRun<'a, S>, KnowsRoster> for Founds {
    ghost use Rattle.std.specs.Prelude.{◌≡◌, ◌-◌, length};
    ghost use Rattle.task_queue.specs.Tasked.{knows, roster_of};

    ghost then = { λ v x w. w ≡ knows (roster_of x) (length x.programs - 1) };
}

/// A task is put. It is in hand no more. Where there is no room, those in hand and those in the queue are no more than the programs.
pub struct Puts;

impl<'a, S: RawStore> Outcome<ProgramRun<'a, S>, KnowsRoster> for Puts {
    ghost use Rattle.std.specs.Prelude.{◌≡◌, ◌-◌};

    ghost then = { λ v x w. w ≡ record v { in_hand = v.in_hand - 1 } };
}

impl<'a, S: RawStore> Lesson<ProgramRun<'a, S>, KnowsRoster> for Puts {
    ghost use Rattle.std.specs.Prelude.{◌+◌, ◌≤◌, length};
    ghost use Rattle.task_queue.specs.Tasked.{roster_in};

    ghost fact = { λ v items. v.in_hand + length items ≤ length (roster_in v).programs };
}

/// A task is taken. It is one of the roster, and in hand, with no more than there are.
pub struct Takes;

impl<'a, S: RawStore> Outcome<ProgramRun<'a, S>, KnowsRoster> for Takes {
    ghost use Rattle.std.specs.Prelude.{◌≡◌, ◌+◌, ◌≤◌, length};
    ghost use Rattle.task_queue.specs.Tasked.{IsTask, roster_in};

    ghost then = { λ v x w. (w ≡ record v { in_hand = v.in_hand + 1 }) × IsTask (roster_in v) x × (w.in_hand ≤ length (roster_in v).programs) };
}

impl<'a, S: RawStore> Lesson<ProgramRun<'a, S>, KnowsRoster> for Takes {
    ghost use Rattle.std.specs.Prelude.{⊤};

    ghost fact = { λ v items. ⊤ };
}

/// A new pass knows the roster, and has nothing in hand.
pub struct Another;

impl Split<KnowsRoster> for Another {
    ghost left = { λ v. v };

    ghost right = { λ v. record v { in_hand = 0 } };
}
