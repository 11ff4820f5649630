//! The runs of a row.

use crate::counted::Calls;
use crate::rows::{Plan, Sweep};
use crate::runs::run;
use cells::{Ended, Run, Want};
use executor::Finished;
use std::alloc::Global;
use std::fmt;
use std::sync::Wait;
use std::thread::Threads;
use std::time::Clock;

/// More runs than a row has.
const MOST_RUNS: u64 = 100_000;

/// What came of a row.
#[derive(Drop)]
pub(crate) enum Outcome {
    /// Each run did what it has to do. The program ends so where the store never fails.
    Right(Run),
    /// In the run in which the call of this number goes wrong a program ended otherwise than it has to.
    Otherwise(u64),
    /// In so many runs alone some program wanted the store.
    TooFew(u64),
    /// The programs were not admitted, or memory ran out.
    NotRun,
}

impl fmt::Display for Outcome {
    fn fmt<W: fmt::Write>(&self, f: &mut fmt::Formatter<W>) -> fmt::Result {
        match self {
            Outcome::Right(run) => write!(f, "{run}"),
            Outcome::Otherwise(number) => write!(f, "a program ended otherwise at {number}"),
            Outcome::TooFew(count) => write!(f, "the store was wanted in {count} runs alone"),
            Outcome::NotRun => write!(f, "not run"),
        }
    }
}

/// What came of a run.
#[derive(Clone, Copy)]
struct Told {
    /// How many programs wanted the store.
    wanting: u64,
    /// Whether each program that did had one call refused through its own port, and each other ended as it has to.
    right: bool,
}

/// Whether the program wanted the store.
fn wants_store(one: &Finished) -> bool {
    one.end.run == Run::Wanted(Want::StoreFailed)
}

/// Whether a program that wanted the store had one call refused through its own port, and another none, and ended as this one.
fn is_right(one: &Finished, whole: &Ended) -> bool {
    if wants_store(one) {
        return one.refusals.count == 1 && one.refusals.last.is_some();
    }
    let same = one.end.run == whole.run && one.end.completed == whole.completed;
    same && one.end.output.as_slice() == whole.output.as_slice() && one.refusals.count == 0
}

/// What came of a run of these ends, where a program ends as this one if nothing goes wrong.
fn look_at(finished: &[Finished], whole: &Ended) -> Told {
    let mut told = Told {
        wanting: 0,
        right: true,
    };
    for one in finished {
        if wants_store(one) {
            told.wanting = told.wanting.wrapping_add(1);
        }
        told.right = told.right && is_right(one, whole);
    }
    told
}

/// The end of one program where nothing goes wrong.
fn whole<R: Threads + Wait + Clock + Sync>(
    alloc: Global,
    rt: &R,
    image: &[u8],
    row: Sweep<'_>,
) -> Option<Ended> {
    let plain = Sweep {
        plan: Plan::Never,
        ..row
    };
    let mut finished = run(alloc, rt, image, plain, 0, Calls::none(alloc).ok()?)?;
    Some(finished.pop()?.end)
}

/// What came of the run in which the call, or the read, of this number goes wrong, and how many came to the store below.
fn one_run<R: Threads + Wait + Clock + Sync>(
    alloc: Global,
    rt: &R,
    image: &[u8],
    row: Sweep<'_>,
    number: u64,
    end: &Ended,
) -> Option<(Told, u64)> {
    let calls = Calls::none(alloc).ok()?;
    let finished = run(alloc, rt, image, row, number, calls.again().ok()?)?;
    let came = match row.plan {
        Plan::Lies(_) => calls.reads(),
        _ => calls.all(),
    };
    Some((look_at(&finished, end), came))
}

/// Whether a run did what it has to do, in which so many calls came to the store below.
fn did_right(row: Sweep<'_>, number: u64, told: Told, came: u64) -> bool {
    let one_at_most = row.plan == Plan::From || told.wanting <= 1;
    let met_by_program = row.movers == 0 && row.plan.is_sure() && came >= number;
    told.right && one_at_most && (!met_by_program || told.wanting > 0)
}

/// Does the runs of a row, with another call that goes wrong in each, until none is met.
pub(crate) fn sweep<R: Threads + Wait + Clock + Sync>(
    alloc: Global,
    rt: &R,
    image: &[u8],
    row: Sweep<'_>,
) -> Outcome {
    let Some(end) = whole(alloc, rt, image, row) else {
        return Outcome::NotRun;
    };
    let mut wanted = 0u64;
    for turn in 0..MOST_RUNS {
        let number = turn.wrapping_mul(row.step).wrapping_add(1);
        let Some((told, came)) = one_run(alloc, rt, image, row, number, &end) else {
            return Outcome::NotRun;
        };
        if !did_right(row, number, told, came) {
            return Outcome::Otherwise(number);
        }
        if told.wanting > 0 {
            wanted = wanted.wrapping_add(1);
        }
        // A call that failed did not come to the store below.
        if came.wrapping_add(1) < number {
            break;
        }
    }
    if wanted < row.least {
        return Outcome::TooFew(wanted);
    }
    Outcome::Right(end.run)
}
