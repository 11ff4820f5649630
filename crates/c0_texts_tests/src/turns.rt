//! Texts that are run by turns: one that waits for another on the same worker, and one that is asked for at each instruction.
use crate::runs::{Sizes, run_together, tell_runs};
use crate::together::compiled;
use cells::Ended;
use executor::Gate;
use std::alloc::Global;
use std::io;
use std::io::Write;
use std::sync::Wait;
use std::sync::atomic::{AtomicBool, AtomicU64, Ordering};
use std::thread::Threads;
use std::time::Clock;

/// How often program 0 is held up before it is let go.
const PATIENCE: u64 = 1_000_000;

/// A gate that holds program 0 up until program 1 has ended.
#[derive(Drop)]
struct Second {
    held: AtomicU64,
    ended: AtomicBool,
}

impl Gate for Second {
    fn may_go(&self, program: u32) -> bool {
        if program != 0 || self.ended.load(Ordering::SeqCst) {
            return true;
        }
        self.held.fetch_add(1, Ordering::SeqCst) >= PATIENCE
    }

    fn stopped(&self, program: u32) {
        if program == 1 {
            self.ended.store(true, Ordering::SeqCst);
        }
    }

    fn turned(&self, _mover: u32) {}
}

/// A gate that counts how often it is asked.
#[derive(Drop)]
struct Asked {
    times: AtomicU64,
}

impl Gate for Asked {
    fn may_go(&self, _program: u32) -> bool {
        self.times.fetch_add(1, Ordering::SeqCst);
        true
    }

    fn stopped(&self, _program: u32) {}

    fn turned(&self, _mover: u32) {}
}

/// Tells whether the first of two programs waited for the second, and how each ended. False where it did not.
fn tell_waited<O: Write>(
    name: &str,
    waited: bool,
    ends: &[Ended],
    out: &mut O,
) -> io::Result<bool> {
    writeln!(
        out,
        "{name} twice on one worker, the first behind the second: {waited}"
    )?;
    tell_runs(ends, out)?;
    Ok(waited)
}

/// Tells of each of these programs whether the gate was asked so often as it completed an instruction, and how it ended. False where it is not one.
fn tell_asked<O: Write>(name: &str, asked: u64, ends: &[Ended], out: &mut O) -> io::Result<bool> {
    for end in ends {
        let run = &end.run;
        let same = asked == end.completed;
        writeln!(
            out,
            "{name} one instruction at a time: asked for each: {same}"
        )?;
        writeln!(out, "{run}")?;
    }
    Ok(ends.len() == 1)
}

/// Runs this text twice at once on one worker, the first behind the second, and tells how each ended. False where the first was let go before the second had ended.
pub(crate) fn one_behind_another<R: Threads + Wait + Clock + Sync, O: Write>(
    alloc: Global,
    rt: &R,
    name: &str,
    text: &[u8],
    out: &mut O,
) -> io::Result<bool> {
    let gate = Second {
        held: AtomicU64::new(0),
        ended: AtomicBool::new(false),
    };
    let sizes = Sizes {
        frames: 12,
        objects: 4_000,
        workers: 1,
        quantum: 1_000,
    };
    let Some(programs) = compiled(alloc, text, 2) else {
        return Ok(false);
    };
    let Some(ends) = run_together(alloc, rt, programs, sizes, 1, &gate) else {
        return Ok(false);
    };
    let held = gate.held.load(Ordering::SeqCst);
    let waited = held > 0 && held < PATIENCE;
    tell_waited(name, waited, &ends, out)
}

/// Runs this text by turns of one instruction, and tells whether the gate was asked as often as it completed one.
pub(crate) fn one_at_a_time<R: Threads + Wait + Clock + Sync, O: Write>(
    alloc: Global,
    rt: &R,
    name: &str,
    text: &[u8],
    out: &mut O,
) -> io::Result<bool> {
    let gate = Asked {
        times: AtomicU64::new(0),
    };
    let sizes = Sizes {
        frames: 6,
        objects: 4_000,
        workers: 4,
        quantum: 1,
    };
    let Some(programs) = compiled(alloc, text, 1) else {
        return Ok(false);
    };
    let Some(ends) = run_together(alloc, rt, programs, sizes, 1, &gate) else {
        return Ok(false);
    };
    let asked = gate.times.load(Ordering::SeqCst);
    tell_asked(name, asked, &ends, out)
}
