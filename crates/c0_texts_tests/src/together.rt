//! Texts that are run side by side: two that meet with two movers, and many at once.
use crate::runs::{Sizes, run_together, tell_runs};
use c0_image::compile;
use c0_syntax::level::Level;
use cells::{Ended, Piece};
use executor::{Gate, OpenGate};
use scope_verifier::Verified;
use std::alloc::{AllocError, Global};
use std::io::Write;
use std::sync::Wait;
use std::sync::atomic::{AtomicBool, AtomicU64, Ordering};
use std::thread::Threads;
use std::time::Clock;
use std::{io, thread};

/// How often one yields to the others at a meeting before it gives up.
const PATIENCE: u32 = 10_000_000;

/// A gate that lets go once two programs, an evacuator and a fetcher have met in it. Who gives up is counted.
#[derive(Drop)]
struct Meeting {
    come: [AtomicBool; 4],
    missed: AtomicU64,
    ended: AtomicU64,
}

impl Meeting {
    /// Nobody has come.
    fn new() -> Meeting {
        Meeting {
            come: [
                AtomicBool::new(false),
                AtomicBool::new(false),
                AtomicBool::new(false),
                AtomicBool::new(false),
            ],
            missed: AtomicU64::new(0),
            ended: AtomicU64::new(0),
        }
    }

    /// Whether all four have come.
    fn are_all_there(&self) -> bool {
        self.come
            .iter()
            .all(|flag: &AtomicBool| flag.load(Ordering::SeqCst))
    }

    /// One of them comes, and where it is for the first time waits for the others.
    fn meet(&self, number: u32) {
        let Some(flag) = self.come.get(number as usize) else {
            return;
        };
        if flag.swap(true, Ordering::SeqCst) {
            return;
        }
        for _ in 0..PATIENCE {
            if self.are_all_there() {
                return;
            }
            thread::yield_now();
        }
        self.missed.fetch_add(1, Ordering::SeqCst);
    }
}

impl Gate for Meeting {
    fn may_go(&self, program: u32) -> bool {
        self.meet(program);
        true
    }

    fn stopped(&self, _program: u32) {
        self.ended.fetch_add(1, Ordering::SeqCst);
    }

    fn turned(&self, mover: u32) {
        self.meet(mover);
    }
}

/// The compiled text, so many times.
pub(crate) fn compiled(alloc: Global, text: &[u8], count: usize) -> Option<Vec<Verified>> {
    let mut programs = Vec::new(alloc);
    for _ in 0..count {
        let program = compile(alloc, text, false, Level::C0, Piece::Cells64).ok()?;
        programs.push(program).ok()?;
    }
    Some(programs)
}

/// Tells whether both programs met with an evacuator and a fetcher at this gate, and how each ended. False where one did not come.
fn tell_meeting<O: Write>(
    gate: &Meeting,
    name: &str,
    ends: &[Ended],
    out: &mut O,
) -> io::Result<bool> {
    let missed = gate.missed.load(Ordering::SeqCst);
    let ended = gate.ended.load(Ordering::SeqCst);
    writeln!(out, "{name} twice at once: {missed} missed, {ended} ended")?;
    tell_runs(ends, out)?;
    Ok(missed == 0)
}

/// Runs this text twice at once on two workers, each over six frames, and tells whether both met with an evacuator and a fetcher, and how each ended. False where one did
/// not come.
pub(crate) fn meet<R: Threads + Wait + Clock + Sync, O: Write>(
    alloc: Global,
    rt: &R,
    name: &str,
    text: &[u8],
    out: &mut O,
) -> io::Result<bool> {
    let gate = Meeting::new();
    let sizes = Sizes {
        frames: 12,
        objects: 4_000,
        workers: 2,
        quantum: 1_000,
    };
    let Some(programs) = compiled(alloc, text, 2) else {
        return Ok(false);
    };
    let Some(ends) = run_together(alloc, rt, programs, sizes, 1, &gate) else {
        return Ok(false);
    };
    tell_meeting(&gate, name, &ends, out)
}

/// Tells how each of these programs ended, by its name.
fn tell_each<O: Write>(names: &[String], ends: &[Ended], out: &mut O) -> io::Result<()> {
    for (name, ended) in names.iter().zip(ends) {
        let run = &ended.run;
        writeln!(out, "{name} among all: {run}")?;
    }
    Ok(())
}

/// Texts that are to be run side by side, each compiled.
#[derive(Drop)]
pub(crate) struct Together {
    alloc: Global,
    names: Vec<String>,
    programs: Vec<Verified>,
}

impl Together {
    /// No text yet.
    pub(crate) fn new(alloc: Global) -> Together {
        Together {
            alloc,
            names: Vec::new(alloc),
            programs: Vec::new(alloc),
        }
    }

    /// One text more, twice. False where it is refused.
    pub(crate) fn add(&mut self, name: &str, text: &[u8]) -> Result<bool, AllocError> {
        for _ in 0..2 {
            let Ok(program) = compile(self.alloc, text, false, Level::C0, Piece::Cells64) else {
                return Ok(false);
            };
            self.names.push(String::from_str(self.alloc, name)?)?;
            self.programs.push(program)?;
        }
        Ok(true)
    }

    /// Runs all at once beside two evacuators and two fetchers, over a sixteenth of their objects in frames, and tells how each ended.
    pub(crate) fn run<R: Threads + Wait + Clock + Sync, O: Write>(
        self,
        rt: &R,
        out: &mut O,
    ) -> io::Result<bool> {
        let Together {
            alloc,
            names,
            programs,
        } = self;
        if programs.is_empty() {
            return Ok(true);
        }
        let sizes = Sizes {
            frames: 192,
            objects: 30_000,
            workers: 4,
            quantum: 1_000,
        };
        let Some(ends) = run_together(alloc, rt, programs, sizes, 2, &OpenGate) else {
            return Ok(false);
        };
        tell_each(&names, &ends, out)?;
        Ok(true)
    }
}
