//! Goes through scenarios of an owner and a mover at one table, and of hints and fetchers, and prints what each call told, or what each came to. What must be
//! printed is written by hand.
#![tactic(auto)]

mod fetchers;
mod fixtures;
mod hints;
mod moving_out;
mod owners;
mod scenario;
mod shares;
mod standing;
mod tape;
mod two_threads;

use crate::scenario::{SCENARIOS, Scenario, play};
use crate::shares::{parts_among_one, parts_among_two};
use crate::tape::Tape;
use crate::two_threads::{count_beside_a_mover, read_beside_a_mover};
use cells::Piece;
use remote_store::{FarHeap, FaultPlan, FaultStores};
use std::alloc::Global;
use std::io;
use std::io::Write;

/// Prints what was told.
fn show<O: Write>(out: &mut O, name: &str, tape: &Tape) -> io::Result<()> {
    write!(out, "{name}:")?;
    for told in tape.told() {
        if let Some(told) = told {
            write!(out, " {told};")?;
        }
    }
    writeln!(out)
}

/// What is told where calls of the store fail by the plan. Nothing where memory ran out.
fn play_faults(alloc: Global, scenario: Scenario, plan: FaultPlan, tape: &mut Tape) {
    let Ok(stores) = FaultStores::new(alloc, FarHeap::new(Piece::Cells64), plan) else {
        return;
    };
    play(alloc, scenario, stores, tape);
}

/// Prints all of it. What is moved out and in takes one put and one get of its store, and no call behind them.
fn main(rt: HostRuntime) -> io::Result<()> {
    let mut out = io::writer(&rt);
    for (name, scenario) in SCENARIOS {
        let mut tape = Tape::new();
        let stores = FarHeap::new(Piece::Cells64);
        play(rt.alloc(), scenario, stores, &mut tape);
        show(&mut out, name, &tape)?;
    }
    let mut tape = Tape::new();
    play_faults(
        rt.alloc(),
        Scenario::FailedPut,
        FaultPlan::Only(1),
        &mut tape,
    );
    show(&mut out, "a put that failed", &tape)?;
    let mut tape = Tape::new();
    play_faults(
        rt.alloc(),
        Scenario::MovedOutAndIn,
        FaultPlan::From(3),
        &mut tape,
    );
    show(
        &mut out,
        "moved out and in with two calls of the store",
        &tape,
    )?;
    let mut tape = Tape::new();
    parts_among_one(rt.alloc(), &mut tape);
    show(&mut out, "the seats of one program", &tape)?;
    let mut tape = Tape::new();
    parts_among_two(rt.alloc(), &mut tape);
    show(&mut out, "the seats of two programs", &tape)?;
    let mut tape = Tape::new();
    count_beside_a_mover(rt.alloc(), &rt, &mut tape);
    show(&mut out, "a writer of 200 rounds beside a mover", &tape)?;
    let mut tape = Tape::new();
    read_beside_a_mover(rt.alloc(), &rt, &mut tape);
    show(&mut out, "a reader of 200 rounds beside a mover", &tape)?;
    hints::tell(rt.alloc(), &rt, &mut out)
}
