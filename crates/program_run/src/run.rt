//! A program that is run to its end.
ghost use Rattle.std.specs.Prelude.{◌≡◌, ◌≢◌, ◌+◌, ◌-◌, ◌<◌, ◌≤◌, ◌^◌, IfErr, IfOk, length, true};
ghost use Rattle.cells.specs.declared.ending.Run.TheVariants.{Running, Wanted};
ghost use Rattle.cells.specs.declared.ending.Want.TheVariants.{OutOfMemory, StoreFailed};
ghost use Rattle.cells.specs.Outcomes.{IsPrefix};
ghost use Rattle.code_form.specs.Code.{output_of};
ghost use Rattle.object_lock.specs.Fresh.{IsFresh};
ghost use Rattle.program_run.specs.Acting.{HasActed, IsLeft, share_at};
ghost use Rattle.program_run.specs.Executed.{HasRefused, HasRunOn, IsFinishedOver};
ghost use Rattle.program_run.specs.Runs.{HasTurned, begun, share_in};
ghost use Rattle.region.specs.Admission.{image_at};
ghost use Rattle.remote_store.specs.Refusing.{no_refusals};
ghost use Rattle.session.specs.State.{IsAt, IsGoing, SameProgram};

use crate::gate::Gate;
use cells::{Ended, Run, Want};
use code_form::run_laws;
use hint_queue::{HintPass, Hints};
use memory_limit::MemoryLimit;
use object_lock::OwnerSeat;
use region::Region;
use remote_store::{RawStore, Refusals};
use session::{Counts, Session};
use std::alloc::Global;
use std::marker::Model;
use std::sync::Wait;

/// What became of a turn of a program.
#[derive(Clone, Copy, Debug, PartialEq, Eq)]
pub enum Turn {
    /// The gate did not let the program go, and nothing was done.
    Held,
    /// The program was run, and goes on.
    Ran,
    /// The program has stopped, or wants something.
    Ended,
}

/// Runs the session for so many instructions, unless its program stops or wants something.
fn run_on<S: RawStore, W: Wait>(rt: &W, session: &mut Session<'_, S>, quantum: u64) -> Run
    requires going { IsGoing session.old.state }
    requires room { session.old.state.completed + quantum < 2 ^ 64 }
    ensures at { S.honest → IsAt session.new.state }
    ensures same { SameProgram session.old.state session.new.state }
    ensures seat { (session.new.state.table ≡ session.old.state.table) × (session.new.state.view.sizes ≡ session.old.state.view.sizes) }
    ensures told { HasRunOn S.reliable quantum session.old.state session.new.state result }
    ensures sure { S.honest → S.reliable → result ≢ Wanted StoreFailed }
    ensures own { S.honest → session.old.state.refusals ≡ no_refusals → HasRefused result session.new.state.refusals }
    ensures acted { HasActed S.honest S.reliable session.old.state.image session.old Running → HasActed S.honest S.reliable session.new.state.image session.new result }
    ensures grows { S.honest → IsAt session.old.state → IsPrefix (output_of session.old.state.core) (output_of session.new.state.core) }
{
    run_laws();
    session.run(rt, quantum)
}

/// Has the session look at the frames, of which there are so many, behind some of its turns: so seldom that each of them pays for a look at four.
fn look_now_and_then<S: RawStore>(session: &mut Session<'_, S>, turn: u64, frames: usize)
    ensures { session.new ≡ session.old }
{
    let between = (frames / 4).max(1) as u64;
    if turn % between == 0 {
        session.look_at_frames();
    }
}

/// The session, behind a last look at the frames.
fn looked_last<S: RawStore>(session: Session<'_, S>) -> Session<'_, S>
    ensures { result ≡ session.entry }
{
    let mut session = session;
    session.look_at_frames();
    session
}

/// How a program ended, and what was refused through its own port to the store; and how many turns it had, modulo 2^64, with what its session did in them beside
/// instructions.
#[derive(Drop)]
pub struct Finished {
    pub end: Ended,
    pub refusals: Refusals,
    pub turns: u64,
    pub counts: Counts,
}

/// A program of a region that is run to its end at its seat. A contract sees the region's table and programs, the number of this one, where its objects begin and how many
/// they are, how many instructions it completed, what was refused through its own port, what it printed, and whether its run is over.
#[derive(Drop)]
pub struct ProgramRun<'a, S: RawStore> {
    region: &'a Region<S>,
    number: u32,
    session: Session<'a, S>,
    run: Run,
    // How many turns it had, modulo 2^64.
    turns: u64,
}

impl<'a, S: RawStore> Model for ProgramRun<'a, S> {
    ghost use Rattle.code_form.specs.Code.{output_of};
    ghost use Rattle.program_run.specs.Runs.{IsOnRun, RunView, is_over};
    ghost use Rattle.region.specs.Admission.{image_at};
    ghost use Rattle.std.specs.Prelude.{◌≡◌, ◌-◌, ◌<◌, length, suc};

    ghost Value = { RunView };

    ghost view = { λ p. record { table = p.region.now.table; programs = p.region.now.programs; number = p.number; first = p.session.state.view.low; objects = p.session.state.view.high - p.session.state.view.low; completed = p.session.state.completed; refusals = p.session.state.refusals; printed = output_of p.session.state.core; over = is_over p.run } };

    ghost invariant = { λ p.
        IsOnRun S.honest S.reliable p.session p.run
        × (p.number < length p.region.now.programs)
        × (p.session.state.image ≡ image_at p.region.now.programs p.number)
        × (p.session.state.view.number ≡ suc p.number)
        × (p.session.state.table ≡ p.region.now.table.id)
        × (p.session.state.view.sizes ≡ p.region.now.table.sizes) };
}

impl<'a, S: RawStore> ProgramRun<'a, S> {
    /// The region's program of this seat, at its beginning and at the seat as the region's admission gave it out. What the program will want soon it hints to
    /// `hints`, with this pass of them. The only want is `OutOfMemory`, where memory is refused.
    pub fn new(
        alloc: Global,
        region: &'a Region<S>,
        hints: &'a Hints,
        pass: HintPass,
        seat: OwnerSeat<S>,
    ) -> Result<ProgramRun<'a, S>, Want>
        requires fresh { IsFresh region.now.table seat }
        requires own { seat.view.low ≤ seat.view.high }
        requires program { (0 < seat.view.number) × (seat.view.number ≤ length region.now.programs) }
        requires pass { pass ≡ hints.now }
        requires cells { region.now.table.sizes.cells ≡ (image_at region.now.programs (seat.view.number - 1)).piece }
        ensures begun { IfOk result (λ p. p ≡ begun region.now.table region.now.programs (share_at seat.view)) }
        ensures wants { IfErr result (λ want. want ≡ OutOfMemory) }
    {
        // For the proof alone: there are at most 256 programs.
        let _ = region.programs();
        let number = (seat.number() - 1) as u32;
        match Session::new(alloc, region, hints, pass, seat) {
            Ok(session) => Ok(ProgramRun {
                region,
                number,
                session,
                run: Run::Running,
                turns: 0,
            }),
            Err(_refused) => Err(Want::OutOfMemory),
        }
    }

    /// Has its calls and its output keep within a limit of memory, from now on: where one comes to more, the next call, or the next instruction that prints, wants
    /// memory. At first there is no limit.
    pub fn bound(&mut self, limit: MemoryLimit)
        ensures { self.new ≡ self.old }
    {
        self.session.bound(limit);
    }

    /// Its number, counted from 0.
    pub fn number(&self) -> u32
        ensures number { result ≡ self.now.number }
        ensures there { result < length self.now.programs }
    {
        self.number
    }

    /// What it has printed.
    pub fn output(&self) -> &[u8]
        ensures { result.now ≡ self.now.printed }
    {
        self.session.output()
    }

    /// Asks the gate once whether the program may go, and where it may, runs it for `quantum` instructions, unless it stops or wants something: then the gate is
    /// told so, once. It may wait. A program whose run is over stays as it is, and the gate is not asked; nor is it where 2^64 instructions would be completed. What
    /// it had printed before begins what it has printed then.
    pub fn turn<G: Gate, W: Wait>(&mut self, rt: &W, gate: &G, quantum: u64) -> Turn
        ensures turned { HasTurned quantum self.old self.new result }
        ensures grows { S.honest → IsPrefix self.old.printed self.new.printed }
    {
        let Run::Running = self.run else {
            return Turn::Ended;
        };
        if self.session.completed() > u64::MAX - quantum || !gate.may_go(self.number) {
            return Turn::Held;
        }
        self.turns = self.turns.wrapping_add(1);
        let run = run_on(rt, &mut self.session, quantum);
        look_now_and_then(&mut self.session, self.turns, self.region.table().frames());
        match run {
            Run::Running => Turn::Ran,
            run => {
                self.run = run;
                gate.stopped(self.number);
                Turn::Ended
            }
        }
    }

    /// What it printed, how it ended, and how many instructions it completed: over an honest store those of the code's run, and what its session came to by what it did,
    /// instruction by instruction, in all its turns, at its seat. Beside it, what was refused through its own port to the store: over an honest store one call where it
    /// wants the store, and else none. And its seat: all that it did is what the session did.
    pub fn into_finished(self) -> (Finished, OwnerSeat<S>)
        requires over { self.over ≡ true }
        ensures end { S.honest → IsFinishedOver S.reliable (share_in self.entry) (image_at self.entry.programs self.entry.number) result.0 }
        ensures seat { IsLeft S.honest S.reliable self.entry.table (share_in self.entry) (image_at self.entry.programs self.entry.number) result.0 result.1 }
        ensures refusals { result.0.refusals ≡ self.entry.refusals }
        ensures printed { result.0.end.output.items ≡ self.entry.printed }
        ensures completed { result.0.end.completed ≡ self.entry.completed }
    {
        let ProgramRun {
            session,
            run,
            turns,
            ..
        } = self;
        let session = looked_last(session);
        let completed = session.completed();
        let refusals = session.refusals();
        let counts = session.counts();
        let (output, seat) = session.into_parts();
        let end = Ended {
            output,
            run,
            completed,
        };
        let finished = Finished {
            end,
            refusals,
            turns,
            counts,
        };
        (finished, seat)
    }
}
