//! A session: a program that runs at one seat of a table.
ghost use Rattle.cells.specs.declared.ending.Run.TheVariants.{Wanted};
ghost use Rattle.cells.specs.declared.ending.Want.TheVariants.{OutOfMemory, StoreFailed};
ghost use Rattle.cells.specs.Stops.{Stop};
ghost use Rattle.code_form.specs.Code.{output_of, stop_of};
ghost use Rattle.code_form.specs.Form.{image_of};
ghost use Rattle.session.specs.Keeping.{IsSession};
ghost use Rattle.session.specs.Performing.{Acts};
ghost use Rattle.session.specs.State.{AllShut, IsAt, IsGoing, IsUntold, Ran, ScopesHold, State, begin};
ghost use Rattle.object_moves.specs.Taken.{IsQuiet, Refused};
ghost use Rattle.object_lock.specs.Fresh.{IsFresh};
ghost use Rattle.object_lock.specs.SeatViews.{IsSeat};
ghost use Rattle.region.specs.Admission.{image_at};
ghost use Rattle.std.specs.Prelude.{◌≡◌, ◌≢◌, ◌⊎◌, ◌+◌, ◌<◌, ◌≤◌, ◌^◌, ◌-◌, IfOk, MatchResult, Some, length};

use crate::counts::Counts;
use crate::hint_sender::HintSender;
use crate::program::SeatedProgram;
use cells::{Run, Want};
use code_form::{effect_laws, heap_laws, run_laws};
use hint_queue::{HintPass, Hints};
use memory_limit::MemoryLimit;
use object_lock::{ObjectTable, OwnerSeat};
use region::Region;
use remote_store::{RawStore, Refusals};
use scope_verifier::Verified;
use scope_verifier_laws::accepted_is_verified;
use std::alloc::Global;
use std::marker::Model;
use std::sync::Wait;

/// The program of a verified image that runs at one seat of a table. A contract sees where it is: its image, the state of its program, what its scopes
/// hold, what its seat knows, how many instructions it completed, and what it wants, if it wants anything.
#[derive(Drop)]
pub struct Session<'a, S: RawStore> {
    program: SeatedProgram<'a, S>,
}

impl<'a, S: RawStore> Model for Session<'a, S> {
    ghost use Rattle.code_form.specs.Code.{Covered};
    ghost use Rattle.session.specs.Keeping.{IsSession};
    ghost use Rattle.session.specs.State.{Logged};

    ghost Value = { Logged };

    ghost view = { λ s. s.program };

    ghost invariant = { λ s. IsSession S.honest s.program.state × Covered s.program.state.image };
}

impl<'a, S: RawStore> Session<'a, S> {
    /// The region's program of this seat, at its beginning, at the seat as the region's admission gave it out. What the program will want soon it hints
    /// to `hints`, with this pass of them. The only want is `OutOfMemory`, where memory is refused.
    pub fn new(
        alloc: Global,
        region: &'a Region<S>,
        hints: &'a Hints,
        pass: HintPass,
        seat: OwnerSeat<S>,
    ) -> Result<Session<'a, S>, Want>
        requires fresh { IsFresh region.now.table seat }
        requires own { seat.view.low ≤ seat.view.high }
        requires program { (0 < seat.view.number) × (seat.view.number ≤ length region.now.programs) }
        requires pass { pass ≡ hints.now }
        ensures begins { MatchResult result (λ s. s ≡ record { state = begin seat.table (image_at region.now.programs (seat.view.number - 1)) seat.view seat.refusals; log = seat.log }) (λ want. want ≡ OutOfMemory) }
        ensures at { IfOk result (λ s. S.honest → IsAt s.state) }
    {
        accepted_is_verified();
        let image = region.image(seat.number() as usize - 1).image();
        let sender = Some(HintSender::new(hints, pass));
        match SeatedProgram::new(alloc, region.table(), image, seat, sender) {
            Ok(program) => Ok(Session { program }),
            Err(_) => Err(Want::OutOfMemory),
        }
    }

    /// The verified image's program at its beginning, at a seat as the table gave it out, where nobody serves hints. The only want is `OutOfMemory`, where
    /// memory is refused.
    pub fn over(
        alloc: Global,
        table: &'a ObjectTable<S>,
        verified: &'a Verified,
        seat: OwnerSeat<S>,
    ) -> Result<Session<'a, S>, Want>
        requires fresh { IsFresh table.now seat }
        requires own { seat.view.low ≤ seat.view.high }
        ensures begins { MatchResult result (λ s. s ≡ record { state = begin seat.table (image_of verified.now.image) seat.view seat.refusals; log = seat.log }) (λ want. want ≡ OutOfMemory) }
        ensures at { IfOk result (λ s. S.honest → IsAt s.state) }
    {
        accepted_is_verified();
        match SeatedProgram::new(alloc, table, verified.image(), seat, None) {
            Ok(program) => Ok(Session { program }),
            Err(_) => Err(Want::OutOfMemory),
        }
    }

    /// Has the program's calls and its output keep within a limit of memory, from now on: where one comes to more, the next call, or the next instruction that
    /// prints, wants memory. At first there is no limit.
    pub fn bound(&mut self, limit: MemoryLimit)
        ensures { self.new ≡ self.old }
    {
        self.program.bound(limit);
    }

    /// Completes `limit` instructions, unless the program stops or wants something; it may wait. Having answered a stop or a want it
    /// answers the same from then on and changes nothing; only where it had stopped by an error, for whose text memory is refused now,
    /// this call alone answers `OutOfMemory`. Where its frames are full it moves objects out by itself.
    ///
    /// `NoObjects`: the pieces of the allocation that is next don't fit in what is left of the program's share. `OutOfMemory`: memory
    /// was refused to an allocation, to output, to a call, or for the text of an error. `StoreFailed`: a call was refused through the session's own port; or
    /// the store is not honest, and the code is stuck, or an allocation or a return finds a scope open. Then the session has given back what it had in hand, and
    /// every scope is shut.
    pub fn run<R: Wait>(&mut self, rt: &R, limit: u64) -> Run
        requires { self.old.state.completed + limit < 2 ^ 64 }
        ensures at { S.honest → IsAt self.new.state }
        ensures told { Ran S.reliable limit self.old.state self.new.state result ⊎ IsUntold self.old.state self.new.state result }
        ensures scopes { self.new.state.want ≢ Some StoreFailed → ScopesHold self.new.state }
        ensures shut { (x : Stop) → stop_of self.new.state.core ≡ Some x → AllShut self.new.state }
        ensures failed { self.new.state.want ≡ Some StoreFailed → AllShut self.new.state }
        ensures quiet { IsQuiet self.new.state.view }
        ensures refused { S.honest → IsGoing self.old.state → result ≡ Wanted StoreFailed → Refused S.reliable self.old.state.refusals self.new.state.refusals }
        ensures acts { IsGoing self.old.state → Acts S.honest S.reliable self.old self.new result }
        ensures ended { (IsGoing self.old.state → ⊥) → self.new ≡ self.old }
    {
        effect_laws();
        heap_laws();
        run_laws();
        match self.program.run(rt, limit) {
            Ok(run) => run,
            Err(_refused) => Run::Wanted(Want::OutOfMemory),
        }
    }

    /// What the program printed.
    pub fn output(&self) -> &[u8]
        ensures { result.now ≡ output_of self.now.state.core }
    {
        self.program.output()
    }

    /// What the program printed, and its seat, which has nothing in hand, where it is run no further.
    pub fn into_parts(self) -> (Vec<u8>, OwnerSeat<S>)
        ensures output { result.0.items ≡ output_of self.entry.state.core }
        ensures seat { (result.1.view ≡ self.entry.state.view) × (result.1.log ≡ self.entry.log) × IsQuiet result.1.view }
        ensures table { IsSeat (record { id = self.entry.state.table; sizes = self.entry.state.view.sizes }) result.1 }
    {
        self.program.into_parts()
    }

    /// How many instructions were completed.
    pub fn completed(&self) -> u64
        ensures { result ≡ self.now.state.completed }
    {
        self.program.completed()
    }

    /// How many calls of the store were refused through the session's own port, and the last of these.
    pub fn refusals(&self) -> Refusals
        ensures { result ≡ self.now.state.refusals }
    {
        self.program.refusals()
    }

    /// Looks at each frame once, and counts those that hold objects of its own. `counts` tells the most that were found so.
    pub fn look_at_frames(&mut self)
        ensures { self.new ≡ self.old }
    {
        self.program.look_at_frames();
    }

    /// What it did beside completing instructions.
    pub fn counts(&self) -> Counts
        ensures { result.objects ≡ self.now.state.next - self.now.state.view.low }
    {
        self.program.counts()
    }
}
