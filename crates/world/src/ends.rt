//! What is told of programs.
ghost use Rattle.std.specs.Prelude.{◌≡◌, ◌<◌, ◌↔◌, ℕ, IfOk, length, true};
ghost use Rattle.code_form.specs.Form.{Image};
ghost use Rattle.world_actors.specs.Acting.{IsProgram};
ghost use Rattle.world.specs.Parts.{parts};
ghost use Rattle.world.specs.Stepped.{IsWorld};
ghost use Rattle.world_semantics.specs.Programs.{Program as Defined};
ghost use Rattle.world.specs.Reports.{AreEnds, IsEnded, RunsAs, WantsMemory};
ghost use Rattle.world_semantics.specs.Worlds.{Sizes, World as DefinedWorld};

use crate::world::World;
use cells::{Ended, Run, Want};
use remote_store::RawStore;
use std::alloc::{AllocError, Global};
use world_actors::{Mode, ProgramActor};
use world_semantics::event::Actor;

/// How a program has stopped or what it wants, or that it runs. `Err` where memory is refused for the text of an error.
fn run_of(alloc: Global, program: &ProgramActor<'_>) -> Result<Run, AllocError>
    ensures { IfOk result (λ r. (p : Defined) → IsProgram program.now p → RunsAs p r) }
{
    Ok(match program.stop(alloc)? {
        Some(stop) => Run::Stopped(stop),
        None => match program.mode().want() {
            Some(want) => Run::Wanted(want),
            None => Run::Running,
        },
    })
}

/// What a program printed, how it runs, and how many instructions it completed. `Err` where memory is refused for the output or
/// the text of an error.
fn end_of(alloc: Global, program: &ProgramActor<'_>) -> Result<Ended, AllocError>
    ensures { IfOk result (λ e. (p : Defined) → IsProgram program.now p → IsEnded p e) }
{
    let output = program.output().to_vec(alloc)?;
    Ok(Ended {
        output,
        run: run_of(alloc, program)?,
        completed: program.completed(),
    })
}

/// Whether this is where a program is that wants memory.
fn lacks_memory(mode: Mode) -> bool
    ensures { (result ≡ true) ↔ (mode ≡ Mode.Wanted Want.OutOfMemory) }
{
    matches!(mode, Mode::Wanted(Want::OutOfMemory))
}

impl<'a, S: RawStore> World<'a, S> {
    /// What a program printed, how it runs, and how many instructions it completed, modulo 2^64. `Err` where memory is refused for the
    /// output or the text of an error.
    pub fn ended(&self, alloc: Global, program: usize) -> Result<Ended, AllocError>
        requires { program < length (parts self.now).programs }
        ensures { IfOk result (λ e. (z : Sizes) (images : ℕ → Image) (w : DefinedWorld) → IsWorld S.content S.honest z images (parts self.now) w
            → IsEnded (w.programs program) e) }
    {
        end_of(alloc, &self.programs[program].0)
    }

    /// Whether the actor is a program that wants memory, which does nothing more.
    pub(crate) fn wants_memory(&self, actor: Actor) -> bool
        ensures { (z : Sizes) (images : ℕ → Image) (w : DefinedWorld) → IsWorld S.content S.honest z images (parts self.now) w → (result ≡ true) ↔ WantsMemory z w actor }
    {
        let Actor::Program(number) = actor else {
            return false;
        };
        let number = number as usize;
        if number >= self.programs.len() {
            return false;
        }
        lacks_memory(self.programs[number].0.mode())
    }

    /// How many programs there are.
    pub fn programs(&self) -> usize
        ensures { result ≡ length (parts self.now).programs }
    {
        self.programs.len()
    }

    /// The same of each program, in order.
    pub(crate) fn ends(&self, alloc: Global) -> Result<Vec<Ended>, AllocError>
        ensures { IfOk result (λ v. (z : Sizes) (images : ℕ → Image) (w : DefinedWorld) → IsWorld S.content S.honest z images (parts self.now) w
            → (length v.items ≡ z.programs) × AreEnds w.programs 0 v.items) }
    {
        let mut ends = Vec::new(alloc);
        for program in 0..self.programs() {
            ends.push(self.ended(alloc, program)?)?;
        }
        Ok(ends)
    }
}
