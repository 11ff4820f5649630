//! The execution of an image up to its heap.
ghost use Rattle.cells.specs.Stops.{Stop as Stopped, stop_of as stop_read};
ghost use Rattle.call_execution.specs.Decisions.{decided, growth_touch, is_simple, makes, refuses, uses_scope};
ghost use Rattle.call_execution.specs.Holding.{RanWithin};
ghost use Rattle.call_execution.specs.Plain.{EndsPlain};
ghost use Rattle.call_execution.specs.Planning.{Plans, touch_planned};
ghost use Rattle.code_execution.specs.Statuses.{allocated, core_of, followed};
ghost use Rattle.code_form.specs.Code.{Frame, Running, Stuck, begins, code, effect, most_scopes, output_of, stop_of, is_blocked as is_blocked_in};
ghost use Rattle.code_form.specs.declared.allocation.Allocation.{Allocation};
ghost use Rattle.code_form.specs.Form.{block_of, function_of, image_of};
ghost use Rattle.code_form.specs.Growth.{has_text, may_grow, rest_of};
ghost use Rattle.code_form.specs.Touches.{IsWithin, cells_asked, resumed, touch_of};
ghost use Rattle.code_form.specs.declared.touch.Touch.TheVariants.{Ends, Plain};
ghost use Rattle.std.specs.Prelude.{◌≡◌, ◌≢◌, ◌∷◌, ◌<◌, ◌≤◌, ℕ, suc, [], false, IfOk, List, MatchOption, MatchResult, None, length, Some, option_map, slice_get, true};

use crate::calls::Calls;
use crate::halt::Halt;
use call_execution::{Decision, Hinted, Holder, Plan, Scope, image_fits};
use cells::Stop;
use code_form::{Block, Function, Image, Touch};
use code_operations::{Allocations, Command, are_small, number};
use memory_limit::{MemoryLimit, MemoryUse};
use std::alloc::{AllocError, Global};
use std::marker::Model;

/// Where a run is.
#[derive(Drop)]
pub(crate) enum Status<'a> {
    Running(Calls<'a>),
    Stopped(Halt<'a>),
    Stuck,
}

/// All that a run of an image has beside its heap: the calls that run or wait, the allocations, the output, and how the program has
/// stopped. A contract sees it as the image and a state of the definitions.
#[derive(Drop)]
pub struct Execution<'a> {
    alloc: Global,
    image: &'a Image,
    status: Status<'a>,
    allocations: Allocations,
    output: Vec<u8>,
    // Whether it is known that what the image's instructions name fits.
    fits: bool,
}

impl<'a> Model for Execution<'a> {
    ghost use Rattle.call_execution.specs.Fitting.{IsKnownFit};
    ghost use Rattle.code_execution.specs.Statuses.{IsExecution, Progress, core_of};
    ghost use Rattle.code_form.specs.Form.{image_of};

    ghost Value = { Progress };

    ghost view = { λ e. record { image = image_of e.image.now; core = core_of e.status e.allocations e.output.items } };

    ghost invariant = { λ e. IsExecution (image_of e.image.now) (core_of e.status e.allocations e.output.items)
        × IsKnownFit e.fits (image_of e.image.now) (core_of e.status e.allocations e.output.items) };
}

impl<'a> Status<'a> {
    /// The run is there from now on.
    fn set(&mut self, status: Status<'a>)
        ensures { self.new ≡ status.entry }
    {
        *self = status;
    }

    /// Does what was decided, where that is no allocation; a load's value is given. `Err` where memory is refused: then nothing is
    /// changed.
    #[inline(never)]
    #[cold]
    fn follow(
        &mut self,
        alloc: Global,
        output: &mut Vec<u8>,
        decision: Decision<'a>,
        loaded: u64,
    ) -> Result<(), AllocError>
        requires { makes decision ≡ false }
        ensures { (al : List Allocation) → MatchResult result
            (λ _. core_of self.new al output.new.items ≡ followed self.old al output.old.items decision.entry loaded)
            (λ _. (core_of self.new al output.new.items ≡ core_of self.old al output.old.items) × (refuses decision.entry ≡ true) × (growth_touch decision.entry ≡ Plain)) }
    {
        let Status::Running(calls) = self else {
            return Ok(());
        };
        match decision {
            Decision::Does(command) => return self.obey(alloc, output, command),
            Decision::Stores { .. } => calls.advance(),
            Decision::Aims { scope, aim } => calls.change_scope(scope, Scope::Aimed(aim)),
            Decision::Loads { to, .. } => calls.write(to, loaded),
            Decision::Leaves { scope } => calls.change_scope(scope, Scope::Shut),
            Decision::Jumps(block) => calls.go_to(block),
            Decision::Calls {
                to,
                function,
                block,
                arguments,
            } => calls.enter(to, function, block, arguments)?,
            Decision::Returns { value } => {
                if !calls.leave(value) {
                    self.set(Status::Stopped(Halt::Ended(number(value))));
                }
            }
            Decision::Errs(text) => self.set(Status::Stopped(Halt::ErrorCalled(text))),
            Decision::Fails => self.set(Status::Stuck),
        }
        Ok(())
    }

    /// Does what a simple instruction is to do, where that is no allocation. `Err` where memory is refused: then nothing is changed.
    #[inline(never)]
    fn obey(
        &mut self,
        alloc: Global,
        output: &mut Vec<u8>,
        command: Command<'a>,
    ) -> Result<(), AllocError>
        requires { makes (Decision.Does command) ≡ false }
        ensures { (al : List Allocation) (v : ℕ) → MatchResult result
            (λ _. core_of self.new al output.new.items ≡ followed self.old al output.old.items (Decision.Does command.entry) v)
            (λ _. (core_of self.new al output.new.items ≡ core_of self.old al output.old.items) × (refuses (Decision.Does command.entry) ≡ true) × (growth_touch (Decision.Does command.entry) ≡ Plain)) }
    {
        let Status::Running(calls) = self else {
            return Ok(());
        };
        match command {
            Command::Goes | Command::Tells(_) => calls.advance(),
            Command::Sets { to, value } => calls.write(to, value),
            Command::Makes { .. } => (),
            Command::Prints(printed) => {
                calls.print(alloc, output, printed)?;
                calls.advance();
            }
            Command::Stops(fault) => self.set(Status::Stopped(Halt::Failed(fault))),
            Command::Fails => self.set(Status::Stuck),
        }
        Ok(())
    }

    /// Goes behind the next instruction, which allocates; `number` is that of the allocation.
    fn get(&mut self, to: u32, number: u64)
        ensures { (a : Allocation) (al : List Allocation) (o : List ℕ) → number ≡ suc (length al)
            → core_of self.new (a ∷ al) o ≡ allocated self.old to a al o }
    {
        if let Status::Running(calls) = self {
            calls.write(to, number);
        }
    }
}

/// `main` and its first block.
#[inline(never)]
fn first_block(image: &Image) -> Option<(&Function, &Block)>
    ensures { MatchOption result
        (begins (slice_get (image_of image.now).functions 0) ≡ Stuck [] [])
        (λ p. (slice_get (image_of image.now).functions 0 ≡ Some (function_of p.0.now)) × (slice_get (function_of p.0.now).blocks 0 ≡ Some (block_of p.1.now))) }
{
    let function = image.functions.first()?;
    let block = function.blocks.first()?;
    Some((function, block))
}

/// Where a run begins. `Err` where memory is refused.
#[inline(never)]
fn begin<'a>(alloc: Global, image: &'a Image) -> Result<Status<'a>, AllocError>
    ensures { IfOk result (λ s. core_of s [] [] ≡ begins (slice_get (image_of image.now).functions 0)) }
{
    match first_block(image) {
        Some((function, block)) => Ok(Status::Running(Calls::new(alloc, function, block)?)),
        None => Ok(Status::Stuck),
    }
}

impl<'a> Execution<'a> {
    /// What the next instruction touches.
    #[inline(always)]
    pub fn next(&self) -> Touch
        ensures value { result ≡ touch_of (effect self.now.image self.now.core) }
        ensures within { IsWithin (most_scopes self.now.image.functions) self.now.core result }
    {
        match &self.status {
            Status::Running(calls) => {
                calls
                    .decide(self.image, &self.allocations, self.fits)
                    .touch(&self.allocations, calls.count())
            }
            _ => Touch::Nothing,
        }
    }

    /// What the next instruction is to do, where it is one that aims, uses or leaves a scope.
    #[inline(always)]
    pub fn plan(&self) -> Option<Plan>
        ensures { MatchOption result (uses_scope (touch_of (effect self.now.image self.now.core)) ≡ false) (λ p. Plans p self.now.image self.now.core
            × (is_blocked_in self.now.core ≡ false) × IsWithin (most_scopes self.now.image.functions) self.now.core (touch_planned p)) }
    {
        match &self.status {
            Status::Running(calls) => {
                let decision = calls.decide_in_scope(self.image, &self.allocations, self.fits)?;
                decision.into_plan(&self.allocations)
            }
            _ => None,
        }
    }

    /// Does the next instruction, which is planned so; `loaded` is what the cell holds that it loads, if it loads one.
    #[inline(always)]
    pub fn carry_out(&mut self, plan: Plan, loaded: u64)
        requires { Plans plan self.old.image self.old.core }
        ensures { self.new ≡ record self.old { core = resumed (effect self.old.image self.old.core) self.old.core loaded } }
    {
        let Status::Running(calls) = &mut self.status else {
            return;
        };
        calls.carry_out(plan, loaded);
    }

    /// Does the next instruction, which is no allocation; `loaded` is what the cell holds that it loads, if it loads one. `Err`
    /// where memory is refused for what is printed, or for a call: then nothing is changed.
    #[inline(never)]
    #[cold]
    pub fn proceed(&mut self, loaded: u64) -> Result<(), AllocError>
        requires { cells_asked (touch_of (effect self.old.image self.old.core)) ≡ None }
        ensures { MatchResult result
            (λ _. self.new ≡ record self.old { core = resumed (effect self.old.image self.old.core) self.old.core loaded })
            (λ _. (self.new ≡ self.old) × (touch_of (effect self.old.image self.old.core) ≡ Plain) × (may_grow Plain (rest_of self.old.core) ≡ true)) }
    {
        if let Status::Running(calls) = &self.status {
            let decision = calls.decide(self.image, &self.allocations, self.fits);
            self.status
                .follow(self.alloc, &mut self.output, decision, loaded)?;
        }
        Ok(())
    }

    /// Does instructions one after the other, each decided once, as long as they touch nothing and find no scope open that must be shut, at
    /// most `limit`, and tells how many. One that tells a cell is passed where a hint of it tells nothing new, or nobody listens, and one that aims or uses a scope
    /// where that holds, at this seat, the piece that it wants. It ends before another one, which touches something or finds such a scope, one that stops the program or is
    /// stuck, and one to which memory is refused: of that one nothing is done.
    #[inline(always)]
    pub fn run_plain<H: Holder>(
        &mut self,
        hinted: &Hinted,
        holder: &H,
        seat: &mut H::Seat,
        limit: u64,
    ) -> u64
        requires may { H.may holder.now seat.old }
        ensures within { result ≤ limit }
        ensures same { self.new ≡ record self.old { core = self.new.core } }
        ensures ran { RanWithin (H.uses holder.now) self.old.image result self.old.core seat.old self.new.core seat.new }
        ensures ends { result < limit → EndsPlain self.new.image self.new.core }
        ensures may { H.may holder.now seat.new }
    {
        match &mut self.status {
            Status::Running(calls) => {
                calls.run_plain(
                    self.alloc,
                    self.image,
                    &self.allocations,
                    self.fits,
                    hinted,
                    holder,
                    seat,
                    &mut self.output,
                    limit,
                )
            }
            _ => 0,
        }
    }

    /// Does the next instruction, which uses a scope or tells a cell; `loaded` is what the cell holds that it loads, if it loads one.
    #[inline(always)]
    pub fn complete(&mut self, loaded: u64)
        requires { is_simple (touch_of (effect self.old.image self.old.core)) ≡ true }
        ensures { self.new ≡ record self.old { core = resumed (effect self.old.image self.old.core) self.old.core loaded } }
    {
        let Status::Running(calls) = &mut self.status else {
            return;
        };
        calls.complete(loaded);
    }

    /// Has its calls and its output keep within a limit, from now on: a call, or an instruction that prints, is refused memory where all calls, or all that was
    /// printed, come to more before it. At first there is none.
    pub fn bound(&mut self, limit: MemoryLimit)
        ensures { self.new ≡ self.old }
    {
        if let Status::Running(calls) = &mut self.status {
            calls.limit = limit;
        }
    }

    /// What was refused memory as it came to more than the limit. Where the program has stopped, nothing was.
    pub fn passed(&self) -> Option<MemoryUse>
        ensures { (x : Stopped) → stop_of self.now.core ≡ Some x → result ≡ None }
    {
        match &self.status {
            Status::Running(calls) => calls.limit.passed,
            _ => None,
        }
    }

    /// What was printed.
    pub fn output(&self) -> &[u8]
        ensures { result.now ≡ output_of self.now.core }
    {
        &self.output
    }

    /// What was printed, where nothing more is executed.
    pub fn into_output(self) -> Vec<u8>
        ensures { result.items ≡ output_of self.entry.core }
    {
        self.output
    }

    /// How the program has stopped, if it has. `Err` where memory is refused for the text of an error.
    pub fn stop(&self, alloc: Global) -> Result<Option<Stop>, AllocError>
        ensures { MatchResult result
            (λ s. option_map stop_read s ≡ stop_of self.now.core)
            (λ _. has_text (stop_of self.now.core) ≡ true) }
    {
        match &self.status {
            Status::Stopped(halt) => Ok(Some(halt.stop(alloc)?)),
            _ => Ok(None),
        }
    }

    /// How the next instruction stops the program. `Err` where memory is refused for the text of an
    /// error.
    #[inline(never)]
    #[cold]
    pub fn stop_ahead(&self, alloc: Global) -> Result<Option<Stop>, AllocError>
        requires { touch_of (effect self.now.image self.now.core) ≡ Ends }
        ensures { MatchResult result
            (λ s. option_map stop_read s ≡ stop_of (resumed (effect self.now.image self.now.core) self.now.core 0))
            (λ _. may_grow (touch_of (effect self.now.image self.now.core)) (rest_of self.now.core) ≡ true) }
    {
        match &self.status {
            Status::Running(calls) => {
                calls
                    .decide(self.image, &self.allocations, self.fits)
                    .stop(alloc, calls.count())
            }
            _ => Ok(None),
        }
    }

    /// Whether the next instruction needs all scopes shut and one is open.
    #[inline(always)]
    pub fn is_blocked(&self) -> bool
        ensures { result ≡ is_blocked_in self.now.core }
    {
        match &self.status {
            Status::Running(calls) => calls.is_blocked(),
            _ => false,
        }
    }

    /// Does the next instruction, which is an allocation; the number of the new one is that of the allocations. `Err` where memory
    /// is refused: then nothing is changed.
    #[inline(never)]
    pub fn allocate(&mut self) -> Result<(), AllocError>
        requires { cells_asked (touch_of (effect self.old.image self.old.core)) ≢ None }
        ensures { MatchResult result
            (λ _. self.new ≡ record self.old { core = resumed (effect self.old.image self.old.core) self.old.core 0 })
            (λ _. self.new ≡ self.old) }
    {
        let Status::Running(calls) = &self.status else {
            return Ok(());
        };
        if let Decision::Does(Command::Makes { to, allocation }) = calls.decide(
            self.image,
            &self.allocations,
            self.fits,
        ) {
            self.allocations.push(allocation)?;
            self.status.get(to, self.allocations.count());
        }
        Ok(())
    }

    /// The execution of an image at the beginning of `main`. `Err` where memory is refused, or where a layout has 2^32 cells or more.
    pub fn new(alloc: Global, image: &'a Image) -> Result<Execution<'a>, AllocError>
        ensures { IfOk result (λ e. e ≡ record { image = image_of image.now; core = (code (image_of image.now)).start }) }
    {
        if !are_small(&image.layouts) {
            return Err(AllocError);
        }
        Ok(Execution {
            alloc,
            image,
            status: begin(alloc, image)?,
            allocations: Allocations::new(alloc),
            output: Vec::new(alloc),
            fits: image_fits(image),
        })
    }
}
