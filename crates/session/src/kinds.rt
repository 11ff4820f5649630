//! Each kind of instruction, by what it touches.
ghost use Rattle.code_form.specs.declared.touch.Touch.TheVariants.{Aims, Allocs, Ends, Hints, Leaves, Loads, Plain, Stores};
ghost use Rattle.call_execution.specs.Planning.{Plans, touch_planned};
ghost use Rattle.code_form.specs.Growth.{may_grow, rest_of};
ghost use Rattle.code_form.specs.Placed.{pieces as pieces_of};
ghost use Rattle.session.specs.Keeping.{Allocated, IsNext, IsSafe, Made, Moves};
ghost use Rattle.session.specs.Performing.{LosesAt, LosesWanted, Performs};
ghost use Rattle.session.specs.State.{next_touch};
ghost use Rattle.std.specs.Prelude.{◌≡◌, ◌+◌, ◌%◌, ◌<◌, ◌^◌, IfOk, MatchBool, MatchOption, MatchResult, true};

use crate::program::SeatedProgram;
use cells::Want;
use code_execution::Plan;
use code_form::{Cell, effect_laws};
use remote_store::RawStore;
use std::alloc::AllocError;
use std::sync::Wait;

impl<'a, S: RawStore> SeatedProgram<'a, S> {
    /// The place of a cell in its piece.
    #[inline(always)]
    fn place(&self, cell: Cell) -> usize
        ensures { result ≡ cell.index % self.now.state.view.sizes.cells }
    {
        self.scale().place(cell.index) as usize
    }

    /// How many pieces this many cells are.
    #[inline(always)]
    fn pieces(&self, cells: u64) -> u64
        ensures { result ≡ pieces_of self.now.state.view.sizes.cells cells }
    {
        self.scale().pieces(cells)
    }

    /// Completes an instruction that touches nothing. `Err` where memory is refused: then nothing is changed.
    #[inline(never)]
    pub(crate) fn complete_plain(&mut self) -> Result<(), AllocError>
        requires safe { IsSafe self.old.state }
        requires next { IsNext Plain self.old.state }
        requires room { self.old.state.completed + 1 < 2 ^ 64 }
        ensures told { MatchResult result (λ _. IsSafe self.new.state × Moves S.honest Plain self.old.state self.new.state)
            (λ _. (self.new ≡ self.old) × (may_grow (next_touch self.old.state) (rest_of self.old.state.core) ≡ true)) }
        ensures performed { IfOk result (λ _. Performs S.honest Plain self.old self.new) }
    {
        effect_laws();
        match self.proceed() {
            Ok(()) => Ok(()),
            Err(error) => Err(error),
        }
    }

    /// Completes an instruction that tells a cell: its object is hinted.
    #[inline(always)]
    pub(crate) fn hints<R: Wait>(&mut self, rt: &R, wanted: Option<Cell>)
        requires safe { IsSafe self.old.state }
        requires next { IsNext (Hints wanted) self.old.state }
        requires room { self.old.state.completed + 1 < 2 ^ 64 }
        ensures safe { IsSafe self.new.state }
        ensures moves { Moves S.honest (Hints wanted) self.old.state self.new.state }
        ensures performed { Performs S.honest (Hints wanted) self.old self.new }
    {
        effect_laws();
        self.hint_wanted(rt, wanted);
        self.finish(0);
    }

    /// False where the store failed.
    #[inline(always)]
    fn aims<R: Wait>(&mut self, rt: &R, scope: usize, wanted: Option<Cell>, plan: Plan) -> bool
        requires safe { IsSafe self.old.state }
        requires next { IsNext (Aims scope wanted) self.old.state }
        requires plan { Plans plan self.old.state.image self.old.state.core }
        requires room { self.old.state.completed + 1 < 2 ^ 64 }
        ensures told { Made S.honest S.reliable (Aims scope wanted) self.old.state self.new.state result }
        ensures performed { MatchBool result (Performs S.honest (Aims scope wanted) self.old self.new) (LosesWanted S.reliable scope wanted self.old self.new) }
    {
        effect_laws();
        if self.hold_wanted(rt, scope, wanted) {
            self.carry_out(plan, 0);
            true
        } else {
            false
        }
    }

    #[inline(always)]
    fn leaves(&mut self, scope: usize, plan: Plan)
        requires safe { IsSafe self.old.state }
        requires next { IsNext (Leaves scope) self.old.state }
        requires plan { Plans plan self.old.state.image self.old.state.core }
        requires room { self.old.state.completed + 1 < 2 ^ 64 }
        ensures safe { IsSafe self.new.state }
        ensures moves { Moves S.honest (Leaves scope) self.old.state self.new.state }
        ensures performed { Performs S.honest (Leaves scope) self.old self.new }
    {
        effect_laws();
        self.shut(scope);
        self.carry_out(plan, 0);
    }

    #[inline(always)]
    fn loads(&mut self, scope: usize, cell: Cell, plan: Plan)
        requires safe { IsSafe self.old.state }
        requires next { IsNext (Loads scope cell) self.old.state }
        requires plan { Plans plan self.old.state.image self.old.state.core }
        requires room { self.old.state.completed + 1 < 2 ^ 64 }
        ensures safe { IsSafe self.new.state }
        ensures moves { Moves S.honest (Loads scope cell) self.old.state self.new.state }
        ensures performed { Performs S.honest (Loads scope cell) self.old self.new }
    {
        effect_laws();
        let hold = self.held(scope);
        let index = self.place(cell);
        let value = self.load_cell(hold, index);
        self.carry_out(plan, value);
    }

    #[inline(always)]
    fn stores(&mut self, scope: usize, cell: Cell, value: u64, plan: Plan)
        requires safe { IsSafe self.old.state }
        requires next { IsNext (Stores scope cell value) self.old.state }
        requires plan { Plans plan self.old.state.image self.old.state.core }
        requires room { self.old.state.completed + 1 < 2 ^ 64 }
        ensures safe { IsSafe self.new.state }
        ensures moves { Moves S.honest (Stores scope cell value) self.old.state self.new.state }
        ensures performed { Performs S.honest (Stores scope cell value) self.old self.new }
    {
        effect_laws();
        let hold = self.held(scope);
        self.make_writable(scope, hold);
        let index = self.place(cell);
        self.store_cell(hold, index, value);
        self.carry_out(plan, 0);
    }

    /// Completes an instruction that stops the program.
    #[inline(never)]
    pub(crate) fn ends(&mut self)
        requires safe { IsSafe self.old.state }
        requires next { IsNext Ends self.old.state }
        requires room { self.old.state.completed + 1 < 2 ^ 64 }
        ensures safe { IsSafe self.new.state }
        ensures moves { Moves S.honest Ends self.old.state self.new.state }
        ensures performed { Performs S.honest Ends self.old self.new }
    {
        effect_laws();
        self.close_all();
        self.finish_end();
    }

    /// Completes an allocation, or tells what it wants.
    #[inline(never)]
    pub(crate) fn allocs(&mut self, cells: u64) -> Option<Want>
        requires safe { IsSafe self.old.state }
        requires next { IsNext (Allocs cells) self.old.state }
        requires room { self.old.state.completed + 1 < 2 ^ 64 }
        ensures told { Allocated S.honest cells self.old.state self.new.state result }
        ensures performed { MatchOption result (Performs S.honest (Allocs cells) self.old self.new) (λ _. self.new ≡ self.old) }
    {
        effect_laws();
        let many = self.pieces(cells);
        if self.end() - self.next() < many {
            return Some(Want::NoObjects);
        }
        match self.extend(cells, many) {
            Ok(()) => None,
            Err(_) => Some(Want::OutOfMemory),
        }
    }

    /// Completes an instruction that aims, uses or leaves a scope, as it is planned. False where the store failed.
    #[inline(always)]
    pub(crate) fn make<R: Wait>(&mut self, rt: &R, plan: Plan) -> bool
        requires safe { IsSafe self.old.state }
        requires next { IsNext (touch_planned plan) self.old.state }
        requires plan { Plans plan self.old.state.image self.old.state.core }
        requires room { self.old.state.completed + 1 < 2 ^ 64 }
        ensures told { Made S.honest S.reliable (touch_planned plan) self.old.state self.new.state result }
        ensures performed { MatchBool result (Performs S.honest (touch_planned plan) self.old self.new) (LosesAt S.reliable (touch_planned plan) self.old self.new) }
    {
        match plan {
            Plan::Aims { scope, wanted, .. } => return self.aims(rt, scope as usize, wanted, plan),
            Plan::Loads { scope, cell, .. } => self.loads(scope as usize, cell, plan),
            Plan::Stores { scope, cell, value } => self.stores(scope as usize, cell, value, plan),
            Plan::Leaves { scope } => self.leaves(scope as usize, plan),
        }
        true
    }
}
