//! A program with what its scopes hold, at one seat of a table: single steps, and those that keep the holds right.
ghost use Rattle.call_execution.specs.Planning.{Plans, touch_planned};
ghost use Rattle.code_form.specs.Code.{effect, is_blocked as is_blocked_in, most_scopes, output_of, stop_of};
ghost use Rattle.code_form.specs.Form.{image_of};
ghost use Rattle.code_form.specs.Growth.{has_text, may_grow, rest_of};
ghost use Rattle.code_form.specs.Placed.{pieces as pieces_of};
ghost use Rattle.code_form.specs.Touches.{IsCell, IsCellOrNone, IsWithin, resumed};
ghost use Rattle.code_form.specs.declared.touch.Touch.TheVariants.{Aims, Allocs, Ends, Leaves, Loads, Plain, Stores};
ghost use Rattle.cells.specs.Stops.{stop_of as stop_read};
ghost use Rattle.session.specs.Keeping.{Changes, Closes, Fails, HasWriter, Holds, HoldsObject, IsHolding, IsNext, cleared, count_of, extended, finished, first_of, has_object, is_simple, Misses, shut, shut_at, uses_scope, wants, written};
ghost use Rattle.session.specs.Performing.{HoldsLogged, HoldsWanted, Loses, LosesWanted, MissesLogged, Seizes, ShutLogged, ShutsAll, WritingLogged, wanting, writing_by};
ghost use Rattle.session.specs.Pieces.{IsKept, KnowsMore, RanHeld, UsesView, kept_at};
ghost use Rattle.session.specs.State.{AllShut, Matches, State, begin, hold_at, latest_in, next_touch, object_of, with_state};
ghost use Rattle.object_moves.specs.Taken.{IsQuiet};
ghost use Rattle.object_lock.specs.SeatViews.{IsSeat};
ghost use Rattle.object_lock.specs.Logs.{AddsOne};
ghost use Rattle.object_lock.specs.Seats.{Owns, cell_word, note, with_note};
ghost use Rattle.pointer_word.specs.Calls as call;
ghost use Rattle.pointer_word.specs.Hands.{added};
ghost use Rattle.std.specs.Prelude.{[], ◌≡◌, ◌≢◌, ◌⊎◌, ◌+◌, ◌-◌, ◌/◌, ◌%◌, ◌<◌, ◌≤◌, ◌^◌, ℕ, IfOk, MatchBool, MatchOption, MatchResult, None, Some, false, length, option_map, reverse, slice_index, true};

use crate::counts::Counts;
use crate::held_pieces::HeldPieces;
use crate::hint_sender::HintSender;
use crate::hold::Hold;
use crate::pieces::Pieces;
use crate::scale::Scale;
use cells::{Stop, Want};
use code_execution::{Execution, Hinted, Plan};
use code_form::{Cell, Image, Touch, heap_laws};
use memory_limit::MemoryLimit;
use object_lock::{ObjectTable, OwnerSeat};
use object_moves::{Moves, take};
use pointer_word::{Word, WordState};
use remote_store::{RawStore, Refusals};
use std::alloc::{AllocError, Global};
use std::marker::{Model, PhantomData};
use std::sync::Wait;

/// A program with what its scopes hold, at one seat of a table.
#[derive(Drop)]
pub(crate) struct SeatedProgram<'a, S: RawStore> {
    alloc: Global,
    table: &'a ObjectTable<S>,
    scale: Scale,
    pieces: Pieces<S>,
    execution: Execution<'a>,
    firsts: Vec<u64>,
    next: u64,
    // The frame at which the next search for a free one begins.
    next_frame: usize,
    completed: u64,
    want: Option<Want>,
    // None where nobody serves hints.
    sender: Option<HintSender<'a>>,
    hinted: Hinted,
    // What is counted of it beside its instructions: `Counts` tells each.
    opened: u64,
    hints: u64,
    dropped: u64,
    frames: u64,
    moves: Moves,
}

impl<'a, S: RawStore> Model for SeatedProgram<'a, S> {
    ghost use Rattle.session.specs.State.{Logged};
    ghost use Rattle.object_lock.specs.SeatViews.{IsSeat};
    ghost use Rattle.std.specs.Prelude.{◌≡◌, ◌^◌, reverse};

    ghost Value = { Logged };

    ghost view = { λ m. record { log = m.pieces.owner.log; state = record { image = m.execution.image; core = m.execution.core; holds = m.pieces.holds.items; firsts = reverse m.firsts.items; next = m.next; table = m.pieces.owner.table; view = m.pieces.owner.view; refusals = m.pieces.owner.refusals; completed = m.completed; want = m.want } } };

    ghost invariant = { λ m. IsSeat m.table.now m.pieces.owner × (2 ^ m.scale.shift ≡ m.table.now.sizes.cells) };
}

impl<'a, S: RawStore> SeatedProgram<'a, S> {
    pub(crate) fn new(
        alloc: Global,
        table: &'a ObjectTable<S>,
        image: &'a Image,
        owner: OwnerSeat<S>,
        sender: Option<HintSender<'a>>,
    ) -> Result<SeatedProgram<'a, S>, AllocError>
        requires table { IsSeat table.now owner }
        ensures { IfOk result (λ m. m ≡ record { state = begin owner.table (image_of image.now) owner.view owner.refusals; log = owner.log }) }
    {
        let execution = Execution::new(alloc, image)?;
        let holds = Vec::from_elem(alloc, None, 4)?;
        let next = owner.low() as u64;
        let hinted = Hinted::new(sender.is_some());
        Ok(SeatedProgram {
            alloc,
            table,
            scale: Scale::of(table),
            pieces: Pieces { owner, holds },
            execution,
            firsts: Vec::new(alloc),
            next,
            next_frame: 0,
            completed: 0,
            want: None,
            sender,
            hinted,
            opened: 0,
            hints: 0,
            dropped: 0,
            frames: 0,
            moves: Moves::none(),
        })
    }

    /// The size of the table's pieces.
    #[inline(always)]
    pub(crate) fn scale(&self) -> Scale
        ensures { 2 ^ result.shift ≡ self.now.state.view.sizes.cells }
    {
        self.scale
    }

    #[inline(always)]
    pub(crate) fn completed(&self) -> u64
        ensures { result ≡ self.now.state.completed }
    {
        self.completed
    }

    /// How many calls of the store were refused through the seat's port, and the last of these.
    pub(crate) fn refusals(&self) -> Refusals
        ensures { result ≡ self.now.state.refusals }
    {
        self.pieces.owner.refusals()
    }

    /// What it did beside completing instructions.
    pub(crate) fn counts(&self) -> Counts
        ensures { result.objects ≡ self.now.state.next - self.now.state.view.low }
    {
        let Moves {
            brought,
            written,
            left,
            calls,
        } = self.moves;
        Counts {
            objects: self.next.saturating_sub(self.pieces.owner.low() as u64),
            frames: self.frames,
            opened: self.opened,
            brought,
            written,
            left,
            calls,
            hints: self.hints,
            dropped: self.dropped,
            passed: self.execution.passed(),
        }
    }

    /// Looks at each frame once, and keeps how many were claimed for objects of its own, where that is the most so far.
    pub(crate) fn look_at_frames(&mut self)
        ensures { self.new ≡ self.old }
    {
        let found = own_frames(self.table, &mut self.pieces.owner);
        self.frames = self.frames.max(found);
    }

    /// Has its calls and its output keep within a limit, from now on.
    pub(crate) fn bound(&mut self, limit: MemoryLimit)
        ensures { self.new ≡ self.old }
    {
        self.execution.bound(limit);
    }

    pub(crate) fn output(&self) -> &[u8]
        ensures { result.now ≡ output_of self.now.state.core }
    {
        self.execution.output()
    }

    /// What the program printed, and its seat, which has nothing in hand.
    pub(crate) fn into_parts(self) -> (Vec<u8>, OwnerSeat<S>)
        requires holding { IsHolding self.state }
        ensures output { result.0.items ≡ output_of self.entry.state.core }
        ensures seat { (result.1.view ≡ self.entry.state.view) × (result.1.log ≡ self.entry.log) × IsQuiet result.1.view }
        ensures table { IsSeat (record { id = self.entry.state.table; sizes = self.entry.state.view.sizes }) result.1 }
    {
        let SeatedProgram {
            pieces,
            execution,
            ..
        } = self;
        (execution.into_output(), pieces.owner)
    }

    /// How the program has stopped, if it has. `Err` where memory is refused for the text of an error.
    pub(crate) fn stop(&self) -> Result<Option<Stop>, AllocError>
        ensures { MatchResult result (λ s. option_map stop_read s ≡ stop_of self.now.state.core) (λ _. has_text (stop_of self.now.state.core) ≡ true) }
    {
        self.execution.stop(self.alloc)
    }

    /// How the next instruction stops the program. `Err` where memory is refused for the text of an error.
    pub(crate) fn stop_ahead(&self) -> Result<Option<Stop>, AllocError>
        requires { next_touch self.now.state ≡ Ends }
        ensures { MatchResult result
            (λ s. option_map stop_read s ≡ stop_of (resumed (effect self.now.state.image self.now.state.core) self.now.state.core 0))
            (λ _. may_grow (next_touch self.now.state) (rest_of self.now.state.core) ≡ true) }
    {
        self.execution.stop_ahead(self.alloc)
    }

    #[inline(always)]
    pub(crate) fn want(&self) -> Option<Want>
        ensures { result ≡ self.now.state.want }
    {
        self.want
    }

    #[inline(always)]
    pub(crate) fn is_blocked(&self) -> bool
        ensures { result ≡ is_blocked_in self.now.state.core }
    {
        self.execution.is_blocked()
    }

    /// What the next instruction touches.
    #[inline(always)]
    pub(crate) fn touch(&self) -> Touch
        ensures value { result ≡ next_touch self.now.state }
        ensures within { IsWithin (most_scopes self.now.state.image.functions) self.now.state.core result }
    {
        self.execution.next()
    }

    /// What the next instruction is to do, where it is one that aims, uses or leaves a scope.
    #[inline(always)]
    pub(crate) fn plan(&self) -> Option<Plan>
        ensures { MatchOption result (uses_scope (next_touch self.now.state) ≡ false) (λ p. Plans p self.now.state.image self.now.state.core × IsNext (touch_planned p) self.now.state) }
    {
        self.execution.plan()
    }

    /// The end of the program's own objects.
    #[inline(always)]
    pub(crate) fn end(&self) -> u64
        ensures { result ≡ self.now.state.view.high }
    {
        self.pieces.owner.high() as u64
    }

    #[inline(always)]
    pub(crate) fn next(&self) -> u64
        ensures { result ≡ self.now.state.next }
    {
        self.next
    }

    /// What the scope holds.
    #[inline(always)]
    pub(crate) fn hold(&self, scope: usize) -> Option<Hold>
        requires { scope < length self.now.state.holds }
        ensures { result ≡ hold_at self.now.state.holds scope }
    {
        self.pieces.holds[scope]
    }

    #[inline(always)]
    fn close_hold(&mut self, scope: usize, hold: Hold)
        requires scope { scope < length self.old.state.holds }
        requires hold { Owns self.old.state.view hold.object × (0 < (note self.old.state.view hold.object).count) }
        ensures shut { self.new.state ≡ shut_at self.old.state scope (Some hold) }
        ensures logged { AddsOne self.old.log self.new.log hold.object (call.Closes hold.object) }
    {
        self.pieces.close(self.table, scope, hold);
    }

    /// Opens a hold of the object for the scope. False where the store failed.
    fn open_hold<R: Wait>(&mut self, rt: &R, scope: usize, object: usize) -> bool
        requires scope { scope < length self.old.state.holds }
        requires hold { Owns self.old.state.view object × ((note self.old.state.view object).count < 4) × (count_of object self.old.state.holds ≡ (note self.old.state.view object).count) }
        requires four { length self.old.state.holds ≡ 4 }
        requires quiet { IsQuiet self.old.state.view }
        ensures exact { MatchBool result (Holds scope object self.old.state self.new.state) (Misses S.reliable object self.old.state self.new.state) }
        ensures logged { MatchBool result (HoldsLogged scope object self.old self.new) (MissesLogged S.reliable object self.old self.new) }
    {
        let from = &mut self.next_frame;
        let moves = &mut self.moves;
        let holds = &self.pieces.holds;
        let owner = &mut self.pieces.owner;
        match take(
            rt,
            self.table,
            owner,
            object,
            &|| count_in(holds, object),
            from,
            moves,
        ) {
            Some(frame) => {
                self.opened = self.opened.wrapping_add(1);
                self.pieces.holds[scope] = Some(Hold {
                    object,
                    frame,
                    writes: false,
                });
                true
            }
            None => false,
        }
    }

    #[inline(always)]
    fn clear_hold(&mut self, scope: usize, hold: Hold)
        requires scope { scope < length self.old.state.holds }
        requires hold { Owns self.old.state.view hold.object × (0 < (note self.old.state.view hold.object).count) }
        ensures cleared { self.new.state ≡ cleared self.old.state scope hold }
        ensures logged { AddsOne self.old.log self.new.log hold.object (call.Clears hold.object) }
    {
        self.pieces.clear(self.table, scope, hold);
    }

    #[inline(always)]
    pub(crate) fn store_cell(&mut self, hold: Hold, index: usize, value: u64)
        requires low { (hold.frame < self.old.state.view.sizes.frames) × (index < self.old.state.view.sizes.cells) }
        requires hold { Owns self.old.state.view hold.object × ((note self.old.state.view hold.object).frame ≡ Some hold.frame) × ((note self.old.state.view hold.object).writing ≡ true) }
        ensures written { self.new.state ≡ written self.old.state hold index value }
        ensures logged { AddsOne self.old.log self.new.log (cell_word self.old.state.view.sizes hold.frame index) (call.Stores hold.object hold.frame index value) }
    {
        let Hold { object, frame, .. } = hold;
        let owner = &mut self.pieces.owner;
        self.table.store(owner, object, frame, index, value);
    }

    #[inline(always)]
    pub(crate) fn load_cell(&mut self, hold: Hold, index: usize) -> u64
        requires low { (hold.frame < self.old.state.view.sizes.frames) × (index < self.old.state.view.sizes.cells) }
        requires hold { Owns self.old.state.view hold.object × ((note self.old.state.view hold.object).frame ≡ Some hold.frame) }
        ensures same { self.new ≡ self.old }
        ensures value { S.honest → result ≡ latest_in self.old.state.view hold.object index }
    {
        let Hold { object, frame, .. } = hold;
        self.table
            .load(&mut self.pieces.owner, object, frame, index)
    }

    /// Does what is left of the next instruction, which uses a scope or tells a cell.
    #[inline(always)]
    pub(crate) fn finish(&mut self, loaded: u64)
        requires next { is_simple (next_touch self.old.state) ≡ true }
        requires room { self.old.state.completed + 1 < 2 ^ 64 }
        ensures { self.new ≡ with_state self.old (finished self.old.state loaded) }
    {
        self.execution.complete(loaded);
        self.completed += 1;
    }

    /// Does what is left of the next instruction, which is planned so.
    #[inline(always)]
    pub(crate) fn carry_out(&mut self, plan: Plan, loaded: u64)
        requires plan { Plans plan self.old.state.image self.old.state.core }
        requires room { self.old.state.completed + 1 < 2 ^ 64 }
        ensures { self.new ≡ with_state self.old (finished self.old.state loaded) }
    {
        self.execution.carry_out(plan, loaded);
        self.completed += 1;
    }

    /// Does the next instruction, which ends the program.
    pub(crate) fn finish_end(&mut self)
        requires next { next_touch self.old.state ≡ Ends }
        requires room { self.old.state.completed + 1 < 2 ^ 64 }
        ensures { self.new ≡ with_state self.old (finished self.old.state 0) }
    {
        let Ok(()) = self.execution.proceed(0) else {
            unreachable!()
        };
        self.completed += 1;
    }

    /// Does the next instruction, which touches nothing. `Err` where memory is refused: then nothing is changed.
    pub(crate) fn proceed(&mut self) -> Result<(), AllocError>
        requires next { next_touch self.old.state ≡ Plain }
        requires room { self.old.state.completed + 1 < 2 ^ 64 }
        ensures { MatchResult result (λ _. self.new ≡ with_state self.old (finished self.old.state 0)) (λ _. (self.new ≡ self.old) × (may_grow (next_touch self.old.state) (rest_of self.old.state.core) ≡ true)) }
    {
        self.execution.proceed(0)?;
        self.completed += 1;
        Ok(())
    }

    /// Does instructions one after the other, as long as they touch nothing, tell a cell of which a hint would tell nothing new, aim or use a scope that holds the
    /// piece which it wants, or leave one, and find no scope open that must be shut, at most `limit`, and tells how many.
    #[inline(always)]
    pub(crate) fn proceed_plainly(&mut self, limit: u64) -> u64
        requires holding { IsHolding self.old.state }
        requires room { self.old.state.completed + limit < 2 ^ 64 }
        ensures within { result ≤ limit }
        ensures ran { RanHeld S.honest result self.old self.new }
    {
        let table = self.table;
        let scale = self.scale;
        let firsts: &[u64] = &self.firsts;
        let look = |pieces: &Pieces<S>, scope: u8, cell: Cell| -> bool
            requires { IsKept table.now scale.shift pieces.now.holds.items pieces.now.owner }
            ensures { result ≡ true → UsesView S.honest (reverse firsts.entry.now) (Aims scope (Some cell)) 0 (kept_at pieces.now.holds.items pieces.now.owner) (kept_at pieces.now.holds.items pieces.now.owner) }
        { pieces.has(table, scale, firsts, scope, cell) };
        let load = |pieces: &mut Pieces<S>, scope: u8, cell: Cell| -> Option<u64>
            requires { IsKept table.now scale.shift pieces.old.holds.items pieces.old.owner }
            ensures { (pieces.new ≡ pieces.old) × MatchOption result Unit (λ v. UsesView S.honest [] (Loads scope cell) v (kept_at pieces.old.holds.items pieces.old.owner) (kept_at pieces.new.holds.items pieces.new.owner)) }
        { pieces.load(table, scale, scope, cell) };
        let store = |pieces: &mut Pieces<S>, scope: u8, cell: Cell, value: u64| -> bool
            requires { IsKept table.now scale.shift pieces.old.holds.items pieces.old.owner }
            ensures { IsKept table.entry.now scale.shift pieces.new.holds.items pieces.new.owner × KnowsMore pieces.old.owner pieces.new.owner
                × MatchBool result (UsesView S.honest [] (Stores scope cell value) 0 (kept_at pieces.old.holds.items pieces.old.owner) (kept_at pieces.new.holds.items pieces.new.owner)) (pieces.new ≡ pieces.old) }
        { pieces.store(table, scale, scope, cell, value) };
        let leave = |pieces: &mut Pieces<S>, scope: u8|
            requires { IsKept table.now scale.shift pieces.old.holds.items pieces.old.owner }
            ensures { IsKept table.entry.now scale.shift pieces.new.holds.items pieces.new.owner × KnowsMore pieces.old.owner pieces.new.owner
                × UsesView S.honest [] (Leaves scope) 0 (kept_at pieces.old.holds.items pieces.old.owner) (kept_at pieces.new.holds.items pieces.new.owner) }
        { pieces.leave(table, scale, scope) };
        let held = HeldPieces {
            look: &look,
            load: &load,
            store: &store,
            leave: &leave,
            seats: PhantomData,
        };
        let done = self
            .execution
            .run_plain(&self.hinted, &held, &mut self.pieces, limit);
        self.completed += done;
        done
    }

    /// Does the next instruction, which is an allocation of this many pieces. `Err` where memory is refused: then nothing is
    /// changed.
    #[inline(never)]
    pub(crate) fn extend(&mut self, cells: u64, many: u64) -> Result<(), AllocError>
        requires next { next_touch self.old.state ≡ Allocs cells }
        requires room { self.old.state.completed + 1 < 2 ^ 64 }
        requires many { many ≡ pieces_of self.old.state.view.sizes.cells cells }
        requires end { self.old.state.next + many < 2 ^ 64 }
        ensures { MatchResult result (λ _. self.new ≡ with_state self.old (extended self.old.state cells)) (λ _. self.new ≡ self.old) }
    {
        self.firsts.push(self.next)?;
        if let Err(error) = self.execution.allocate() {
            self.firsts.pop();
            return Err(error);
        }
        self.next += many;
        self.completed += 1;
        Ok(())
    }

    pub(crate) fn set_want(&mut self, want: Want)
        ensures { self.new ≡ wanting self.old want }
    {
        self.want = Some(want);
    }

    /// Closes what the scope holds.
    #[inline(always)]
    pub(crate) fn shut(&mut self, scope: usize)
        requires holding { IsHolding self.old.state }
        requires scope { scope < length self.old.state.holds }
        ensures holding { IsHolding self.new.state }
        ensures after { self.new.state ≡ shut self.old.state scope }
        ensures logged { ShutLogged (hold_at self.old.state.holds scope) self.old.log self.new.log }
        ensures changes { Changes scope self.old.state self.new.state }
    {
        if let Some(hold) = self.hold(scope) {
            self.close_hold(scope, hold);
        }
    }

    /// The first object of the allocation of this number.
    #[inline(always)]
    fn first(&self, reference: u64) -> u64
        requires { (0 < reference) × (reference ≤ length self.now.state.firsts) }
        ensures { result ≡ first_of self.now.state.firsts reference }
    {
        self.firsts[(reference - 1) as usize]
    }

    /// The object of a cell.
    #[inline(always)]
    fn object_at(&self, cell: Cell) -> usize
        requires holding { IsHolding self.now.state }
        requires cell { IsCell self.now.state.core cell }
        ensures value { result ≡ object_of self.now.state cell }
        ensures own { Owns self.now.state.view result }
    {
        heap_laws();
        let whole = self.scale().before(cell.index);
        (self.first(cell.reference) + whole) as usize
    }

    #[inline(always)]
    fn has(&self, scope: usize, object: usize) -> bool
        requires { scope < length self.now.state.holds }
        ensures { result ≡ has_object (hold_at self.now.state.holds scope) object }
    {
        is_of(&self.pieces.holds[scope], object)
    }

    /// Makes the scope, which held nothing, hold the object. False where the store failed.
    #[inline(never)]
    fn reopen<R: Wait>(&mut self, rt: &R, scope: usize, object: usize) -> bool
        requires holding { IsHolding self.old.state }
        requires scope { scope < length self.old.state.holds }
        requires free { hold_at self.old.state.holds scope ≡ None }
        requires own { Owns self.old.state.view object }
        ensures holding { IsHolding self.new.state }
        ensures told { MatchBool result (Changes scope self.old.state self.new.state × HoldsObject self.new.state scope object) (Fails S.reliable self.old.state self.new.state) }
        ensures exact { MatchBool result (Holds scope object self.old.state self.new.state) (Misses S.reliable object self.old.state self.new.state) }
        ensures logged { MatchBool result (HoldsLogged scope object self.old self.new) (MissesLogged S.reliable object self.old self.new) }
    {
        self.open_hold(rt, scope, object)
    }

    /// Makes the scope hold the piece of the cell. False where the store failed.
    #[inline(always)]
    fn seize<R: Wait>(&mut self, rt: &R, scope: usize, cell: Cell) -> bool
        requires holding { IsHolding self.old.state }
        requires scope { scope < length self.old.state.holds }
        requires cell { IsCell self.old.state.core cell }
        ensures holding { IsHolding self.new.state }
        ensures told { MatchBool result (Changes scope self.old.state self.new.state × HoldsObject self.new.state scope (object_of self.old.state cell)) (Fails S.reliable self.old.state self.new.state) }
        ensures exact { MatchBool result (Seizes scope (object_of self.old.state cell) self.old self.new) (Loses S.reliable scope (object_of self.old.state cell) self.old self.new) }
    {
        let object = self.object_at(cell);
        if self.has(scope, object) {
            true
        } else {
            self.shut(scope);
            self.reopen(rt, scope, object)
        }
    }

    /// Makes the scope hold the piece of the cell, or nothing. False where the store failed.
    #[inline(always)]
    pub(crate) fn hold_wanted<R: Wait>(
        &mut self,
        rt: &R,
        scope: usize,
        wanted: Option<Cell>,
    ) -> bool
        requires holding { IsHolding self.old.state }
        requires scope { scope < length self.old.state.holds }
        requires cell { IsCellOrNone self.old.state.core wanted }
        ensures holding { IsHolding self.new.state }
        ensures told { MatchBool result (Changes scope self.old.state self.new.state × Matches self.old.state wanted (hold_at self.new.state.holds scope)) (Fails S.reliable self.old.state self.new.state) }
        ensures exact { MatchBool result (HoldsWanted scope wanted self.old self.new) (LosesWanted S.reliable scope wanted self.old self.new) }
    {
        match wanted {
            None => {
                self.shut(scope);
                true
            }
            Some(cell) => self.seize(rt, scope, cell),
        }
    }

    /// Hints the object of the cell, where it is away, was not hinted lately, and somebody serves hints.
    #[inline(never)]
    pub(crate) fn hint_wanted<R: Wait>(&mut self, rt: &R, wanted: Option<Cell>)
        requires holding { IsHolding self.old.state }
        requires cell { IsCellOrNone self.old.state.core wanted }
        ensures { self.new ≡ self.old }
    {
        let Some(cell) = wanted else {
            return;
        };
        if self.hinted.has(cell.reference, cell.index) {
            return;
        }
        self.hinted.add(self.scale.piece_of(cell));
        let object = self.object_at(cell);
        let word = Word {
            bits: self.table.word(&mut self.pieces.owner, object),
        };
        let Some(sender) = &mut self.sender else {
            return;
        };
        if let WordState::Away = word.state() {
            let put = sender.hint(rt, object);
            self.hints = self.hints.wrapping_add(1);
            self.dropped = self.dropped.wrapping_add(u64::from(!put));
        }
    }

    /// Makes the scope's hold one for writing.
    #[inline(always)]
    pub(crate) fn make_writable(&mut self, scope: usize, hold: Hold)
        requires holding { IsHolding self.old.state }
        requires scope { scope < length self.old.state.holds }
        requires held { hold_at self.old.state.holds scope ≡ Some hold }
        ensures holding { IsHolding self.new.state }
        ensures changes { Changes scope self.old.state self.new.state }
        ensures writer { HasWriter self.new.state scope hold }
        ensures exact { self.new.state ≡ writing_by self.old.state scope hold }
        ensures logged { WritingLogged hold.writes hold.object self.old.log self.new.log }
    {
        if !hold.writes {
            self.clear_hold(scope, hold);
        }
    }

    /// What the scope holds, where it holds something.
    #[inline(always)]
    pub(crate) fn held(&self, scope: usize) -> Hold
        requires scope { scope < length self.now.state.holds }
        requires held { hold_at self.now.state.holds scope ≢ None }
        ensures { hold_at self.now.state.holds scope ≡ Some result }
    {
        match self.pieces.holds[scope] {
            Some(hold) => hold,
            None => unreachable!(),
        }
    }

    /// Closes what every scope holds.
    #[inline(never)]
    pub(crate) fn close_all(&mut self)
        requires holding { IsHolding self.old.state }
        ensures holding { IsHolding self.new.state }
        ensures closes { Closes self.old.state self.new.state }
        ensures exact { ShutsAll self.old self.new }
        ensures shut { AllShut self.new.state }
    {
        for scope in 0..self.scopes() {
            self.shut(scope);
        }
    }

    fn scopes(&self) -> usize
        ensures { result ≡ length self.now.state.holds }
    {
        self.pieces.holds.len()
    }
}

/// Whether a look at the frame finds it claimed for an object of the seat's own.
fn is_own<S: RawStore>(table: &ObjectTable<S>, owner: &mut OwnerSeat<S>, frame: usize) -> bool
    requires table { IsSeat table.now owner.old }
    requires low { frame < table.now.sizes.frames }
    ensures { owner.new ≡ owner.old }
{
    match table.look(owner, frame) {
        Some(object) => object >= owner.low() && object < owner.high(),
        None => false,
    }
}

/// How many frames a look at each of them finds claimed for objects of the seat's own.
fn own_frames<S: RawStore>(table: &ObjectTable<S>, owner: &mut OwnerSeat<S>) -> u64
    requires table { IsSeat table.now owner.old }
    ensures { owner.new ≡ owner.old }
{
    let mut found = 0u64;
    for frame in 0..table.frames() {
        if is_own(table, owner, frame) {
            found = found.wrapping_add(1);
        }
    }
    found
}

/// How many of these holds are of the object.
#[inline(always)]
fn count_in(holds: &[Option<Hold>], object: usize) -> u64
    requires { length holds.now < 2 ^ 32 }
    ensures { result ≡ count_of object holds.now }
{
    let mut count = 0;
    for hold in holds {
        if is_of(hold, object) {
            count += 1;
        }
    }
    count
}

/// Whether there is a hold, and it is of the object.
#[inline(always)]
fn is_of(hold: &Option<Hold>, object: usize) -> bool
    ensures { result ≡ has_object hold.now object }
{
    match hold {
        Some(hold) => hold.object == object,
        None => false,
    }
}
