//! A program: where its code is, what its scopes hold, and where it is within its next instruction.
ghost use Rattle.cells.specs.Stops.{stop_of as stop_read};
ghost use Rattle.cells.specs.declared.ending.Want.{Want as WantOf};
ghost use Rattle.code_form.specs.Code.{allocations_of, begins, is_blocked as is_blocked_in, most_scopes, output_of, sizes, stop_of};
ghost use Rattle.code_form.specs.Form.{image_of};
ghost use Rattle.code_form.specs.Growth.{may_grow, rest_of};
ghost use Rattle.code_form.specs.Placed.{next_object, object_at, pieces as pieces_of};
ghost use Rattle.code_form.specs.Touches.{IsCell, IsWithin};
ghost use Rattle.code_form.specs.declared.touch.Touch.TheVariants.{Allocs, Plain};
ghost use Rattle.pointer_word.specs.Machine.{Far, State};
ghost use Rattle.std.specs.Prelude.{◌≡◌, ◌≢◌, ◌+◌, ◌-◌, ◌/◌, ◌<◌, ◌≤◌, ◌^◌, ℕ, IfOk, List, MatchOption, MatchResult, None, Some, length, option_map, slice_index, slice_set, true};
ghost use Rattle.world_actors.specs.Acting.{Done, Failed, Leads, Moves, On, Shows, UnreadSo, outcome_of};
ghost use Rattle.world_memory.specs.Answered.{AnswersSo, Gets, reading};
ghost use Rattle.world_actors.specs.Asking.{asked_out};
ghost use Rattle.world_semantics.specs.Programs.{Wanted, first_hold, hold_at};
ghost use Rattle.world_actors.specs.Seats.{IsSteady, Waits, begin, eviction_of, finished, mode_of, next_touch};
ghost use Rattle.world_memory.specs.Shown.{AreFar};
ghost use Rattle.world_semantics.specs.InHand.{WasPut};
ghost use Rattle.world_semantics.specs.Turns.{evicts};
ghost use Rattle.world_semantics.specs.Worlds.{IsHonestRead, Sizes};

use crate::evict::{Evicted, evict};
use cells::{Stop, Want};
use code_execution::Execution;
use code_form::{Cell, Image, Touch, effect_laws, heap_laws};
use remote_store::{Port, RawStore};
use std::alloc::{AllocError, Global};
use std::marker::Model;
use world_memory::Lock;
use world_semantics::hold::Hold;

/// How far a mover is that moves an object out of a frame.
#[derive(Clone, Copy, PartialEq, Eq, Debug)]
pub enum Eviction {
    /// It copies the cells, from the one at `at` on.
    Copying {
        object: usize,
        frame: usize,
        at: usize,
    },
    /// The store has the words.
    Stored {
        object: usize,
        frame: usize,
    },
    /// The store failed.
    NotStored {
        object: usize,
        frame: usize,
    },
    /// The object was held or written meanwhile.
    Refused {
        object: usize,
        frame: usize,
    },
    /// The object is away, and the frame is not released yet.
    Freed(usize),
}

/// Where a program is within its next instruction.
#[derive(Clone, Copy, PartialEq, Eq, Debug)]
pub enum Mode {
    /// It has nothing in hand, and waits for no object.
    Ready,
    /// Its aim has opened a hold of this object, which it found in no frame.
    Missing(usize),
    /// It brings the object in, and seeks a frame.
    Bringing(usize),
    /// It has claimed the frame, and is to read the store.
    Reading {
        object: usize,
        frame: usize,
    },
    /// It fills the frame with what it has read, from the cell at `at` on.
    Filling {
        object: usize,
        frame: usize,
        at: usize,
    },
    /// It fills the frame with zeros, from the cell at `at` on.
    Clearing {
        object: usize,
        frame: usize,
        at: usize,
    },
    /// It moves another object out, for the sake of the frame.
    Evicting {
        object: usize,
        eviction: Eviction,
    },
    /// Its store failed, and it gives up the frame that it claimed.
    Releasing {
        object: usize,
        frame: usize,
    },
    /// Its store failed, and it gives up the object that it brings in.
    Retreating(usize),
    /// Its store failed, and it closes its holds.
    Closing,
    /// It wants something, and goes on no more.
    Wanted(Want),
}

impl Mode {
    /// What the program wants, if it wants something.
    pub fn want(self) -> Option<Want>
        ensures { MatchOption result ((words : List ℕ) (want : WantOf) → mode_of self words ≢ Wanted want) (λ want. self ≡ Mode.Wanted want) }
    {
        match self {
            Mode::Wanted(want) => Some(want),
            Mode::Ready | Mode::Closing => None,
            Mode::Missing(_) | Mode::Bringing(_) | Mode::Retreating(_) => None,
            Mode::Reading { .. } | Mode::Releasing { .. } | Mode::Evicting { .. } => None,
            Mode::Filling { .. } | Mode::Clearing { .. } => None,
        }
    }
}

/// A program with its share of the objects, from `base` on and below `limit`, and its number as a mover. `firsts` are the first objects of
/// its allocations, and `words` what it copies or fills a frame with, `size` of them, as many as a piece has cells.
#[derive(Drop)]
pub struct ProgramActor<'a> {
    execution: Execution<'a>,
    base: u64,
    limit: u64,
    mover: u16,
    firsts: Vec<u64>,
    next: u64,
    holds: Vec<Option<Hold>>,
    mode: Mode,
    size: usize,
    words: Vec<u64>,
    completed: u64,
}

impl<'a> Model for ProgramActor<'a> {
    ghost use Rattle.std.specs.Prelude.{reverse};
    ghost use Rattle.world_actors.specs.Seats.{IsSeat, Seat};

    ghost Value = { Seat };

    ghost view = { λ p. record { setting = record { size = p.size; base = p.base; limit = p.limit; mover = p.mover; image = p.execution.image }; core = p.execution.core; holds = p.holds.items; mode = p.mode; words = p.words.items; completed = p.completed } };

    ghost invariant = { λ p. IsSeat p.size p.base p.limit p.execution (reverse p.firsts.items) p.next p.mode p.words.items };
}

impl<'a> ProgramActor<'a> {
    /// The image's program at its beginning.
    pub fn new(
        alloc: Global,
        image: &'a Image,
        base: u64,
        limit: u64,
        mover: u16,
    ) -> Result<ProgramActor<'a>, AllocError>
        requires { (base ≤ limit) × (limit ≤ 16777216) }
        ensures { IfOk result (λ p. p ≡ begin (image_of image.now) base limit mover) }
    {
        let size = image.piece.cells();
        Ok(ProgramActor {
            execution: Execution::new(alloc, image)?,
            base,
            limit,
            mover,
            firsts: Vec::new(alloc),
            next: base,
            holds: Vec::from_elem(alloc, None, 4)?,
            mode: Mode::Ready,
            size,
            words: Vec::from_elem(alloc, 0, size)?,
            completed: 0,
        })
    }

    /// Its number as a mover.
    pub(crate) fn mover(&self) -> u16
        ensures { result ≡ self.now.setting.mover }
    {
        self.mover
    }

    /// Where it is within its next instruction.
    pub fn mode(&self) -> Mode
        ensures value { result ≡ self.now.mode }
        ensures waits { Waits result (next_touch self.now) }
    {
        self.mode
    }

    pub(crate) fn set_mode(&mut self, mode: Mode)
        requires { Waits mode (next_touch self.old) }
        ensures { self.new ≡ record self.old { mode = mode } }
    {
        self.mode = mode;
    }

    /// Memory was refused to it, and it goes on no more.
    pub(crate) fn want_memory(&mut self)
        ensures { self.new ≡ record self.old { mode = Mode.Wanted Want.OutOfMemory } }
    {
        self.set_mode(Mode::Wanted(Want::OutOfMemory));
    }

    /// How many cells a piece has.
    pub(crate) fn size(&self) -> usize
        ensures value { result ≡ self.now.setting.size }
        ensures some { 16 ≤ result }
    {
        self.size
    }

    /// The word with which it fills the cell of this index.
    pub(crate) fn word(&self, index: usize) -> u64
        requires { index < self.now.setting.size }
        ensures { result ≡ slice_index self.now.words index }
    {
        self.words[index]
    }

    /// Gets the object's words from its berth. False where the store failed or what it read has another header.
    pub(crate) fn get<S: RawStore>(
        &mut self,
        lock: &Lock<S>,
        port: &mut Port<S>,
        object: usize,
    ) -> bool
        ensures after { self.new ≡ record self.old { words = self.new.words } }
        ensures got { result ≡ true → (n : ℕ) (far : ℕ → Far) → self.old.setting.size ≡ n → AreFar S.content n lock.now.berths.items far → S.honest → IsHonestRead n (far object) (Some self.new.words) }
        ensures answered { (n : ℕ) (far : ℕ → Far) → lock.now.berths.cells ≡ n → self.old.setting.size ≡ n → AreFar S.content n lock.now.berths.items far → WasPut (far object)
            → AnswersSo S.reliable S.failures S.read_gives n lock.now.berths.items port.old port.new far (Gets object) (reading result self.new.words) }
    {
        lock.berths.get(port, object, &mut self.words)
    }

    /// An event of moving an object out.
    pub(crate) fn evict<S: RawStore>(
        &mut self,
        lock: &mut Lock<S>,
        port: &mut Port<S>,
        eviction: Eviction,
    ) -> Evicted
        ensures after { self.new ≡ record self.old { words = self.new.words } }
        ensures leads { (z : Sizes) (s : State) → self.old.setting.size ≡ z.cells → let e = eviction_of eviction self.old.words in
            Moves S.content S.honest z lock.old.memory lock.old.berths self.old.setting.mover e s → Leads z.cells s (λ a. evicts z.cells self.old.setting.mover a e On Done Failed)
            (UnreadSo (AnswersSo S.reliable S.failures S.read_gives z.cells lock.old.berths.items port.old port.new s.far (asked_out z.cells e)))
            (λ u r. Shows S.content z lock.new.memory lock.new.berths u × (r ≡ outcome_of result self.new.words)) }
    {
        evict(lock, port, self.mover, eviction, &mut self.words)
    }

    /// The lowest scope that holds something, and what it holds.
    pub(crate) fn first_hold(&self) -> Option<(usize, Hold)>
        ensures { result ≡ first_hold self.now.holds }
    {
        first_of_holds(&self.holds)
    }

    /// How many scopes it may hold objects by.
    pub(crate) fn scopes(&self) -> usize
        ensures { result ≡ length self.now.holds }
    {
        self.holds.len()
    }

    /// What the scope holds.
    pub(crate) fn hold(&self, scope: usize) -> Option<Hold>
        ensures { result ≡ hold_at self.now.holds scope }
    {
        if scope < self.holds.len() {
            self.holds[scope]
        } else {
            None
        }
    }

    pub(crate) fn set_hold(&mut self, scope: usize, hold: Option<Hold>)
        ensures { self.new ≡ record self.old { holds = slice_set self.old.holds scope hold } }
    {
        if scope < self.holds.len() {
            self.holds[scope] = hold;
        }
    }

    /// Whether the next instruction needs all scopes shut and one is open.
    pub(crate) fn is_blocked(&self) -> bool
        ensures { result ≡ is_blocked_in self.now.core }
    {
        self.execution.is_blocked()
    }

    /// What the next instruction touches.
    pub(crate) fn touch(&self) -> Touch
        ensures value { result ≡ next_touch self.now }
        ensures within { IsWithin (most_scopes self.now.setting.image.functions) self.now.core result }
    {
        self.execution.next()
    }

    /// What was printed.
    pub fn output(&self) -> &[u8]
        ensures { result.now ≡ output_of self.now.core }
    {
        self.execution.output()
    }

    /// How it has stopped, if it has. `Err` where memory is refused for the text of an error.
    pub fn stop(&self, alloc: Global) -> Result<Option<Stop>, AllocError>
        ensures { IfOk result (λ s. option_map stop_read s ≡ stop_of self.now.core) }
    {
        self.execution.stop(alloc)
    }

    /// How many instructions were completed, modulo 2^64.
    pub fn completed(&self) -> u64
        ensures { result ≡ self.now.completed }
    {
        self.completed
    }

    /// The object behind those of its allocations.
    pub(crate) fn next(&self) -> u64
        ensures value { result ≡ next_object self.now.setting.size self.now.setting.base (sizes (allocations_of self.now.core)) }
        ensures room { result ≤ self.now.setting.limit }
        ensures small { result ≤ 16777216 }
    {
        self.next
    }

    /// The end of its share.
    pub(crate) fn limit(&self) -> u64
        ensures value { result ≡ self.now.setting.limit }
        ensures small { result ≤ 16777216 }
    {
        self.limit
    }

    /// The object of a cell.
    pub(crate) fn object_of(&self, cell: Cell) -> usize
        requires { IsCell self.now.core cell }
        ensures value { result ≡ object_at self.now.setting.size self.now.setting.base (sizes (allocations_of self.now.core)) cell.reference cell.index }
        ensures own { result < self.now.setting.limit }
    {
        heap_laws();
        let first = self.firsts[(cell.reference - 1) as usize];
        (first + cell.index / self.size as u64) as usize
    }

    /// Completes the next instruction, which uses a scope, tells a cell or ends the program; `loaded` is what it loads, if it loads something.
    pub(crate) fn finish(&mut self, loaded: u64)
        requires { IsSteady (next_touch self.old) }
        ensures { self.new ≡ finished self.old loaded }
    {
        effect_laws();
        let Ok(()) = self.execution.proceed(loaded) else {
            unreachable!()
        };
        self.mode = Mode::Ready;
        self.completed = self.completed.wrapping_add(1);
    }

    /// Completes the next instruction, which touches nothing. `Err` where memory is refused: then nothing is changed.
    pub(crate) fn proceed(&mut self) -> Result<(), AllocError>
        requires { next_touch self.old ≡ Plain }
        ensures { MatchResult result (λ _. self.new ≡ finished self.old 0) (λ _. (self.new ≡ self.old) × (may_grow Plain (rest_of self.old.core) ≡ true)) }
    {
        effect_laws();
        self.execution.proceed(0)?;
        self.mode = Mode::Ready;
        self.completed = self.completed.wrapping_add(1);
        Ok(())
    }

    /// Completes the next instruction, which is an allocation of this many cells. `Err` where memory is refused: then nothing is
    /// changed.
    pub(crate) fn extend(&mut self, cells: u64) -> Result<(), AllocError>
        requires next { next_touch self.old ≡ Allocs cells }
        requires room { next_object self.old.setting.size self.old.setting.base (sizes (allocations_of self.old.core)) + pieces_of self.old.setting.size cells ≤ self.old.setting.limit }
        ensures { MatchResult result (λ _. self.new ≡ finished self.old 0) (λ _. self.new ≡ self.old) }
    {
        effect_laws();
        self.firsts.push(self.next)?;
        if let Err(error) = self.execution.allocate() {
            self.firsts.pop();
            return Err(error);
        }
        self.next += pieces(cells, self.size);
        self.mode = Mode::Ready;
        self.completed = self.completed.wrapping_add(1);
        Ok(())
    }
}

/// How many pieces of so many cells this many cells are.
pub(crate) fn pieces(cells: u64, size: usize) -> u64
    requires { 16 ≤ size }
    ensures value { result ≡ pieces_of size cells }
    ensures few { result ≤ cells / 16 + 1 }
{
    let size = size as u64;
    cells / size + if cells % size == 0 { 0 } else { 1 }
}

/// The lowest of these that is there, by its number.
fn first_of_holds(holds: &[Option<Hold>]) -> Option<(usize, Hold)>
    ensures { result ≡ first_hold holds.now }
{
    for scope in 0..holds.len() {
        if let Some(hold) = holds[scope] {
            return Some((scope, hold));
        }
    }
    None
}
