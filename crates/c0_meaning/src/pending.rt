//! A plain run under way, on stacks in memory: calls of the program nest as deep as memory allows.
ghost use Rattle.std.specs.Prelude.{◌≡◌, [], ◌∷◌};
ghost use Rattle.c0_meaning.specs.Pendings.{Extends, Gives, GivesLocal, GivesPlace, Takes, TakesPlace, TakesTask, pending_of};
ghost use Rattle.c0_values.specs.PlainStates.{Texts, opening, state_of};

use crate::room::{Room, Waiting};
use crate::task::Task;
use c0_typed::Site;
use c0_values::{Halt, PlainState, Spot, Value};
use std::alloc::Global;

/// The numbers that stopped a program.
#[derive(Clone, Copy, PartialEq, Eq, Debug)]
pub enum Numbers {
    /// An element at this index was wanted, of an array of this length.
    Index { index: i32, length: usize },
    /// An array of this length was wanted.
    Length(i32),
}

/// What is to be done, the next task last; the values and the places that tasks gave and none has taken, how many calls may still be under way, where in the
/// text the last task stands, if it may stop the program, by which numbers it did, how many values the locals of the calls are that wait, the room that is left
/// within the limit of memory, the number of the function for whose call there was none, and the state.
#[derive(Drop)]
pub(crate) struct PlainRun<'p> {
    tasks: Vec<Task<'p>>,
    values: Vec<Value>,
    places: Vec<Spot>,
    pub(crate) depth: u64,
    pub(crate) site: Option<Site>,
    pub(crate) numbers: Option<Numbers>,
    pub(crate) locals: u64,
    pub(crate) room: Room,
    pub(crate) refused: Option<usize>,
    pub(crate) state: PlainState,
}

impl<'p> PlainRun<'p> {
    /// A run of so many turns in this room, with nothing to do.
    pub(crate) fn begin(alloc: Global, turns: u64, room: Room) -> PlainRun<'p>
        ensures empty { ((pending_of result).tasks ≡ []) × ((pending_of result).values ≡ []) }
        ensures turns { result.depth ≡ turns }
        ensures state { (texts : Texts) → state_of texts result.state ≡ opening turns }
    {
        PlainRun {
            tasks: Vec::new(alloc),
            values: Vec::new(alloc),
            places: Vec::new(alloc),
            depth: turns,
            site: None,
            numbers: None,
            locals: 0,
            room,
            refused: None,
            state: PlainState::begin(alloc, turns),
        }
    }

    /// How much waits.
    pub(crate) fn waiting(&self) -> Waiting {
        Waiting {
            tasks: self.tasks.len(),
            values: self.values.len(),
            places: self.places.len(),
            locals: self.locals,
        }
    }

    /// A task that is next.
    pub(crate) fn then(&mut self, task: Task<'p>) -> Result<(), Halt>
        ensures { Extends result (task.entry ∷ []) self.old self.new }
    {
        match self.tasks.push(task) {
            Ok(()) => Ok(()),
            Err(_) => Err(Halt::Memory),
        }
    }

    /// A task that is next, and one behind it.
    pub(crate) fn then_two(&mut self, first: Task<'p>, second: Task<'p>) -> Result<(), Halt>
        ensures { Extends result (first.entry ∷ second.entry ∷ []) self.old self.new }
    {
        self.then(second)?;
        self.then(first)
    }

    /// Three tasks in their order.
    pub(crate) fn then_three(
        &mut self,
        first: Task<'p>,
        second: Task<'p>,
        third: Task<'p>,
    ) -> Result<(), Halt>
        ensures { Extends result (first.entry ∷ second.entry ∷ third.entry ∷ []) self.old self.new }
    {
        self.then_two(second, third)?;
        self.then(first)
    }

    /// The task that is next, if there is one.
    pub(crate) fn next_task(&mut self) -> Option<Task<'p>>
        ensures { TakesTask result self.old self.new }
    {
        self.tasks.pop()
    }

    /// Gives a value to the tasks behind.
    pub(crate) fn give(&mut self, value: Value) -> Result<(), Halt>
        ensures { Gives result value self.old self.new }
    {
        match self.values.push(value) {
            Ok(()) => Ok(()),
            Err(_) => Err(Halt::Memory),
        }
    }

    /// Takes the value that was given last; each task that takes one finds it.
    pub(crate) fn take(&mut self) -> Result<Value, Halt>
        ensures { Takes result self.old self.new }
    {
        match self.values.pop() {
            Some(value) => Ok(value),
            None => Err(Halt::Memory),
        }
    }

    /// Gives a place to the tasks behind.
    pub(crate) fn give_place(&mut self, place: Spot) -> Result<(), Halt>
        ensures { GivesPlace result place self.old self.new }
    {
        match self.places.push(place) {
            Ok(()) => Ok(()),
            Err(_) => Err(Halt::Memory),
        }
    }

    /// Takes the place that was given last.
    pub(crate) fn take_place(&mut self) -> Result<Spot, Halt>
        ensures { TakesPlace result self.old self.new }
    {
        match self.places.pop() {
            Some(place) => Ok(place),
            None => Err(Halt::Memory),
        }
    }

    /// Gives the value of a local.
    pub(crate) fn give_local(&mut self, x: usize) -> Result<(), Halt>
        ensures { GivesLocal x self.old result self.new }
    {
        let value = self.state.local(x);
        self.give(value)
    }

    /// The state, when nothing is pending any more.
    pub(crate) fn into_state(self) -> PlainState
        ensures { result ≡ self.entry.state }
    {
        self.state
    }
}
