//! What a plain run may take, within a limit of memory.
use c0_typed::{PlainType, Struct, ValueType};
use memory_limit::{MemoryLimit, MemoryUse};
use std::alloc::{AllocError, Global};

/// How many bytes a task takes that is still to be done.
const TASK_BYTES: u64 = 56;

/// How many bytes a value takes.
const VALUE_BYTES: u64 = 16;

/// How many bytes a place takes, with its way.
const PLACE_BYTES: u64 = 64;

/// How many bytes a part of what is allocated takes.
const PART_BYTES: u64 = 32;

/// How many tasks, values and places wait, and how many values the locals of the calls are that wait.
#[derive(Clone, Copy)]
pub(crate) struct Waiting {
    pub(crate) tasks: usize,
    pub(crate) values: usize,
    pub(crate) places: usize,
    pub(crate) locals: u64,
}

/// The limit of memory, how many parts the heap has room for still, and how many parts fresh memory of each struct has.
#[derive(Debug, Drop)]
pub(crate) struct Room {
    pub(crate) limit: MemoryLimit,
    parts: u64,
    sizes: Vec<u64>,
}

/// How many parts fresh memory of a type has, where that of the structs before it has so many. What passes 2^64 - 1 is as many.
fn size_in(sizes: &[u64], ty: &ValueType) -> u64 {
    match ty {
        ValueType::Plain(PlainType::Struct(number)) => sizes
            .get(*number as usize)
            .copied()
            .unwrap_or(1),
        _ => 1,
    }
}

/// The same of a struct.
fn size_of(sizes: &[u64], one: &Struct) -> u64 {
    let mut size = 1u64;
    for field in &one.fields {
        size = size.saturating_add(size_in(sizes, field));
    }
    size
}

impl Room {
    /// The room of a run of a program with these structs, of which nothing is taken. A struct holds only structs that stand before it. `Err` where memory is
    /// refused.
    pub(crate) fn new(
        alloc: Global,
        structs: &[Struct],
        limit: MemoryLimit,
    ) -> Result<Room, AllocError> {
        let mut sizes = Vec::with_capacity(alloc, structs.len())?;
        for one in structs {
            let size = size_of(&sizes, one);
            sizes.push(size)?;
        }
        Ok(Room {
            limit,
            parts: limit.bytes / PART_BYTES,
            sizes,
        })
    }

    /// Whether there is room for a call where so much waits.
    pub(crate) fn allows_call(&mut self, waiting: Waiting) -> bool {
        let tasks = (waiting.tasks as u64).wrapping_mul(TASK_BYTES);
        let values = (waiting.values as u64)
            .wrapping_add(waiting.locals)
            .wrapping_mul(VALUE_BYTES);
        let places = (waiting.places as u64).wrapping_mul(PLACE_BYTES);
        let taken = tasks.wrapping_add(values).wrapping_add(places);
        self.limit.allows(MemoryUse::Calls, taken)
    }

    /// Whether there is room for more output than so many bytes.
    pub(crate) fn allows_output(&mut self, printed: usize) -> bool {
        self.limit.allows(MemoryUse::Output, printed as u64)
    }

    /// Whether there is room for so many copies of fresh memory of a type, which is taken then.
    pub(crate) fn takes(&mut self, ty: &ValueType, count: usize) -> bool {
        let wanted = size_in(&self.sizes, ty)
            .saturating_mul(count as u64)
            .saturating_add(1);
        if wanted > self.parts {
            self.limit.passed = Some(MemoryUse::Heap);
            return false;
        }
        self.parts -= wanted;
        true
    }
}
