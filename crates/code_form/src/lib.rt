//! The image of a program, what its instructions mean, and what they touch.
#![tactic(auto)]

mod allocation;
mod calls;
mod form;
mod kinds;
mod laws;
mod slots;
mod touch;

pub use allocation::Allocation;
pub use calls::{call_fits, needs_shut, written_by};
pub use form::{
    Block, BlockCode, Fact, Function, Image, Instruction, Kind, Operation, Relation, UnaryOperator,
};
pub use kinds::{
    are_numbers, can_compare, has_array, has_array_of, has_kind, has_pointer, has_reference,
    has_size, have_same_kind, is_place, kind_at, kind_of_cell,
};
pub use laws::{computed, effect_laws, heap_laws, hinted, run_laws, stuck, worked_facts};
pub use slots::Slot;
pub use touch::{Cell, Touch};
