//! What a plain run goes over: values and the operators on them, the heap of trees of values, and the state, with the locals, what was printed and the turns that are left.
#![tactic(auto)]

mod heap;
mod operators;
mod plain_state;
mod value;

pub use heap::{Spot, Tree};
pub use operators::{binary_value, compare, unary_value};
pub use plain_state::{Halt, PlainState, asserted, at_field, error_called, pointed};
pub use value::{Value, blank_value, constant_value};
