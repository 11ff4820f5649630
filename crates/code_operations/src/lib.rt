//! What simple instructions do: a command for the registers, the allocations or the output; and whether the operands of an instruction fit.
#![tactic(auto)]

mod allocations;
mod fault;
mod fits;
mod layouts;
mod operations;
mod output;
mod registers;
mod results;
mod values;

pub use allocations::Allocations;
pub use fault::Fault;
pub use fits::{callee_fits, operation_fits};
pub use layouts::are_small;
pub use operations::{Command, Operands};
pub use output::Printed;
pub use registers::{AnyRegisters, KnownRegisters, Registers, offset_in};
pub use results::{Outcome, outcome_of};
pub use values::{number, text_of, value_in};
