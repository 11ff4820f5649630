//! The table of the instructions: what each is called, its code, and what its operands are; and what can be wrong with the bytes of an image.
#![tactic(auto)]

mod fault;
mod laws;
mod name;
mod operand;
mod parts;

pub use fault::ImageFault;
pub use laws::{every_instruction, every_name};
pub use name::{Name, name_of_code};
pub use operand::{Operand, Operands};
pub use parts::{Argument, Parts, parts_of};
