//! The tables that a program is lowered over: the kinds of single cells that it needs, the layouts of its structs and of single cells, and the numbers
//! of its texts.
#![tactic(auto)]

pub mod gathering;
mod index;
pub mod kinds;
pub mod singles;
pub mod struct_layouts;
pub mod texts;
