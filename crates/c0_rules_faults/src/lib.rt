//! As laws: a program is refused exactly where a fault has its cause; what the third part of a `for` sees; where `break` and `continue` stand.
#![tactic(auto)]

mod laws;

pub use laws::{
    causes_refuse, exits_stand_in_loops, refusals_are_caused, third_part_sees, worked_are_caused,
};
