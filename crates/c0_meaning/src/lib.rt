//! `mean`: the plain run of typed programs, which is their bounded meaning, on stacks of its own and over a heap of values that never moves.
#![tactic(auto)]

mod calls;
mod context;
mod effects;
mod expressions;
mod operations;
mod pending;
mod perform;
mod places;
mod room;
mod run;
mod statements;
mod task;

pub use pending::Numbers;
pub use run::{Meant, NoRoom, Placed, mean, mean_placed};
