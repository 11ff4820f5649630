//! A world of programs and movers in code, one event at a time, and `replay` of a schedule.
#![tactic(auto)]

mod ends;
mod make;
mod schedule;
mod world;

pub use schedule::{Refused, Report, replay};
pub use world::World;
pub use world_semantics::event::{Actor, Choice, Step};
