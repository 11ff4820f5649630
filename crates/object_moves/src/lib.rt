//! How a mover moves an object out of a frame, how one is brought into a frame, and how an owner takes a hold of one that is brought in where it is away.
#![tactic(auto)]

mod arrival;
mod bring;
mod moved;
mod moves;
mod room;
mod search;

pub use arrival::{bring_into, fill, read};
pub use bring::take;
pub use moved::Moved;
pub use moves::Moves;
pub use room::{leave_clean, move_out};
pub use search::find_frame;
