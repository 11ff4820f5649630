//! The evacuator: a mover that moves objects out of the frames of a region, so that there are free ones.
#![tactic(auto)]

mod counts;
mod rounds;

pub use counts::Round;
pub use rounds::{round, round_from};
