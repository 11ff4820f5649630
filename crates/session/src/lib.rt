//! A session: an image run through the lock, at one seat of a table of objects, which hints what it will want soon.
#![tactic(auto)]

mod counts;
mod following;
mod held_pieces;
mod hint_sender;
mod hold;
mod kinds;
mod pieces;
mod program;
mod run;
mod scale;
mod session;

pub use counts::Counts;
pub use following::stores_are_its_codes;
pub use hold::Hold;
pub use session::Session;
