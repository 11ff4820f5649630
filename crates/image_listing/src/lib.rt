//! `list`: a line for each instruction of an image.
#![tactic(auto)]

mod laws;
mod listing;

pub use laws::worked;
pub use listing::list;
