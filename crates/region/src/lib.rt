//! Admission: whether there are frames enough for some programs with their evacuators and fetchers, and the region that those that are admitted share, with the search for a free frame.
#![tactic(auto)]

mod admission;
mod fault;
mod found;
mod region;

pub use admission::{fits, need, piece_of};
pub use fault::AdmitFault;
pub use found::Found;
pub use region::{Region, admit};
