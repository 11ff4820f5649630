//! `decode`: the image that bytes are, or what is wrong with them first.
#![tactic(auto)]

mod decoding;
mod failure;
mod fields;
mod instructions;
mod laws;
mod lists;

pub use decoding::decode;
pub use laws::round_trips;
