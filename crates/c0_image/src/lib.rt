//! `compile`: from the bytes of a text to the verified image of its program.
#![tactic(auto)]

mod laws;
mod texts;

pub use laws::{facts_of_images_hold, one_image};
pub use texts::compile;
