//! `generate`: the image of scoped code, which does what the code means.
#![tactic(auto)]

mod asked;
mod counts;
mod emit;
mod image;
mod known;
mod laws;

pub use image::generate;
pub use laws::{
    computed, generated_is_covered, generated_is_verified, generated_keeps_the_meaning,
};
