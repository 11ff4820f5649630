//! What holds of the code and of the image of every well-typed program: they name nothing but what is there, each of the right kind.
#![tactic(auto)]

mod laws;

pub use laws::{
    images_are_accepted, images_are_consistent, images_are_verified, lowered_is_guarded,
    lowered_is_well_formed, passes_are_accepted, worked_images, worked_passes,
};
