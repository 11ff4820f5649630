//! What holds of the image of every accepted text besides what it does: it has bytes, and they are read as it again.
#![tactic(auto)]

mod laws;

pub use laws::{
    consistent_is_encodable, images_are_encodable, images_are_read_again, worked_image,
};
