//! `encode`: the bytes of an image; `is_encodable`: whether it has any; and which bytes are those of which image.
#![tactic(auto)]

mod encodable;
mod encoding;
mod laws;
mod put;

pub use encodable::is_encodable;
pub use encoding::encode;
pub use laws::{worked, worked_images};
