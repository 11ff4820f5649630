//! Worlds of images.

use crate::setting::{Setting, size_of};
use code_form::Image;
use remote_store::{FarHeap, FaultStore};
use std::alloc::Global;
use world::World;

/// A world of these images, of a setting's numbers. None where there are none or too many, they have pieces of several sizes, a number is out of its range, or
/// memory ran out.
pub(crate) fn open<'a>(
    alloc: Global,
    images: &'a [Image],
    setting: &Setting<'_>,
) -> Option<World<'a, FaultStore<FarHeap>>> {
    if images.is_empty() || images.len() > 256 {
        return None;
    }
    let piece = size_of(images)?;
    let config = setting.config(alloc, piece)?;
    World::new(alloc, images, &config).ok()
}
