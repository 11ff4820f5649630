//! `prefetch`: hints behind loads and stores of elements at an index that its loop only raises, with which code means the same. Where an index is only
//! raised in a loop, by constants above 0, there stands behind each load and each store of an element at that index a hint for the cell one piece further
//! on, where its displacement is one of 32 bits. It is of no account where there is no such cell.
//!
//! Which index: one that is assigned in a loop is judged by the innermost loop round the access that assigns it. Each assignment there has to be
//! `i = i + c`, `i += c` or `i++`, whatever stands between them; one that sets it otherwise, or lowers it, makes it none.
#![tactic(auto)]

mod changes;
mod hints;
mod laws;
mod members;
mod offsets;
mod raised;
mod tables;

pub use hints::prefetch;
pub use laws::{
    computed, prefetched_has_the_same_scopes, prefetched_is_guarded, prefetched_is_scoped,
    prefetched_is_well_formed, prefetched_keeps_the_meaning, prefetched_keeps_the_places,
    prefetched_means_the_same,
};
