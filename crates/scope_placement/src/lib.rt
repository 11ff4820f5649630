//! `place`: scopes for the loads and stores of structured code, with which it means the same.
#![tactic(auto)]

mod laws;
mod placing;
mod runs;

pub use laws::{
    computed, placed_is_guarded, placed_is_scoped, placed_is_well_formed, placed_keeps_the_meaning,
    placed_means_the_same,
};
pub use placing::place;
