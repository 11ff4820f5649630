//! `replay_admitted`: what programs that are admitted come to by a schedule.
#![tactic(auto)]

mod laws;
mod replay;

pub use laws::never_fails;
pub use replay::replay_admitted;
