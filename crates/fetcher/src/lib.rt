//! Fetchers: movers that bring in objects that will be wanted soon, as hints name them.
#![tactic(auto)]

mod serve;
mod served;

pub use hint_queue::{HintPass, Hints};
pub use serve::serve_one;
pub use served::Served;
