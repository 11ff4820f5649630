//! That scoped code which keeps the discipline of scopes means what it means without them.
#![tactic(auto)]

mod laws;

pub use laws::scoped_means_the_same;
