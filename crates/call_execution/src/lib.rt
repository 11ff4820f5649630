//! The call that runs: its scopes, what its next instruction is to do, and instructions that stay in it.
#![tactic(auto)]

mod aims;
mod call;
mod fitting;
mod fused;
mod held;
mod hinted;
mod holder;
mod inside;
mod pairs;
mod plan;
mod rest;
mod running;
mod scopes;
mod told;

pub use aims::{Aim, Scope, aim_by, put};
pub use call::{Call, Decision, decide_call, decide_return};
pub use fitting::image_fits;
pub use hinted::{Hinted, Stretch};
pub use holder::Holder;
pub use plan::Plan;
pub use rest::Rest;
pub use running::pass_all;
pub use scopes::Scopes;
