//! The structured code of expressions, places and conditions.
#![tactic(auto)]

pub mod building;
pub mod condition_code;
mod constants;
pub mod context;
pub mod expression_code;
pub mod place_code;
