//! Structured code between typed trees and images, without scopes and with them: its bounded meanings, and the discipline of scopes.
#![tactic(auto)]

mod form;
mod laws;
mod scoped;

pub use form::{Code, Function, Middle};
pub use laws::{computed, formed, scoped_computed};
pub use scoped::{Scoped, ScopedCode, ScopedFunction};
