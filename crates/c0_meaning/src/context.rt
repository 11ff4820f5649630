//! What a plain run is over.
use c0_typed::Typed;
use std::alloc::Global;

/// The program, and whether contracts are checked.
#[derive(Clone, Copy)]
pub(crate) struct Context<'p> {
    pub(crate) alloc: Global,
    pub(crate) program: &'p Typed,
    pub(crate) checks: bool,
}
