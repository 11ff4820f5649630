//! `hoist`: scopes of loops opened before them and left behind them, with which code means the same. A loop that makes no call, no return and no
//! allocation has its scopes opened before it and left behind it, and none is left in its body: a pointer that the loop does not assign, and of which it
//! reaches one cell alone, is aimed before the loop, and its check stays in the body; any other register, as that of an array, has a scope that is aimed
//! at each load and store, and keeps its piece until another is wanted.
//!
//! Which loops are served: the outermost of those that reach cells through at most four registers; each of these has a scope. Where a loop reaches
//! cells through more, the loops in it are served in its place, each for itself. Where it has none in it, the three registers that it uses most have a
//! scope each (those that it assigns come behind all others, and of two that are used as often the one that comes first in the text comes first), and
//! the fourth scope serves all others. A loop before which a scope may be open stays as it is.
#![tactic(auto)]

mod choosing;
mod hoisting;
mod laws;
mod moving;
mod walks;
mod ways;

pub use hoisting::hoist;
pub use laws::{
    hoisted_has_few_scopes, hoisted_is_guarded, hoisted_is_scoped, hoisted_is_well_formed,
    hoisted_keeps_the_meaning, hoisted_keeps_the_places, hoisted_means_the_same,
};
