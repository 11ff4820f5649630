//! Which registers a loop only raises.
ghost use Rattle.middle_form.specs.ScopedViews.{scoped_code_of};
ghost use Rattle.prefetch_pass.specs.Gathered.{each_of, last_mark};
ghost use Rattle.prefetch_pass.specs.Raised.{changes_of, is_raise as is_raise_of};
ghost use Rattle.std.specs.HashMap.{get};
ghost use Rattle.std.specs.Prelude.{◌≡◌, IfOk, nat_eq, ℕ};

use crate::changes::assignments_in;
use crate::tables::{raises_among, steps_among, sums_among};
use middle_form::ScopedCode;
use std::alloc::{AllocError, Global};
use std::collections::HashMap;

/// The registers that a loop assigns, marked where each assignment raises them.
pub(crate) fn raises_in(
    alloc: Global,
    test: &ScopedCode,
    body: &ScopedCode,
) -> Result<HashMap<u32, bool>, AllocError>
    ensures { IfOk result (λ m. (r : ℕ) → get nat_eq m r ≡ each_of (is_raise_of (scoped_code_of test.now) (scoped_code_of body.now) r) (changes_of r (scoped_code_of test.now) (scoped_code_of body.now))) }
{
    let assignments = assignments_in(alloc, test, body)?;
    let steps = steps_among(alloc, &assignments)?;
    let sums = sums_among(alloc, &assignments, &steps)?;
    raises_among(alloc, &assignments, &steps, &sums)
}

/// Whether a register is only raised: the innermost of these loops that assigns it tells.
pub(crate) fn is_raised(loops: &[HashMap<u32, bool>], register: u32) -> bool
    ensures { result ≡ last_mark loops.now register }
{
    let mut raised = false;
    for marks in loops {
        if let Some(marked) = marks.get(&register) {
            raised = *marked;
        }
    }
    raised
}
