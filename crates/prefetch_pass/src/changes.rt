//! The assignments of registers in a loop.
ghost use Rattle.middle_form.specs.ScopedViews.{scoped_code_of};
ghost use Rattle.prefetch_pass.specs.Gathered.{changes_among};
ghost use Rattle.prefetch_pass.specs.Raised.{changes_of, changes_with, noted_where};
ghost use Rattle.code_form.specs.Code.{is_register};
ghost use Rattle.std.specs.Prelude.{◌≡◌, IfOk, OnOk, ℕ};

use code_form::{Operation, written_by};
use middle_form::ScopedCode;
use std::alloc::{AllocError, Global};

/// An assignment of a register: by a simple instruction, or by a load or a call.
#[derive(Clone, Copy)]
pub(crate) struct Assignment {
    pub to: u32,
    pub change: Option<Operation>,
}

/// One more assignment, where there is a register.
fn note_assignment(
    assignments: &mut Vec<Assignment>,
    to: Option<u32>,
    change: Option<Operation>,
) -> Result<(), AllocError>
    ensures { OnOk result ((r : ℕ) → changes_among r assignments.new.items ≡ noted_where (is_register r to) change (changes_among r assignments.old.items)) }
{
    let Some(to) = to else {
        return Ok(());
    };
    assignments.push(Assignment { to, change })?;
    Ok(())
}

/// The assignments in code are noted.
fn note_assignments(assignments: &mut Vec<Assignment>, code: &ScopedCode) -> Result<(), AllocError>
    ensures { OnOk result ((r : ℕ) → changes_among r assignments.new.items ≡ changes_with r (scoped_code_of code.now) (changes_among r assignments.old.items)) }
{
    match code {
        ScopedCode::Sequence(parts) => {
            for part in parts {
                note_assignments(assignments, part)?;
            }
            Ok(())
        }
        ScopedCode::Do(operation) => {
            note_assignment(assignments, written_by(operation), Some(*operation))
        }
        ScopedCode::Load { to, .. } | ScopedCode::LoadBy { to, .. } => {
            note_assignment(assignments, Some(*to), None)
        }
        ScopedCode::Call { to, .. } => note_assignment(assignments, *to, None),
        ScopedCode::Choose {
            then_code,
            else_code,
            ..
        } => {
            note_assignments(assignments, then_code)?;
            note_assignments(assignments, else_code)
        }
        ScopedCode::Loop { test, body, .. } => {
            note_assignments(assignments, test)?;
            note_assignments(assignments, body)
        }
        ScopedCode::Block(inner) => note_assignments(assignments, inner),
        _ => Ok(()),
    }
}

/// The assignments in a loop.
pub(crate) fn assignments_in(
    alloc: Global,
    test: &ScopedCode,
    body: &ScopedCode,
) -> Result<Vec<Assignment>, AllocError>
    ensures { IfOk result (λ v. (r : ℕ) → changes_among r v.items ≡ changes_of r (scoped_code_of test.now) (scoped_code_of body.now)) }
{
    let mut assignments = Vec::new(alloc);
    note_assignments(&mut assignments, test)?;
    note_assignments(&mut assignments, body)?;
    Ok(assignments)
}
