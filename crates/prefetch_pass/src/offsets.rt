//! The offsets of elements at an index that is only raised.
ghost use Rattle.middle_form.specs.ScopedViews.{scoped_code_of};
ghost use Rattle.prefetch_pass.specs.Gathered.{AreRaised, has_checks as has_checks_of, is_check as is_check_of};
ghost use Rattle.prefetch_pass.specs.Raised.{offsets_with, with_offset};
ghost use Rattle.std.specs.Prelude.{◌≡◌, [], IfOk, List, OnOk, ℕ};

use crate::raised::{is_raised, raises_in};
use code_form::Operation;
use middle_form::ScopedCode;
use std::alloc::{AllocError, Global};
use std::collections::HashMap;

/// Whether an instruction checks an index.
fn is_check(operation: &Operation) -> bool
    ensures { result ≡ is_check_of operation.now }
{
    match operation {
        Operation::CheckIndex { .. } => true,
        _ => false,
    }
}

/// Whether code checks an index.
fn has_checks(code: &ScopedCode) -> bool
    ensures { result ≡ has_checks_of (scoped_code_of code.now) }
{
    match code {
        ScopedCode::Sequence(parts) => {
            for part in parts {
                if has_checks(part) {
                    return true;
                }
            }
            false
        }
        ScopedCode::Do(operation) => is_check(operation),
        ScopedCode::Choose {
            then_code,
            else_code,
            ..
        } => has_checks(then_code) || has_checks(else_code),
        ScopedCode::Loop { test, body, .. } => has_checks(test) || has_checks(body),
        ScopedCode::Block(inner) => has_checks(inner),
        _ => false,
    }
}

/// The register of an offset at an index that these loops raise, beside these offsets.
fn note_offset(
    offsets: &mut Vec<u32>,
    operation: Operation,
    loops: &[HashMap<u32, bool>],
) -> Result<(), AllocError>
    ensures { OnOk result ((rs : List ℕ) → AreRaised loops.now rs → offsets.new.items ≡ with_offset rs operation offsets.old.items) }
{
    if let Operation::CheckIndex { to, index, .. } = operation {
        if is_raised(loops, index) {
            offsets.push(to)?;
        }
    }
    Ok(())
}

/// Those of code in these loops.
fn note_offsets(
    alloc: Global,
    offsets: &mut Vec<u32>,
    code: &ScopedCode,
    loops: &mut Vec<HashMap<u32, bool>>,
) -> Result<(), AllocError>
    ensures loops { OnOk result (loops.new.items ≡ loops.old.items) }
    ensures offsets { OnOk result ((rs : List ℕ) → AreRaised loops.old.items rs → offsets.new.items ≡ offsets_with (scoped_code_of code.now) rs offsets.old.items) }
{
    match code {
        ScopedCode::Sequence(parts) => {
            for part in parts {
                note_offsets(alloc, offsets, part, loops)?;
            }
            Ok(())
        }
        ScopedCode::Do(operation) => note_offset(offsets, *operation, loops),
        ScopedCode::Choose {
            then_code,
            else_code,
            ..
        } => {
            note_offsets(alloc, offsets, then_code, loops)?;
            note_offsets(alloc, offsets, else_code, loops)
        }
        ScopedCode::Loop { test, body, .. } => {
            // What a loop raises is looked for only where an offset may hang on it.
            if !has_checks(code) {
                return Ok(());
            }
            loops.push(raises_in(alloc, test, body)?)?;
            note_offsets(alloc, offsets, test, loops)?;
            note_offsets(alloc, offsets, body, loops)?;
            let _ = loops.pop();
            Ok(())
        }
        ScopedCode::Block(inner) => note_offsets(alloc, offsets, inner, loops),
        _ => Ok(()),
    }
}

/// Those of the code of a function.
pub(crate) fn offsets_of(alloc: Global, code: &ScopedCode) -> Result<Vec<u32>, AllocError>
    ensures { IfOk result (λ v. v.items ≡ offsets_with (scoped_code_of code.now) [] []) }
{
    let mut offsets = Vec::new(alloc);
    let mut loops = Vec::new(alloc);
    note_offsets(alloc, &mut offsets, code, &mut loops)?;
    Ok(offsets)
}
