//! What is looked for in the test and the body of a loop.
ghost use Rattle.guard_hoisting.specs.Ways.{has_loop as has_loop_of, is_quiet as is_quiet_of, most_left as most_left_of, uses_with};
ghost use Rattle.middle_form.specs.Discipline.{writes as writes_of};
ghost use Rattle.middle_form.specs.ScopedViews.{scoped_code_of};
ghost use Rattle.code_form.specs.Code.{is_register as is_register_of};
ghost use Rattle.guard_hoisting.specs.Building.{ArePlaces};
ghost use Rattle.std.specs.HashSet.{contains};
ghost use Rattle.std.specs.Prelude.{◌≡◌, ◌||◌, OnOk, nat_eq, ℕ};

use crate::ways::{Use, note};
use code_form::{Instruction, needs_shut, written_by};
use middle_form::ScopedCode;
use std::alloc::AllocError;
use std::collections::{HashMap, HashSet};

/// Whether code makes no call and no allocation, and its scopes are aimed at each load and store.
pub(crate) fn is_quiet(code: &ScopedCode) -> bool
    ensures { result ≡ is_quiet_of (scoped_code_of code.now) }
{
    match code {
        ScopedCode::Sequence(parts) => {
            for part in parts {
                if !is_quiet(part) {
                    return false;
                }
            }
            true
        }
        ScopedCode::Do(operation) => !needs_shut(&Instruction::Simple(*operation)),
        ScopedCode::Choose {
            then_code,
            else_code,
            ..
        } => is_quiet(then_code) && is_quiet(else_code),
        ScopedCode::Loop { test, body, .. } => is_quiet(test) && is_quiet(body),
        ScopedCode::Block(inner) => is_quiet(inner),
        ScopedCode::Load { .. }
        | ScopedCode::Store { .. }
        | ScopedCode::Leave(_)
        | ScopedCode::Fail { .. }
        | ScopedCode::Exit(_) => true,
        ScopedCode::LoadBy { .. }
        | ScopedCode::StoreBy { .. }
        | ScopedCode::Aim { .. }
        | ScopedCode::Loose(_)
        | ScopedCode::Call { .. } => false,
    }
}

/// How many of the loops and blocks round it code leaves, at most.
pub(crate) fn most_left(code: &ScopedCode) -> u64
    ensures { result ≡ most_left_of (scoped_code_of code.now) }
{
    match code {
        ScopedCode::Sequence(parts) => {
            let mut most = 0;
            for part in parts {
                most = most_left(part).max(most);
            }
            most
        }
        ScopedCode::Choose {
            then_code,
            else_code,
            ..
        } => most_left(then_code).max(most_left(else_code)),
        ScopedCode::Loop { test, body, .. } => {
            most_left(test).max(most_left(body)).saturating_sub(1)
        }
        ScopedCode::Block(inner) => most_left(inner).saturating_sub(1),
        ScopedCode::Exit(out) => u64::from(*out) + 1,
        ScopedCode::Do(_)
        | ScopedCode::Load { .. }
        | ScopedCode::Store { .. }
        | ScopedCode::LoadBy { .. }
        | ScopedCode::StoreBy { .. }
        | ScopedCode::Aim { .. }
        | ScopedCode::Leave(_)
        | ScopedCode::Loose(_)
        | ScopedCode::Call { .. }
        | ScopedCode::Fail { .. } => 0,
    }
}

/// Whether a loop is in code.
pub(crate) fn has_loop(code: &ScopedCode) -> bool
    ensures { result ≡ has_loop_of (scoped_code_of code.now) }
{
    match code {
        ScopedCode::Sequence(parts) => {
            for part in parts {
                if has_loop(part) {
                    return true;
                }
            }
            false
        }
        ScopedCode::Choose {
            then_code,
            else_code,
            ..
        } => has_loop(then_code) || has_loop(else_code),
        ScopedCode::Loop { .. } => true,
        ScopedCode::Block(inner) => has_loop(inner),
        ScopedCode::Do(_)
        | ScopedCode::Load { .. }
        | ScopedCode::Store { .. }
        | ScopedCode::LoadBy { .. }
        | ScopedCode::StoreBy { .. }
        | ScopedCode::Aim { .. }
        | ScopedCode::Leave(_)
        | ScopedCode::Loose(_)
        | ScopedCode::Call { .. }
        | ScopedCode::Fail { .. }
        | ScopedCode::Exit(_) => false,
    }
}

/// A register is written, if there is one.
fn note_write(written: &mut HashSet<u32>, to: Option<u32>) -> Result<(), AllocError>
    ensures { OnOk result ((r : ℕ) → contains nat_eq written.new r ≡ contains nat_eq written.old r || is_register_of r to) }
{
    let Some(to) = to else {
        return Ok(());
    };
    written.insert(to)?;
    Ok(())
}

/// The registers that code writes somewhere are noted.
pub(crate) fn note_writes(written: &mut HashSet<u32>, code: &ScopedCode) -> Result<(), AllocError>
    ensures { OnOk result ((r : ℕ) → contains nat_eq written.new r ≡ contains nat_eq written.old r || writes_of (scoped_code_of code.now) r) }
{
    match code {
        ScopedCode::Sequence(parts) => {
            for part in parts {
                note_writes(written, part)?;
            }
            Ok(())
        }
        ScopedCode::Do(operation) => note_write(written, written_by(operation)),
        ScopedCode::Load { to, .. } | ScopedCode::LoadBy { to, .. } => {
            note_write(written, Some(*to))
        }
        ScopedCode::Call { to, .. } => note_write(written, *to),
        ScopedCode::Choose {
            then_code,
            else_code,
            ..
        } => {
            note_writes(written, then_code)?;
            note_writes(written, else_code)
        }
        ScopedCode::Loop { test, body, .. } => {
            note_writes(written, test)?;
            note_writes(written, body)
        }
        ScopedCode::Block(inner) => note_writes(written, inner),
        ScopedCode::Store { .. }
        | ScopedCode::StoreBy { .. }
        | ScopedCode::Aim { .. }
        | ScopedCode::Leave(_)
        | ScopedCode::Loose(_)
        | ScopedCode::Fail { .. }
        | ScopedCode::Exit(_) => Ok(()),
    }
}

/// The registers through which code loads and stores are noted.
pub(crate) fn note_uses(
    uses: &mut Vec<Use>,
    places: &mut HashMap<u32, usize>,
    code: &ScopedCode,
) -> Result<(), AllocError>
    ensures { OnOk result (ArePlaces places.old uses.old.items → ArePlaces places.new uses.new.items × (uses.new.items ≡ uses_with (scoped_code_of code.now) uses.old.items)) }
{
    match code {
        ScopedCode::Sequence(parts) => {
            for part in parts {
                note_uses(uses, places, part)?;
            }
            Ok(())
        }
        ScopedCode::Load {
            register,
            offset,
            displacement,
            ..
        }
        | ScopedCode::Store {
            register,
            offset,
            displacement,
            ..
        } => note(uses, places, *register, *offset, *displacement),
        ScopedCode::Choose {
            then_code,
            else_code,
            ..
        } => {
            note_uses(uses, places, then_code)?;
            note_uses(uses, places, else_code)
        }
        ScopedCode::Loop { test, body, .. } => {
            note_uses(uses, places, test)?;
            note_uses(uses, places, body)
        }
        ScopedCode::Block(inner) => note_uses(uses, places, inner),
        _ => Ok(()),
    }
}
