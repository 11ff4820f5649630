//! Which checks scoped code asks for before it, and at the entry of each of its blocks.
ghost use Rattle.codegen.specs.Building.{lists};
ghost use Rattle.middle_form.specs.Guarded.{asked_before as before, asked_inside, asks as asks_of, is_same_check as is_same, joined as joined_of, place_check as check_of, with_check as with_one, without_check as without_one};
ghost use Rattle.scoped_building.specs.Building.{is_straight};
ghost use Rattle.codegen.specs.Generated.{asked_of};
ghost use Rattle.middle_form.specs.Scoped.{plain};
ghost use Rattle.middle_form.specs.ScopedViews.{scoped_code_of, scoped_function_of};
ghost use Rattle.std.specs.Prelude.{◌≡◌, ◌++◌, ◌∷◌, [], IfOk, OnOk, true};

use code_form::{Fact, Operation};
use middle_form::{ScopedCode, ScopedFunction};
use std::alloc::{AllocError, Global};

/// Whether two facts tell of the same check.
fn is_same_check(check: Fact, other: Fact) -> bool
    ensures { result ≡ is_same check other }
{
    match (check, other) {
        (Fact::Nonnull(register), Fact::Nonnull(other_register)) => register == other_register,
        (Fact::Inside(offset, array), Fact::Inside(other_offset, other_array)) => {
            offset == other_offset && array == other_array
        }
        _ => false,
    }
}

/// All but this check.
fn without_check(check: Fact, mut checks: Vec<Fact>) -> Vec<Fact>
    ensures { result.items ≡ without_one check checks.items }
{
    checks.retain(|other| !is_same_check(check, *other));
    checks
}

/// This check too, once, before the others.
fn with_check(check: Fact, checks: Vec<Fact>) -> Result<Vec<Fact>, AllocError>
    ensures { IfOk result (λ v. v.items ≡ with_one check checks.items) }
{
    let mut all = without_check(check, checks);
    all.insert(0, check)?;
    Ok(all)
}

/// What either asks for.
fn joined(some: &[Fact], mut others: Vec<Fact>) -> Result<Vec<Fact>, AllocError>
    ensures { IfOk result (λ v. v.items ≡ joined_of some.now others.items) }
{
    for i in (0..some.len()).rev() {
        others = with_check(some[i], others)?;
    }
    Ok(others)
}

/// The check of a place.
fn place_check(register: u32, offset: Option<u32>) -> Fact
    ensures { result ≡ check_of register offset }
{
    match offset {
        None => Fact::Nonnull(register),
        Some(offset) => Fact::Inside(offset, register),
    }
}

/// What is asked before a simple instruction.
fn asked_before(operation: &Operation, behind: Vec<Fact>) -> Vec<Fact>
    ensures { result.items ≡ before operation.now behind.items }
{
    match operation {
        Operation::CheckNull { register } => without_check(Fact::Nonnull(*register), behind),
        Operation::CheckIndex { to, register, .. } => {
            without_check(Fact::Inside(*to, *register), behind)
        }
        _ => behind,
    }
}

/// What is asked before code that needs no more blocks.
fn asks_straight(
    alloc: Global,
    code: &ScopedCode,
    behind: Vec<Fact>,
) -> Result<Vec<Fact>, AllocError>
    ensures { IfOk result (λ v. is_straight (scoped_code_of code.now) ≡ true → v.items ≡ asks_of (plain (scoped_code_of code.now)) behind.items) }
{
    match code {
        ScopedCode::Do(operation) => Ok(asked_before(operation, behind)),
        ScopedCode::Load {
            register,
            offset,
            ..
        }
        | ScopedCode::Store {
            register,
            offset,
            ..
        }
        | ScopedCode::LoadBy {
            register,
            offset,
            ..
        }
        | ScopedCode::StoreBy {
            register,
            offset,
            ..
        } => with_check(place_check(*register, *offset), behind),
        ScopedCode::Aim { .. }
        | ScopedCode::Leave(_)
        | ScopedCode::Loose(_)
        | ScopedCode::Call { .. } => Ok(behind),
        ScopedCode::Fail { .. } | ScopedCode::Exit(_) => Ok(Vec::new(alloc)),
        _ => Ok(behind),
    }
}

/// What is asked at the entry of one more block.
#[tactic(auto, using(crate::proofs::Paired::lists_push))]
fn note(alloc: Global, asked: &mut Vec<Vec<Fact>>, checks: &[Fact]) -> Result<(), AllocError>
    ensures { OnOk result (lists asked.new.items ≡ lists asked.old.items ++ checks.now ∷ []) }
{
    asked.push(Vec::from_slice(alloc, checks)?)?;
    Ok(())
}

/// What is asked before code. What is asked at the entries of its other blocks is added.
fn asks(
    alloc: Global,
    asked: &mut Vec<Vec<Fact>>,
    code: &ScopedCode,
    mut behind: Vec<Fact>,
) -> Result<Vec<Fact>, AllocError>
    ensures checks { IfOk result (λ v. v.items ≡ asks_of (plain (scoped_code_of code.now)) behind.items) }
    ensures added { OnOk result (lists asked.new.items ≡ lists asked.old.items ++ asked_inside (plain (scoped_code_of code.now)) behind.items) }
{
    match code {
        ScopedCode::Sequence(parts) => {
            for i in (0..parts.len()).rev() {
                behind = asks(alloc, asked, &parts[i], behind)?;
            }
            Ok(behind)
        }
        ScopedCode::Choose {
            then_code,
            else_code,
            ..
        } => {
            note(alloc, asked, &behind)?;
            let copy = Vec::from_slice(alloc, &behind)?;
            let then_checks = asks(alloc, asked, then_code, copy)?;
            note(alloc, asked, &then_checks)?;
            let else_checks = asks(alloc, asked, else_code, behind)?;
            note(alloc, asked, &else_checks)?;
            joined(&then_checks, else_checks)
        }
        ScopedCode::Loop { test, body, .. } => {
            note(alloc, asked, &[])?;
            note(alloc, asked, &behind)?;
            let turn = asks(alloc, asked, body, Vec::new(alloc))?;
            note(alloc, asked, &turn)?;
            asks(alloc, asked, test, Vec::new(alloc))?;
            Ok(Vec::new(alloc))
        }
        ScopedCode::Block(inner) => {
            note(alloc, asked, &behind)?;
            asks(alloc, asked, inner, Vec::new(alloc))
        }
        _ => asks_straight(alloc, code, behind),
    }
}

/// What is asked at the entry of each block of a function: of the first one this is written last.
pub(crate) fn function_asks(
    alloc: Global,
    function: &ScopedFunction,
) -> Result<Vec<Vec<Fact>>, AllocError>
    ensures { IfOk result (λ v. lists v.items ≡ asked_of (scoped_function_of function.now)) }
{
    let mut asked = Vec::new(alloc);
    note(alloc, &mut asked, &[])?;
    let first = asks(alloc, &mut asked, &function.body, Vec::new(alloc))?;
    asked[0] = first;
    Ok(asked)
}
