//! The program in whose loops hints are set.
ghost use Rattle.cells.specs.Pieces.{cells_in};
ghost use Rattle.middle_form.specs.ScopedViews.{scoped_code_of, scoped_function_of, scoped_program_of};
ghost use Rattle.prefetch_pass.specs.Prefetched.{hinted, hinted_for, prefetched_function, prefetched_program, with_hint as with_hint_of};
ghost use Rattle.scoped_building.specs.Building.{is_straight};
ghost use Rattle.std.specs.Prelude.{◌≡◌, ◌<◌, ◌+◌, IfOk, map, true};

use crate::members::{Members, is_among, members_of};
use crate::offsets::offsets_of;
use cells::Piece;
use code_form::Operation;
use middle_form::{Scoped, ScopedCode, ScopedFunction};
use scoped_building::map_functions;
use std::alloc::{AllocError, Global};

/// A load or a store, and behind it a hint for the cell so many further on.
fn hinted_access(
    alloc: Global,
    access: ScopedCode,
    register: u32,
    offset: u32,
    displacement: u32,
    ahead: u32,
) -> Result<ScopedCode, AllocError>
    requires { displacement + ahead < 4294967296 }
    ensures { IfOk result (λ c. scoped_code_of c ≡ hinted_for ahead register offset displacement (scoped_code_of access)) }
{
    let mut parts = Vec::new(alloc);
    parts.push(access)?;
    parts.push(ScopedCode::Do(Operation::Prefetch {
        register,
        offset: Some(offset),
        displacement: displacement + ahead,
    }))?;
    Ok(ScopedCode::Sequence(parts))
}

/// A load or a store, with a hint where it is through one of these offsets.
fn with_hint(
    alloc: Global,
    access: ScopedCode,
    offsets: &Members,
    register: u32,
    offset: Option<u32>,
    displacement: u32,
    ahead: u32,
) -> Result<ScopedCode, AllocError>
    ensures { IfOk result (λ c. scoped_code_of c ≡ with_hint_of ahead offsets.now.registers.items register offset displacement (scoped_code_of access)) }
{
    let Some(offset) = offset else {
        return Ok(access);
    };
    if is_among(offsets, offset) && displacement <= u32::MAX - ahead {
        hinted_access(alloc, access, register, offset, displacement, ahead)
    } else {
        Ok(access)
    }
}

/// Code that has no other code in it.
fn hint_straight(
    alloc: Global,
    code: ScopedCode,
    offsets: &Members,
    ahead: u32,
) -> Result<ScopedCode, AllocError>
    ensures { IfOk result (λ c. is_straight (scoped_code_of code) ≡ true → scoped_code_of c ≡ hinted ahead offsets.now.registers.items (scoped_code_of code)) }
{
    match code {
        ScopedCode::Load {
            register,
            offset,
            displacement,
            ..
        }
        | ScopedCode::Store {
            register,
            offset,
            displacement,
            ..
        }
        | ScopedCode::LoadBy {
            register,
            offset,
            displacement,
            ..
        }
        | ScopedCode::StoreBy {
            register,
            offset,
            displacement,
            ..
        } => with_hint(alloc, code, offsets, register, offset, displacement, ahead),
        other => Ok(other),
    }
}

/// Code with its hints.
#[cycle(hinting)]
fn hint_code(
    alloc: Global,
    code: ScopedCode,
    offsets: &Members,
    ahead: u32,
) -> Result<ScopedCode, AllocError>
    ensures { IfOk result (λ c. scoped_code_of c ≡ hinted ahead offsets.now.registers.items (scoped_code_of code)) }
{
    match code {
        ScopedCode::Sequence(all) => {
            let mut parts = Vec::new(alloc);
            for part in all {
                parts.push(hint_code(alloc, part, offsets, ahead)?)?;
            }
            Ok(ScopedCode::Sequence(parts))
        }
        ScopedCode::Choose {
            condition,
            then_code,
            else_code,
        } => Ok(ScopedCode::Choose {
            condition,
            then_code: hint_whole(alloc, then_code, offsets, ahead)?,
            else_code: hint_whole(alloc, else_code, offsets, ahead)?,
        }),
        ScopedCode::Loop {
            test,
            condition,
            body,
        } => Ok(ScopedCode::Loop {
            test: hint_whole(alloc, test, offsets, ahead)?,
            condition,
            body: hint_whole(alloc, body, offsets, ahead)?,
        }),
        ScopedCode::Block(inner) => Ok(ScopedCode::Block(hint_whole(
            alloc, inner, offsets, ahead,
        )?)),
        straight => hint_straight(alloc, straight, offsets, ahead),
    }
}

/// Code in a choice, a loop or a block.
#[cycle(hinting)]
fn hint_whole(
    alloc: Global,
    code: Box<ScopedCode>,
    offsets: &Members,
    ahead: u32,
) -> Result<Box<ScopedCode>, AllocError>
    ensures { IfOk result (λ c. scoped_code_of c.value ≡ hinted ahead offsets.now.registers.items (scoped_code_of code.value)) }
{
    let code = hint_code(alloc, Box::into_inner(code), offsets, ahead)?;
    Ok(Box::new(alloc, code)?)
}

/// A function.
fn prefetch_function(
    alloc: Global,
    function: ScopedFunction,
    ahead: u32,
) -> Result<ScopedFunction, AllocError>
    ensures { IfOk result (λ g. scoped_function_of g ≡ prefetched_function ahead (scoped_function_of function)) }
{
    let ScopedFunction {
        result,
        parameters,
        kinds,
        scopes,
        body,
        value,
    } = function;
    let offsets = members_of(alloc, offsets_of(alloc, &body)?)?;
    let body = hint_code(alloc, body, &offsets, ahead)?;
    Ok(ScopedFunction {
        result,
        parameters,
        kinds,
        scopes,
        body,
        value,
    })
}

/// The program with a hint for the cell one piece further on behind each load and each store of an element at an index that is only raised in its loop; the
/// page of this crate says which those are. It means what it did, and keeps the discipline of scopes where it did. The only error is that of memory, and
/// nothing is kept behind it.
pub fn prefetch(alloc: Global, scoped: Scoped, piece: Piece) -> Result<Scoped, AllocError>
    ensures { IfOk result (λ s. scoped_program_of s ≡ prefetched_program (cells_in piece) (scoped_program_of scoped)) }
{
    let Scoped {
        texts,
        layouts,
        functions,
    } = scoped;
    let ahead = piece.cells() as u32;
    let functions = map_functions(
        alloc,
        functions,
        move |function|
            ensures { IfOk result (λ g. scoped_function_of g ≡ prefetched_function ahead (scoped_function_of function)) }
        { prefetch_function(alloc, function, ahead) },
    )?;
    Ok(Scoped {
        texts,
        layouts,
        functions,
    })
}
