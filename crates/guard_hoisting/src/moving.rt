//! A loop with its scopes, opened before it and left behind it.
ghost use Rattle.scoped_building.specs.Building.{codes, in_order, is_straight};
ghost use Rattle.guard_hoisting.specs.Hoisted.{closings, lifted, load_as, moved, opening as opening_of, openings, store_as};
ghost use Rattle.middle_form.specs.ScopedViews.{scoped_code_of};
ghost use Rattle.std.specs.Prelude.{◌≡◌, ◌≤◌, ◌++◌, ◌∷◌, [], IfOk, OnOk, length, true};

use crate::ways::{Way, scope_for, way_at};
use middle_form::ScopedCode;
use scoped_building::{choice, put, repetition};
use std::alloc::{AllocError, Global};

/// A load by a scope that serves in this way.
fn load(
    way: Way,
    to: u32,
    scope: u8,
    register: u32,
    offset: Option<u32>,
    displacement: u32,
) -> ScopedCode
    ensures { scoped_code_of result ≡ load_as way to scope register offset displacement }
{
    match way {
        Way::Fixed { .. } => ScopedCode::LoadBy {
            to,
            scope,
            register,
            offset,
            displacement,
        },
        Way::Own(_) | Way::Shared => ScopedCode::Load {
            to,
            scope,
            register,
            offset,
            displacement,
        },
    }
}

/// A store.
fn store(
    way: Way,
    scope: u8,
    register: u32,
    offset: Option<u32>,
    displacement: u32,
    from: u32,
) -> ScopedCode
    ensures { scoped_code_of result ≡ store_as way scope register offset displacement from }
{
    match way {
        Way::Fixed { .. } => ScopedCode::StoreBy {
            scope,
            register,
            offset,
            displacement,
            from,
        },
        Way::Own(_) | Way::Shared => ScopedCode::Store {
            scope,
            register,
            offset,
            displacement,
            from,
        },
    }
}

/// Code that has no other code in it.
fn move_straight(
    code: ScopedCode,
    parts: &mut Vec<ScopedCode>,
    ways: &[Way],
) -> Result<(), AllocError>
    requires { length ways.now ≤ 4 }
    ensures { OnOk result (is_straight (scoped_code_of code) ≡ true → codes parts.new.items ≡ codes parts.old.items ++ moved ways.now (scoped_code_of code)) }
{
    match code {
        ScopedCode::Load {
            to,
            register,
            offset,
            displacement,
            ..
        } => {
            let scope = scope_for(ways, register, offset, displacement);
            let way = way_at(ways, scope);
            put(parts, load(way, to, scope, register, offset, displacement))
        }
        ScopedCode::Store {
            register,
            offset,
            displacement,
            from,
            ..
        } => {
            let scope = scope_for(ways, register, offset, displacement);
            let way = way_at(ways, scope);
            put(
                parts,
                store(way, scope, register, offset, displacement, from),
            )
        }
        ScopedCode::Leave(_) => Ok(()),
        other => {
            put(parts, other)?;
            Ok(())
        }
    }
}

/// The parts that come in place of code in the loop are added.
#[cycle(moving)]
fn move_code(
    alloc: Global,
    code: ScopedCode,
    parts: &mut Vec<ScopedCode>,
    ways: &[Way],
) -> Result<(), AllocError>
    requires { length ways.now ≤ 4 }
    ensures { OnOk result (codes parts.new.items ≡ codes parts.old.items ++ moved ways.now (scoped_code_of code)) }
{
    match code {
        ScopedCode::Sequence(all) => {
            for part in all {
                move_code(alloc, part, parts, ways)?;
            }
            Ok(())
        }
        ScopedCode::Choose {
            condition,
            then_code,
            else_code,
        } => {
            let then_code = move_whole(alloc, then_code, ways)?;
            let else_code = move_whole(alloc, else_code, ways)?;
            put(parts, choice(condition, then_code, else_code))
        }
        ScopedCode::Loop {
            test,
            condition,
            body,
        } => {
            let test = move_whole(alloc, test, ways)?;
            let body = move_whole(alloc, body, ways)?;
            put(parts, repetition(test, condition, body))
        }
        ScopedCode::Block(inner) => {
            let inner = move_whole(alloc, inner, ways)?;
            put(parts, ScopedCode::Block(inner))
        }
        straight => move_straight(straight, parts, ways),
    }
}

/// What comes in place of code in the loop.
#[cycle(moving)]
fn move_whole(
    alloc: Global,
    code: Box<ScopedCode>,
    ways: &[Way],
) -> Result<Box<ScopedCode>, AllocError>
    requires { length ways.now ≤ 4 }
    ensures { IfOk result (λ c. scoped_code_of c.value ≡ in_order (moved ways.now (scoped_code_of code.value))) }
{
    let mut parts = Vec::new(alloc);
    move_code(alloc, Box::into_inner(code), &mut parts, ways)?;
    Ok(Box::new(alloc, ScopedCode::Sequence(parts))?)
}

/// Opens a scope that serves in this way.
fn opening(scope: u8, way: Way) -> ScopedCode
    ensures { scoped_code_of result ≡ opening_of scope way }
{
    match way {
        Way::Fixed {
            register,
            displacement,
        } => ScopedCode::Aim {
            scope,
            register,
            offset: None,
            displacement,
        },
        Way::Own(_) | Way::Shared => ScopedCode::Loose(scope),
    }
}

/// All scopes of a loop are opened.
fn open_all(parts: &mut Vec<ScopedCode>, ways: &[Way]) -> Result<(), AllocError>
    requires { length ways.now ≤ 4 }
    ensures { OnOk result (codes parts.new.items ≡ codes parts.old.items ++ openings 0 ways.now) }
{
    for scope in 0..ways.len() as u8 {
        parts.push(opening(scope, ways[usize::from(scope)]))?;
    }
    Ok(())
}

/// All are left.
fn leave_all(parts: &mut Vec<ScopedCode>, ways: &[Way]) -> Result<(), AllocError>
    requires { length ways.now ≤ 4 }
    ensures { OnOk result (codes parts.new.items ≡ codes parts.old.items ++ closings 0 ways.now) }
{
    for scope in 0..ways.len() as u8 {
        parts.push(ScopedCode::Leave(scope))?;
    }
    Ok(())
}

/// A loop with its scopes is added.
pub(crate) fn lift(
    alloc: Global,
    test: Box<ScopedCode>,
    condition: u32,
    body: Box<ScopedCode>,
    parts: &mut Vec<ScopedCode>,
    ways: &[Way],
) -> Result<(), AllocError>
    requires { length ways.now ≤ 4 }
    ensures { OnOk result (codes parts.new.items ≡ codes parts.old.items ++ lifted ways.now (scoped_code_of test.value) condition (scoped_code_of body.value)) }
{
    open_all(parts, ways)?;
    let test = move_whole(alloc, test, ways)?;
    let body = move_whole(alloc, body, ways)?;
    put(parts, repetition(test, condition, body))?;
    leave_all(parts, ways)
}
