//! The program out of whose loops guards are taken.
ghost use Rattle.code_form.specs.declared.form.Kind.{Kind as KindForm};
ghost use Rattle.scoped_building.specs.Building.{codes, in_order, is_straight};
ghost use Rattle.guard_hoisting.specs.Building.{listed};
ghost use Rattle.guard_hoisting.specs.Hoisted.{hoisted, hoisted_function, hoisted_program, inside, most_served, open_behind, served_inside, ways_behind as ways_behind_of};
ghost use Rattle.middle_form.specs.Scoped.{Loop as ScopedLoop};
ghost use Rattle.middle_form.specs.ScopedViews.{scoped_code_of, scoped_function_of, scoped_program_of};
ghost use Rattle.std.specs.List.{filter};
ghost use Rattle.std.specs.Prelude.{◌≡◌, ◌≤◌, ◌++◌, ◌==◌, ℕ, [], IfOk, IfSome, List, OnOk, length, map, max, not, true};

use crate::choosing::ways_for;
use crate::moving::lift;
use crate::ways::Way;
use code_form::Kind;
use middle_form::{Scoped, ScopedCode, ScopedFunction};
use scoped_building::{choice, map_functions, put, repetition};
use std::alloc::{AllocError, Global};

/// The scopes of a function while its loops are looked at.
#[derive(Drop)]
struct Scopes {
    /// Those that may be open.
    opened: Vec<u8>,
    /// How many a loop has so far, at most.
    most: u8,
}

/// The scopes that may be open behind a leave of one.
fn leave(opened: &mut Vec<u8>, scope: u8)
    ensures { opened.new.items ≡ filter (λ (u : ℕ). not (u == scope)) opened.old.items }
{
    opened.retain(|other| *other != scope);
}

/// The scopes that may be open behind code that has no other code in it.
fn follow(opened: &mut Vec<u8>, code: &ScopedCode) -> Result<(), AllocError>
    ensures { OnOk result (is_straight (scoped_code_of code.now) ≡ true → opened.new.items ≡ open_behind (scoped_code_of code.now) opened.old.items) }
{
    match code {
        ScopedCode::Load { scope, .. }
        | ScopedCode::Store { scope, .. }
        | ScopedCode::Aim { scope, .. }
        | ScopedCode::Loose(scope) => {
            opened.push(*scope)?;
        }
        ScopedCode::Leave(scope) => leave(opened, *scope),
        _ => {}
    }
    Ok(())
}

/// Code that has no other code in it.
fn hoist_straight(
    code: ScopedCode,
    parts: &mut Vec<ScopedCode>,
    scopes: &mut Scopes,
) -> Result<(), AllocError>
    ensures parts { OnOk result ((ks : List KindForm) → is_straight (scoped_code_of code) ≡ true → codes parts.new.items ≡ codes parts.old.items ++ hoisted ks (scoped_code_of code) scopes.old.opened.items) }
    ensures opened { OnOk result (is_straight (scoped_code_of code) ≡ true → scopes.new.opened.items ≡ open_behind (scoped_code_of code) scopes.old.opened.items) }
    ensures most { OnOk result ((ks : List KindForm) → is_straight (scoped_code_of code) ≡ true → scopes.new.most ≡ max scopes.old.most (most_served ks (scoped_code_of code) scopes.old.opened.items)) }
{
    follow(&mut scopes.opened, &code)?;
    put(parts, code)
}

/// The parts that come in place of code are added.
#[cycle(hoisting)]
fn hoist_code(
    alloc: Global,
    kinds: &[Kind],
    code: ScopedCode,
    parts: &mut Vec<ScopedCode>,
    scopes: &mut Scopes,
) -> Result<(), AllocError>
    ensures parts { OnOk result (codes parts.new.items ≡ codes parts.old.items ++ hoisted kinds.now (scoped_code_of code) scopes.old.opened.items) }
    ensures opened { OnOk result (scopes.new.opened.items ≡ open_behind (scoped_code_of code) scopes.old.opened.items) }
    ensures most { OnOk result (scopes.new.most ≡ max scopes.old.most (most_served kinds.now (scoped_code_of code) scopes.old.opened.items)) }
{
    match code {
        ScopedCode::Sequence(all) => {
            for part in all {
                hoist_code(alloc, kinds, part, parts, scopes)?;
            }
            Ok(())
        }
        ScopedCode::Choose {
            condition,
            then_code,
            else_code,
        } => {
            let then_code = hoist_whole(alloc, kinds, then_code, scopes)?;
            let else_code = hoist_whole(alloc, kinds, else_code, scopes)?;
            put(parts, choice(condition, then_code, else_code))
        }
        ScopedCode::Loop {
            test,
            condition,
            body,
        } => hoist_loop(alloc, kinds, test, condition, body, parts, scopes),
        ScopedCode::Block(inner) => {
            let inner = hoist_whole(alloc, kinds, inner, scopes)?;
            put(parts, ScopedCode::Block(inner))
        }
        straight => hoist_straight(straight, parts, scopes),
    }
}

/// The ways of the scopes of a loop before which these may be open.
fn ways_behind(
    alloc: Global,
    opened: &[u8],
    kinds: &[Kind],
    test: &ScopedCode,
    body: &ScopedCode,
) -> Result<Option<Vec<Way>>, AllocError>
    ensures few { IfOk result (λ o. IfSome o (λ v. length v.items ≤ 4)) }
    ensures ways { IfOk result (λ o. listed o ≡ ways_behind_of opened.now kinds.now (scoped_code_of test.now) (scoped_code_of body.now)) }
{
    if opened.is_empty() {
        ways_for(alloc, kinds, test, body)
    } else {
        Ok(None)
    }
}

/// A loop.
#[cycle(hoisting)]
fn hoist_loop(
    alloc: Global,
    kinds: &[Kind],
    test: Box<ScopedCode>,
    condition: u32,
    body: Box<ScopedCode>,
    parts: &mut Vec<ScopedCode>,
    scopes: &mut Scopes,
) -> Result<(), AllocError>
    ensures parts { OnOk result (codes parts.new.items ≡ codes parts.old.items ++ hoisted kinds.now (ScopedLoop (scoped_code_of test.value) condition (scoped_code_of body.value)) scopes.old.opened.items) }
    ensures opened { OnOk result (scopes.new.opened.items ≡ scopes.old.opened.items) }
    ensures most { OnOk result (scopes.new.most ≡ max scopes.old.most (most_served kinds.now (ScopedLoop (scoped_code_of test.value) condition (scoped_code_of body.value)) scopes.old.opened.items)) }
{
    match ways_behind(alloc, &scopes.opened, kinds, &test, &body)? {
        Some(ways) => {
            scopes.most = scopes.most.max(ways.len() as u8);
            lift(alloc, test, condition, body, parts, &ways)
        }
        None => {
            let test = hoist_whole(alloc, kinds, test, scopes)?;
            let body = hoist_whole(alloc, kinds, body, scopes)?;
            put(parts, repetition(test, condition, body))
        }
    }
}

/// Code in a choice, a loop or a block: it stays as it is where a scope may be open before that.
#[cycle(hoisting)]
fn hoist_whole(
    alloc: Global,
    kinds: &[Kind],
    code: Box<ScopedCode>,
    scopes: &mut Scopes,
) -> Result<Box<ScopedCode>, AllocError>
    ensures code { IfOk result (λ c. scoped_code_of c.value ≡ inside scopes.old.opened.items (scoped_code_of code.value) (hoisted kinds.now (scoped_code_of code.value) [])) }
    ensures opened { OnOk result (scopes.new.opened.items ≡ scopes.old.opened.items) }
    ensures most { OnOk result (scopes.new.most ≡ max scopes.old.most (served_inside scopes.old.opened.items (most_served kinds.now (scoped_code_of code.value) []))) }
{
    if !scopes.opened.is_empty() {
        return Ok(code);
    }
    let mut parts = Vec::new(alloc);
    hoist_code(alloc, kinds, Box::into_inner(code), &mut parts, scopes)?;
    scopes.opened.clear();
    Ok(Box::new(alloc, ScopedCode::Sequence(parts))?)
}

/// A function.
fn hoist_function(alloc: Global, function: ScopedFunction) -> Result<ScopedFunction, AllocError>
    ensures { IfOk result (λ g. scoped_function_of g ≡ hoisted_function (scoped_function_of function)) }
{
    let ScopedFunction {
        result,
        parameters,
        kinds,
        scopes,
        body,
        value,
    } = function;
    let mut used = Scopes {
        opened: Vec::new(alloc),
        most: scopes,
    };
    let mut parts = Vec::new(alloc);
    hoist_code(alloc, &kinds, body, &mut parts, &mut used)?;
    Ok(ScopedFunction {
        result,
        parameters,
        kinds,
        scopes: used.most,
        body: ScopedCode::Sequence(parts),
        value,
    })
}

/// The program with the scopes of its loops opened before them and left behind them; the page of this crate says which loops, and which scope serves
/// what. It means what it did, and keeps the discipline of scopes where it did; a function has at most four scopes where it had no more. The only error
/// is that of memory, and nothing is kept behind it.
pub fn hoist(alloc: Global, scoped: Scoped) -> Result<Scoped, AllocError>
    ensures { IfOk result (λ s. scoped_program_of s ≡ hoisted_program (scoped_program_of scoped)) }
{
    let Scoped {
        texts,
        layouts,
        functions,
    } = scoped;
    let functions = map_functions(
        alloc,
        functions,
        |function|
            ensures { IfOk result (λ g. scoped_function_of g ≡ hoisted_function (scoped_function_of function)) }
        { hoist_function(alloc, function) },
    )?;
    Ok(Scoped {
        texts,
        layouts,
        functions,
    })
}
