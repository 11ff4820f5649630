//! What is known of each scope at the entries of the blocks of scoped code, and their entry facts.
ghost use Rattle.code_form.specs.Known.{Unknown, forget as forget_of};
ghost use Rattle.codegen.specs.Building.{in_front as front_of, known_back, knows_of, lists, of_scope};
ghost use Rattle.scoped_building.specs.Building.{is_straight};
ghost use Rattle.codegen.specs.Generated.{facts_of, known_of, scope_fact};
ghost use Rattle.middle_form.specs.Discipline.{after, is_lost as is_lost_of, join, touches as touches_of, writes as writes_of, wrote};
ghost use Rattle.middle_form.specs.ScopedViews.{scoped_code_of, scoped_function_of};
ghost use Rattle.code_form.specs.Code.{is_register as is_register_of};
ghost use Rattle.std.specs.Prelude.{◌≡◌, ◌++◌, ◌∷◌, ◌==◌, ℕ, [], IfOk, OnOk, cond, map, slice_index_or, true};

use crate::asked::function_asks;
use code_form::{Fact, written_by};
use middle_form::{ScopedCode, ScopedFunction};
use std::alloc::{AllocError, Global};

/// What is known of a scope.
#[derive(Clone, Copy)]
pub(crate) enum Knows {
    Unknown,
    Shut,
    Aimed {
        register: u32,
        offset: Option<u32>,
        displacement: u32,
    },
}

/// Whether a register is the one that is given.
fn is_register(register: u32, given: Option<u32>) -> bool
    ensures { result ≡ is_register_of register given }
{
    match given {
        None => false,
        Some(other) => register == other,
    }
}

/// What stays known of a scope where a register is written.
fn forget(register: u32, knows: Knows) -> Knows
    ensures { knows_of result ≡ forget_of register (knows_of knows) }
{
    match knows {
        Knows::Aimed {
            register: aimed,
            offset,
            ..
        } => if register == aimed || is_register(register, offset) {
            Knows::Unknown
        } else {
            knows
        },
        Knows::Unknown | Knows::Shut => knows,
    }
}

/// So it is where a register is written, if there is one.
fn forget_some(register: Option<u32>, knows: Knows) -> Knows
    ensures { (s : ℕ) → knows_of result ≡ wrote register (λ _. knows_of knows) s }
{
    match register {
        None => knows,
        Some(register) => forget(register, knows),
    }
}

/// What is known of a scope where something new is known of one.
fn replaced(scope: u8, changed: u8, new: Knows, old: Knows) -> Knows
    ensures { knows_of result ≡ cond (scope == changed) (knows_of new) (knows_of old) }
{
    if scope == changed { new } else { old }
}

/// Whether code writes a register somewhere.
fn writes(code: &ScopedCode, register: u32) -> bool
    ensures { result ≡ writes_of (scoped_code_of code.now) register }
{
    match code {
        ScopedCode::Sequence(parts) => {
            for part in parts {
                if writes(part, register) {
                    return true;
                }
            }
            false
        }
        ScopedCode::Do(operation) => is_register(register, written_by(operation)),
        ScopedCode::Load { to, .. } | ScopedCode::LoadBy { to, .. } => register == *to,
        ScopedCode::Call { to, .. } => is_register(register, *to),
        ScopedCode::Choose {
            then_code,
            else_code,
            ..
        } => writes(then_code, register) || writes(else_code, register),
        ScopedCode::Loop { test, body, .. } => writes(test, register) || writes(body, register),
        ScopedCode::Block(inner) => writes(inner, register),
        ScopedCode::Store { .. }
        | ScopedCode::StoreBy { .. }
        | ScopedCode::Aim { .. }
        | ScopedCode::Leave(_)
        | ScopedCode::Loose(_)
        | ScopedCode::Fail { .. }
        | ScopedCode::Exit(_) => false,
    }
}

/// Whether code aims, leaves or loosens a scope somewhere.
fn touches(code: &ScopedCode, scope: u8) -> bool
    ensures { result ≡ touches_of (scoped_code_of code.now) scope }
{
    match code {
        ScopedCode::Sequence(parts) => {
            for part in parts {
                if touches(part, scope) {
                    return true;
                }
            }
            false
        }
        ScopedCode::Load { scope: other, .. }
        | ScopedCode::Store { scope: other, .. }
        | ScopedCode::Aim { scope: other, .. }
        | ScopedCode::Leave(other)
        | ScopedCode::Loose(other) => scope == *other,
        ScopedCode::Choose {
            then_code,
            else_code,
            ..
        } => touches(then_code, scope) || touches(else_code, scope),
        ScopedCode::Loop { test, body, .. } => touches(test, scope) || touches(body, scope),
        ScopedCode::Block(inner) => touches(inner, scope),
        ScopedCode::Do(_)
        | ScopedCode::LoadBy { .. }
        | ScopedCode::StoreBy { .. }
        | ScopedCode::Call { .. }
        | ScopedCode::Fail { .. }
        | ScopedCode::Exit(_) => false,
    }
}

/// Whether code writes a register of an aim.
fn is_lost(code: &ScopedCode, register: u32, offset: Option<u32>) -> bool
    ensures { result ≡ is_lost_of (writes_of (scoped_code_of code.now)) register offset }
{
    match offset {
        None => writes(code, register),
        Some(offset) => writes(code, register) || writes(code, offset),
    }
}

/// What is known of a scope where the ways of some code join.
fn joined(code: &ScopedCode, scope: u8, before: Knows) -> Knows
    ensures { knows_of result ≡ join (scoped_code_of code.now) (λ _. knows_of before) scope }
{
    match before {
        Knows::Aimed {
            register,
            offset,
            ..
        } => if touches(code, scope) || is_lost(code, register, offset) {
            Knows::Unknown
        } else {
            before
        },
        Knows::Unknown | Knows::Shut => before,
    }
}

/// What is known of a scope behind code that needs no more blocks.
fn after_straight(code: &ScopedCode, scope: u8, before: Knows) -> Knows
    ensures { is_straight (scoped_code_of code.now) ≡ true → knows_of result ≡ after (scoped_code_of code.now) (λ _. knows_of before) scope }
{
    match code {
        ScopedCode::Do(operation) => forget_some(written_by(operation), before),
        ScopedCode::Load {
            to,
            scope: other,
            ..
        } => replaced(scope, *other, Knows::Unknown, forget(*to, before)),
        ScopedCode::Store { scope: other, .. } | ScopedCode::Loose(other) => {
            replaced(scope, *other, Knows::Unknown, before)
        }
        ScopedCode::LoadBy { to, .. } => forget(*to, before),
        ScopedCode::Aim {
            scope: other,
            register,
            offset,
            displacement,
        } => {
            let aimed = Knows::Aimed {
                register: *register,
                offset: *offset,
                displacement: *displacement,
            };
            replaced(scope, *other, aimed, before)
        }
        ScopedCode::Leave(other) => replaced(scope, *other, Knows::Shut, before),
        ScopedCode::Call { to, .. } => forget_some(*to, before),
        ScopedCode::StoreBy { .. } | ScopedCode::Fail { .. } | ScopedCode::Exit(_) => before,
        _ => before,
    }
}

/// What is known at the entry of one more block.
#[tactic(auto, using(crate::proofs::ScopeFacts::knows_push))]
fn note(known: &mut Vec<Knows>, knows: Knows) -> Result<(), AllocError>
    ensures { OnOk result (map knows_of known.new.items ≡ map knows_of known.old.items ++ knows_of knows ∷ []) }
{
    known.push(knows)?;
    Ok(())
}

/// What is known of a scope behind code. What is known of it at the entries of the code's other blocks is added, the last block's first.
fn follow(
    known: &mut Vec<Knows>,
    code: &ScopedCode,
    scope: u8,
    before: Knows,
) -> Result<Knows, AllocError>
    ensures behind { IfOk result (λ x. knows_of x ≡ after (scoped_code_of code.now) (λ _. knows_of before) scope) }
    ensures added { OnOk result (map knows_of known.new.items ≡ map knows_of known.old.items ++ known_back scope (scoped_code_of code.now) (knows_of before)) }
{
    match code {
        ScopedCode::Sequence(parts) => {
            let mut knows = before;
            for part in parts {
                knows = follow(known, part, scope, knows)?;
            }
            Ok(knows)
        }
        ScopedCode::Choose {
            then_code,
            else_code,
            ..
        } => {
            note(known, before)?;
            follow(known, else_code, scope, before)?;
            note(known, before)?;
            follow(known, then_code, scope, before)?;
            let behind = joined(code, scope, before);
            note(known, behind)?;
            Ok(behind)
        }
        ScopedCode::Loop { test, body, .. } => {
            let head = joined(code, scope, before);
            let turn = follow(known, test, scope, head)?;
            note(known, turn)?;
            follow(known, body, scope, turn)?;
            note(known, head)?;
            note(known, head)?;
            Ok(head)
        }
        ScopedCode::Block(inner) => {
            follow(known, inner, scope, before)?;
            let behind = joined(code, scope, before);
            note(known, behind)?;
            Ok(behind)
        }
        _ => Ok(after_straight(code, scope, before)),
    }
}

/// What is known of a scope at the entry of each block of a function.
fn scope_known(
    alloc: Global,
    function: &ScopedFunction,
    scope: u8,
) -> Result<Vec<Knows>, AllocError>
    ensures { IfOk result (λ v. map knows_of v.items ≡ map (of_scope scope) (known_of (scoped_function_of function.now))) }
{
    let mut known = Vec::new(alloc);
    follow(&mut known, &function.body, scope, Knows::Shut)?;
    note(&mut known, Knows::Shut)?;
    known.reverse();
    Ok(known)
}

/// What is known of a scope at the entry of a block.
fn known_at(known: &[Knows], block: usize) -> Knows
    ensures { knows_of result ≡ slice_index_or (map knows_of known.now) block Unknown }
{
    match known.get(block) {
        Some(knows) => *knows,
        None => Knows::Unknown,
    }
}

/// What is known of a scope, in front of facts.
fn in_front(scope: u8, knows: Knows, mut facts: Vec<Fact>) -> Result<Vec<Fact>, AllocError>
    ensures { IfOk result (λ v. v.items ≡ scope_fact scope (knows_of knows) ++ facts.items) }
{
    match knows {
        Knows::Unknown => Ok(facts),
        Knows::Shut => {
            facts.insert(0, Fact::Shut(scope))?;
            Ok(facts)
        }
        Knows::Aimed {
            register,
            offset,
            displacement,
        } => {
            let fact = Fact::Aimed {
                scope,
                register,
                offset,
                displacement,
            };
            facts.insert(0, fact)?;
            Ok(facts)
        }
    }
}

/// So it is at the entry of each block.
#[tactic(auto, using(crate::proofs::ScopeFacts::front_push))]
fn all_in_front(
    alloc: Global,
    scope: u8,
    known: &[Knows],
    all: Vec<Vec<Fact>>,
) -> Result<Vec<Vec<Fact>>, AllocError>
    ensures { IfOk result (λ v. lists v.items ≡ front_of scope (map knows_of known.now) (lists all.items)) }
{
    let mut fronted = Vec::new(alloc);
    for facts in all {
        let knows = known_at(known, fronted.len());
        fronted.push(in_front(scope, knows, facts)?)?;
    }
    Ok(fronted)
}

/// The entry facts of each block of a function.
pub(crate) fn function_facts(
    alloc: Global,
    function: &ScopedFunction,
) -> Result<Vec<Vec<Fact>>, AllocError>
    ensures { IfOk result (λ v. lists v.items ≡ facts_of (scoped_function_of function.now)) }
{
    let mut facts = function_asks(alloc, function)?;
    for scope in 0..function.scopes {
        let known = scope_known(alloc, function, scope)?;
        facts = all_in_front(alloc, scope, &known, facts)?;
    }
    Ok(facts)
}
