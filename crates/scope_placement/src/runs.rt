//! The scopes that are open in a straight run of instructions.
ghost use Rattle.scoped_building.specs.Building.{codes};
ghost use Rattle.scope_placement.specs.Placed.{leaves, open_with, scope_for as scope_of};
ghost use Rattle.std.specs.Prelude.{◌≡◌, ◌≤◌, ◌++◌, [], IfOk, OnOk, length, max};

use middle_form::ScopedCode;
use std::alloc::AllocError;

/// How many scopes serve one register each; the one behind them serves all others.
const OWN: u8 = 3;

/// The scopes of a function while its code is placed.
#[derive(Drop)]
pub(crate) struct RunScopes {
    /// The register of each scope that is open.
    pub(crate) registers: Vec<u32>,
    /// How many were open at once so far, at most.
    pub(crate) most: u8,
}

/// The scope that serves a register.
fn scope_for(registers: &[u32], register: u32) -> u8
    ensures { result ≡ scope_of register registers.now }
{
    for scope in 0..OWN {
        let index = usize::from(scope);
        if index >= registers.len() {
            return scope;
        }
        if registers[index] == register {
            return scope;
        }
    }
    OWN
}

/// The scope that serves a register, which is open from then on.
fn open_scope(registers: &mut Vec<u32>, register: u32) -> Result<u8, AllocError>
    requires { length registers.old.items ≤ 4 }
    ensures scope { IfOk result (λ s. s ≡ scope_of register registers.old.items) }
    ensures registers { OnOk result (registers.new.items ≡ open_with register registers.old.items) }
{
    let scope = scope_for(registers, register);
    let index = usize::from(scope);
    if index < registers.len() {
        registers[index] = register;
    } else {
        registers.push(register)?;
    }
    Ok(scope)
}

/// The scope of an access through a register.
pub(crate) fn access(run: &mut RunScopes, register: u32) -> Result<u8, AllocError>
    requires { length run.old.registers.items ≤ 4 }
    ensures scope { IfOk result (λ s. s ≡ scope_of register run.old.registers.items) }
    ensures registers { OnOk result (run.new.registers.items ≡ open_with register run.old.registers.items) }
    ensures most { OnOk result (run.new.most ≡ max run.old.most (length (open_with register run.old.registers.items))) }
{
    let scope = open_scope(&mut run.registers, register)?;
    run.most = run.most.max(run.registers.len() as u8);
    Ok(scope)
}

/// All scopes that are open are left.
fn leave_all(parts: &mut Vec<ScopedCode>, registers: &[u32]) -> Result<(), AllocError>
    requires { length registers.now ≤ 4 }
    ensures { OnOk result (codes parts.new.items ≡ codes parts.old.items ++ leaves registers.now) }
{
    for scope in 0..registers.len() as u8 {
        parts.push(ScopedCode::Leave(scope))?;
    }
    Ok(())
}

/// The end of a run.
pub(crate) fn end(run: &mut RunScopes, parts: &mut Vec<ScopedCode>) -> Result<(), AllocError>
    requires { length run.old.registers.items ≤ 4 }
    ensures parts { OnOk result (codes parts.new.items ≡ codes parts.old.items ++ leaves run.old.registers.items) }
    ensures registers { OnOk result (run.new.registers.items ≡ []) }
    ensures most { OnOk result (run.new.most ≡ run.old.most) }
{
    leave_all(parts, &run.registers)?;
    run.registers.clear();
    Ok(())
}
