//! Scopes, what they are aimed at, and the registers and scopes of calls that stand one behind the other.
ghost use Rattle.code_form.specs.Code.{all_shut, offset as offset_of, wanted, written};
ghost use Rattle.code_form.specs.Touches.{cell_option};
ghost use Rattle.call_execution.specs.Aimed.{index_of, scope_of};
ghost use Rattle.code_operations.specs.Outcomes.{ReadsOffset};
ghost use Rattle.std.specs.Prelude.{◌≡◌, ◌+◌, ◌<◌, ◌≤◌, drop, length, map, slice_index, slice_set, take};

use code_form::Cell;
use code_operations::{Allocations, Registers, offset_in};

/// What a scope is aimed at: the cell `displacement` cells behind `start`, in the allocation of number `reference`. These were
/// in `register` and `offset` as the scope was aimed.
#[derive(Clone, Copy)]
pub struct Aim {
    pub register: u32,
    pub offset: Option<u32>,
    pub displacement: u32,
    pub reference: u64,
    pub start: u64,
}

/// A scope. It is stale where a register of its aim was written since.
#[derive(Clone, Copy)]
pub enum Scope {
    Shut,
    Aimed(Aim),
    Stale(Aim),
}

impl Aim {
    /// The cell that the aim is at, if the allocation has it.
    #[inline(always)]
    pub fn cell(&self, allocations: &Allocations) -> Option<Cell>
        ensures { result ≡ cell_option (wanted allocations.now self.now.reference (index_of self.now)) }
    {
        allocations.cell(self.reference, self.start, self.displacement)
    }
}

impl Scope {
    /// Goes stale where its aim is by this register, which is written.
    #[inline(always)]
    fn go_stale(&mut self, register: u32)
        ensures { scope_of self.new ≡ written register (scope_of self.old) }
    {
        let stale = match &*self {
            Scope::Aimed(aim) if aim.register == register || aim.offset == Some(register) => *aim,
            _ => return,
        };
        *self = Scope::Stale(stale);
    }
}

/// An aim at this place, where these are the registers.
#[inline(always)]
pub fn aim_by<R: Registers>(
    registers: &R,
    register: u32,
    offset: Option<u32>,
    displacement: u32,
) -> Aim
    requires register { R.has registers.now register }
    requires offset { ReadsOffset (R.has registers.now) offset }
    ensures { result ≡ record { register = register; offset = offset; displacement = displacement; reference = slice_index (R.values registers.now) register; start = offset_of (R.values registers.now) offset } }
{
    Aim {
        register,
        offset,
        displacement,
        reference: registers.value(register),
        start: offset_in(registers, offset),
    }
}

/// Makes each scope stale whose aim is by this register.
#[inline(always)]
fn make_stale(scopes: &mut [Scope], register: u32)
    ensures { map scope_of scopes.new ≡ map (written register) (map scope_of scopes.old) }
{
    for number in 0..scopes.len() {
        scopes[number].go_stale(register);
    }
}

/// Makes each scope from number `first` on stale whose aim is by this register.
#[inline(always)]
pub(crate) fn make_stale_from(scopes: &mut [Scope], first: usize, register: u32)
    requires { first ≤ length scopes.old }
    ensures own { map scope_of (drop first scopes.new) ≡ map (written register) (map scope_of (drop first scopes.old)) }
    ensures others { take first scopes.new ≡ take first scopes.old }
    ensures many { length scopes.new ≡ length scopes.old }
{
    make_stale(&mut scopes[first..], register);
}

/// Changes the scope of this number of those from number `first` on, where there is one.
#[inline(always)]
pub(crate) fn put_scope(scopes: &mut [Scope], first: usize, number: u8, scope: Scope)
    requires { first ≤ length scopes.old }
    ensures own { map scope_of (drop first scopes.new) ≡ slice_set (map scope_of (drop first scopes.old)) number (scope_of scope) }
    ensures others { take first scopes.new ≡ take first scopes.old }
    ensures many { length scopes.new ≡ length scopes.old }
{
    if (number as usize) < scopes.len() - first {
        scopes[first + number as usize] = scope;
    }
}

/// Changes the scope of this number of those from number `first` on.
#[inline(always)]
pub(crate) fn change_scope(scopes: &mut [Scope], first: usize, number: u8, scope: Scope)
    requires { first + number < length scopes.old }
    ensures own { map scope_of (drop first scopes.new) ≡ slice_set (map scope_of (drop first scopes.old)) number (scope_of scope) }
    ensures others { take first scopes.new ≡ take first scopes.old }
    ensures many { length scopes.new ≡ length scopes.old }
{
    scopes[first + number as usize] = scope;
}

/// Writes the register of this number of those from number `first` on, where there is one.
#[inline(always)]
pub fn put(registers: &mut [u64], first: usize, to: u32, value: u64)
    requires { first ≤ length registers.old }
    ensures own { drop first registers.new ≡ slice_set (drop first registers.old) to value }
    ensures others { take first registers.new ≡ take first registers.old }
    ensures many { length registers.new ≡ length registers.old }
{
    if (to as usize) < registers.len() - first {
        registers[first + to as usize] = value;
    }
}

/// Whether all scopes are shut.
#[inline(always)]
pub(crate) fn are_shut(scopes: &[Scope]) -> bool
    ensures { result ≡ all_shut (map scope_of scopes.now) }
{
    for scope in scopes {
        if !matches!(scope, Scope::Shut) {
            return false;
        }
    }
    true
}
