//! How the registers of a call are read.
ghost use Rattle.code_form.specs.Code.{offset as offset_of};
ghost use Rattle.code_operations.specs.Outcomes.{ReadsOffset};
ghost use Rattle.std.specs.Prelude.{◌≡◌, slice_index};

use crate::values::value_in;

/// The registers of a call, as an instruction reads them. `has` tells which it may ask for, and `values` what all hold.
pub trait Registers {
    ghost use Rattle.std.specs.Prelude.{ℕ, List};

    ghost has: { Self → ℕ → Type 0 };

    ghost values: { Self → List ℕ };

    /// What a register holds.
    fn value(&self, register: u32) -> u64
        requires { has self.now register }
        ensures { result ≡ slice_index (values self.now) register };
}

/// Registers of which each may be asked for: one that is not there holds 0.
#[derive(Clone, Copy)]
pub struct AnyRegisters<'r> {
    pub values: &'r [u64],
}

/// Registers of which only those are asked for that are there, so that reading one needs no test.
#[derive(Clone, Copy)]
pub struct KnownRegisters<'r> {
    pub values: &'r [u64],
}

impl<'r> Registers for AnyRegisters<'r> {
    ghost has = { λ s r. Unit {0} };

    ghost values = { λ s. s.values.now };

    #[inline(always)]
    fn value(&self, register: u32) -> u64 {
        value_in(self.values, register)
    }
}

impl<'r> Registers for KnownRegisters<'r> {
    ghost use Rattle.std.specs.Prelude.{◌<◌, length};

    ghost has = { λ s r. r < length s.values.now };

    ghost values = { λ s. s.values.now };

    #[inline(always)]
    fn value(&self, register: u32) -> u64 {
        self.values[register as usize]
    }
}

/// The offset that a register holds; 0 where none is named.
#[inline(always)]
pub fn offset_in<R: Registers>(registers: &R, offset: Option<u32>) -> u64
    requires { ReadsOffset (R.has registers.now) offset }
    ensures { result ≡ offset_of (R.values registers.now) offset }
{
    match offset {
        Some(register) => registers.value(register),
        None => 0,
    }
}
