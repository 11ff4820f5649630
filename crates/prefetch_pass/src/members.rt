//! Registers among which others are sought.
ghost use Rattle.prefetch_pass.specs.Gathered.{HasJust};
ghost use Rattle.prefetch_pass.specs.Raised.{is_among as is_among_of};
ghost use Rattle.std.specs.Prelude.{◌≡◌, IfOk};

use std::alloc::{AllocError, Global};
use std::collections::HashSet;

/// Registers, and the set of them.
#[derive(Drop)]
pub(crate) struct Members {
    pub registers: Vec<u32>,
    pub set: HashSet<u32>,
    pub ghost same: { HasJust set registers.items },
}

/// The set of these registers.
fn set_of(alloc: Global, registers: &[u32]) -> Result<HashSet<u32>, AllocError>
    ensures { IfOk result (λ s. HasJust s registers.now) }
{
    let mut set = HashSet::new(alloc);
    for place in 0..registers.len() {
        set.insert(registers[place])?;
    }
    Ok(set)
}

/// These registers, with the set of them.
pub(crate) fn members_of(alloc: Global, registers: Vec<u32>) -> Result<Members, AllocError>
    ensures { IfOk result (λ m. m.registers.items ≡ registers.items) }
{
    let set = set_of(alloc, &registers)?;
    Ok(Members { registers, set })
}

/// Whether a register is one of them.
pub(crate) fn is_among(members: &Members, register: u32) -> bool
    ensures { result ≡ is_among_of members.now.registers.items register }
{
    members.set.contains(&register)
}
