//! What calls may take, within a limit of memory.
use crate::places::CallPlace;
use memory_limit::{MemoryLimit, MemoryUse};

/// How many bytes a call that waits takes, beside its registers and scopes.
const PLACE_BYTES: u64 = 48;

/// How many bytes a register takes.
const REGISTER_BYTES: u64 = 8;

/// How many bytes a scope takes.
const SCOPE_BYTES: u64 = 40;

/// Whether there is room for one more call, which would stand here, beside so many that wait.
#[inline(always)]
pub(crate) fn has_room(limit: &mut MemoryLimit, waiting: usize, callee: &CallPlace<'_>) -> bool {
    let places = (waiting as u64).wrapping_mul(PLACE_BYTES);
    let registers = (callee.registers as u64).wrapping_mul(REGISTER_BYTES);
    let scopes = (callee.scopes as u64).wrapping_mul(SCOPE_BYTES);
    let taken = places.wrapping_add(registers).wrapping_add(scopes);
    limit.allows(MemoryUse::Calls, taken)
}
