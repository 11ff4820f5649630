//! The registers of calls, one behind the other.
ghost use Rattle.std.specs.Prelude.{◌≡◌, ◌+◌, ◌++◌, ◌-◌, ◌≤◌, MatchResult, OnOk, drop, length, map, replicate, slice_index, vec_capacity, vec_len};

use code_operations::value_in;
use std::alloc::AllocError;

/// Makes room for so many more registers. `Err` where memory is refused. The test stands here so that it is inlined.
#[inline(always)]
fn make_room(registers: &mut Vec<u64>, more: usize) -> Result<(), AllocError>
    ensures items { registers.new.items ≡ registers.old.items }
    ensures room { OnOk result (vec_len registers.new + more ≤ vec_capacity registers.new) }
{
    if registers.capacity() - registers.len() < more {
        registers.reserve(more)?;
    }
    Ok(())
}

/// Puts behind the registers, where there is room, what the registers `arguments` hold of those from number `first` on.
#[inline(always)]
fn push_arguments(registers: &mut Vec<u64>, first: usize, arguments: &[u32])
    requires first { first ≤ length registers.old.items }
    requires room { vec_len registers.old + length arguments.now ≤ vec_capacity registers.old }
    ensures items { registers.new.items ≡ registers.old.items ++ map (slice_index (drop first registers.old.items)) arguments.now }
    ensures capacity { vec_capacity registers.new ≡ vec_capacity registers.old }
{
    let size = registers.len();
    for argument in arguments {
        let value = value_in(&registers[first..size], *argument);
        registers.push_reserved(value);
    }
}

/// Puts so many zeros behind the registers, where there is room.
#[inline(always)]
fn push_zeros(registers: &mut Vec<u64>, count: usize)
    requires { vec_len registers.old + count ≤ vec_capacity registers.old }
    ensures { registers.new.items ≡ registers.old.items ++ replicate count 0 }
{
    let size = registers.len();
    let Ok(()) = registers.resize(size + count, 0) else {
        unreachable!()
    };
}

/// Puts behind the registers those of a call: what the registers `arguments` hold of those from number `first` on, and then 0, so that there
/// are `count`. `Err` where memory is refused: then nothing is changed.
#[inline(always)]
pub(crate) fn push_registers(
    registers: &mut Vec<u64>,
    first: usize,
    arguments: &[u32],
    count: usize,
) -> Result<(), AllocError>
    requires { first ≤ length registers.old.items }
    ensures { MatchResult result
        (λ _. registers.new.items ≡ registers.old.items ++ (map (slice_index (drop first registers.old.items)) arguments.now ++ replicate (count - length arguments.now) 0))
        (λ _. registers.new.items ≡ registers.old.items) }
{
    make_room(registers, count.max(arguments.len()))?;
    push_arguments(registers, first, arguments);
    push_zeros(registers, count.saturating_sub(arguments.len()));
    Ok(())
}
