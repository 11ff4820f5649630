//! What the assignments of registers tell, register by register.
ghost use Rattle.prefetch_pass.specs.Gathered.{adds_to, changes_among, common, each_of, is_marked as is_marked_of, is_one, joined, raises as raises_of};
ghost use Rattle.prefetch_pass.specs.Raised.{is_positive as is_positive_of};
ghost use Rattle.std.specs.HashMap.{Updates, get};
ghost use Rattle.std.specs.Prelude.{◌≡◌, ◌&&◌, IfOk, OnOk, Some, map, nat_eq, true, unwrap_or, ℕ};

use crate::changes::Assignment;
use cells::Int32Op;
use code_form::Operation;
use std::alloc::{AllocError, Global};
use std::collections::HashMap;

/// Whether a register gets a constant above 0.
fn is_positive(change: Option<Operation>) -> bool
    ensures { result ≡ is_positive_of change }
{
    match change {
        Some(Operation::Const { value, .. }) => 0 < value,
        _ => false,
    }
}

/// Whether a register is marked.
fn is_marked(marks: &HashMap<u32, bool>, register: u32) -> bool
    ensures { result ≡ is_marked_of marks.now register }
{
    match marks.get(&register) {
        Some(marked) => *marked,
        None => false,
    }
}

/// A register stays marked where this holds too.
fn note_mark(marks: &mut HashMap<u32, bool>, register: u32, holds: bool) -> Result<(), AllocError>
    ensures { OnOk result (Updates nat_eq marks.old marks.new register (Some (unwrap_or (get nat_eq marks.old register) true && holds))) }
{
    let before = match marks.get(&register) {
        Some(marked) => *marked,
        None => true,
    };
    marks.insert(register, before && holds)?;
    Ok(())
}

/// The registers that are assigned, marked where they get constants above 0 alone.
pub(crate) fn steps_among(
    alloc: Global,
    assignments: &[Assignment],
) -> Result<HashMap<u32, bool>, AllocError>
    ensures { IfOk result (λ m. (r : ℕ) → get nat_eq m r ≡ each_of is_positive_of (changes_among r assignments.now)) }
{
    let mut steps = HashMap::new(alloc);
    for place in 0..assignments.len() {
        let Assignment { to, change } = assignments[place];
        note_mark(&mut steps, to, is_positive(change))?;
    }
    Ok(steps)
}

/// The register to which a marked one is added.
fn summand(steps: &HashMap<u32, bool>, change: Option<Operation>) -> Option<u32>
    ensures { result ≡ adds_to (is_marked_of steps.now) change }
{
    match change {
        Some(
            Operation::Binary {
                operator: Int32Op::Add,
                left,
                right,
                ..
            },
        ) => if is_marked(steps, right) {
            Some(left)
        } else {
            None
        },
        _ => None,
    }
}

/// What is common to what was noted and this.
fn join(before: Option<u32>, summand: Option<u32>) -> Option<u32>
    ensures { result ≡ joined (Some before) summand }
{
    if before == summand { before } else { None }
}

/// A register gets a sum of this one too.
fn note_sum(
    sums: &mut HashMap<u32, Option<u32>>,
    register: u32,
    summand: Option<u32>,
) -> Result<(), AllocError>
    ensures { OnOk result (Updates nat_eq sums.old sums.new register (Some (joined (get nat_eq sums.old register) summand))) }
{
    let now = match sums.get(&register) {
        Some(before) => join(*before, summand),
        None => summand,
    };
    sums.insert(register, now)?;
    Ok(())
}

/// Of the registers that are assigned, the one of which each gets sums alone.
pub(crate) fn sums_among(
    alloc: Global,
    assignments: &[Assignment],
    steps: &HashMap<u32, bool>,
) -> Result<HashMap<u32, Option<u32>>, AllocError>
    ensures { IfOk result (λ m. (r : ℕ) → get nat_eq m r ≡ common (map (adds_to (is_marked_of steps.now)) (changes_among r assignments.now))) }
{
    let mut sums = HashMap::new(alloc);
    for place in 0..assignments.len() {
        let Assignment { to, change } = assignments[place];
        note_sum(&mut sums, to, summand(steps, change))?;
    }
    Ok(sums)
}

/// Whether a register has sums of another alone.
fn has_sums(sums: &HashMap<u32, Option<u32>>, held: u32, register: u32) -> bool
    ensures { result ≡ is_one register (get nat_eq sums.now held) }
{
    match sums.get(&held) {
        Some(Some(common)) => register == *common,
        _ => false,
    }
}

/// Whether an assignment of a register raises it.
fn is_raise(
    steps: &HashMap<u32, bool>,
    sums: &HashMap<u32, Option<u32>>,
    register: u32,
    change: Option<Operation>,
) -> bool
    ensures { result ≡ raises_of (is_marked_of steps.now) (get nat_eq sums.now) register change }
{
    if let Some(Operation::Move { from, .. }) = change {
        return has_sums(sums, from, register);
    }
    match summand(steps, change) {
        Some(left) => register == left,
        None => false,
    }
}

/// The registers that are assigned, marked where each assignment raises them.
pub(crate) fn raises_among(
    alloc: Global,
    assignments: &[Assignment],
    steps: &HashMap<u32, bool>,
    sums: &HashMap<u32, Option<u32>>,
) -> Result<HashMap<u32, bool>, AllocError>
    ensures { IfOk result (λ m. (r : ℕ) → get nat_eq m r ≡ each_of (raises_of (is_marked_of steps.now) (get nat_eq sums.now) r) (changes_among r assignments.now)) }
{
    let mut raises = HashMap::new(alloc);
    for place in 0..assignments.len() {
        let Assignment { to, change } = assignments[place];
        note_mark(&mut raises, to, is_raise(steps, sums, to, change))?;
    }
    Ok(raises)
}
