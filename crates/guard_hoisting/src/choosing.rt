//! Which scopes a loop has.
ghost use Rattle.guard_hoisting.specs.Building.{AreAssigned, listed, place_below};
ghost use Rattle.guard_hoisting.specs.Ways.{chosen, fitting, is_closed as is_closed_of, ranked_in, ranked_with, settled as settled_of, uses_with, ways_for as ways_for_of, ways_of as ways_of_uses};
ghost use Rattle.middle_form.specs.Scoped.{Code};
ghost use Rattle.middle_form.specs.ScopedViews.{scoped_code_of};
ghost use Rattle.std.specs.Prelude.{◌≡◌, ◌≤◌, [], IfOk, IfSome, OnOk, length, map, take};

use crate::walks::{has_loop, is_quiet, most_left, note_uses, note_writes};
use crate::ways::{Use, Way};
use code_form::{Kind, is_place};
use middle_form::ScopedCode;
use std::alloc::{AllocError, Global};
use std::collections::{HashMap, HashSet};

/// How many scopes a loop has, at most.
const MOST: usize = 4;

/// How many have a register of their own where there are more registers than scopes.
const OWN: usize = 3;

/// Whether a loop is left to what stands behind it alone, and its test and its body are quiet.
fn is_closed(test: &ScopedCode, body: &ScopedCode) -> bool
    ensures { result ≡ is_closed_of (scoped_code_of test.now) (scoped_code_of body.now) }
{
    is_quiet(test) && is_quiet(body) && most_left(test) <= 1 && most_left(body) <= 1
}

/// The registers that a loop assigns.
fn assigned_in(
    alloc: Global,
    test: &ScopedCode,
    body: &ScopedCode,
) -> Result<HashSet<u32>, AllocError>
    ensures { IfOk result (λ s. AreAssigned s (scoped_code_of test.now) (scoped_code_of body.now)) }
{
    let mut written = HashSet::new(alloc);
    note_writes(&mut written, test)?;
    note_writes(&mut written, body)?;
    Ok(written)
}

/// A register that is used, with the scope that it may have in a loop that assigns these.
fn settled(kinds: &[Kind], assigned: &HashSet<u32>, used: Use) -> Use
    ensures { (test body : Code) → AreAssigned assigned.now test body → result ≡ settled_of kinds.now test body used }
{
    let times = used.times;
    match used.way {
        Way::Fixed { register, .. } => if assigned.contains(&register) {
            Use {
                way: Way::Own(register),
                times: 0,
            }
        } else if is_place(kinds, register, None) {
            used
        } else {
            Use {
                way: Way::Own(register),
                times,
            }
        },
        Way::Own(register) => if assigned.contains(&register) {
            Use {
                way: Way::Own(register),
                times: 0,
            }
        } else {
            used
        },
        Way::Shared => used,
    }
}

/// So all of them.
fn settle(
    alloc: Global,
    kinds: &[Kind],
    assigned: &HashSet<u32>,
    uses: Vec<Use>,
) -> Result<Vec<Use>, AllocError>
    ensures { IfOk result (λ v. (test body : Code) → AreAssigned assigned.now test body → v.items ≡ map (settled_of kinds.now test body) uses.items) }
{
    let mut made = Vec::new(alloc);
    for used in uses {
        made.push(settled(kinds, assigned, used))?;
    }
    Ok(made)
}

/// The place of the first that counts less, or that behind all.
fn place_for(ranked: &[Use], times: u32) -> usize
    ensures { result ≡ place_below times ranked.now }
{
    for place in 0..ranked.len() {
        if ranked[place].times < times {
            return place;
        }
    }
    ranked.len()
}

/// One more register in its place. The first alone are kept, so that it is found at once.
fn rank(ranked: &mut Vec<Use>, used: Use) -> Result<(), AllocError>
    ensures { OnOk result (ranked.new.items ≡ take 3 (ranked_in used ranked.old.items)) }
{
    let place = place_for(ranked, used.times);
    ranked.insert(place, used)?;
    ranked.truncate(OWN);
    Ok(())
}

/// The first registers by their rank.
fn rank_all(alloc: Global, uses: Vec<Use>) -> Result<Vec<Use>, AllocError>
    ensures { IfOk result (λ v. take 3 v.items ≡ take 3 (ranked_with [] uses.items)) }
{
    let mut ranked = Vec::new(alloc);
    for used in uses {
        rank(&mut ranked, used)?;
    }
    Ok(ranked)
}

/// The ways of uses.
fn ways_of(alloc: Global, uses: Vec<Use>) -> Result<Vec<Way>, AllocError>
    ensures { IfOk result (λ v. v.items ≡ ways_of_uses uses.items) }
{
    let mut ways = Vec::new(alloc);
    for used in uses {
        ways.push(used.way)?;
    }
    Ok(ways)
}

/// A scope for each register, or for the first by their rank, and one for all others.
fn choose(alloc: Global, uses: Vec<Use>) -> Result<Vec<Way>, AllocError>
    ensures few { IfOk result (λ v. length v.items ≤ 4) }
    ensures ways { IfOk result (λ v. v.items ≡ chosen uses.items) }
{
    if uses.len() <= MOST {
        return ways_of(alloc, uses);
    }
    let mut ranked = rank_all(alloc, uses)?;
    ranked.truncate(OWN);
    let mut ways = ways_of(alloc, ranked)?;
    ways.push(Way::Shared)?;
    Ok(ways)
}

/// What serves these uses of a loop; nothing where they are too many, and a loop inside is to have the scopes.
fn fit(
    alloc: Global,
    kinds: &[Kind],
    test: &ScopedCode,
    body: &ScopedCode,
    uses: Vec<Use>,
) -> Result<Option<Vec<Way>>, AllocError>
    ensures few { IfOk result (λ o. IfSome o (λ v. length v.items ≤ 4)) }
    ensures ways { IfOk result (λ o. listed o ≡ fitting kinds.now (scoped_code_of test.now) (scoped_code_of body.now) uses.items) }
{
    if uses.len() > MOST && (has_loop(test) || has_loop(body)) {
        return Ok(None);
    }
    let assigned = assigned_in(alloc, test, body)?;
    let uses = settle(alloc, kinds, &assigned, uses)?;
    Ok(Some(choose(alloc, uses)?))
}

/// The registers that a loop uses.
fn uses_in(alloc: Global, test: &ScopedCode, body: &ScopedCode) -> Result<Vec<Use>, AllocError>
    ensures { IfOk result (λ v. v.items ≡ uses_with (scoped_code_of body.now) (uses_with (scoped_code_of test.now) [])) }
{
    let mut uses = Vec::new(alloc);
    let mut places = HashMap::new(alloc);
    note_uses(&mut uses, &mut places, test)?;
    note_uses(&mut uses, &mut places, body)?;
    Ok(uses)
}

/// The ways of a loop's scopes; nothing where it stays as it is.
pub(crate) fn ways_for(
    alloc: Global,
    kinds: &[Kind],
    test: &ScopedCode,
    body: &ScopedCode,
) -> Result<Option<Vec<Way>>, AllocError>
    ensures few { IfOk result (λ o. IfSome o (λ v. length v.items ≤ 4)) }
    ensures ways { IfOk result (λ o. listed o ≡ ways_for_of kinds.now (scoped_code_of test.now) (scoped_code_of body.now)) }
{
    if !is_closed(test, body) {
        return Ok(None);
    }
    let uses = uses_in(alloc, test, body)?;
    fit(alloc, kinds, test, body, uses)
}
