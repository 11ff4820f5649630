//! What the scopes of a loop serve, and how often its registers are used.
ghost use Rattle.guard_hoisting.specs.Building.{ArePlaces};
ghost use Rattle.guard_hoisting.specs.Ways.{first_way as first_way_of, scope_in, serves as serves_of, used_again as used_again_of, way_at as way_at_of, with_use};
ghost use Rattle.std.specs.HashMap.{get};
ghost use Rattle.std.specs.Prelude.{◌≡◌, ◌≤◌, OnOk, length, nat_eq, unwrap_or};

use std::alloc::AllocError;
use std::collections::HashMap;

/// What a scope serves in a loop.
#[derive(Clone, Copy)]
pub(crate) enum Way {
    /// The loads and stores of one cell of what a pointer refers to: it is aimed before the loop.
    Fixed { register: u32, displacement: u32 },
    /// All loads and stores through a register: it is aimed at each.
    Own(u32),
    /// All that no other scope serves: it is aimed at each.
    Shared,
}

/// A register that a loop uses.
#[derive(Clone, Copy)]
pub(crate) struct Use {
    /// What a scope of its own would serve.
    pub(crate) way: Way,
    /// How many loads and stores are through it.
    pub(crate) times: u32,
}

/// Whether a scope serves the loads and stores of a cell.
fn serves(way: Way, register: u32, offset: Option<u32>, displacement: u32) -> bool
    ensures { result ≡ serves_of way register offset displacement }
{
    match way {
        Way::Fixed {
            register: pointer,
            displacement: cell,
        } => match offset {
            None => register == pointer && displacement == cell,
            Some(_) => false,
        },
        Way::Own(own) => register == own,
        Way::Shared => true,
    }
}

/// The first scope that serves the loads and stores of a cell.
pub(crate) fn scope_for(ways: &[Way], register: u32, offset: Option<u32>, displacement: u32) -> u8
    requires { length ways.now ≤ 4 }
    ensures { result ≡ scope_in ways.now register offset displacement }
{
    for scope in 0..ways.len() as u8 {
        if serves(ways[usize::from(scope)], register, offset, displacement) {
            return scope;
        }
    }
    ways.len() as u8
}

/// What a scope serves.
pub(crate) fn way_at(ways: &[Way], scope: u8) -> Way
    ensures { result ≡ way_at_of ways.now scope }
{
    match ways.get(usize::from(scope)) {
        Some(way) => *way,
        None => Way::Shared,
    }
}

/// The way of a register that is used for the first time.
fn first_way(register: u32, offset: Option<u32>, displacement: u32) -> Way
    ensures { result ≡ first_way_of register offset displacement }
{
    match offset {
        None => Way::Fixed {
            register,
            displacement,
        },
        Some(_) => Way::Own(register),
    }
}

/// A further use of a register.
fn used_again(used: Use, register: u32, offset: Option<u32>, displacement: u32) -> Use
    ensures { result ≡ used_again_of used register offset displacement }
{
    let way = if serves(used.way, register, offset, displacement) {
        used.way
    } else {
        Way::Own(register)
    };
    Use {
        way,
        times: used.times.saturating_add(1),
    }
}

/// The place of a register among those that are used, or that behind them.
fn place_of(uses: &[Use], places: &HashMap<u32, usize>, register: u32) -> usize
    ensures { result ≡ unwrap_or (get nat_eq places.now register) (length uses.now) }
{
    match places.get(&register) {
        Some(place) => *place,
        None => uses.len(),
    }
}

/// One more load or store.
pub(crate) fn note(
    uses: &mut Vec<Use>,
    places: &mut HashMap<u32, usize>,
    register: u32,
    offset: Option<u32>,
    displacement: u32,
) -> Result<(), AllocError>
    ensures { OnOk result (ArePlaces places.old uses.old.items → ArePlaces places.new uses.new.items × (uses.new.items ≡ with_use register offset displacement uses.old.items)) }
{
    let place = place_of(uses, places, register);
    if place < uses.len() {
        uses[place] = used_again(uses[place], register, offset, displacement);
        return Ok(());
    }
    places.insert(register, place)?;
    uses.push(Use {
        way: first_way(register, offset, displacement),
        times: 1,
    })?;
    Ok(())
}
