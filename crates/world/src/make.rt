//! How a world is made.
ghost use Rattle.cells.specs.Pieces.{cells_in};
ghost use Rattle.code_form.specs.Form.{image_of};
ghost use Rattle.std.specs.Prelude.{◌≡◌, ◌≢◌, ◌+◌, ◌*◌, ◌<◌, ◌≤◌, ℕ, IfErr, IfOk, None, length};
ghost use Rattle.world.specs.Opened.{AreAtRest, AreBegun, AreIdle};

use cells::{Piece, Want};
use code_form::Image;
use remote_store::{Port, RawStore, Stores};
use std::alloc::Global;
use world_actors::{EvacuatorActor, ProgramActor};
use world_fetchers::FetcherActor;

/// Each image's program at its beginning, with a share of the objects and a way to the store.
pub(crate) fn new_programs<'a, S: RawStore, M: Stores<S = S>>(
    alloc: Global,
    stores: &M,
    images: &'a [Image],
    share: u64,
) -> Result<Vec<(ProgramActor<'a>, Port<S>)>, Want>
    requires few { length images.now ≤ 256 }
    requires share { share ≤ 16777216 }
    requires room { length images.now * share ≤ 16777216 }
    ensures made { IfOk result (λ v. (length v.items ≡ length images.now) × AreBegun images.now share v.items) }
    ensures wants { IfErr result (λ want. want ≢ Want.NoObjects) }
{
    let mut programs = Vec::new(alloc);
    while programs.len() < images.len() {
        let number = programs.len();
        let base = number as u64 * share;
        let Ok(program) = ProgramActor::new(
            alloc,
            &images[number],
            base,
            base + share,
            number as u16 + 1,
        ) else {
            return Err(Want::OutOfMemory);
        };
        let port = Port::new(stores.one(alloc)?);
        if let Err(_refused) = programs.push((program, port)) {
            return Err(Want::OutOfMemory);
        }
    }
    Ok(programs)
}

/// Evacuators that are idle, whose numbers as movers are those behind `programs`, each with a way to the store.
pub(crate) fn new_evacuators<S: RawStore, M: Stores<S = S>>(
    alloc: Global,
    stores: &M,
    programs: usize,
    count: usize,
    piece: Piece,
) -> Result<Vec<(EvacuatorActor, Port<S>)>, Want>
    requires { (programs ≤ 256) × (count ≤ 64) }
    ensures made { IfOk result (λ v. (length v.items ≡ count) × AreIdle (cells_in piece) programs v.items) }
    ensures wants { IfErr result (λ want. want ≢ Want.NoObjects) }
{
    let mut evacuators = Vec::new(alloc);
    while evacuators.len() < count {
        let number = programs + evacuators.len() + 1;
        let Ok(evacuator) = EvacuatorActor::new(alloc, number as u16, piece) else {
            return Err(Want::OutOfMemory);
        };
        let port = Port::new(stores.one(alloc)?);
        if let Err(_refused) = evacuators.push((evacuator, port)) {
            return Err(Want::OutOfMemory);
        }
    }
    Ok(evacuators)
}

/// Fetchers that are idle, whose numbers as movers are those behind `before`, each with a way to the store.
pub(crate) fn new_fetchers<S: RawStore, M: Stores<S = S>>(
    alloc: Global,
    stores: &M,
    before: usize,
    count: usize,
    piece: Piece,
) -> Result<Vec<(FetcherActor, Port<S>)>, Want>
    requires { (before ≤ 320) × (count ≤ 64) }
    ensures made { IfOk result (λ v. (length v.items ≡ count) × AreAtRest (cells_in piece) before v.items) }
    ensures wants { IfErr result (λ want. want ≢ Want.NoObjects) }
{
    let mut fetchers = Vec::new(alloc);
    while fetchers.len() < count {
        let number = before + fetchers.len() + 1;
        let Ok(fetcher) = FetcherActor::new(alloc, number as u16, piece) else {
            return Err(Want::OutOfMemory);
        };
        let port = Port::new(stores.one(alloc)?);
        if let Err(_refused) = fetchers.push((fetcher, port)) {
            return Err(Want::OutOfMemory);
        }
    }
    Ok(fetchers)
}
