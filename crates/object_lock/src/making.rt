//! How a table is made with all its seats.
ghost use Rattle.std.specs.Prelude.{◌≡◌, ◌≢◌, ℕ, ◌+◌, ◌-◌, ◌*◌, ◌/◌, ◌<◌, ◌≤◌, true, None, IfOk, IfErr, [], ◌∷◌, ◌++◌, length, suc};
ghost use mathlib.Core.Option.{some};
ghost use lib.ListN.{get_elem?};
ghost use Rattle.std.specs.List.{All};
ghost use Rattle.cells.specs.Pieces.{cells_in};
ghost use Rattle.remote_store.specs.Refusing.{no_refusals};
ghost use Rattle.object_lock.specs.Kept.{slot_keeps, slot_has};
ghost use Rattle.object_lock.specs.NewTable.{BeginsAway};
ghost use Rattle.object_lock.specs.Seats.{first_part, next_owner, whole_part, next_mover};
ghost use Rattle.object_lock.specs.SeatViews.{IsSeat};
ghost use Rattle.object_lock.specs.Fresh.{IsFresh, IsFreshOwner, IsFreshMover, IsLastOwner, IsLastMover, AreNumbered, EndWithLast, IsWithinLimits, sizes_of};

use crate::seat::{MoverSeat, OwnerSeat};
use crate::shape::Shape;
use crate::table::{LockWords, ObjectTable};
use cells::{Piece, Want};
use remote_store::{Berth, Config, Port, RawStore, Stores};
use std::alloc::Global;

/// A slot for each object, with a berth into which nothing was put yet.
fn empty_berths<S: RawStore>(
    alloc: Global,
    store: &S,
    objects: usize,
) -> Result<Vec<Option<Berth<S::Cell>>>, Want>
    ensures made { IfOk result (λ v. (length v.items ≡ objects) × ((o : ℕ) → o < length v.items → (b : _) × (get_elem? v.items o ≡ some b) × ((n : ℕ) → S.makes store.now (n + 3) → slot_keeps S.fits S.content n b o []))) }
    ensures wants { IfErr result (λ want. want ≢ Want.NoObjects) }
{
    let mut slots = Vec::new(alloc);
    while slots.len() < objects {
        let cell = store.cell(alloc)?;
        if let Err(_refused) = slots.push(Some(Berth::new(cell))) {
            return Err(Want::OutOfMemory);
        }
    }
    Ok(slots)
}

impl<S: RawStore> ObjectTable<S> {
    /// The last seat keeps `share` of its objects, and a new owner gets the others.
    fn next_owner<M: Stores<S = S>>(
        &self,
        alloc: Global,
        stores: &M,
        last: &mut OwnerSeat<S>,
        share: usize,
    ) -> Result<OwnerSeat<S>, Want>
        requires table { IsSeat self.now last.old × (0 < self.now.sizes.objects) }
        requires unused { last.old.log ≡ [] }
        requires last { (last.old.view.last ≡ true) × (last.old.view.number < 65535) × (share ≡ last.old.view.share) × (last.old.view.low + share ≤ last.old.view.high) × (last.old.view.number < self.now.sizes.seats) }
        ensures made { IfOk result (λ next. (last.new ≡ record last.old { view = first_part last.old.view }) × (next.table ≡ last.old.table) × (next.view ≡ next_owner last.old.view) × (next.log ≡ []) × (next.brought ≡ None) × (next.taken ≡ None) × (next.refusals ≡ no_refusals)) }
        ensures wants { IfErr result (λ want. want ≢ Want.NoObjects) }
    {
        let port = Port::new(stores.one(alloc)?);
        let seat = self.words.split_owner(&mut last.seat);
        let high = last.high;
        last.high = last.low + share;
        Ok(MoverSeat {
            port,
            seat,
            brought: None,
            taken: None,
            source: 0,
            number: last.number + 1,
            low: last.high,
            high,
        })
    }

    /// The last seat keeps its objects, and a new mover has none.
    fn next_mover<M: Stores<S = S>>(
        &self,
        alloc: Global,
        stores: &M,
        last: &mut MoverSeat<S>,
    ) -> Result<MoverSeat<S>, Want>
        requires table { IsSeat self.now last.old × (0 < self.now.sizes.objects) }
        requires unused { last.old.log ≡ [] }
        requires last { (last.old.view.last ≡ true) × (last.old.view.number < 65535) × (last.old.view.low ≤ last.old.view.high) × (last.old.view.number < self.now.sizes.seats) }
        ensures made { IfOk result (λ next. (last.new ≡ record last.old { view = whole_part last.old.view }) × (next.table ≡ last.old.table) × (next.view ≡ next_mover last.old.view) × (next.log ≡ []) × (next.brought ≡ None) × (next.taken ≡ None) × (next.refusals ≡ no_refusals)) }
        ensures wants { IfErr result (λ want. want ≢ Want.NoObjects) }
    {
        let port = Port::new(stores.one(alloc)?);
        let seat = self.words.split_mover(&mut last.seat);
        Ok(MoverSeat {
            port,
            seat,
            brought: None,
            taken: None,
            source: 0,
            number: last.number + 1,
            low: last.high,
            high: last.high,
        })
    }

    /// The seats of all programs but the last, and that of the last.
    fn owners<M: Stores<S = S>>(
        &self,
        alloc: Global,
        stores: &M,
        first: OwnerSeat<S>,
        programs: usize,
        share: usize,
    ) -> Result<(Vec<OwnerSeat<S>>, OwnerSeat<S>), Want>
        requires numbers { (0 < self.now.sizes.objects) × (0 < programs) × (programs ≤ 256) × (programs ≤ self.now.sizes.seats) }
        requires first { IsLastOwner self.now share programs 0 first }
        ensures made { IfOk result (λ t. AreNumbered 1 (programs - 1) t.0.items × All (IsFreshOwner self.now share) t.0.items × IsLastOwner self.now share programs (programs - 1) t.1) }
        ensures wants { IfErr result (λ want. want ≢ Want.NoObjects) }
    {
        let mut owners = Vec::new(alloc);
        let mut last = first;
        for _program in 0..programs - 1 {
            let next = self.next_owner(alloc, stores, &mut last, share)?;
            if let Err(_refused) = owners.push(last) {
                return Err(Want::OutOfMemory);
            }
            last = next;
        }
        Ok((owners, last))
    }

    /// The seats of the movers that own nothing, `count` of them, behind the last owner's.
    fn movers<M: Stores<S = S>>(
        &self,
        alloc: Global,
        stores: &M,
        owner: &mut OwnerSeat<S>,
        count: usize,
    ) -> Result<Vec<MoverSeat<S>>, Want>
        requires numbers { (0 < self.now.sizes.objects) × (owner.old.view.number + count < 65535) × (owner.old.view.number + count ≤ self.now.sizes.seats) }
        requires owner { IsFresh self.now owner.old × (owner.old.view.low ≤ owner.old.view.high) × (owner.old.view.last ≡ true) }
        ensures made { IfOk result (λ v. AreNumbered (suc owner.old.view.number) count v.items × All (IsFreshMover self.now) v.items × (owner.new ≡ record owner.old { view = record owner.old.view { last = owner.new.view.last } })) }
        ensures last { IfOk result (λ v. EndWithLast (owner.new ∷ v.items)) }
        ensures wants { IfErr result (λ want. want ≢ Want.NoObjects) }
    {
        let mut movers = Vec::new(alloc);
        if count == 0 {
            return Ok(movers);
        }
        let mut last = self.next_mover(alloc, stores, owner)?;
        for _made in 0..count - 1 {
            let next = self.next_mover(alloc, stores, &mut last)?;
            if let Err(_refused) = movers.push(last) {
                return Err(Want::OutOfMemory);
            }
            last = next;
        }
        if let Err(_refused) = movers.push(last) {
            return Err(Want::OutOfMemory);
        }
        Ok(movers)
    }

    /// The seats of all programs, and of the movers that own nothing, `count` of them.
    fn seats<M: Stores<S = S>>(
        &self,
        alloc: Global,
        stores: &M,
        first: OwnerSeat<S>,
        programs: usize,
        share: usize,
        count: usize,
    ) -> Result<(Vec<OwnerSeat<S>>, Vec<MoverSeat<S>>), Want>
        requires numbers { (0 < self.now.sizes.objects) × (0 < programs) × (programs ≤ 256) × (count ≤ 128) × (programs + count ≤ self.now.sizes.seats) }
        requires first { IsLastOwner self.now share programs 0 first }
        ensures made { IfOk result (λ t. AreNumbered 1 programs t.0.items × All (IsFreshOwner self.now share) t.0.items × AreNumbered (suc programs) count t.1.items × All (IsFreshMover self.now) t.1.items) }
        ensures last { IfOk result (λ t. EndWithLast (t.0.items ++ t.1.items)) }
        ensures wants { IfErr result (λ want. want ≢ Want.NoObjects) }
    {
        let (mut owners, mut last) = self.owners(alloc, stores, first, programs, share)?;
        let movers = self.movers(alloc, stores, &mut last, count)?;
        if let Err(_refused) = owners.push(last) {
            return Err(Want::OutOfMemory);
        }
        Ok((owners, movers))
    }

    /// A table of `config`'s numbers, with frames for pieces of this size, whose objects are all away and in whose store nothing was put yet, with the seats of
    /// the programs and those of the evacuators and then the fetchers: the table has no other seat, and its numbers tell how many these are. `OutOfMemory`
    /// where a growth was refused, and the wants of making the stores and their cells.
    pub fn new<M: Stores<S = S> + Drop>(
        alloc: Global,
        programs: u32,
        config: &Config<M>,
        piece: Piece,
    ) -> Result<(ObjectTable<S>, Vec<OwnerSeat<S>>, Vec<MoverSeat<S>>), Want>
        requires limits { IsWithinLimits programs config.now.frames config.now.objects config.now.evacuators config.now.fetchers }
        requires store { M.makes config.now.stores (cells_in piece + 3) }
        ensures made { IfOk result (λ t. (t.0.sizes ≡ sizes_of config.now.objects config.now.frames (cells_in piece) (programs + config.now.evacuators + config.now.fetchers))
            × AreNumbered 1 programs t.1.items × All (IsFreshOwner t.0 (config.now.objects / programs)) t.1.items
            × AreNumbered (suc programs) (config.now.evacuators + config.now.fetchers) t.2.items × All (IsFreshMover t.0) t.2.items) }
        ensures last { IfOk result (λ t. EndWithLast (t.1.items ++ t.2.items)) }
        ensures away { IfOk result (λ t. BeginsAway (slot_keeps S.fits S.content t.0.sizes.cells) (slot_has S.fits t.0.sizes.cells) S.honest t.0.sizes (t.1.items ++ t.2.items)) }
        ensures wants { IfErr result (λ want. want ≢ Want.NoObjects) }
    {
        let port = Port::new(config.stores.one(alloc)?);
        let share = config.objects / programs;
        let shape = Shape {
            objects: config.objects as u64,
            frames: config.frames as u64,
            cells: piece.cells() as u64,
            share: share as u64,
            owned: (share * programs) as u64,
            seats: programs as u64 + config.evacuators as u64 + config.fetchers as u64,
        };
        let slots = empty_berths(alloc, port.store(), config.objects as usize)?;
        let Ok((words, seat)) = LockWords::lay(alloc, shape, slots) else {
            return Err(Want::OutOfMemory);
        };
        let table = ObjectTable { words };
        let first = MoverSeat {
            port,
            seat,
            brought: None,
            taken: None,
            source: 0,
            number: 1,
            low: 0,
            high: shape.owned as usize,
        };
        let count = config.evacuators as usize + config.fetchers as usize;
        let (owners, movers) = table.seats(
            alloc,
            &config.stores,
            first,
            programs as usize,
            share as usize,
            count,
        )?;
        Ok((table, owners, movers))
    }
}
