//! The region that admitted programs share.
ghost use Rattle.object_lock.specs.Fresh.{AreNumbered, EndWithLast, IsFreshMover, IsFreshOwner, sizes_of};
ghost use Rattle.object_lock.specs.Kept.{slot_has, slot_keeps};
ghost use Rattle.object_lock.specs.NewTable.{BeginsAway};
ghost use Rattle.object_lock.specs.Logs.{Adds};
ghost use Rattle.object_lock.specs.SeatViews.{IsSeat};
ghost use Rattle.object_lock.specs.Seats.{frame_word};
ghost use Rattle.object_moves.specs.Taken.{ClaimsOne, HasOnly};
ghost use Rattle.pointer_word.specs.Calls.{Claims};
ghost use Rattle.region.specs.Admission.{IsAdmitted, IsDenied, IsWithinWork, image_at};
ghost use Rattle.world_semantics.specs.Pieces.{piece_of as first_piece};
ghost use Rattle.region.specs.Finding.{frame_found};
ghost use Rattle.std.specs.List.{All};
ghost use Rattle.std.specs.Prelude.{◌≡◌, ◌+◌, ◌*◌, ◌/◌, ◌<◌, ◌≤◌, ◌++◌, IfErr, IfOk, IfSome, Some, length, slice_get, suc};

use crate::admission::{fits, piece_of};
use crate::fault::AdmitFault;
use crate::found::Found;
use object_lock::{MoverSeat, ObjectTable, OwnerSeat};
use object_moves::find_frame;
use remote_store::{Config, RawStore, Stores};
use scope_verifier::Verified;
use std::alloc::Global;
use std::marker::Model;

/// A table of objects, the programs that share it, and how many fetchers serve them.
#[derive(Drop)]
pub struct Region<S: RawStore> {
    table: ObjectTable<S>,
    programs: Vec<Verified>,
    objects: u32,
    fetchers: u32,
}

impl<S: RawStore> Model for Region<S> {
    ghost use Rattle.region.specs.Regions.{RegionView};
    ghost use Rattle.std.specs.Prelude.{◌≤◌, length};

    ghost Value = { RegionView };

    ghost view = { λ r. record { table = r.table; programs = r.programs.items; objects = r.objects; fetchers = r.fetchers } };

    ghost invariant = { λ r. (r.objects ≤ r.table.sizes.objects) × (length r.programs.items ≤ 256) × (r.fetchers ≤ 64) };
}

impl<S: RawStore> Region<S> {
    /// The table of objects.
    pub fn table(&self) -> &ObjectTable<S>
        ensures { result.now ≡ self.now.table }
    {
        &self.table
    }

    /// How many programs there are.
    pub fn programs(&self) -> usize
        ensures programs { result ≡ length self.now.programs }
        ensures within { result ≤ 256 }
    {
        self.programs.len()
    }

    /// How many objects the programs have, which are the first of the table.
    pub fn objects(&self) -> usize
        ensures objects { result ≡ self.now.objects }
        ensures within { result ≤ self.now.table.sizes.objects }
    {
        self.objects as usize
    }

    /// How many fetchers there are.
    pub fn fetchers(&self) -> usize
        ensures fetchers { result ≡ self.now.fetchers }
        ensures within { result ≤ 64 }
    {
        self.fetchers as usize
    }

    /// The image of the program of this number, counted from 0.
    pub fn image(&self, program: usize) -> &Verified
        requires there { program < length self.now.programs }
        ensures { slice_get self.now.programs program ≡ Some result.now }
    {
        &self.programs[program]
    }

    /// Looks once at each frame, and claims the first that is free for the object that the mover is bringing in. `None` where none was found free, or another
    /// claimed it first: then the seat is as it was.
    pub fn find_frame(&self, mover: &mut MoverSeat<S>, obj: usize) -> Found
        requires table { IsSeat self.now.table mover.old }
        requires low { obj < self.now.table.sizes.objects }
        requires hands { HasOnly obj mover.old.view }
        ensures table { IsSeat self.now.table mover.new }
        ensures told { ClaimsOne mover.old mover.new (frame_found result) }
        ensures logged { IfSome (frame_found result) (λ frame. Adds mover.old.log mover.new.log (frame_word self.now.table.sizes frame) (Claims mover.old.view.number obj frame) (λ n. n ≡ 0)) }
    {
        match find_frame(&self.table, mover, obj, 0, self.table.frames()) {
            Some(frame) => Found::Claimed(frame),
            None => Found::None,
        }
    }
}

/// Admits programs to a system of these numbers, where `fits` answers that they fit: then frames have as many cells as the pieces of the programs, all objects are away, nothing was put into the store, and the seats
/// are those of the programs, in their order, and those of the evacuators and then the fetchers: the table has no other seat. Else the fault is that of `fits`. `OutOfMemory` comes last, where they fit:
/// a growth was refused, or the store could not be reached. After a refusal nothing is kept.
pub fn admit<S: RawStore, M: Stores<S = S> + Drop>(
    alloc: Global,
    programs: Vec<Verified>,
    config: Config<M>,
) -> Result<(Region<S>, Vec<OwnerSeat<S>>, Vec<MoverSeat<S>>), AdmitFault>
    requires { M.makes config.stores (first_piece (image_at programs.items) + 3) }
    ensures admitted { IfOk result (λ t. IsAdmitted programs.items config.frames config.objects config.evacuators config.fetchers) }
    ensures work { IfOk result (λ t. IsWithinWork config.workers config.quantum) }
    ensures region { IfOk result (λ t. (t.0.programs ≡ programs.items) × (t.0.table.sizes ≡ sizes_of config.objects config.frames (first_piece (image_at programs.items)) (length programs.items + config.evacuators + config.fetchers))) }
    ensures numbers { IfOk result (λ t. (t.0.objects ≡ config.objects / length programs.items * length programs.items) × (t.0.fetchers ≡ config.fetchers)) }
    ensures owners { IfOk result (λ t. AreNumbered 1 (length programs.items) t.1.items × All (IsFreshOwner t.0.table (config.objects / length programs.items)) t.1.items) }
    ensures movers { IfOk result (λ t. AreNumbered (suc (length programs.items)) (config.evacuators + config.fetchers) t.2.items × All (IsFreshMover t.0.table) t.2.items) }
    ensures last { IfOk result (λ t. EndWithLast (t.1.items ++ t.2.items)) }
    ensures away { IfOk result (λ t. BeginsAway (slot_keeps S.fits S.content t.0.table.sizes.cells) (slot_has S.fits t.0.table.sizes.cells) S.honest t.0.table.sizes (t.1.items ++ t.2.items)) }
    ensures refused { IfErr result (λ fault. IsDenied programs.items config.frames config.objects config.evacuators config.fetchers config.workers config.quantum fault) }
{
    fits(&programs, &config)?;
    let count = programs.len() as u32;
    let piece = piece_of(&programs);
    match ObjectTable::new(alloc, count, &config, piece) {
        Ok((table, owners, movers)) => {
            let region = Region {
                table,
                programs,
                objects: config.objects / count * count,
                fetchers: config.fetchers,
            };
            Ok((region, owners, movers))
        }
        Err(_want) => Err(AdmitFault::OutOfMemory),
    }
}
