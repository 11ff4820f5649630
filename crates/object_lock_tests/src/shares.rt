//! How objects are parted among programs.
ghost use Rattle.std.specs.Prelude.{◌≡◌};
ghost use Rattle.object_lock.specs.Fresh.{IsWithinLimits};

use crate::tape::Tape;
use cells::Piece;
use object_lock::ObjectTable;
use remote_store::{Config, FarHeap};
use std::alloc::Global;

/// The seats of so many programs, evacuators and fetchers: how many of them there are, the numbers of the table, and the objects of
/// each program, with how many puts and gets were refused through its port.
fn parts(alloc: Global, programs: u32, config: &Config<FarHeap>, tape: &mut Tape)
    requires limits { IsWithinLimits programs config.now.frames config.now.objects config.now.evacuators config.now.fetchers }
    requires store { config.now.stores.words ≡ 67 }
{
    let Ok((table, owners, movers)) = ObjectTable::<FarHeap>::new(
        alloc,
        programs,
        config,
        Piece::Cells64,
    ) else {
        return;
    };
    tape.number(owners.len() as u64);
    tape.number(movers.len() as u64);
    tape.number(table.frames() as u64);
    tape.number(table.objects() as u64);
    for owner in &owners {
        tape.number(owner.low() as u64);
        tape.number(owner.high() as u64);
        tape.number(owner.refusals().count);
    }
}

/// One program and an evacuator.
pub(crate) fn parts_among_one(alloc: Global, tape: &mut Tape) {
    let config = Config {
        frames: 4,
        objects: 1,
        evacuators: 1,
        fetchers: 0,
        workers: 4,
        quantum: 1_000,
        stores: FarHeap::new(Piece::Cells64),
    };
    parts(alloc, 1, &config, tape);
}

/// Two programs, an evacuator and two fetchers.
pub(crate) fn parts_among_two(alloc: Global, tape: &mut Tape) {
    let config = Config {
        frames: 2,
        objects: 7,
        evacuators: 1,
        fetchers: 2,
        workers: 4,
        quantum: 1_000,
        stores: FarHeap::new(Piece::Cells64),
    };
    parts(alloc, 2, &config, tape);
}
