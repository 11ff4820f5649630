//! Schedules, replayed.
ghost use Rattle.std.specs.Prelude.{◌≡◌, ◌+◌, ◌<◌, ◌≤◌, ℕ, MatchOption, MatchResult, length};
ghost use Rattle.code_form.specs.Form.{Image as ImageOf};
ghost use Rattle.world.specs.Stepped.{IsWorld};
ghost use Rattle.world.specs.Opened.{images_of, sizes_of};
ghost use Rattle.world_semantics.specs.Pieces.{HaveOnePiece, piece_of};
ghost use Rattle.world.specs.Parts.{parts};
ghost use Rattle.world.specs.Reports.{HasLed, IsRefusal, IsRefusedFrom, IsReport};
ghost use Rattle.world_semantics.specs.Worlds.{Sizes, World as Defined};

use crate::world::World;
use cells::Ended;
use code_form::Image;
use remote_store::{Config, RawStore, Stores};
use schedule_lines::line::read_line;
use std::alloc::Global;
use thiserror::Error;
use world_semantics::event::Step;

/// What each program printed, how it runs, and how many instructions it completed, after all lines of a schedule.
#[derive(Debug, Drop)]
pub struct Report {
    pub ended: Vec<Ended>,
}

/// Why a schedule is not replayed.
#[derive(Clone, Copy, PartialEq, Eq, Debug, Error)]
pub enum Refused {
    /// This line, counted from 1, can't be read or is not enabled, and is none of a program that wants memory.
    #[error("refused line {line}")]
    Line { line: u64 },
    /// A growth of memory was refused, also to a program that is to do a line behind that, or a store could not be made.
    #[error("out of memory")]
    OutOfMemory,
}

/// Does the lines of a schedule in turn, up to the first that can't be read or is not enabled, if there is one: `OutOfMemory` where it is one of a program that
/// wants memory, else its number.
pub(crate) fn follow<S: RawStore>(world: &mut World<'_, S>, schedule: &[u8]) -> Option<Refused>
    ensures { (z : Sizes) (images : ℕ → ImageOf) (w : Defined) → IsWorld S.content S.honest z images (parts world.old) w
        → MatchOption result ((v : Defined) × HasLed S.honest S.reliable S.failures S.read_gives z images w (parts world.old)
        schedule.now v (parts world.new)
        × IsWorld S.content S.honest z images (parts world.new) v)
        (λ refused. IsRefusedFrom S.honest S.reliable S.failures S.read_gives z images w (parts world.old) schedule.now refused) }
{
    let mut rest = schedule;
    let mut line = 1;
    while !rest.is_empty() {
        let Some((actor, choice, others)) = read_line(rest) else {
            return Some(Refused::Line { line });
        };
        match world.step(actor, choice) {
            Step::Took => {
                rest = others;
                line += 1;
            }
            Step::NotEnabled if world.wants_memory(actor) => return Some(Refused::OutOfMemory),
            Step::NotEnabled => return Some(Refused::Line { line }),
        }
    }
    None
}

/// What each program came to after all lines of a schedule, over stores that `config` makes. A line is an actor (`p`, `e` or `f` and its number),
/// then nothing, or a blank and a verb with its numbers (`look F`, `claim F`, `mark O F`, `leave O F`, `begin O`), and a newline.
///
/// `Line` names the first line that can't be read or is not enabled, counted from 1. `OutOfMemory` where a growth was refused, or a store
/// could not be made, and in place of `Line` where the line is one of a program that wants memory. There are 1 to 256 images, all of one piece, and at most 64
/// evacuators and 64 fetchers.
pub fn replay<M: Stores + Drop>(
    alloc: Global,
    images: Vec<Image>,
    config: &Config<M>,
    schedule: &[u8],
) -> Result<Report, Refused>
    requires images { (0 < length images.items) × (length images.items ≤ 256) }
    requires frames { (0 < config.now.frames) × (config.now.frames ≤ 1048576) }
    requires objects { (0 < config.now.objects) × (config.now.objects ≤ 16777216) }
    requires evacuators { config.now.evacuators ≤ 64 }
    requires fetchers { config.now.fetchers ≤ 64 }
    requires pieces { HaveOnePiece (images_of images.items) (length images.items) }
    requires store { M.makes config.now.stores (piece_of (images_of images.items) + 3) }
    ensures { MatchResult result
        (λ report. IsReport M.S.honest M.S.reliable M.S.failures M.S.read_gives (sizes_of (length images.items) config.now.frames config.now.objects config.now.evacuators config.now.fetchers (piece_of (images_of images.items))) (images_of images.items) schedule.now report.ended.items)
        (λ refused. IsRefusal M.S.honest M.S.reliable M.S.failures M.S.read_gives (sizes_of (length images.items) config.now.frames config.now.objects config.now.evacuators config.now.fetchers (piece_of (images_of images.items))) (images_of images.items) schedule.now refused) }
{
    let Ok(mut world) = World::new(alloc, &images, config) else {
        return Err(Refused::OutOfMemory);
    };
    if let Some(refused) = follow(&mut world, schedule) {
        return Err(refused);
    }
    match world.ends(alloc) {
        Ok(ended) => Ok(Report { ended }),
        Err(_refused) => Err(Refused::OutOfMemory),
    }
}
