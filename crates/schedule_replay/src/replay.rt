//! The replay of a schedule by programs that are admitted.
ghost use Rattle.code_form.specs.Form.{image_of};
ghost use Rattle.region.specs.Admission.{IsAdmitted, image_at};
ghost use Rattle.schedule_replay.specs.Replayed.{IsReplayed, IsUnreplayed};
ghost use Rattle.std.specs.Prelude.{◌≡◌, ◌+◌, IfOk, MatchResult, length, map};
ghost use Rattle.world.specs.Opened.{sizes_of};
ghost use Rattle.world_semantics.specs.Pieces.{piece_of};

use cells::Ended;
use code_form::Image;
use remote_store::{Config, Stores};
use scope_verifier::Verified;
use std::alloc::{AllocError, Global};
use world::{Refused, replay};

/// The images of programs, in their order. `Err` where a growth is refused.
fn images(alloc: Global, programs: Vec<Verified>) -> Result<Vec<Image>, AllocError>
    ensures { IfOk result (λ v. map image_of v.items ≡ map (λ p. image_of p.image) programs.items) }
{
    let mut images = Vec::new(alloc);
    for program in programs {
        images.push(program.into_image())?;
    }
    Ok(images)
}

/// What each of these programs has come to after all lines of a schedule, over stores that `config` makes. The programs are those that `fits` admits,
/// and the stores make cells for their pieces.
///
/// `Line` names the first line that can't be read or is not enabled, counted from 1. `OutOfMemory` where a growth was refused, or a store could not be
/// made. After a refusal nothing is kept. A reliable store failed in none of the events.
pub fn replay_admitted<M: Stores + Drop>(
    alloc: Global,
    programs: Vec<Verified>,
    config: &Config<M>,
    schedule: &[u8],
) -> Result<Vec<Ended>, Refused>
    requires admitted { IsAdmitted programs.items config.now.frames config.now.objects config.now.evacuators config.now.fetchers }
    requires store { M.makes config.now.stores (piece_of (image_at programs.items) + 3) }
    ensures { MatchResult result
        (λ ends. IsReplayed M.S.honest M.S.reliable (sizes_of (length programs.items) config.now.frames config.now.objects config.now.evacuators config.now.fetchers (piece_of (image_at programs.items))) (image_at programs.items) schedule.now ends.items)
        (λ refused. IsUnreplayed M.S.honest M.S.reliable (sizes_of (length programs.items) config.now.frames config.now.objects config.now.evacuators config.now.fetchers (piece_of (image_at programs.items))) (image_at programs.items) schedule.now refused) }
{
    let Ok(images) = images(alloc, programs) else {
        return Err(Refused::OutOfMemory);
    };
    match replay(alloc, images, config, schedule) {
        Ok(report) => Ok(report.ended),
        Err(refused) => Err(refused),
    }
}
