//! Whether there are frames enough.
ghost use Rattle.object_lock.specs.Fresh.{IsWithinLimits};
ghost use Rattle.cells.specs.Pieces.{cells_in};
ghost use Rattle.region.specs.Admission.{DiffersFirst, IsAdmitted, IsRefused, IsWithinWork, image_at, needed};
ghost use Rattle.world_semantics.specs.Pieces.{HaveOnePiece, piece_of as first_piece};
ghost use Rattle.std.specs.Prelude.{◌≡◌, ◌⊎◌, ◌≤◌, MatchOption, MatchResult, false, length, min, true};

use crate::fault::AdmitFault;
use cells::Piece;
use remote_store::{Config, Stores};
use scope_verifier::Verified;
use scope_verifier_laws::accepted_is_verified;

/// The most programs of a system.
const MOST_PROGRAMS: usize = 256;

/// The most frames of a system.
const MOST_FRAMES: u32 = 1_048_576;

/// The most objects of a system.
const MOST_OBJECTS: u32 = 16_777_216;

/// The most evacuators of a system, and the most fetchers.
const MOST_MOVERS: u32 = 64;

/// The most workers of a system.
const MOST_WORKERS: u32 = 64;

/// The most instructions that a worker runs at once of one program.
const MOST_QUANTUM: u32 = 1_000_000;

/// How many frames these programs may need at once, with so many evacuators and fetchers: one for each scope that a program may have open, and one for each
/// evacuator and each fetcher; 2^64 - 1 where they are more than that.
pub fn need(programs: &[Verified], evacuators: u32, fetchers: u32) -> u64
    ensures { result ≡ min (needed programs.now evacuators fetchers) 18446744073709551615 }
{
    let mut frames = 0u64;
    for program in programs {
        frames = frames.saturating_add(u64::from(program.scopes()));
    }
    frames
        .saturating_add(u64::from(evacuators))
        .saturating_add(u64::from(fetchers))
}

/// Whether each number of a system is within its limit, and there is a program.
fn is_within_limits<M: Stores + Drop>(programs: usize, config: &Config<M>) -> bool
    ensures within { result ≡ true → IsWithinLimits programs config.now.frames config.now.objects config.now.evacuators config.now.fetchers }
    ensures beyond { result ≡ false → IsWithinLimits programs config.now.frames config.now.objects config.now.evacuators config.now.fetchers → ⊥ }
{
    0 < programs
        && programs <= MOST_PROGRAMS
        && 0 < config.frames
        && config.frames <= MOST_FRAMES
        && 0 < config.objects
        && config.objects <= MOST_OBJECTS
        && config.evacuators <= MOST_MOVERS
        && config.fetchers <= MOST_MOVERS
}

/// Whether there are workers, whose turns have instructions, and both numbers are within their limits.
fn is_within_work<M: Stores + Drop>(config: &Config<M>) -> bool
    ensures within { result ≡ true → IsWithinWork config.now.workers config.now.quantum }
    ensures beyond { result ≡ false → IsWithinWork config.now.workers config.now.quantum → ⊥ }
{
    0 < config.workers
        && config.workers <= MOST_WORKERS
        && 0 < config.quantum
        && config.quantum <= MOST_QUANTUM
}

/// The size of the pieces of programs that have one, which is that of the first; of no program, 64 cells.
pub fn piece_of(programs: &[Verified]) -> Piece
    ensures { cells_in result ≡ first_piece (image_at programs.now) }
{
    match programs.first() {
        Some(program) => program.image().piece,
        None => Piece::Cells64,
    }
}

/// The first program whose pieces have another size than those of program 0.
fn first_other(programs: &[Verified]) -> Option<u32>
    requires { length programs.now ≤ 256 }
    ensures { MatchOption result (HaveOnePiece (image_at programs.now) (length programs.now)) (λ k. DiffersFirst programs.now k) }
{
    let cells = piece_of(programs).cells();
    let mut index = 0u32;
    for program in programs {
        if program.image().piece.cells() != cells {
            return Some(index);
        }
        index += 1;
    }
    None
}

/// Whether programs are admitted to a system of these numbers. `TooMany` comes first: there is no program or no worker, a worker
/// would run no instruction at once, or some number is beyond its limit. `PieceDiffers` comes then: pieces have other sizes. `TooSmall` comes last: there are fewer
/// frames than the programs, evacuators and fetchers may need at once.
pub fn fits<M: Stores + Drop>(programs: &[Verified], config: &Config<M>) -> Result<(), AdmitFault>
    ensures { MatchResult result
        (λ _. IsAdmitted programs.now config.now.frames config.now.objects config.now.evacuators config.now.fetchers × IsWithinWork config.now.workers config.now.quantum)
        (λ fault. IsRefused programs.now config.now.frames config.now.objects config.now.evacuators config.now.fetchers config.now.workers config.now.quantum fault) }
{
    accepted_is_verified();
    if !is_within_limits(programs.len(), config) {
        return Err(AdmitFault::TooMany);
    }
    if !is_within_work(config) {
        return Err(AdmitFault::TooMany);
    }
    if let Some(program) = first_other(programs) {
        return Err(AdmitFault::PieceDiffers { program });
    }
    let need = need(programs, config.evacuators, config.fetchers);
    let have = u64::from(config.frames);
    if have < need {
        return Err(AdmitFault::TooSmall { need, have });
    }
    Ok(())
}
