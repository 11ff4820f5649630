//! Which programs are admitted.
ghost use Rattle.region.specs.Admission.{image_at};
ghost use Rattle.world_semantics.specs.Pieces.{piece_of as first_piece};
ghost use Rattle.std.specs.Prelude.{◌+◌};

use crate::setting::Setting;
use crate::shelf::Shelf;
use code_form::Image;
use region::{AdmitFault, admit, fits, need, piece_of};
use remote_store::{Config, Stores};
use scope_verifier::{Verified, verify};
use std::alloc::{AllocError, Global};
use std::fmt::Write;

/// The verified images of these. None where one is refused.
pub(crate) fn verified(
    alloc: Global,
    images: Vec<Image>,
) -> Result<Option<Vec<Verified>>, AllocError> {
    let mut programs = Vec::new(alloc);
    for image in images {
        let Ok(program) = verify(alloc, image) else {
            return Ok(None);
        };
        programs.push(program)?;
    }
    Ok(Some(programs))
}

/// How many programs, seats of owners and seats of movers a region has, into which these programs are admitted.
fn admitted<M: Stores + Drop>(
    alloc: Global,
    programs: Vec<Verified>,
    config: Config<M>,
) -> Result<(usize, usize, usize), AdmitFault>
    requires { M.makes config.stores (first_piece (image_at programs.items) + 3) }
{
    fits(&programs, &config)?;
    let (region, owners, movers) = admit(alloc, programs, config)?;
    Ok((region.programs(), owners.len(), movers.len()))
}

/// What is told where programs need so many frames, and this came of admitting them.
fn tell_admission(
    alloc: Global,
    need: u64,
    admitted: Result<(usize, usize, usize), AdmitFault>,
) -> Result<String, AllocError> {
    let mut told = String::new(alloc);
    writeln!(told, "need {need}")?;
    match admitted {
        Ok((programs, owners, movers)) => writeln!(
            told,
            "admitted: {programs} programs, {owners} owners, {movers} movers"
        )?,
        Err(fault) => writeln!(told, "{fault}")?,
    }
    Ok(told)
}

/// What is told of a row.
pub(crate) fn tell(
    alloc: Global,
    shelf: &Shelf,
    setting: &Setting<'_>,
) -> Result<String, AllocError> {
    let Some(images) = setting.images(alloc, shelf)? else {
        return String::from_str(alloc, "no such image");
    };
    let Some(programs) = verified(alloc, images)? else {
        return String::from_str(alloc, "an image that is not verified");
    };
    let Some(config) = setting.any_config(alloc, piece_of(&programs)) else {
        return Err(AllocError);
    };
    let need = need(&programs, config.evacuators, config.fetchers);
    tell_admission(alloc, need, admitted(alloc, programs, config))
}
