//! The image that bytes are.
ghost use Rattle.cells.specs.Pieces.{cells_in};
ghost use Rattle.code_form.specs.Form.{image_of};
ghost use Rattle.image_bytes.specs.Encodable.{IsImage};
ghost use Rattle.image_reader.specs.Outcome.{Answers, EachImageOf, Gives};
ghost use Rattle.image_reader.specs.Reading.{body_at, reads};
ghost use Rattle.std.specs.Prelude.{IfOk, Ok};

use crate::failure::Failure;
use crate::fields::{half_of, magic_of, piece_of};
use crate::lists::{functions_of, layouts_of, texts_of};
use cells::Piece;
use code_form::Image;
use instruction_table::ImageFault;
use std::alloc::Global;

/// Texts, layouts and functions.
#[tactic(auto, unfolding(crate::specs::Reading::body_at))]
fn body_of(alloc: Global, bytes: &[u8], piece: Piece) -> Result<(Image, &[u8]), Failure>
    ensures { Gives (λ x. (image_of x.0, x.1.now)) result (body_at (cells_in piece) bytes.now) }
{
    let (texts, rest) = texts_of(alloc, bytes)?;
    let (layouts, rest) = layouts_of(alloc, rest)?;
    let (functions, rest) = functions_of(alloc, rest)?;
    let image = Image {
        piece,
        texts,
        layouts,
        functions,
    };
    Ok((image, rest))
}

/// The image that the bytes are.
#[tactic(auto, unfolding(crate::specs::Reading::reads))]
fn decoded(alloc: Global, bytes: &[u8]) -> Result<Image, Failure>
    ensures { Gives image_of result (reads bytes.now) }
{
    let (_, rest) = magic_of(bytes)?;
    let (version, rest) = half_of(rest)?;
    let (piece, rest) = piece_of(version, rest)?;
    let (image, rest) = body_of(alloc, rest, piece)?;
    match rest {
        [] => Ok(image),
        [_, ..] => Err(Failure::Fault(ImageFault::Trailing)),
    }
}

/// The image that the bytes are, or the first thing that is wrong with them.
pub fn decode(alloc: Global, bytes: &[u8]) -> Result<Image, ImageFault>
    // What is decoded has these bytes.
    ensures found { IfOk result (λ image. IsImage bytes.now (image_of image)) }
    // An image that has these bytes is decoded, unless memory runs out.
    ensures only { EachImageOf bytes.now (λ C. Answers image_of result (Ok C)) }
    // The fault is the first thing that is wrong.
    ensures first { Answers image_of result (reads bytes.now) }
{
    match decoded(alloc, bytes) {
        Ok(image) => Ok(image),
        Err(Failure::Memory) => Err(ImageFault::OutOfMemory),
        Err(Failure::Fault(fault)) => Err(fault),
    }
}
