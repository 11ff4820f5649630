//! Images that are written and read again.
use c0_image::compile;
use c0_source::fault::Fault;
use c0_syntax::level::Level;
use cells::Piece;
use code_form::Image;
use image_bytes::{encode, is_encodable};
use image_reader::decode;
use scope_verifier::{Verified, verify};
use std::alloc::Global;

/// The bytes of an image, where the format has some for it.
fn written(alloc: Global, image: &Image) -> Option<Vec<u8>> {
    if !is_encodable(image) {
        return None;
    }
    encode(alloc, image).ok()
}

/// What is read where this image was written, verified. None where it is no such image, or its bytes are others.
fn read_again(alloc: Global, image: &Image) -> Option<Verified> {
    let bytes = written(alloc, image)?;
    let read = decode(alloc, &bytes).ok()?;
    let again = written(alloc, &read)?;
    if again != bytes {
        return None;
    }
    verify(alloc, read).ok()
}

/// The compiled text, as its image is read that was written and verified again. None where that is another image.
pub(crate) fn compile_again(
    alloc: Global,
    text: &[u8],
    checks: bool,
    level: Level,
) -> Result<Option<Verified>, Fault> {
    let compiled = compile(alloc, text, checks, level, Piece::Cells64)?;
    Ok(read_again(alloc, compiled.image()))
}
