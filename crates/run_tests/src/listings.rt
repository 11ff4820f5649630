//! What is told of the bytes of an image.

use crate::versions::is_written_again;
use code_form::Image;
use image_bytes::{encode, is_encodable};
use image_listing::list;
use image_reader::decode;
use instruction_table::ImageFault;
use scope_verifier::verify;
use std::alloc::{AllocError, Global};
use test_rows::without_blanks;

/// What is asked of the bytes of an image.
#[derive(Clone, Copy)]
pub enum Asked {
    Listing,
    Verdict,
}

/// The listing of the image that has these bytes.
fn listing(alloc: Global, bytes: &[u8], image: &Image) -> Result<String, ImageFault> {
    if !is_encodable(image) {
        return Err(ImageFault::BadOperand);
    }
    let is_same = is_written_again(bytes, &encode(alloc, image)?);
    let mut text = list(alloc, image)?;
    if !is_same {
        text.push_str("other bytes\n")?;
    }
    Ok(text)
}

/// What is wrong with the bytes.
fn refused(alloc: Global, fault: ImageFault) -> Result<String, AllocError> {
    let number = fault.number();
    format!(in alloc; "fault {number}\n")
}

/// The greatest number of scopes of a verified image, or why it is none.
fn verdict(alloc: Global, image: Image) -> Result<String, AllocError> {
    match verify(alloc, image) {
        Ok(verified) => {
            let scopes = verified.scopes();
            format!(in alloc; "scopes {scopes}\n")
        }
        Err(fault) => {
            let number = fault.number();
            format!(in alloc; "verify fault {number}\n")
        }
    }
}

/// What is told of the bytes that these digits are, in which blanks and newlines count for nothing.
pub(crate) fn tell(alloc: Global, asked: Asked, digits: &[u8]) -> Result<String, AllocError> {
    let digits = without_blanks(alloc, digits)?;
    let Ok(bytes) = hex::decode(alloc, &digits) else {
        return format!(in alloc; "no hexadecimal digits\n");
    };
    match (decode(alloc, &bytes), asked) {
        (Err(fault), _) => refused(alloc, fault),
        (Ok(image), Asked::Verdict) => verdict(alloc, image),
        (Ok(image), _) => match listing(alloc, &bytes, &image) {
            Ok(text) => Ok(text),
            Err(fault) => refused(alloc, fault),
        },
    }
}
