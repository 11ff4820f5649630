//! Images by their names.

use code_form::Image;
use image_listing::list;
use image_reader::decode;
use instruction_table::ImageFault;
use std::alloc::{AllocError, Global};
use test_rows::without_blanks;

/// The bytes of an image, and its name.
#[derive(Drop)]
struct Named {
    name: Vec<u8>,
    bytes: Vec<u8>,
}

/// Images by their names.
#[derive(Drop)]
pub struct Shelf {
    images: Vec<Named>,
}

/// The listing of the image that has these bytes.
fn listing(alloc: Global, bytes: &[u8]) -> Result<String, ImageFault> {
    let image = decode(alloc, bytes)?;
    list(alloc, &image)
}

impl Shelf {
    /// No images.
    pub(crate) fn new(alloc: Global) -> Shelf {
        Shelf {
            images: Vec::new(alloc),
        }
    }

    /// Puts the image there whose bytes these digits are: its listing.
    pub(crate) fn put(
        &mut self,
        alloc: Global,
        name: &[u8],
        digits: &[u8],
    ) -> Result<String, AllocError> {
        let digits = without_blanks(alloc, digits)?;
        let Ok(bytes) = hex::decode(alloc, &digits) else {
            return String::from_str(alloc, "no hexadecimal digits");
        };
        let told = match listing(alloc, &bytes) {
            Ok(told) => told,
            Err(fault) => format!(in alloc; "{fault}")?,
        };
        let name = name.strip_prefix(b" ").unwrap_or(name).to_vec(alloc)?;
        self.images.push(Named { name, bytes })?;
        Ok(told)
    }

    /// The bytes of the image of this name, if there is one.
    pub(crate) fn bytes(&self, name: &str) -> Option<&[u8]> {
        for named in &self.images {
            if named.name.as_slice() == name.as_bytes() {
                return Some(&named.bytes);
            }
        }
        None
    }

    /// The image of this name, if there is one.
    pub(crate) fn image(&self, alloc: Global, name: &str) -> Option<Image> {
        decode(alloc, self.bytes(name)?).ok()
    }
}
