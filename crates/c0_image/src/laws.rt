//! The laws of images: functions that do nothing, and whose contracts hold.
ghost use Rattle.c0_image.specs.Compiled.{FactsOfImagesHold, OneImage};

use code_verification::verified_is_covered;
use lower::same_program_same_code;

/// At each level and for pieces of each size a text has one image, with its contracts checked, and one without.
pub fn one_image()
    ensures { OneImage }
{
    same_program_same_code();
}

/// Whenever a run of an image of a text enters a block, each entry fact of the block holds.
pub fn facts_of_images_hold()
    ensures { FactsOfImagesHold }
{
    verified_is_covered();
}
