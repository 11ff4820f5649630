//! The laws: functions that do nothing, and whose contracts hold.

ghost use Rattle.c0_image_laws.specs.Laws.{ConsistentIsEncodable, ImagesAreEncodable, ImagesAreReadAgain};
ghost use Rattle.c0_well_formed.specs.Laws.{IsConsistent};
ghost use Rattle.c0_well_formed.specs.Worked.{far_aim};
ghost use Rattle.code_verification.specs.Verified.{IsVerified};
ghost use Rattle.image_bytes.specs.Encodable.{IsEncodable};

use image_reader::round_trips;
use scope_verifier_laws::accepted_is_verified;

/// Every image that is verified and consistent can be written: each of its numbers is one that the format has bytes for.
pub fn consistent_is_encodable()
    ensures { ConsistentIsEncodable }
{}

/// The image of every accepted text can be written: each of its numbers is one that the format has bytes for.
pub fn images_are_encodable()
    ensures { ImagesAreEncodable }
{}

/// What is written of it is read as the image that it was.
pub fn images_are_read_again()
    ensures { ImagesAreReadAgain }
{
    images_are_encodable();
    round_trips();
}

/// Not every image that is verified can be written: one of no text may aim further than the format has numbers for, and it is not consistent.
pub fn worked_image()
    ensures verified { IsVerified far_aim }
    ensures inconsistent { IsConsistent far_aim → ⊥ }
    ensures not_encodable { IsEncodable far_aim → ⊥ }
{
    accepted_is_verified();
}
