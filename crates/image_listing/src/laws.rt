//! A law of the definition of a listing: a function that does nothing, and whose contract holds.
ghost use Rattle.image_listing.specs.Listing.{listing};
ghost use Rattle.image_listing.specs.Worked.{lines_of_returns_zero, returns_zero};
ghost use Rattle.std.specs.Prelude.{◌≡◌};

/// The listing of a small image.
pub fn worked()
    ensures { listing returns_zero ≡ lines_of_returns_zero }
{}
