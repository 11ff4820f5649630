//! Laws of what is read: a function that does nothing, and whose contract holds.
ghost use Rattle.image_reader.specs.Laws.{OneImage, ReadWasWritten, WrittenIsRead};

/// Reading and writing undo one another, and no two images have the same bytes.
pub fn round_trips()
    ensures written { WrittenIsRead }
    ensures read { ReadWasWritten }
    ensures one { OneImage }
{}
