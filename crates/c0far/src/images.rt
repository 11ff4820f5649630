//! The commands `list` and `build`: the code of a file, shown and written.
ghost use Rattle.std.specs.Prelude.{◌≡◌, ◌++◌, ℕ, List, codes, string_bytes};
ghost use Rattle.c0_syntax.specs.Levels.{has_loops};
ghost use Rattle.cells.specs.Pieces.{cells_in};
ghost use Rattle.command_line.specs.Shell.{compiling_of};
ghost use Rattle.c0far.specs.Driven.{Builds, Lists, WritesOnly};
ghost use Rattle.command_messages.specs.Shown.{newline};
ghost use Rattle.streams.specs.Streams.{Says, writes};

use crate::code::{code_of, unchecked};
use c0_image_laws::images_are_encodable;
use c0_syntax::level::Level;
use cells::Piece;
use command_files::{FileError, Files};
use command_line::words::Compiling;
use command_messages::{REFUSED, after, say_memory};
use image_bytes::encode;
use image_listing::list as list_image;
use std::alloc::Global;
use streams::Stream;

/// Says the lines of an image.
fn say_code<O: Stream>(out: &mut O, code: &String) -> u8
    ensures { Says (writes O.contents O.failures out.old out.new) (string_bytes code.now) 0 result }
{
    after(out.write_all(code.as_bytes()), 0)
}

/// Says that a file was not written.
fn say_unwritten<E: Stream>(err: &mut E, file: &str) -> u8
    ensures { Says (writes E.contents E.failures err.old err.new) (file.now ++ (codes ": cannot be written" ++ newline)) 2 result }
{
    after(writeln!(err, "{file}: cannot be written"), REFUSED)
}

/// Lists the code of a file, of a text at this level, for pieces of this size.
pub fn list<F: Files, O: Stream, E: Stream>(
    alloc: Global,
    level: Level,
    piece: Piece,
    file: &str,
    files: &mut F,
    out: &mut O,
    err: &mut E,
) -> u8
    ensures files { (name : List ℕ) → F.holds files.new name ≡ F.holds files.old name }
    ensures done { Lists (has_loops level) (cells_in piece) file.now (F.holds files.old file.now) (writes O.contents O.failures out.old out.new) (writes E.contents E.failures err.old err.new) result }
{
    let verified = match code_of(alloc, unchecked(level, piece), file, files, err) {
        Ok(verified) => verified,
        Err(status) => return status,
    };
    match list_image(alloc, verified.image()) {
        Ok(code) => say_code(out, &code),
        Err(_refused) => say_memory(err),
    }
}

/// Writes the code of a file, where a text is compiled so, into another. One that is the same by the system's word is not written.
pub fn build<F: Files, O: Stream, E: Stream>(
    alloc: Global,
    compiling: Compiling,
    target: &str,
    file: &str,
    files: &mut F,
    out: &mut O,
    err: &mut E,
) -> u8
    ensures files { WritesOnly file.now target.now (F.holds files.old) (F.holds files.new) }
    ensures done { Builds file.now (compiling_of compiling) target.now (F.holds files.old file.now) (F.holds files.old target.now) (F.holds files.new target.now) (writes O.contents O.failures out.old out.new) (writes E.contents E.failures err.old err.new) result }
{
    let verified = match code_of(alloc, compiling, file, files, err) {
        Ok(verified) => verified,
        Err(status) => return status,
    };
    images_are_encodable();
    let Ok(bytes) = encode(alloc, verified.image()) else {
        return say_memory(err);
    };
    if files.is_same(file, target) {
        return say_unwritten(err, target);
    }
    match files.write(alloc, target, &bytes) {
        Ok(()) => 0,
        Err(FileError::Cannot) => say_unwritten(err, target),
        Err(FileError::OutOfMemory) => say_memory(err),
    }
}
