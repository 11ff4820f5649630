//! The code of a file: the image of a text, or an image as it stands, each of them verified.
ghost use Rattle.std.specs.Prelude.{◌≡◌, ◌⊎◌, ◌++◌, ℕ, List, IfErr, IfOk, codes, map};
ghost use Rattle.c0_image.specs.Compiled.{IsCompiled};
ghost use Rattle.c0_syntax.specs.Levels.{has_loops};
ghost use Rattle.cells.specs.Pieces.{cells_in};
ghost use Rattle.code_verification.specs.Verified.{IsVerified};
ghost use Rattle.image_bytes.specs.Encodable.{IsImage};
ghost use Rattle.code_form.specs.Form.{image_of};
ghost use Rattle.c0far.specs.NoCode.{HasNoCode, IsUnfit, LacksCode, LacksMemory};
ghost use Rattle.command_messages.specs.Refusals.{HasFailed};
ghost use Rattle.command_messages.specs.Shown.{newline};
ghost use Rattle.c0far.specs.FileCode.{AreCodes, HoldsCode, names_image, unchecked as unchecked_code};
ghost use Rattle.command_files.specs.FileTexts.{HasText, IsMissing, Known};
ghost use Rattle.streams.specs.Streams.{IsQuiet, Says, Writes, writes};
ghost use Rattle.command_line.specs.Shell.{compiling_of};
ghost use Rattle.instruction_table.specs.FaultNumbers.{fault_line as image_line};
ghost use Rattle.scope_verifier_laws.specs.FaultNumbers.{fault_line as verify_line};

use c0_image::compile;
use c0_source::fault::FaultKind;
use c0_syntax::level::Level;
use cells::Piece;
use command_files::{FileError, Files};
use command_line::words::{Compiling, Texts};
use command_messages::{REFUSED, after, say_memory, say_refused, say_unread};
use image_reader::decode;
use instruction_table::ImageFault;
use scope_verifier::{Verified, verify};
use scope_verifier_laws::VerifyFault;
use std::alloc::Global;
use streams::Stream;

/// Code of texts at this level, with no contracts checked, for pieces of this size.
pub fn unchecked(level: Level, piece: Piece) -> Compiling
    ensures { compiling_of result ≡ unchecked_code (has_loops level) (cells_in piece) }
{
    let texts = Texts {
        level,
        checks: false,
    };
    Compiling { texts, piece }
}

/// Whether a file's name is that of an image.
pub fn is_image_name(file: &str) -> bool
    ensures { result ≡ names_image file.now }
{
    file.ends_with(".c0i")
}

/// Says what is wrong with the bytes of an image.
fn say_image_fault<E: Stream>(err: &mut E, file: &str, fault: ImageFault) -> u8
    ensures { Says (writes E.contents E.failures err.old err.new) (file.now ++ (codes ": " ++ (image_line fault ++ newline))) 2 result }
{
    after(writeln!(err, "{file}: {fault}"), REFUSED)
}

/// Says why an image may not be run.
fn say_verify_fault<E: Stream>(err: &mut E, file: &str, fault: VerifyFault) -> u8
    ensures { Says (writes E.contents E.failures err.old err.new) (file.now ++ (codes ": " ++ (verify_line fault ++ newline))) 2 result }
{
    after(writeln!(err, "{file}: {fault}"), REFUSED)
}

/// The verified image that these bytes of a file are, or the status behind what was said of them.
fn of_bytes<E: Stream>(alloc: Global, file: &str, bytes: &[u8], err: &mut E) -> Result<Verified, u8>
    ensures code { IfOk result (λ v. IsImage bytes.now (image_of v.image) × IsVerified (image_of v.image) × IsQuiet (writes E.contents E.failures err.old err.new)) }
    ensures refused { IfErr result (λ status. (held : Known) (out : Writes) → HasText held bytes.now → IsQuiet out → IsUnfit file.now held out (writes E.contents E.failures err.old err.new) status ⊎ LacksMemory out (writes E.contents E.failures err.old err.new) status) }
{
    let image = match decode(alloc, bytes) {
        Ok(image) => image,
        Err(ImageFault::OutOfMemory) => return Err(say_memory(err)),
        Err(fault) => return Err(say_image_fault(err, file, fault)),
    };
    match verify(alloc, image) {
        Ok(verified) => Ok(verified),
        Err(VerifyFault::OutOfMemory) => Err(say_memory(err)),
        Err(fault) => Err(say_verify_fault(err, file, fault)),
    }
}

/// The verified image of this text of a file, compiled so, or the status behind what was said of it.
fn of_text<E: Stream>(
    alloc: Global,
    compiling: Compiling,
    file: &str,
    text: &[u8],
    err: &mut E,
) -> Result<Verified, u8>
    ensures code { IfOk result (λ v. IsCompiled (has_loops compiling.texts.level) text.now compiling.texts.checks (cells_in compiling.piece) (image_of v.image) × IsQuiet (writes E.contents E.failures err.old err.new)) }
    ensures refused { IfErr result (λ status. (held : Known) (out : Writes) → HasText held text.now → IsQuiet out → HasFailed (has_loops compiling.texts.level) file.now held out (writes E.contents E.failures err.old err.new) status ⊎ LacksMemory out (writes E.contents E.failures err.old err.new) status) }
{
    let texts = compiling.texts;
    match compile(alloc, text, texts.checks, texts.level, compiling.piece) {
        Ok(verified) => Ok(verified),
        Err(fault) if fault.kind == FaultKind::OutOfMemory => Err(say_memory(err)),
        Err(fault) => Err(say_refused(err, file, text, texts.level, fault)),
    }
}

/// The code of a file with these bytes, where a text is compiled so, or the status behind what was said of them.
fn of_named<E: Stream>(
    alloc: Global,
    compiling: Compiling,
    file: &str,
    bytes: &[u8],
    err: &mut E,
) -> Result<Verified, u8>
    ensures code { IfOk result (λ v. (held : Known) → HasText held bytes.now → HoldsCode file.now (compiling_of compiling) held (image_of v.image)) }
    ensures quiet { IfOk result (λ v. IsQuiet (writes E.contents E.failures err.old err.new)) }
    ensures refused { IfErr result (λ status. (held : Known) (out : Writes) → HasText held bytes.now → IsQuiet out → HasNoCode (has_loops compiling.texts.level) file.now held out (writes E.contents E.failures err.old err.new) status) }
{
    if is_image_name(file) {
        of_bytes(alloc, file, bytes, err)
    } else {
        of_text(alloc, compiling, file, bytes, err)
    }
}

/// The bytes of a file that is an image, or those of its text.
fn bytes_of<F: Files>(alloc: Global, file: &str, files: &mut F) -> Result<Vec<u8>, FileError>
    ensures text { IfOk result (λ v. HasText (F.holds files.old file.now) v.items) }
    ensures missing { IfErr result (λ e. e ≡ FileError.Cannot → IsMissing (F.holds files.old file.now)) }
    ensures same { (name : List ℕ) → F.holds files.new name ≡ F.holds files.old name }
{
    if is_image_name(file) {
        files.read(alloc, file)
    } else {
        files.read_text(alloc, file)
    }
}

/// The code of a file, where a text is compiled so, or the status behind what was said of it: of a file that cannot be read, of a text or an image that is refused, or of want
/// of memory.
pub fn code_of<F: Files, E: Stream>(
    alloc: Global,
    compiling: Compiling,
    file: &str,
    files: &mut F,
    err: &mut E,
) -> Result<Verified, u8>
    ensures files { (name : List ℕ) → F.holds files.new name ≡ F.holds files.old name }
    ensures code { IfOk result (λ v. HoldsCode file.now (compiling_of compiling) (F.holds files.old file.now) (image_of v.image)) }
    ensures quiet { IfOk result (λ v. IsQuiet (writes E.contents E.failures err.old err.new)) }
    ensures refused { IfErr result (λ status. (out : Writes) → IsQuiet out → HasNoCode (has_loops compiling.texts.level) file.now (F.holds files.old file.now) out (writes E.contents E.failures err.old err.new) status) }
{
    match bytes_of(alloc, file, files) {
        Ok(bytes) => of_named(alloc, compiling, file, &bytes, err),
        Err(FileError::Cannot) => Err(say_unread(err, file)),
        Err(FileError::OutOfMemory) => Err(say_memory(err)),
    }
}

/// The codes of files, in their order, where texts are compiled so, or the status behind what was said of the first that has none, or of want of memory.
pub fn codes_of<F: Files, E: Stream>(
    alloc: Global,
    compiling: Compiling,
    names: &[&str],
    files: &mut F,
    err: &mut E,
) -> Result<Vec<Verified>, u8>
    ensures files { (name : List ℕ) → F.holds files.new name ≡ F.holds files.old name }
    ensures codes { IfOk result (λ v. AreCodes (compiling_of compiling) (F.holds files.old) (map (λ n. n.now) names.now) v.items) }
    ensures quiet { IfOk result (λ v. IsQuiet (writes E.contents E.failures err.old err.new)) }
    ensures refused { IfErr result (λ status. (out : Writes) → IsQuiet out → LacksCode (compiling_of compiling) (F.holds files.old) (map (λ n. n.now) names.now) out (writes E.contents E.failures err.old err.new) status
        ⊎ LacksMemory out (writes E.contents E.failures err.old err.new) status) }
{
    let mut programs = Vec::new(alloc);
    for name in names {
        let verified = code_of(alloc, compiling, name, files, err)?;
        if programs.push(verified).is_err() {
            return Err(say_memory(err));
        }
    }
    Ok(programs)
}
