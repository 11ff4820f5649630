//! What stands in one field of an image's bytes.
ghost use Rattle.cells.specs.Pieces.{cells_in};
ghost use Rattle.image_reader.specs.Outcome.{Gives};
ghost use Rattle.image_reader.specs.Reading.{behind, byte_at, cell_at, cell_cases, cells_at, fact_at, fact_cases, half_at, integer_at, kind_at, kind_cases, letter_at, magic_at, number_at, optional_at, piece_at, place_at, result_at, truth_at};
ghost use Rattle.std.specs.Prelude.{◌<◌, IfOk};

use crate::failure::Failure;
use cells::Piece;
use code_form::{Fact, Kind};
use instruction_table::ImageFault;

/// What stands for no register.
const NONE: u32 = 0xffff_ffff;

/// The letters C0FI.
const MAGIC: u32 = 0x4946_3043;

/// A byte.
#[tactic(auto, unfolding(crate::specs::Reading::byte_at))]
pub(crate) fn byte_of(bytes: &[u8]) -> Result<(u8, &[u8]), Failure>
    ensures { Gives (λ x. (x.0, x.1.now)) result (byte_at bytes.now) }
{
    match bytes {
        [] => Err(Failure::Fault(ImageFault::Short)),
        [byte, rest @ ..] => Ok((*byte, rest)),
    }
}

/// A number.
#[tactic(auto, unfolding(crate::specs::Reading::number_at))]
pub(crate) fn number_of(bytes: &[u8]) -> Result<(u32, &[u8]), Failure>
    ensures { Gives (λ x. (x.0, x.1.now)) result (number_at bytes.now) }
{
    if bytes.len() < 4 {
        return Err(Failure::Fault(ImageFault::Short));
    }
    let (front, rest) = bytes.split_at(4);
    let number = u32::from_le_bytes([front[0], front[1], front[2], front[3]]);
    Ok((number, rest))
}

/// A number of two bytes.
#[tactic(auto, unfolding(crate::specs::Reading::half_at))]
pub(crate) fn half_of(bytes: &[u8]) -> Result<(u16, &[u8]), Failure>
    ensures { Gives (λ x. (x.0, x.1.now)) result (half_at bytes.now) }
{
    if bytes.len() < 2 {
        return Err(Failure::Fault(ImageFault::Short));
    }
    let (front, rest) = bytes.split_at(2);
    let number = u16::from_le_bytes([front[0], front[1]]);
    Ok((number, rest))
}

/// A register, or none.
#[tactic(auto, unfolding(crate::specs::Reading::optional_at))]
pub(crate) fn optional_of(bytes: &[u8]) -> Result<(Option<u32>, &[u8]), Failure>
    ensures { Gives (λ x. (x.0, x.1.now)) result (optional_at bytes.now) }
{
    let (number, rest) = number_of(bytes)?;
    if number == NONE {
        return Ok((None, rest));
    }
    Ok((Some(number), rest))
}

/// A number with a sign.
#[tactic(auto, unfolding(crate::specs::Reading::integer_at))]
pub(crate) fn integer_of(bytes: &[u8]) -> Result<(i32, &[u8]), Failure>
    ensures { Gives (λ x. (x.0, x.1.now)) result (integer_at bytes.now) }
{
    let (number, rest) = number_of(bytes)?;
    Ok((number.cast_signed(), rest))
}

/// A truth value.
#[tactic(auto, unfolding(crate::specs::Reading::truth_at))]
pub(crate) fn truth_of(bytes: &[u8]) -> Result<(bool, &[u8]), Failure>
    ensures { Gives (λ x. (x.0, x.1.now)) result (truth_at bytes.now) }
{
    let (byte, rest) = byte_of(bytes)?;
    if byte < 2 {
        return Ok((byte == 1, rest));
    }
    Err(Failure::Fault(ImageFault::BadOperand))
}

/// A character of ASCII.
#[tactic(auto, unfolding(crate::specs::Reading::letter_at))]
pub(crate) fn letter_of(bytes: &[u8]) -> Result<(u8, &[u8]), Failure>
    ensures letter { Gives (λ x. (x.0, x.1.now)) result (letter_at bytes.now) }
    ensures ascii { IfOk result (λ x. x.0 < 128) }
{
    let (byte, rest) = byte_of(bytes)?;
    if byte < 128 {
        return Ok((byte, rest));
    }
    Err(Failure::Fault(ImageFault::BadOperand))
}

/// What stands behind the tag of a cell's kind.
fn cell_behind(tag: u8, bytes: &[u8]) -> Result<(Kind, &[u8]), Failure>
    ensures { Gives (λ x. (x.0, x.1.now)) result (behind cell_cases tag bytes.now) }
{
    match tag {
        1 => Ok((Kind::Int, bytes)),
        2 => Ok((Kind::Bool, bytes)),
        3 => Ok((Kind::Char, bytes)),
        4 => Ok((Kind::Text, bytes)),
        5 => {
            let (layout, rest) = number_of(bytes)?;
            Ok((Kind::Ptr(layout), rest))
        }
        6 => {
            let (layout, rest) = number_of(bytes)?;
            Ok((Kind::Arr(layout), rest))
        }
        _ => Err(Failure::Fault(ImageFault::BadOperand)),
    }
}

/// What stands behind the tag of a register's kind.
fn kind_behind(tag: u8, bytes: &[u8]) -> Result<(Kind, &[u8]), Failure>
    ensures { Gives (λ x. (x.0, x.1.now)) result (behind kind_cases tag bytes.now) }
{
    if tag == 7 {
        let (layout, rest) = number_of(bytes)?;
        return Ok((Kind::Off(layout), rest));
    }
    cell_behind(tag, bytes)
}

/// The kind of a cell.
#[tactic(auto, unfolding(crate::specs::Reading::cell_at))]
pub(crate) fn cell_of(bytes: &[u8]) -> Result<(Kind, &[u8]), Failure>
    ensures { Gives (λ x. (x.0, x.1.now)) result (cell_at bytes.now) }
{
    let (tag, rest) = byte_of(bytes)?;
    cell_behind(tag, rest)
}

/// The kind of a register.
#[tactic(auto, unfolding(crate::specs::Reading::kind_at))]
pub(crate) fn kind_of(bytes: &[u8]) -> Result<(Kind, &[u8]), Failure>
    ensures { Gives (λ x. (x.0, x.1.now)) result (kind_at bytes.now) }
{
    let (tag, rest) = byte_of(bytes)?;
    kind_behind(tag, rest)
}

/// The kind of a result, or that there is none.
#[tactic(auto, unfolding(crate::specs::Reading::result_at))]
pub(crate) fn result_of(bytes: &[u8]) -> Result<(Option<Kind>, &[u8]), Failure>
    ensures { Gives (λ x. (x.0, x.1.now)) result (result_at bytes.now) }
{
    if let [0, rest @ ..] = bytes {
        return Ok((None, rest));
    }
    let (kind, rest) = kind_of(bytes)?;
    Ok((Some(kind), rest))
}

/// Where a scope is aimed.
pub(crate) fn place_of(bytes: &[u8]) -> Result<((u32, Option<u32>, u32), &[u8]), Failure>
    ensures { Gives (λ x. ((x.0.0, (x.0.1, x.0.2)), x.1.now)) result (place_at bytes.now) }
{
    let (register, rest) = number_of(bytes)?;
    let (offset, rest) = optional_of(rest)?;
    let (displacement, rest) = number_of(rest)?;
    Ok(((register, offset, displacement), rest))
}

/// What stands behind the tag of an entry fact.
fn fact_behind(tag: u8, bytes: &[u8]) -> Result<(Fact, &[u8]), Failure>
    ensures { Gives (λ x. (x.0, x.1.now)) result (behind fact_cases tag bytes.now) }
{
    match tag {
        1 => {
            let (register, rest) = number_of(bytes)?;
            Ok((Fact::Nonnull(register), rest))
        }
        2 => {
            let (offset, rest) = number_of(bytes)?;
            let (register, rest) = number_of(rest)?;
            Ok((Fact::Inside(offset, register), rest))
        }
        3 => {
            let (scope, rest) = byte_of(bytes)?;
            let ((register, offset, displacement), rest) = place_of(rest)?;
            let fact = Fact::Aimed {
                scope,
                register,
                offset,
                displacement,
            };
            Ok((fact, rest))
        }
        4 => {
            let (scope, rest) = byte_of(bytes)?;
            Ok((Fact::Shut(scope), rest))
        }
        _ => Err(Failure::Fault(ImageFault::BadOperand)),
    }
}

/// An entry fact.
#[tactic(auto, unfolding(crate::specs::Reading::fact_at))]
pub(crate) fn fact_of(bytes: &[u8]) -> Result<(Fact, &[u8]), Failure>
    ensures { Gives (λ x. (x.0, x.1.now)) result (fact_at bytes.now) }
{
    let (tag, rest) = byte_of(bytes)?;
    fact_behind(tag, rest)
}

/// The letters C0FI.
#[tactic(auto, unfolding(crate::specs::Reading::magic_at))]
pub(crate) fn magic_of(bytes: &[u8]) -> Result<(u32, &[u8]), Failure>
    ensures { Gives (λ x. (x.0, x.1.now)) result (magic_at bytes.now) }
{
    let (number, rest) = number_of(bytes)?;
    if number == MAGIC {
        return Ok((number, rest));
    }
    Err(Failure::Fault(ImageFault::Magic))
}

/// How many cells a piece has.
#[tactic(auto, using(cells::proofs::Pieces::is_a_piece), unfolding(crate::specs::Reading::cells_at))]
fn cells_of(bytes: &[u8]) -> Result<(Piece, &[u8]), Failure>
    ensures { Gives (λ x. (cells_in x.0, x.1.now)) result (cells_at bytes.now) }
{
    let (cells, rest) = half_of(bytes)?;
    match Piece::new(u32::from(cells)) {
        Some(piece) => Ok((piece, rest)),
        None => Err(Failure::Fault(ImageFault::BadOperand)),
    }
}

/// How many cells a piece has, by the version.
#[tactic(auto, unfolding(crate::specs::Reading::piece_at))]
pub(crate) fn piece_of(version: u16, bytes: &[u8]) -> Result<(Piece, &[u8]), Failure>
    ensures { Gives (λ x. (cells_in x.0, x.1.now)) result (piece_at version bytes.now) }
{
    match version {
        1 => Ok((Piece::Cells64, bytes)),
        2 => cells_of(bytes),
        _ => Err(Failure::Fault(ImageFault::Version)),
    }
}
