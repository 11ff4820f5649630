//! What stands in one field of an image's bytes.
ghost use Rattle.image_bytes.specs.Bytes.{fact_bytes, half, kind_bytes, optional_bytes, result_bytes, text_bytes, truth_byte, word};
ghost use Rattle.image_bytes.specs.Parts.{argument_bytes};
ghost use Rattle.std.specs.Prelude.{◌≡◌, ◌∷◌, ◌++◌, [], OnOk, string_bytes};

use code_form::{Fact, Kind};
use instruction_table::Argument;
use std::alloc::AllocError;

/// What stands for no register.
pub(crate) const NONE: u32 = 0xffff_ffff;

/// A byte more.
pub(crate) fn put_byte(out: &mut Vec<u8>, byte: u8) -> Result<(), AllocError>
    ensures { OnOk result (out.new.items ≡ out.old.items ++ byte ∷ []) }
{
    out.push(byte)?;
    Ok(())
}

/// A number more.
pub(crate) fn put_word(out: &mut Vec<u8>, number: u32) -> Result<(), AllocError>
    ensures { OnOk result (out.new.items ≡ out.old.items ++ word number) }
{
    out.extend_from_slice(&number.to_le_bytes())
}

/// A number of two bytes more.
pub(crate) fn put_half(out: &mut Vec<u8>, number: u16) -> Result<(), AllocError>
    ensures { OnOk result (out.new.items ≡ out.old.items ++ half number) }
{
    out.extend_from_slice(&number.to_le_bytes())
}

/// A count more, modulo 2^32.
pub(crate) fn put_count(out: &mut Vec<u8>, count: usize) -> Result<(), AllocError>
    ensures { OnOk result (out.new.items ≡ out.old.items ++ word count) }
{
    out.extend_from_slice(&count.to_le_bytes()[..4])
}

/// A register more, or none.
pub(crate) fn put_optional(out: &mut Vec<u8>, register: Option<u32>) -> Result<(), AllocError>
    ensures { OnOk result (out.new.items ≡ out.old.items ++ optional_bytes register) }
{
    match register {
        None => put_word(out, NONE),
        Some(register) => put_word(out, register),
    }
}

/// A tag and a number more.
fn put_tagged(out: &mut Vec<u8>, tag: u8, number: u32) -> Result<(), AllocError>
    ensures { OnOk result (out.new.items ≡ out.old.items ++ (tag ∷ word number)) }
{
    put_byte(out, tag)?;
    put_word(out, number)
}

/// A kind more.
pub(crate) fn put_kind(out: &mut Vec<u8>, kind: Kind) -> Result<(), AllocError>
    ensures { OnOk result (out.new.items ≡ out.old.items ++ kind_bytes kind) }
{
    match kind {
        Kind::Int => put_byte(out, 1),
        Kind::Bool => put_byte(out, 2),
        Kind::Char => put_byte(out, 3),
        Kind::Text => put_byte(out, 4),
        Kind::Ptr(layout) => put_tagged(out, 5, layout),
        Kind::Arr(layout) => put_tagged(out, 6, layout),
        Kind::Off(layout) => put_tagged(out, 7, layout),
    }
}

/// The kind of a result more, or that there is none.
pub(crate) fn put_result(out: &mut Vec<u8>, kind: Option<Kind>) -> Result<(), AllocError>
    ensures { OnOk result (out.new.items ≡ out.old.items ++ result_bytes kind) }
{
    match kind {
        None => put_byte(out, 0),
        Some(kind) => put_kind(out, kind),
    }
}

/// What a scope is aimed at more.
fn put_aim(
    out: &mut Vec<u8>,
    register: u32,
    offset: Option<u32>,
    displacement: u32,
) -> Result<(), AllocError>
    ensures { OnOk result (out.new.items ≡ out.old.items ++ (word register ++ (optional_bytes offset ++ word displacement))) }
{
    put_word(out, register)?;
    put_optional(out, offset)?;
    put_word(out, displacement)
}

/// An entry fact more.
pub(crate) fn put_fact(out: &mut Vec<u8>, fact: Fact) -> Result<(), AllocError>
    ensures { OnOk result (out.new.items ≡ out.old.items ++ fact_bytes fact) }
{
    match fact {
        Fact::Nonnull(register) => put_tagged(out, 1, register),
        Fact::Inside(offset, register) => {
            put_tagged(out, 2, offset)?;
            put_word(out, register)
        }
        Fact::Aimed {
            scope,
            register,
            offset,
            displacement,
        } => {
            put_byte(out, 3)?;
            put_byte(out, scope)?;
            put_aim(out, register, offset, displacement)
        }
        Fact::Shut(scope) => {
            put_byte(out, 4)?;
            put_byte(out, scope)
        }
    }
}

/// A text more.
pub(crate) fn put_text(out: &mut Vec<u8>, text: &str) -> Result<(), AllocError>
    ensures { OnOk result (out.new.items ≡ out.old.items ++ text_bytes text.now) }
{
    put_count(out, text.len())?;
    out.extend_from_slice(text.as_bytes())
}

/// An operand more that is no list.
pub(crate) fn put_argument(out: &mut Vec<u8>, argument: Argument) -> Result<(), AllocError>
    ensures { OnOk result (out.new.items ≡ out.old.items ++ argument_bytes argument) }
{
    match argument {
        Argument::Register(number)
        | Argument::Block(number)
        | Argument::Function(number)
        | Argument::Number(number) => put_word(out, number),
        Argument::NoRegister => put_word(out, NONE),
        Argument::Scope(byte) | Argument::Character(byte) => put_byte(out, byte),
        Argument::Integer(value) => out.extend_from_slice(&value.to_le_bytes()),
        Argument::Truth(value) => put_byte(out, u8::from(value)),
    }
}
