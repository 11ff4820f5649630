//! Kinds and layouts of types, over the kinds of single cells.
ghost use Rattle.c0_typed.specs.Views.{levels_of, plain_of, target_of, type_of, within};
ghost use Rattle.lower_tables.specs.Kinds.{kind_of as kind_with, layout_number as layout_with, single_layout as single_with};
ghost use Rattle.std.specs.Prelude.{◌≡◌, ◌+◌, ◌<◌, ◌^◌, cond, length, nat_lt};

use crate::singles::Singles;
use c0_typed::{Levels, PlainType, Target, ValueType};
use code_form::Kind;

/// The layout of a single cell of this kind; the one without cells where the list has no such kind.
pub(crate) fn single_layout(structs: u32, singles: &Singles, kind: Kind) -> u32
    requires { structs + length singles.now + 1 < 2 ^ 32 }
    ensures { result ≡ single_with structs singles.now kind }
{
    let place = singles.position(kind);
    if place < singles.len() {
        structs + 1 + place as u32
    } else {
        structs
    }
}

/// The layout of the struct of this number; the one without cells for a struct that is never defined.
pub(crate) fn struct_number(structs: u32, number: u32) -> u32
    ensures { result ≡ cond (nat_lt number structs) number structs }
{
    if number < structs { number } else { structs }
}

/// The layout of a type that is neither a pointer nor an array, by its number.
fn plain_layout(structs: u32, singles: &Singles, plain: PlainType) -> u32
    requires { structs + length singles.now + 1 < 2 ^ 32 }
    ensures { result ≡ layout_with structs singles.now (plain_of plain) }
{
    let kind = match plain {
        PlainType::Void => return structs,
        PlainType::Struct(number) => return struct_number(structs, number),
        PlainType::Int => Kind::Int,
        PlainType::Bool => Kind::Bool,
        PlainType::Char => Kind::Char,
        PlainType::Text => Kind::Text,
    };
    single_layout(structs, singles, kind)
}

/// The layout of a type within pointers and arrays, by its number.
fn layout_within(structs: u32, singles: &Singles, levels: &Levels, innermost: PlainType) -> u32
    requires { structs + length singles.now + 1 < 2 ^ 32 }
    ensures { result ≡ layout_with structs singles.now (within (levels_of levels.now) (plain_of innermost)) }
{
    let kind = match levels {
        Levels::Innermost => return plain_layout(structs, singles, innermost),
        Levels::Pointer(inner) => Kind::Ptr(layout_within(structs, singles, inner, innermost)),
        Levels::Array(inner) => Kind::Arr(layout_within(structs, singles, inner, innermost)),
    };
    single_layout(structs, singles, kind)
}

/// The layout of what a pointer points to, or an array holds, by its number.
fn target_layout(structs: u32, singles: &Singles, target: &Target) -> u32
    requires { structs + length singles.now + 1 < 2 ^ 32 }
    ensures { result ≡ layout_with structs singles.now (target_of target.now) }
{
    layout_within(structs, singles, &target.levels, target.innermost)
}

/// The layout of what a pointer or an array of this type refers to, by its number.
pub fn layout_number(structs: u32, singles: &Singles, ty: &ValueType) -> u32
    requires { structs + length singles.now + 1 < 2 ^ 32 }
    ensures { result ≡ layout_with structs singles.now (type_of ty.now) }
{
    match ty {
        ValueType::Plain(plain) => plain_layout(structs, singles, *plain),
        ValueType::Pointer(_) | ValueType::Array(_) => single_layout(
            structs,
            singles,
            kind_of(structs, singles, ty),
        ),
    }
}

/// The kind of a register or a cell that holds a value of this type.
pub fn kind_of(structs: u32, singles: &Singles, ty: &ValueType) -> Kind
    requires { structs + length singles.now + 1 < 2 ^ 32 }
    ensures { result ≡ kind_with structs singles.now (type_of ty.now) }
{
    match ty {
        ValueType::Plain(PlainType::Bool) => Kind::Bool,
        ValueType::Plain(PlainType::Char) => Kind::Char,
        ValueType::Plain(PlainType::Text) => Kind::Text,
        ValueType::Plain(PlainType::Void | PlainType::Int | PlainType::Struct(_)) => Kind::Int,
        ValueType::Pointer(target) => Kind::Ptr(target_layout(structs, singles, target)),
        ValueType::Array(element) => Kind::Arr(target_layout(structs, singles, element)),
    }
}
