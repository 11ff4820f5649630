//! The code of places.
ghost use Rattle.c0_typed.specs.Views.{type_of};
ghost use Rattle.lower_expressions.specs.Building.{base_at, codes, displacement, exp_code, exp_kinds, offset_at, place_code, place_kinds, structs_in};
ghost use Rattle.lower_tables.specs.Kinds.{cells_of, field_offset as offset_with};
ghost use Rattle.middle_form.specs.Form.{Load, Store};
ghost use Rattle.std.specs.Prelude.{◌≡◌, ◌++◌, ◌∷◌, ◌+◌, [], IfOk, OnOk, length};

use crate::building::{fresh, put};
use crate::context::Context;
use crate::expression_code::{expression, operands};
use c0_typed::{Place, ValueType};
use code_form::{Kind, Operation};
use lower_tables::kinds::layout_number;
use lower_tables::struct_layouts::cells_in;
use middle_form::Code;
use std::alloc::AllocError;

/// A cell, by the registers that tell where it is.
#[derive(Clone, Copy)]
pub struct Cell {
    /// Of the reference.
    pub register: u32,
    /// Of the offset, where there is one.
    pub offset: Option<u32>,
    /// How many cells behind the offset.
    pub displacement: u32,
}

/// The cells of an element of this type. More than numbers of 32 bits tell apart can't be had.
fn element_size(context: &Context, ty: &ValueType) -> Result<u32, AllocError>
    ensures { IfOk result (λ n. n ≡ length (cells_of (structs_in context.now) context.now.singles.now (type_of ty.now))) }
{
    let Ok(size) = u32::try_from(cells_in(context.layouts, ty)) else {
        return Err(AllocError);
    };
    Ok(size)
}

/// The cells of a struct in front of a field.
fn field_offset(context: &Context, number: u32, field: u32) -> u32
    ensures { result ≡ offset_with (structs_in context.now) context.now.singles.now number field }
{
    let Some(starts) = context.offsets.get(number as usize) else {
        return 0;
    };
    match starts.get(field as usize) {
        Some(start) => *start,
        None => starts[starts.len() - 1],
    }
}

/// The cell of a field of the struct that begins at a cell. One further behind than numbers of 32 bits tell can't be had.
fn behind(context: &Context, cell: Cell, number: u32, field: u32) -> Result<Cell, AllocError>
    ensures base { IfOk result (λ r. r.register ≡ cell.register) }
    ensures offset { IfOk result (λ r. r.offset ≡ cell.offset) }
    ensures further { IfOk result (λ r. r.displacement ≡ cell.displacement + offset_with (structs_in context.now) context.now.singles.now number field) }
{
    let further = field_offset(context, number, field);
    let Some(displacement) = cell.displacement.checked_add(further) else {
        return Err(AllocError);
    };
    Ok(Cell {
        displacement,
        ..cell
    })
}

/// The code that finds a place, with its checks, and its cell.
#[cycle(expressions)]
pub fn place(
    context: &Context,
    kinds: &mut Vec<Kind>,
    code: &mut Vec<Code>,
    whole: &Place,
) -> Result<Cell, AllocError>
    ensures base { IfOk result (λ r. r.register ≡ base_at context.now whole.now (length kinds.old.items)) }
    ensures offset { IfOk result (λ r. r.offset ≡ offset_at context.now whole.now (length kinds.old.items)) }
    ensures behind { IfOk result (λ r. r.displacement ≡ displacement context.now whole.now) }
    ensures registers { OnOk result (kinds.new.items ≡ kinds.old.items ++ place_kinds context.now whole.now) }
    ensures added { OnOk result (codes code.new.items ≡ codes code.old.items ++ place_code context.now whole.now (length kinds.old.items)) }
{
    match whole {
        Place::Deref(_, pointer) => {
            let register = expression(context, kinds, code, pointer)?;
            let register = put(code, register, Operation::CheckNull { register })?;
            Ok(Cell {
                register,
                offset: None,
                displacement: 0,
            })
        }
        Place::Index(ty, array, index) => {
            let to = fresh(
                kinds,
                Kind::Off(layout_number(context.structs, context.singles, ty)),
            )?;
            let size = element_size(context, ty)?;
            let (register, index) = operands(context, kinds, code, array, index)?;
            let to = put(
                code,
                to,
                Operation::CheckIndex {
                    to,
                    register,
                    index,
                    size,
                },
            )?;
            Ok(Cell {
                register,
                offset: Some(to),
                displacement: 0,
            })
        }
        Place::Field(number, inner, field) => {
            let cell = place(context, kinds, code, inner)?;
            let found = behind(context, cell, *number, *field)?;
            Ok(found)
        }
    }
}

/// Register `to` gets what a cell holds.
pub fn load_cell(code: &mut Vec<Code>, to: u32, cell: Cell) -> Result<(), AllocError>
    ensures { OnOk result (codes code.new.items ≡ codes code.old.items ++ Load to cell.register cell.offset cell.displacement ∷ []) }
{
    code.push(Code::Load {
        to,
        register: cell.register,
        offset: cell.offset,
        displacement: cell.displacement,
    })?;
    Ok(())
}

/// A cell gets what a register holds.
pub fn store_cell(code: &mut Vec<Code>, cell: Cell, from: u32) -> Result<(), AllocError>
    ensures { OnOk result (codes code.new.items ≡ codes code.old.items ++ Store cell.register cell.offset cell.displacement from ∷ []) }
{
    code.push(Code::Store {
        register: cell.register,
        offset: cell.offset,
        displacement: cell.displacement,
        from,
    })?;
    Ok(())
}
