//! Whether all that an instruction names is there, and of the right kind.
ghost use Rattle.code_form.specs.Asked.{callee_fits as callee_fits_in};
ghost use Rattle.code_form.specs.Code.{op_fits};
ghost use Rattle.code_form.specs.Form.{function_of, image_of};
ghost use Rattle.code_form.specs.declared.form.Operation.TheVariants.{CheckIndex, Unary};
ghost use Rattle.code_operations.specs.Values.{is_of_values};
ghost use Rattle.std.specs.Prelude.{◌≡◌, is_some, slice_get, true};

use code_form::{
    Function, Image, Kind, Operation, UnaryOperator, are_numbers, call_fits, can_compare,
    has_array, has_array_of, has_kind, has_pointer, has_reference, has_size, have_same_kind,
    is_place, kind_at,
};

/// Whether the image has this layout.
fn has_layout(image: &Image, layout: u32) -> bool
    ensures { result ≡ is_some (slice_get (image_of image.now).head.layouts layout) }
{
    image.layouts.get(layout as usize).is_some()
}

/// Whether the operands of a check of an index fit.
fn index_fits(image: &Image, kinds: &[Kind], to: u32, register: u32, index: u32, size: u32) -> bool
    ensures { result ≡ op_fits (image_of image.now).head kinds.now (CheckIndex to register index size) }
{
    has_array_of(kinds, to, register)
        && (has_kind(kinds, index, Kind::Int) && has_size(image, size, kind_at(kinds, register)))
}

/// Whether the operands of an operator on one value fit.
fn unary_fits(image: &Image, kinds: &[Kind], operator: UnaryOperator, to: u32, from: u32) -> bool
    ensures { result ≡ op_fits (image_of image.now).head kinds.now (Unary operator to from) }
{
    match operator {
        UnaryOperator::Not => has_kind(kinds, to, Kind::Bool) && has_kind(kinds, from, Kind::Bool),
        UnaryOperator::Negate => has_kind(kinds, to, Kind::Int) && has_kind(kinds, from, Kind::Int),
        UnaryOperator::Complement => {
            has_kind(kinds, to, Kind::Int) && has_kind(kinds, from, Kind::Int)
        }
    }
}

/// Whether the kinds of a simple instruction that computes fit; of another one, no.
fn value_fits(image: &Image, kinds: &[Kind], operation: &Operation) -> bool
    ensures { is_of_values operation.now ≡ true → result ≡ op_fits (image_of image.now).head kinds.now operation.now }
{
    match *operation {
        Operation::Const { to, .. } => has_kind(kinds, to, Kind::Int),
        Operation::TextOf { to, number } => {
            has_kind(kinds, to, Kind::Text) && number as usize <= image.texts.len()
        }
        Operation::BoolOf { to, .. } => has_kind(kinds, to, Kind::Bool),
        Operation::CharOf { to, .. } => has_kind(kinds, to, Kind::Char),
        Operation::Null { to } => has_reference(kinds, to),
        Operation::Move { to, from } => have_same_kind(kinds, to, from),
        Operation::Binary {
            to,
            left,
            right,
            ..
        } => are_numbers(kinds, to, left, right),
        Operation::Unary { operator, to, from } => unary_fits(image, kinds, operator, to, from),
        Operation::Compare {
            relation,
            to,
            left,
            right,
        } => has_kind(kinds, to, Kind::Bool) && can_compare(kinds, relation, left, right),
        _ => false,
    }
}

/// Whether the kinds of a simple instruction fit.
#[inline(never)]
#[cold]
pub fn operation_fits(image: &Image, kinds: &[Kind], operation: &Operation) -> bool
    ensures { result ≡ op_fits (image_of image.now).head kinds.now operation.now }
{
    match *operation {
        Operation::CheckNull { register } => has_pointer(kinds, register),
        Operation::CheckIndex {
            to,
            register,
            index,
            size,
        } => index_fits(image, kinds, to, register, index, size),
        Operation::Len { to, register } => {
            has_kind(kinds, to, Kind::Int) && has_array(kinds, register)
        }
        Operation::Prefetch {
            register,
            offset,
            ..
        } => is_place(kinds, register, offset),
        Operation::Alloc { to, layout } => {
            has_kind(kinds, to, Kind::Ptr(layout)) && has_layout(image, layout)
        }
        Operation::AllocArray { to, layout, length } => {
            has_kind(kinds, to, Kind::Arr(layout))
                && (has_kind(kinds, length, Kind::Int) && has_layout(image, layout))
        }
        Operation::Print { from } => has_kind(kinds, from, Kind::Text),
        Operation::Println { from } => has_kind(kinds, from, Kind::Text),
        Operation::Printint { from } => has_kind(kinds, from, Kind::Int),
        Operation::Printbool { from } => has_kind(kinds, from, Kind::Bool),
        Operation::Printchar { from } => has_kind(kinds, from, Kind::Char),
        Operation::Flush => true,
        Operation::Assert { condition } => has_kind(kinds, condition, Kind::Bool),
        _ => value_fits(image, kinds, operation),
    }
}

/// Whether the function that is called is there, and takes and gives what the call names.
pub fn callee_fits(
    image: &Image,
    function: &Function,
    to: Option<u32>,
    number: u32,
    arguments: &[u32],
) -> bool
    ensures { result ≡ callee_fits_in (image_of image.now) (function_of function.now) (slice_get (image_of image.now).functions number) to arguments.now }
{
    match image.functions.get(number as usize) {
        None => false,
        Some(callee) => call_fits(&function.kinds, callee, to, arguments),
    }
}
