//! The kinds of registers and cells, and whether operands fit.
ghost use Rattle.code_form.specs.Code.{has, is_pointer, is_reference, on_kind, place_fits, same_kind, and_then, cell_kind, has_size as size_fits, is_array, is_compared, layout_of, is_array_of};
ghost use Rattle.code_form.specs.Form.{image_of};
ghost use Rattle.std.specs.Prelude.{◌≡◌, ◌&&◌, MatchOption, None, Some, slice_get};

use crate::form::{Image, Kind, Relation};

/// The kind of a register.
#[inline(always)]
pub fn kind_at(kinds: &[Kind], register: u32) -> Option<Kind>
    ensures { result ≡ slice_get kinds.now register }
{
    kinds.get(register as usize).copied()
}

/// Whether two kinds are the same.
#[inline(always)]
fn is_same(a: Kind, b: Kind) -> bool
    ensures { result ≡ same_kind a b }
{
    match a {
        Kind::Int => matches!(b, Kind::Int),
        Kind::Bool => matches!(b, Kind::Bool),
        Kind::Char => matches!(b, Kind::Char),
        Kind::Text => matches!(b, Kind::Text),
        Kind::Ptr(layout) => matches!(b, Kind::Ptr(other) if layout == other),
        Kind::Arr(layout) => matches!(b, Kind::Arr(other) if layout == other),
        Kind::Off(layout) => matches!(b, Kind::Off(other) if layout == other),
    }
}

/// Whether the register is there and has this kind.
#[inline(always)]
pub fn has_kind(kinds: &[Kind], register: u32, kind: Kind) -> bool
    ensures { result ≡ has kinds.now register kind }
{
    match kind_at(kinds, register) {
        Some(other) => is_same(kind, other),
        None => false,
    }
}

/// Whether the two registers are there and have the same kind.
pub fn have_same_kind(kinds: &[Kind], to: u32, from: u32) -> bool
    ensures { result ≡ on_kind (λ k. has kinds.now to k) (slice_get kinds.now from) }
{
    match kind_at(kinds, from) {
        Some(kind) => has_kind(kinds, to, kind),
        None => false,
    }
}

/// Whether the register is there and is a pointer.
pub fn has_pointer(kinds: &[Kind], register: u32) -> bool
    ensures { result ≡ on_kind is_pointer (slice_get kinds.now register) }
{
    matches!(kind_at(kinds, register), Some(Kind::Ptr(_)))
}

/// Whether the register is there and is a pointer or an array.
#[inline(always)]
pub fn has_reference(kinds: &[Kind], register: u32) -> bool
    ensures { result ≡ on_kind is_reference (slice_get kinds.now register) }
{
    matches!(kind_at(kinds, register), Some(Kind::Ptr(_) | Kind::Arr(_)))
}

/// Whether the second register is an array and the first an offset of its elements.
#[inline(always)]
pub fn has_array_of(kinds: &[Kind], offset: u32, register: u32) -> bool
    ensures { result ≡ is_array_of (slice_get kinds.now offset) (slice_get kinds.now register) }
{
    match kind_at(kinds, offset) {
        Some(Kind::Off(layout)) =>
            matches!(kind_at(kinds, register), Some(Kind::Arr(other)) if layout == other),
        _ => false,
    }
}

/// Whether the register is there and is an array.
#[inline(always)]
pub fn has_array(kinds: &[Kind], register: u32) -> bool
    ensures { result ≡ on_kind is_array (slice_get kinds.now register) }
{
    matches!(kind_at(kinds, register), Some(Kind::Arr(_)))
}

/// Whether the three registers are there and hold numbers.
pub fn are_numbers(kinds: &[Kind], to: u32, left: u32, right: u32) -> bool
    ensures { result ≡ (has kinds.now to Kind.Int && (has kinds.now left Kind.Int && has kinds.now right Kind.Int)) }
{
    has_kind(kinds, to, Kind::Int)
        && (has_kind(kinds, left, Kind::Int) && has_kind(kinds, right, Kind::Int))
}

/// Whether values of this kind are compared so.
fn is_compared_by(relation: Relation, kind: Kind) -> bool
    ensures { result ≡ is_compared relation kind }
{
    match relation {
        Relation::Equal | Relation::NotEqual => match kind {
            Kind::Int | Kind::Bool | Kind::Char | Kind::Ptr(_) | Kind::Arr(_) => true,
            Kind::Text | Kind::Off(_) => false,
        },
        Relation::Less | Relation::LessOrEqual | Relation::Greater | Relation::GreaterOrEqual =>
            match kind {
                Kind::Int | Kind::Char => true,
                Kind::Bool | Kind::Text | Kind::Ptr(_) | Kind::Arr(_) | Kind::Off(_) => false,
            },
    }
}

/// Whether the two registers are there, have the same kind, and are compared so.
pub fn can_compare(kinds: &[Kind], relation: Relation, left: u32, right: u32) -> bool
    ensures { result ≡ on_kind (λ k. is_compared relation k && has kinds.now right k) (slice_get kinds.now left) }
{
    match kind_at(kinds, left) {
        Some(kind) => is_compared_by(relation, kind) && has_kind(kinds, right, kind),
        None => false,
    }
}

/// Whether a scope can be aimed in what the register refers to, with or without an offset.
#[inline(always)]
pub fn is_place(kinds: &[Kind], register: u32, offset: Option<u32>) -> bool
    ensures { result ≡ place_fits kinds.now register offset }
{
    match offset {
        None => has_reference(kinds, register),
        Some(offset) => has_array_of(kinds, offset, register),
    }
}

/// The layout of what a reference of this kind refers to.
#[inline(always)]
fn layout(kind: Kind) -> Option<u32>
    ensures { result ≡ layout_of kind }
{
    match kind {
        Kind::Ptr(layout) | Kind::Arr(layout) => Some(layout),
        _ => None,
    }
}

/// The kind of the cell `displacement` of what the register refers to, or of its elements.
#[inline(always)]
pub fn kind_of_cell(image: &Image, kinds: &[Kind], register: u32, displacement: u32) -> Option<Kind>
    ensures { result ≡ cell_kind (image_of image.now).head kinds.now register displacement }
{
    let number = layout(kind_at(kinds, register)?)?;
    kind_at(image.layouts.get(number as usize)?, displacement)
}

/// Whether what a reference of this kind refers to, or each of its elements, has so many cells.
pub fn has_size(image: &Image, size: u32, kind: Option<Kind>) -> bool
    ensures { result ≡ size_fits (image_of image.now).head size kind }
{
    match cells_behind(image, kind) {
        Some(cells) => cells.len() == size as usize,
        None => false,
    }
}

/// The cells of what a reference of this kind refers to, or of its elements.
fn cells_behind(image: &Image, kind: Option<Kind>) -> Option<&Vec<Kind>>
    ensures { MatchOption result
        (and_then kind (λ k. and_then (layout_of k) (λ l. slice_get (image_of image.now).head.layouts l)) ≡ None)
        (λ v. and_then kind (λ k. and_then (layout_of k) (λ l. slice_get (image_of image.now).head.layouts l)) ≡ Some v.now.items) }
{
    let number = layout(kind?)?;
    image.layouts.get(number as usize)
}
