//! Values in the cells of registers: numbers and texts.
ghost use Rattle.code_form.specs.Code.{compares, int_of, natural, of_bool, of_int, text_at};
ghost use Rattle.code_form.specs.Form.{image_of};
ghost use Rattle.std.specs.Prelude.{◌≡◌, MatchOption, None, Some, slice_index};

use code_form::{Image, Relation};

/// What a register holds; 0 where there is none.
#[inline(always)]
pub fn value_in(registers: &[u64], register: u32) -> u64
    ensures { result ≡ slice_index registers.now register }
{
    match registers.get(register as usize) {
        Some(value) => *value,
        None => 0,
    }
}

/// The number in a cell: its lowest 32 bits.
#[inline(always)]
pub fn number(cell: u64) -> i32
    ensures { result ≡ int_of cell }
{
    ((cell % (1 << 32)) as u32).cast_signed()
}

/// The cell of a number: the number modulo 2^32.
#[inline(always)]
pub(crate) fn cell_of(number: i32) -> u64
    ensures { result ≡ of_int number }
{
    u64::from(number.cast_unsigned())
}

/// The cell of a truth value.
#[inline(always)]
pub(crate) fn cell_of_truth(value: bool) -> u64
    ensures { result ≡ of_bool value }
{
    if value { 1 } else { 0 }
}

/// The number, where it is not below 0.
#[inline(always)]
pub(crate) fn natural_of(number: i32) -> Option<u32>
    ensures { result ≡ natural number }
{
    if number < 0 {
        None
    } else {
        Some(number as u32)
    }
}

/// Whether a comparison of two cells holds.
#[inline(always)]
pub(crate) fn holds(relation: Relation, left: u64, right: u64) -> bool
    ensures { result ≡ compares relation left right }
{
    match relation {
        Relation::Equal => left == right,
        Relation::NotEqual => left != right,
        Relation::Less => number(left) < number(right),
        Relation::GreaterOrEqual => number(left) >= number(right),
        Relation::Greater => number(left) > number(right),
        Relation::LessOrEqual => number(left) <= number(right),
    }
}

/// The text of this number: 0 is the empty one.
pub fn text_of(image: &Image, number: u64) -> Option<&str>
    ensures { MatchOption result (text_at (image_of image.now).head number ≡ None) (λ t. text_at (image_of image.now).head number ≡ Some t.now) }
{
    if number == 0 {
        return Some("");
    }
    match image.texts.get((number - 1) as usize) {
        Some(text) => Some(text.as_str()),
        None => None,
    }
}
