//! Values of the plain run.
ghost use Rattle.std.specs.Prelude.{◌≡◌};
ghost use Rattle.c0_typed.specs.Values.{Leaf, as_letter, as_number, as_ref, as_text, as_truth, same_value, value_below};
ghost use Rattle.c0_typed.specs.Meaning.{blank};
ghost use Rattle.c0_typed.specs.Views.{constant_of, text_at, type_of};
ghost use Rattle.c0_values.specs.PlainStates.{Texts, natural, value_of};

use c0_typed::{Constant, PlainType, ValueType};

/// A value of a small type. A text is its number in the program, with 0 the empty one. A reference is its allocation's
/// number, from 1, or 0 for NULL and for the empty default array.
#[derive(Clone, Copy, PartialEq, Eq, Debug)]
pub enum Value {
    Number(i32),
    Truth(bool),
    Letter(u8),
    Text(u32),
    Reference(usize),
    Void,
}

/// The value of a constant.
pub fn constant_value(constant: Constant) -> Value
    ensures { (texts : Texts) → value_of texts result ≡ constant_of texts constant }
{
    match constant {
        Constant::Number(number) => Value::Number(number),
        Constant::Truth(truth) => Value::Truth(truth),
        Constant::Letter(letter) => Value::Letter(letter),
        Constant::Text(number) => Value::Text(number),
    }
}

/// What a local of a type holds at first.
pub fn blank_value(ty: &ValueType) -> Value
    ensures { (texts : Texts) → value_of texts result ≡ blank (type_of ty.now) }
{
    match ty {
        ValueType::Plain(plain) => match plain {
            PlainType::Void | PlainType::Struct(_) => Value::Void,
            PlainType::Int => Value::Number(0),
            PlainType::Bool => Value::Truth(false),
            PlainType::Char => Value::Letter(0),
            PlainType::Text => Value::Text(0),
        },
        ValueType::Pointer(_) | ValueType::Array(_) => Value::Reference(0),
    }
}

impl Value {
    /// The number, or 0 of another value.
    pub fn number(self) -> i32
        ensures { (texts : Texts) → result ≡ as_number (value_of texts self) }
    {
        match self {
            Value::Number(number) => number,
            _ => 0,
        }
    }

    /// The number as a size, where it is not below 0.
    pub fn size(self) -> Option<usize>
        ensures { (texts : Texts) → result ≡ natural (as_number (value_of texts self)) }
    {
        let number = self.number();
        if number < 0 {
            return None;
        }
        Some(number as usize)
    }

    /// The truth value, or false of another value.
    pub fn truth(self) -> bool
        ensures { (texts : Texts) → result ≡ as_truth (value_of texts self) }
    {
        match self {
            Value::Truth(truth) => truth,
            _ => false,
        }
    }

    /// The character, or 0 of another value.
    pub(crate) fn letter(self) -> u8
        ensures { (texts : Texts) → result ≡ as_letter (value_of texts self) }
    {
        match self {
            Value::Letter(letter) => letter,
            _ => 0,
        }
    }

    /// The text's number, or 0 of another value.
    pub(crate) fn text(self) -> u32
        ensures { (texts : Texts) → text_at texts result ≡ as_text (value_of texts self) }
    {
        match self {
            Value::Text(number) => number,
            _ => 0,
        }
    }

    /// The reference, or 0 of another value.
    pub fn reference(self) -> usize
        ensures { (texts : Texts) → result ≡ as_ref (value_of texts self) }
    {
        match self {
            Value::Reference(reference) => reference,
            _ => 0,
        }
    }

    /// Whether two numbers, truth values, characters or references are the same.
    pub fn is_same(self, other: Value) -> bool
        ensures { (texts : Texts) → result ≡ same_value (value_of texts self) (value_of texts other) }
    {
        match (self, other) {
            (Value::Number(a), Value::Number(b)) => a == b,
            (Value::Truth(a), Value::Truth(b)) => a == b,
            (Value::Letter(a), Value::Letter(b)) => a == b,
            (Value::Reference(a), Value::Reference(b)) => a == b,
            _ => false,
        }
    }

    /// Whether a number is below a number, or a character below a character.
    pub(crate) fn is_below(self, other: Value) -> bool
        ensures { (texts : Texts) → result ≡ value_below (value_of texts self) (value_of texts other) }
    {
        match (self, other) {
            (Value::Number(a), Value::Number(b)) => a < b,
            (Value::Letter(a), Value::Letter(b)) => a < b,
            _ => false,
        }
    }
}
