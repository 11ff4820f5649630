//! Operators on numbers.

use cells::{Arith, Int32Op};
use std::alloc::AllocError;
use std::fmt::Write;

/// The operator of this name.
fn operator(name: &str) -> Option<Int32Op> {
    match name {
        "add" => Some(Int32Op::Add),
        "sub" => Some(Int32Op::Sub),
        "mul" => Some(Int32Op::Mul),
        "div" => Some(Int32Op::Div),
        "mod" => Some(Int32Op::Mod),
        "and" => Some(Int32Op::And),
        "or" => Some(Int32Op::Or),
        "xor" => Some(Int32Op::Xor),
        "shl" => Some(Int32Op::Shl),
        "shr" => Some(Int32Op::Shr),
        _ => None,
    }
}

/// The operator and the two numbers of these words.
fn operation(words: &[&str]) -> Option<(Int32Op, i32, i32)> {
    match words {
        [name, first, second] => Some((operator(name)?, first.parse().ok()?, second.parse().ok()?)),
        _ => None,
    }
}

/// The value that these words ask for.
pub(crate) fn put_value(words: &[&str], told: &mut String) -> Result<(), AllocError> {
    let Some((operator, first, second)) = operation(words) else {
        return told.push_str("no operator");
    };
    match operator.apply(first, second) {
        Ok(value) => write!(told, "{value}"),
        Err(Arith) => told.push_str("fault"),
    }
}
