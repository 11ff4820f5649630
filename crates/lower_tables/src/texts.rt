//! The numbers that texts have in code.
ghost use Rattle.c0_typed.specs.Views.{text_at};
ghost use Rattle.lower_tables.specs.Texts.{number_among};
ghost use Rattle.lower_tables.specs.Tables.{AreNumbered};
ghost use Rattle.std.specs.Prelude.{◌≡◌, IfOk, map, string_bytes};

use std::alloc::{AllocError, Global};
use std::collections::BTreeMap;

/// For each text its number: that of the first text with its bytes, counted from 1. More texts than numbers of 32 bits tell apart
/// can't be had.
pub fn text_numbers(alloc: Global, texts: &[String]) -> Result<BTreeMap<String, u32>, AllocError>
    ensures { IfOk result (λ m. AreNumbered (map string_bytes texts.now) m) }
{
    if texts.len() > u32::MAX as usize {
        return Err(AllocError);
    }
    let mut numbers = BTreeMap::new(alloc);
    // From the last to the first, so that the first keeps its number.
    for i in (0..texts.len()).rev() {
        let key = texts[i].clone()?;
        let number = i as u32 + 1;
        numbers.insert(key, number)?;
    }
    Ok(numbers)
}

/// The text that a program has under a number.
fn text_with(texts: &[String], number: u32) -> &str
    ensures { result.now ≡ text_at (map string_bytes texts.now) number }
{
    if number == 0 {
        return "";
    }
    match texts.get(number as usize - 1) {
        Some(text) => text.as_str(),
        None => "",
    }
}

/// The number in code of the text that a program has under a number.
pub fn text_number(texts: &[String], numbers: &BTreeMap<String, u32>, text: u32) -> u32
    requires { AreNumbered (map string_bytes texts.now) numbers.now }
    ensures { result ≡ number_among (map string_bytes texts.now) (text_at (map string_bytes texts.now) text) }
{
    match numbers.get(text_with(texts, text)) {
        Some(number) => *number,
        None => 0,
    }
}
