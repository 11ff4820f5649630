//! Lists: a count, and so many items. An item is read before there is room for it, so a count that the bytes cannot hold takes none.
//! What room is left over is given back.
ghost use Rattle.code_form.specs.Form.{block_of, function_of, instruction_of};
ghost use Rattle.image_reader.specs.Outcome.{Gives};
ghost use Rattle.image_reader.specs.Reading.{block_at, cell_at, fact_at, function_at, instruction_at, kind_at, layout_at, letter_at, list_at, number_at, text_at};
ghost use Rattle.std.specs.Prelude.{map, string_bytes};

use crate::failure::Failure;
use crate::fields::{byte_of, cell_of, fact_of, kind_of, letter_of, number_of, result_of};
use crate::instructions::instruction_from;
use code_form::{Block, BlockCode, Fact, Function, Instruction, Kind};
use std::alloc::Global;

/// A list of registers.
#[tactic(auto, unfolding(crate::specs::Reading::list_at))]
pub(crate) fn registers_of(alloc: Global, bytes: &[u8]) -> Result<(Vec<u32>, &[u8]), Failure>
    ensures { Gives (λ x. (x.0.items, x.1.now)) result (list_at number_at bytes.now) }
{
    let (count, mut rest) = number_of(bytes)?;
    let mut items = Vec::new(alloc);
    for _ in 0..count {
        let (register, behind) = number_of(rest)?;
        items.push(register)?;
        rest = behind;
    }
    items.shrink_to_fit();
    Ok((items, rest))
}

/// A list of kinds of registers.
#[tactic(auto, unfolding(crate::specs::Reading::list_at))]
pub(crate) fn kinds_of(alloc: Global, bytes: &[u8]) -> Result<(Vec<Kind>, &[u8]), Failure>
    ensures { Gives (λ x. (x.0.items, x.1.now)) result (list_at kind_at bytes.now) }
{
    let (count, mut rest) = number_of(bytes)?;
    let mut items = Vec::new(alloc);
    for _ in 0..count {
        let (kind, behind) = kind_of(rest)?;
        items.push(kind)?;
        rest = behind;
    }
    items.shrink_to_fit();
    Ok((items, rest))
}

/// A list of entry facts.
#[tactic(auto, unfolding(crate::specs::Reading::list_at))]
pub(crate) fn facts_of(alloc: Global, bytes: &[u8]) -> Result<(Vec<Fact>, &[u8]), Failure>
    ensures { Gives (λ x. (x.0.items, x.1.now)) result (list_at fact_at bytes.now) }
{
    let (count, mut rest) = number_of(bytes)?;
    let mut items = Vec::new(alloc);
    for _ in 0..count {
        let (fact, behind) = fact_of(rest)?;
        items.push(fact)?;
        rest = behind;
    }
    items.shrink_to_fit();
    Ok((items, rest))
}

/// A list of instructions.
#[tactic(auto, unfolding(crate::specs::Reading::list_at))]
pub(crate) fn code_of(alloc: Global, bytes: &[u8]) -> Result<(Vec<Instruction>, &[u8]), Failure>
    ensures { Gives (λ x. (map instruction_of x.0.items, x.1.now)) result (list_at instruction_at bytes.now) }
{
    let (count, mut rest) = number_of(bytes)?;
    let mut items = Vec::new(alloc);
    for _ in 0..count {
        let (instruction, behind) = instruction_from(alloc, rest)?;
        items.push(instruction)?;
        rest = behind;
    }
    items.shrink_to_fit();
    Ok((items, rest))
}

/// A block.
#[tactic(auto, unfolding(crate::specs::Reading::block_at))]
fn block_from(alloc: Global, bytes: &[u8]) -> Result<(Block, &[u8]), Failure>
    ensures { Gives (λ x. (block_of x.0, x.1.now)) result (block_at bytes.now) }
{
    let (facts, rest) = facts_of(alloc, bytes)?;
    let (code, rest) = code_of(alloc, rest)?;
    let code = BlockCode::new(alloc, code)?;
    Ok((Block { facts, code }, rest))
}

/// A list of blocks.
#[tactic(auto, unfolding(crate::specs::Reading::list_at))]
pub(crate) fn blocks_of(alloc: Global, bytes: &[u8]) -> Result<(Vec<Block>, &[u8]), Failure>
    ensures { Gives (λ x. (map block_of x.0.items, x.1.now)) result (list_at block_at bytes.now) }
{
    let (count, mut rest) = number_of(bytes)?;
    let mut items = Vec::new(alloc);
    for _ in 0..count {
        let (block, behind) = block_from(alloc, rest)?;
        items.push(block)?;
        rest = behind;
    }
    items.shrink_to_fit();
    Ok((items, rest))
}

/// A function.
#[tactic(auto, unfolding(crate::specs::Reading::function_at))]
fn function_from(alloc: Global, bytes: &[u8]) -> Result<(Function, &[u8]), Failure>
    ensures { Gives (λ x. (function_of x.0, x.1.now)) result (function_at bytes.now) }
{
    let (result, rest) = result_of(bytes)?;
    let (parameters, rest) = number_of(rest)?;
    let (kinds, rest) = kinds_of(alloc, rest)?;
    let (scopes, rest) = byte_of(rest)?;
    let (blocks, rest) = blocks_of(alloc, rest)?;
    let function = Function {
        result,
        parameters,
        kinds,
        scopes,
        blocks,
    };
    Ok((function, rest))
}

/// A list of functions.
#[tactic(auto, unfolding(crate::specs::Reading::list_at))]
pub(crate) fn functions_of(alloc: Global, bytes: &[u8]) -> Result<(Vec<Function>, &[u8]), Failure>
    ensures { Gives (λ x. (map function_of x.0.items, x.1.now)) result (list_at function_at bytes.now) }
{
    let (count, mut rest) = number_of(bytes)?;
    let mut items = Vec::new(alloc);
    for _ in 0..count {
        let (function, behind) = function_from(alloc, rest)?;
        items.push(function)?;
        rest = behind;
    }
    items.shrink_to_fit();
    Ok((items, rest))
}

/// A text.
#[tactic(auto, unfolding(crate::specs::Reading::list_at, crate::specs::Reading::text_at))]
fn text_of(alloc: Global, bytes: &[u8]) -> Result<(String, &[u8]), Failure>
    ensures { Gives (λ x. (string_bytes x.0, x.1.now)) result (text_at bytes.now) }
{
    let (count, mut rest) = number_of(bytes)?;
    let mut text = String::new(alloc);
    for _ in 0..count {
        let (letter, behind) = letter_of(rest)?;
        text.push(letter as char)?;
        rest = behind;
    }
    Ok((text, rest))
}

/// A list of texts.
#[tactic(auto, unfolding(crate::specs::Reading::list_at))]
pub(crate) fn texts_of(alloc: Global, bytes: &[u8]) -> Result<(Vec<String>, &[u8]), Failure>
    ensures { Gives (λ x. (map string_bytes x.0.items, x.1.now)) result (list_at text_at bytes.now) }
{
    let (count, mut rest) = number_of(bytes)?;
    let mut items = Vec::new(alloc);
    for _ in 0..count {
        let (text, behind) = text_of(alloc, rest)?;
        items.push(text)?;
        rest = behind;
    }
    items.shrink_to_fit();
    Ok((items, rest))
}

/// A layout.
#[tactic(auto, unfolding(crate::specs::Reading::list_at, crate::specs::Reading::layout_at))]
pub(crate) fn layout_of(alloc: Global, bytes: &[u8]) -> Result<(Vec<Kind>, &[u8]), Failure>
    ensures { Gives (λ x. (x.0.items, x.1.now)) result (layout_at bytes.now) }
{
    let (count, mut rest) = number_of(bytes)?;
    let mut items = Vec::new(alloc);
    for _ in 0..count {
        let (kind, behind) = cell_of(rest)?;
        items.push(kind)?;
        rest = behind;
    }
    items.shrink_to_fit();
    Ok((items, rest))
}

/// A list of layouts.
#[tactic(auto, unfolding(crate::specs::Reading::list_at))]
pub(crate) fn layouts_of(alloc: Global, bytes: &[u8]) -> Result<(Vec<Vec<Kind>>, &[u8]), Failure>
    ensures { Gives (λ x. (map (λ l. l.items) x.0.items, x.1.now)) result (list_at layout_at bytes.now) }
{
    let (count, mut rest) = number_of(bytes)?;
    let mut items = Vec::new(alloc);
    for _ in 0..count {
        let (layout, behind) = layout_of(alloc, rest)?;
        items.push(layout)?;
        rest = behind;
    }
    items.shrink_to_fit();
    Ok((items, rest))
}
