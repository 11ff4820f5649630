//! The bytes of an image.
ghost use Rattle.code_form.specs.Form.{block_of, function_of, image_of, instruction_of};
ghost use Rattle.image_bytes.specs.Bytes.{block_bytes, fact_bytes, function_bytes, image_bytes, instruction_bytes, kind_bytes, layout_bytes, list_bytes, text_bytes, word};
ghost use Rattle.image_bytes.specs.Encodable.{IsEncodable, IsImage};
ghost use Rattle.image_bytes.specs.Parts.{argument_bytes, parts_bytes};
ghost use Rattle.instruction_table.specs.declared.fault.ImageFault.TheVariants.{OutOfMemory};
ghost use Rattle.std.specs.List.{flat_map};
ghost use Rattle.std.specs.Prelude.{◌≡◌, ◌≤◌, ◌++◌, IfOk, MatchResult, OnOk, map, string_bytes};

use crate::put::{
    put_argument, put_byte, put_count, put_fact, put_half, put_kind, put_result, put_text, put_word,
};
use code_form::{Block, Fact, Function, Image, Instruction, Kind};
use instruction_table::{Argument, ImageFault, Parts, parts_of};
use std::alloc::{AllocError, Global};

/// The letters C0FI, and version 2.
static HEADER: [u8; 6] = [0x43, 0x30, 0x46, 0x49, 2, 0];

/// Operands more.
fn put_arguments(out: &mut Vec<u8>, arguments: &[Argument]) -> Result<(), AllocError>
    ensures { OnOk result (out.new.items ≡ out.old.items ++ flat_map argument_bytes arguments.now) }
{
    for argument in arguments {
        put_argument(out, *argument)?;
    }
    Ok(())
}

/// A list of registers more.
fn put_registers(out: &mut Vec<u8>, registers: &[u32]) -> Result<(), AllocError>
    ensures { OnOk result (out.new.items ≡ out.old.items ++ list_bytes word registers.now) }
{
    put_count(out, registers.len())?;
    for register in registers {
        put_word(out, *register)?;
    }
    Ok(())
}

/// An instruction more, by the table.
fn put_parts(out: &mut Vec<u8>, parts: &Parts<'_>) -> Result<(), AllocError>
    requires { parts.now.count ≤ 4 }
    ensures { OnOk result (out.new.items ≡ out.old.items ++ parts_bytes parts.now) }
{
    put_byte(out, parts.name.code())?;
    put_arguments(out, &parts.arguments[..parts.count])?;
    if let Some(registers) = parts.registers {
        put_registers(out, registers)?;
    }
    Ok(())
}

/// An instruction more.
fn put_instruction(out: &mut Vec<u8>, instruction: &Instruction) -> Result<(), AllocError>
    ensures { OnOk result (out.new.items ≡ out.old.items ++ instruction_bytes (instruction_of instruction.now)) }
{
    put_parts(out, &parts_of(instruction))
}

/// A list of instructions more.
fn put_code(out: &mut Vec<u8>, code: &[Instruction]) -> Result<(), AllocError>
    ensures { OnOk result (out.new.items ≡ out.old.items ++ list_bytes instruction_bytes (map instruction_of code.now)) }
{
    put_count(out, code.len())?;
    for instruction in code {
        put_instruction(out, instruction)?;
    }
    Ok(())
}

/// A list of entry facts more.
fn put_facts(out: &mut Vec<u8>, facts: &[Fact]) -> Result<(), AllocError>
    ensures { OnOk result (out.new.items ≡ out.old.items ++ list_bytes fact_bytes facts.now) }
{
    put_count(out, facts.len())?;
    for fact in facts {
        put_fact(out, *fact)?;
    }
    Ok(())
}

/// A list of kinds more.
fn put_kinds(out: &mut Vec<u8>, kinds: &[Kind]) -> Result<(), AllocError>
    ensures { OnOk result (out.new.items ≡ out.old.items ++ list_bytes kind_bytes kinds.now) }
{
    put_count(out, kinds.len())?;
    for kind in kinds {
        put_kind(out, *kind)?;
    }
    Ok(())
}

/// A block more.
fn put_block(out: &mut Vec<u8>, block: &Block) -> Result<(), AllocError>
    ensures { OnOk result (out.new.items ≡ out.old.items ++ block_bytes (block_of block.now)) }
{
    put_facts(out, &block.facts)?;
    put_code(out, block.code.instructions())
}

/// A list of blocks more.
fn put_blocks(out: &mut Vec<u8>, blocks: &[Block]) -> Result<(), AllocError>
    ensures { OnOk result (out.new.items ≡ out.old.items ++ list_bytes block_bytes (map block_of blocks.now)) }
{
    put_count(out, blocks.len())?;
    for block in blocks {
        put_block(out, block)?;
    }
    Ok(())
}

/// A function more.
fn put_function(out: &mut Vec<u8>, function: &Function) -> Result<(), AllocError>
    ensures { OnOk result (out.new.items ≡ out.old.items ++ function_bytes (function_of function.now)) }
{
    put_result(out, function.result)?;
    put_word(out, function.parameters)?;
    put_kinds(out, &function.kinds)?;
    put_byte(out, function.scopes)?;
    put_blocks(out, &function.blocks)
}

/// A list of functions more.
fn put_functions(out: &mut Vec<u8>, functions: &[Function]) -> Result<(), AllocError>
    ensures { OnOk result (out.new.items ≡ out.old.items ++ list_bytes function_bytes (map function_of functions.now)) }
{
    put_count(out, functions.len())?;
    for function in functions {
        put_function(out, function)?;
    }
    Ok(())
}

/// A list of texts more.
fn put_texts(out: &mut Vec<u8>, texts: &[String]) -> Result<(), AllocError>
    ensures { OnOk result (out.new.items ≡ out.old.items ++ list_bytes text_bytes (map string_bytes texts.now)) }
{
    put_count(out, texts.len())?;
    for text in texts {
        put_text(out, text)?;
    }
    Ok(())
}

/// A list of layouts more.
fn put_layouts(out: &mut Vec<u8>, layouts: &[Vec<Kind>]) -> Result<(), AllocError>
    ensures { OnOk result (out.new.items ≡ out.old.items ++ list_bytes layout_bytes (map (λ l. l.items) layouts.now)) }
{
    put_count(out, layouts.len())?;
    for layout in layouts {
        put_kinds(out, layout)?;
    }
    Ok(())
}

/// The bytes of an image.
fn encoded(alloc: Global, image: &Image) -> Result<Vec<u8>, AllocError>
    ensures { IfOk result (λ v. v.items ≡ image_bytes (image_of image.now)) }
{
    let mut out = Vec::from_slice(alloc, &HEADER)?;
    put_half(&mut out, image.piece.cells() as u16)?;
    put_texts(&mut out, &image.texts)?;
    put_layouts(&mut out, &image.layouts)?;
    put_functions(&mut out, &image.functions)?;
    Ok(out)
}

/// The bytes of an image, in version 2, by which `decode` reads it as it is. The condition is that the format has bytes for it, which `is_encodable` tells: what
/// is compiled has them, and what was decoded. `Err` is want of memory.
pub fn encode(alloc: Global, image: &Image) -> Result<Vec<u8>, ImageFault>
    requires { IsEncodable (image_of image.now) }
    ensures written { MatchResult result (λ v. v.items ≡ image_bytes (image_of image.now)) (λ fault. fault ≡ OutOfMemory) }
    ensures image { IfOk result (λ v. IsImage v.items (image_of image.now)) }
{
    Ok(encoded(alloc, image)?)
}
