//! The listing of an image.
ghost use Rattle.code_form.specs.Form.{block_of, function_of, image_of, instruction_of};
ghost use Rattle.image_listing.specs.Listing.{block_lines, code_lines, function_lines, instruction_text, line, listing};
ghost use Rattle.image_listing.specs.Parts.{argument_text, arguments_text, later_argument, later_register, parts_text};
ghost use Rattle.instruction_table.specs.declared.fault.ImageFault.TheVariants.{OutOfMemory};
ghost use Rattle.std.specs.List.{flat_map};
ghost use Rattle.std.specs.Prelude.{◌≡◌, ◌≤◌, ◌++◌, IfOk, MatchResult, OnOk, map, string_bytes};

use code_form::{Block, Function, Image, Instruction};
use instruction_table::{Argument, ImageFault, Parts, parts_of};
use std::alloc::{AllocError, Global};
use std::fmt::Write;

/// An operand more that is no list.
fn put_argument(text: &mut String, argument: Argument) -> Result<(), AllocError>
    ensures { OnOk result (string_bytes text.new ≡ string_bytes text.old ++ argument_text argument) }
{
    match argument {
        Argument::Register(number) => write!(text, "r{number}"),
        Argument::NoRegister => text.push_str("-"),
        Argument::Scope(number) => write!(text, "s{number}"),
        Argument::Block(number) => write!(text, "b{number}"),
        Argument::Function(number) => write!(text, "f{number}"),
        Argument::Number(number) => write!(text, "{number}"),
        Argument::Integer(value) => write!(text, "{value}"),
        Argument::Truth(value) => {
            let number = u8::from(value);
            write!(text, "{number}")
        }
        Argument::Character(code) => write!(text, "{code}"),
    }
}

/// Operands more that are no lists, behind another.
fn put_later(text: &mut String, arguments: &[Argument]) -> Result<(), AllocError>
    ensures { OnOk result (string_bytes text.new ≡ string_bytes text.old ++ flat_map later_argument arguments.now) }
{
    for argument in arguments {
        text.push_str(", ")?;
        put_argument(text, *argument)?;
    }
    Ok(())
}

/// Operands more that are no lists.
fn put_arguments(text: &mut String, arguments: &[Argument]) -> Result<(), AllocError>
    ensures { OnOk result (string_bytes text.new ≡ string_bytes text.old ++ arguments_text arguments.now) }
{
    match arguments {
        [] => Ok(()),
        [first, others @ ..] => {
            text.push_str(" ")?;
            put_argument(text, *first)?;
            put_later(text, others)
        }
    }
}

/// Registers more, behind other operands.
fn put_registers(text: &mut String, registers: &[u32]) -> Result<(), AllocError>
    ensures { OnOk result (string_bytes text.new ≡ string_bytes text.old ++ flat_map later_register registers.now) }
{
    for register in registers {
        write!(text, ", r{register}")?;
    }
    Ok(())
}

/// An instruction more, by the table.
fn put_parts(text: &mut String, parts: &Parts<'_>) -> Result<(), AllocError>
    requires { parts.now.count ≤ 4 }
    ensures { OnOk result (string_bytes text.new ≡ string_bytes text.old ++ parts_text parts.now) }
{
    text.push_str(parts.name.word())?;
    put_arguments(text, &parts.arguments[..parts.count])?;
    if let Some(registers) = parts.registers {
        put_registers(text, registers)?;
    }
    Ok(())
}

/// An instruction more.
fn put_instruction(text: &mut String, instruction: &Instruction) -> Result<(), AllocError>
    ensures { OnOk result (string_bytes text.new ≡ string_bytes text.old ++ instruction_text (instruction_of instruction.now)) }
{
    put_parts(text, &parts_of(instruction))
}

/// The line of an instruction more.
fn put_line(
    text: &mut String,
    function: usize,
    block: usize,
    number: usize,
    instruction: &Instruction,
) -> Result<(), AllocError>
    ensures { OnOk result (string_bytes text.new ≡ string_bytes text.old ++ line function block number (instruction_of instruction.now)) }
{
    write!(text, "f{function} b{block} {number}: ")?;
    put_instruction(text, instruction)?;
    text.push_str("\n")
}

/// The lines of a block's instructions more.
fn put_code(
    text: &mut String,
    function: usize,
    block: usize,
    code: &[Instruction],
) -> Result<(), AllocError>
    ensures { OnOk result (string_bytes text.new ≡ string_bytes text.old ++ code_lines function block 0 (map instruction_of code.now)) }
{
    for (number, instruction) in code.iter().enumerate() {
        put_line(text, function, block, number, instruction)?;
    }
    Ok(())
}

/// The lines of a function's blocks more.
fn put_blocks(text: &mut String, function: usize, blocks: &[Block]) -> Result<(), AllocError>
    ensures { OnOk result (string_bytes text.new ≡ string_bytes text.old ++ block_lines function 0 (map block_of blocks.now)) }
{
    for (number, block) in blocks.iter().enumerate() {
        put_code(text, function, number, block.code.instructions())?;
    }
    Ok(())
}

/// The lines of an image's functions more.
fn put_functions(text: &mut String, functions: &[Function]) -> Result<(), AllocError>
    ensures { OnOk result (string_bytes text.new ≡ string_bytes text.old ++ function_lines 0 (map function_of functions.now)) }
{
    for (number, function) in functions.iter().enumerate() {
        put_blocks(text, number, &function.blocks)?;
    }
    Ok(())
}

/// The listing of an image.
fn listed(alloc: Global, image: &Image) -> Result<String, AllocError>
    ensures { IfOk result (λ text. string_bytes text ≡ listing (image_of image.now)) }
{
    let mut text = String::new(alloc);
    put_functions(&mut text, &image.functions)?;
    Ok(text)
}

/// The listing of an image.
pub fn list(alloc: Global, image: &Image) -> Result<String, ImageFault>
    ensures { MatchResult result (λ text. string_bytes text ≡ listing (image_of image.now)) (λ fault. fault ≡ OutOfMemory) }
{
    Ok(listed(alloc, image)?)
}
