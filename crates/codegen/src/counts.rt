//! Whether numbers of 32 bits count what is in an image.
ghost use Rattle.code_form.specs.Counts.{few_arguments as few_arguments_of, few_in_block as few_in, few_in_function as few_of, has_few_items as has_few, is_few as is_few_of};
ghost use Rattle.code_form.specs.Form.{block_of, function_of, image_of, instruction_of};
ghost use Rattle.std.specs.List.{list_all};
ghost use Rattle.std.specs.Prelude.{◌≡◌, map, nat_lt, string_bytes};

use code_form::{Block, Function, Image, Instruction, Kind};

/// Whether a list of so many items has fewer than 2^32.
fn is_few(count: usize) -> bool
    ensures { result ≡ nat_lt count 4294967296 }
{
    count < 1 << 32
}

/// Whether the arguments of an instruction are few, where it is a call.
fn few_arguments(instruction: &Instruction) -> bool
    ensures { result ≡ few_arguments_of (instruction_of instruction.now) }
{
    match instruction {
        Instruction::Call { arguments, .. } => is_few(arguments.len()),
        _ => true,
    }
}

/// Whether each of these instructions has few arguments.
fn few_in_code(code: &[Instruction]) -> bool
    ensures { result ≡ list_all few_arguments_of (map instruction_of code.now) }
{
    for instruction in code {
        if !few_arguments(instruction) {
            return false;
        }
    }
    true
}

/// Whether a block has few facts and instructions, each with few arguments.
fn few_in_block(block: &Block) -> bool
    ensures { result ≡ few_in (block_of block.now) }
{
    let code = block.code.instructions();
    is_few(block.facts.len()) && is_few(code.len()) && few_in_code(code)
}

/// Whether so has each of these blocks.
fn few_in_blocks(blocks: &[Block]) -> bool
    ensures { result ≡ list_all few_in (map block_of blocks.now) }
{
    for block in blocks {
        if !few_in_block(block) {
            return false;
        }
    }
    true
}

/// Whether a function has few registers and few blocks, and each of these few items.
fn few_in_function(function: &Function) -> bool
    ensures { result ≡ few_of (function_of function.now) }
{
    is_few(function.kinds.len()) && is_few(function.blocks.len()) && few_in_blocks(&function.blocks)
}

/// Whether so has each of these functions.
fn few_in_functions(functions: &[Function]) -> bool
    ensures { result ≡ list_all few_of (map function_of functions.now) }
{
    for function in functions {
        if !few_in_function(function) {
            return false;
        }
    }
    true
}

/// Whether each text has few bytes.
fn few_bytes(texts: &[String]) -> bool
    ensures { result ≡ list_all is_few_of (map string_bytes texts.now) }
{
    for text in texts {
        if !is_few(text.len()) {
            return false;
        }
    }
    true
}

/// Whether each layout has few cells.
fn few_cells(layouts: &[Vec<Kind>]) -> bool
    ensures { result ≡ list_all is_few_of (map (λ l. l.items) layouts.now) }
{
    for layout in layouts {
        if !is_few(layout.len()) {
            return false;
        }
    }
    true
}

/// Whether each list of an image has fewer than 2^32 items.
pub(crate) fn has_few_items(image: &Image) -> bool
    ensures { result ≡ has_few (image_of image.now) }
{
    is_few(image.texts.len())
        && few_bytes(&image.texts)
        && is_few(image.layouts.len())
        && few_cells(&image.layouts)
        && is_few(image.functions.len())
        && few_in_functions(&image.functions)
}
