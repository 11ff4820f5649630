//! Which images the format has bytes for.
ghost use Rattle.code_form.specs.Form.{block_of, function_of, image_of, instruction_of};
ghost use Rattle.image_bytes.specs.Encodable.{AreFew, BlockFits, CellFits, FactFits, FunctionFits, InstructionFits, IsEncodable, IsLetter, IsWord, KindFits, LayoutFits, OptionalFits, ResultFits, TextFits};
ghost use Rattle.image_bytes.specs.Parts.{ArgumentFits, OptionalsFit, RegistersFit};
ghost use Rattle.std.specs.List.{AllByRecursion};
ghost use Rattle.std.specs.Prelude.{◌↔◌, IsTrue, map, option_map, string_bytes};

use crate::put::NONE;
use code_form::{Block, Fact, Function, Image, Instruction, Kind, Operation};
use instruction_table::{Argument, parts_of};

/// Whether four bytes hold a count.
fn is_few(count: usize) -> bool
    ensures { IsTrue result ↔ IsWord count }
{
    count < 0x1_0000_0000
}

/// Whether a register, where there is one, has another number than stands for none.
fn optional_fits(register: Option<u32>) -> bool
    ensures { IsTrue result ↔ OptionalFits register }
{
    register != Some(NONE)
}

/// Whether an operand has bytes, which only a character may lack.
fn argument_fits(argument: Argument) -> bool
    ensures { IsTrue result ↔ ArgumentFits argument }
{
    match argument {
        Argument::Character(code) => code < 128,
        _ => true,
    }
}

/// Whether an entry fact has bytes.
fn fact_fits(fact: Fact) -> bool
    ensures { IsTrue result ↔ FactFits fact }
{
    match fact {
        Fact::Aimed { offset, .. } => optional_fits(offset),
        _ => true,
    }
}

/// Whether the kind of a cell has bytes, as all but offsets have.
fn cell_fits(kind: Kind) -> bool
    ensures { IsTrue result ↔ CellFits kind }
{
    match kind {
        Kind::Off(_) => false,
        _ => true,
    }
}

/// Whether each operand has bytes.
fn arguments_fit(arguments: &[Argument]) -> bool
    ensures { IsTrue result ↔ AllByRecursion ArgumentFits arguments.now }
{
    for argument in arguments {
        if !argument_fits(*argument) {
            return false;
        }
    }
    true
}

/// Whether an instruction has bytes as far as its operands do not tell: a register that may be missing has another number than stands for none.
fn optionals_fit(instruction: &Instruction) -> bool
    ensures { IsTrue result ↔ OptionalsFit (instruction_of instruction.now) }
{
    match instruction {
        Instruction::Simple(Operation::Prefetch { offset, .. }) | Instruction::Aim { offset, .. } =>
            optional_fits(*offset),
        Instruction::Call { to, .. } => optional_fits(*to),
        _ => true,
    }
}

/// Whether a list of registers has bytes.
fn list_fits(registers: &[u32]) -> bool
    ensures { IsTrue result ↔ AreFew IsWord registers.now }
{
    is_few(registers.len())
}

/// Whether a list of registers has bytes, where there is one.
fn registers_fit(registers: Option<&[u32]>) -> bool
    ensures { IsTrue result ↔ RegistersFit (option_map (λ b. b.now) registers.entry) }
{
    match registers {
        None => true,
        Some(registers) => list_fits(registers),
    }
}

/// Whether an instruction has bytes.
fn instruction_fits(instruction: &Instruction) -> bool
    ensures { IsTrue result ↔ InstructionFits (instruction_of instruction.now) }
{
    if !optionals_fit(instruction) {
        return false;
    }
    let parts = parts_of(instruction);
    if !arguments_fit(&parts.arguments[..parts.count]) {
        return false;
    }
    registers_fit(parts.registers)
}

/// Whether a list of instructions has bytes.
fn code_fits(code: &[Instruction]) -> bool
    ensures { IsTrue result ↔ AreFew InstructionFits (map instruction_of code.now) }
{
    for instruction in code {
        if !instruction_fits(instruction) {
            return false;
        }
    }
    is_few(code.len())
}

/// Whether a list of entry facts has bytes.
fn facts_fit(facts: &[Fact]) -> bool
    ensures { IsTrue result ↔ AreFew FactFits facts.now }
{
    for fact in facts {
        if !fact_fits(*fact) {
            return false;
        }
    }
    is_few(facts.len())
}

/// Whether a block has bytes.
fn block_fits(block: &Block) -> bool
    ensures { IsTrue result ↔ BlockFits (block_of block.now) }
{
    facts_fit(&block.facts) && code_fits(block.code.instructions())
}

/// Whether a list of blocks has bytes.
fn blocks_fit(blocks: &[Block]) -> bool
    ensures { IsTrue result ↔ AreFew BlockFits (map block_of blocks.now) }
{
    for block in blocks {
        if !block_fits(block) {
            return false;
        }
    }
    is_few(blocks.len())
}

/// Whether a list of bytes is one of ASCII.
fn letters_fit(letters: &[u8]) -> bool
    ensures { IsTrue result ↔ AreFew IsLetter letters.now }
{
    for letter in letters {
        if *letter >= 128 {
            return false;
        }
    }
    is_few(letters.len())
}

/// Whether a list of texts has bytes.
fn texts_fit(texts: &[String]) -> bool
    ensures { IsTrue result ↔ AreFew TextFits (map string_bytes texts.now) }
{
    for text in texts {
        if !letters_fit(text.as_bytes()) {
            return false;
        }
    }
    is_few(texts.len())
}

/// Whether a layout has bytes.
fn layout_fits(layout: &[Kind]) -> bool
    ensures { IsTrue result ↔ LayoutFits layout.now }
{
    for kind in layout {
        if !cell_fits(*kind) {
            return false;
        }
    }
    is_few(layout.len())
}

/// Whether a list of layouts has bytes.
fn layouts_fit(layouts: &[Vec<Kind>]) -> bool
    ensures { IsTrue result ↔ AreFew LayoutFits (map (λ l. l.items) layouts.now) }
{
    for layout in layouts {
        if !layout_fits(layout) {
            return false;
        }
    }
    is_few(layouts.len())
}

/// Whether the kind of a register has bytes, as each kind has.
fn kind_fits(kind: Kind) -> bool
    ensures { IsTrue result ↔ KindFits kind }
{
    true
}

/// Whether the kinds of registers have bytes.
fn kinds_fit(kinds: &[Kind]) -> bool
    ensures { IsTrue result ↔ AreFew KindFits kinds.now }
{
    for kind in kinds {
        if !kind_fits(*kind) {
            return false;
        }
    }
    is_few(kinds.len())
}

/// Whether the kind of a result has bytes, where there is one.
fn result_fits(kind: Option<Kind>) -> bool
    ensures { IsTrue result ↔ ResultFits kind }
{
    match kind {
        None => true,
        Some(kind) => kind_fits(kind),
    }
}

/// Whether a function has bytes.
fn function_fits(function: &Function) -> bool
    ensures { IsTrue result ↔ FunctionFits (function_of function.now) }
{
    let _parameters = function.parameters;
    let _scopes = function.scopes;
    if !result_fits(function.result) {
        return false;
    }
    if !kinds_fit(&function.kinds) {
        return false;
    }
    blocks_fit(&function.blocks)
}

/// Whether a list of functions has bytes.
fn functions_fit(functions: &[Function]) -> bool
    ensures { IsTrue result ↔ AreFew FunctionFits (map function_of functions.now) }
{
    for function in functions {
        if !function_fits(function) {
            return false;
        }
    }
    is_few(functions.len())
}

/// Whether the format has bytes for an image, so that what is written of it is read as it was: no list has 2^32 items, texts and characters are ASCII, no
/// cell of a layout is an offset, and no register that may be missing has the number 2^32 - 1.
pub fn is_encodable(image: &Image) -> bool
    ensures { IsTrue result ↔ IsEncodable (image_of image.now) }
{
    if !texts_fit(&image.texts) {
        return false;
    }
    if !layouts_fit(&image.layouts) {
        return false;
    }
    functions_fit(&image.functions)
}
