//! The numbers of an image in reading order: the first that is out of range.
ghost use Rattle.code_form.specs.Asked.{leads_out as leads_out_of};
ghost use Rattle.code_form.specs.Form.{block_of, function_of, image_of, instruction_of};
ghost use Rattle.scope_verifier.specs.Answers.{Tells};
ghost use Rattle.scope_verifier_laws.specs.First.{first_in, unless as unless_of};
ghost use Rattle.scope_verifier_laws.specs.Numbers.{block_numbers as block_fault, cell_fault, code_numbers as code_fault, fact_numbers as fact_fault, function_numbers as function_fault, head_fault, instruction_numbers as instruction_fault, is_cell_kind as is_cell, is_placed as is_placed_in, is_result_kind as is_result, kind_fault, layout_fault, leading_fault, names_layout as names, numbers as numbers_of, other_fault, outer_numbers as outer_fault, register_fault, registers_fault, scope_fault};
ghost use Rattle.std.specs.Prelude.{◌≡◌, None, Some, map, option_map};

use code_form::{Block, Fact, Function, Image, Instruction, Kind, Operation};
use instruction_table::{Argument, parts_of};
use scope_verifier_laws::VerifyFault;

/// The fault, where the test fails.
pub(crate) fn unless(test: bool, fault: VerifyFault) -> Result<(), VerifyFault>
    ensures { Tells result (unless_of test fault) }
{
    if test { Ok(()) } else { Err(fault) }
}

/// The number of a register.
fn register_number(function: &Function, register: u32) -> Result<(), VerifyFault>
    ensures { Tells result (register_fault (function_of function.now) register) }
{
    unless(
        (register as usize) < function.kinds.len(),
        VerifyFault::OperandKind,
    )
}

/// The number of a scope.
pub(crate) fn scope_number(function: &Function, scope: u8) -> Result<(), VerifyFault>
    ensures { Tells result (scope_fault (function_of function.now) scope) }
{
    unless(scope < function.scopes, VerifyFault::TooManyScopes)
}

/// The number of a block or a scope.
fn leading_number(function: &Function, argument: Argument) -> Result<(), VerifyFault>
    ensures { Tells result (leading_fault (function_of function.now) argument) }
{
    match argument {
        Argument::Block(block) => unless(
            (block as usize) < function.blocks.len(),
            VerifyFault::OutOfCode,
        ),
        Argument::Scope(scope) => scope_number(function, scope),
        _ => Ok(()),
    }
}

/// The numbers of blocks and scopes among these operands.
fn leading_numbers(function: &Function, arguments: &[Argument]) -> Result<(), VerifyFault>
    ensures { Tells result (first_in (leading_fault (function_of function.now)) arguments.now) }
{
    for argument in arguments {
        leading_number(function, *argument)?;
    }
    Ok(())
}

/// The number of a register or a function.
fn other_number(image: &Image, function: &Function, argument: Argument) -> Result<(), VerifyFault>
    ensures { Tells result (other_fault (image_of image.now) (function_of function.now) argument) }
{
    match argument {
        Argument::Register(register) => register_number(function, register),
        Argument::Function(number) => unless(
            (number as usize) < image.functions.len(),
            VerifyFault::OperandKind,
        ),
        _ => Ok(()),
    }
}

/// The numbers of registers and functions among these operands.
fn other_numbers(
    image: &Image,
    function: &Function,
    arguments: &[Argument],
) -> Result<(), VerifyFault>
    ensures { Tells result (first_in (other_fault (image_of image.now) (function_of function.now)) arguments.now) }
{
    for argument in arguments {
        other_number(image, function, *argument)?;
    }
    Ok(())
}

/// The numbers of these registers.
fn register_numbers(function: &Function, registers: &[u32]) -> Result<(), VerifyFault>
    ensures { Tells result (first_in (register_fault (function_of function.now)) registers.now) }
{
    for register in registers {
        register_number(function, *register)?;
    }
    Ok(())
}

/// The number of a text or a layout.
fn head_number(image: &Image, instruction: &Instruction) -> Result<(), VerifyFault>
    ensures { Tells result (head_fault (image_of image.now).head (instruction_of instruction.now)) }
{
    match instruction {
        Instruction::Simple(Operation::TextOf { number, .. }) => unless(
            *number as usize <= image.texts.len(),
            VerifyFault::OperandKind,
        ),
        Instruction::Simple(Operation::Alloc { layout, .. })
        | Instruction::Simple(Operation::AllocArray { layout, .. }) => unless(
            (*layout as usize) < image.layouts.len(),
            VerifyFault::OperandKind,
        ),
        _ => Ok(()),
    }
}

/// The numbers of an instruction.
fn instruction_numbers(
    image: &Image,
    function: &Function,
    instruction: &Instruction,
) -> Result<(), VerifyFault>
    ensures { Tells result (instruction_fault (image_of image.now) (function_of function.now) (instruction_of instruction.now)) }
{
    let parts = parts_of(instruction);
    let arguments = &parts.arguments[..parts.count];
    leading_numbers(function, arguments)?;
    other_numbers(image, function, arguments)?;
    if let Some(registers) = parts.registers {
        register_numbers(function, registers)?;
    }
    head_number(image, instruction)
}

/// The numbers of an entry fact.
fn fact_numbers(function: &Function, fact: Fact) -> Result<(), VerifyFault>
    ensures { Tells result (fact_fault (function_of function.now) fact) }
{
    match fact {
        Fact::Nonnull(register) => register_number(function, register),
        Fact::Inside(offset, array) => {
            register_number(function, offset)?;
            register_number(function, array)
        }
        Fact::Aimed {
            scope,
            register,
            offset,
            ..
        } => {
            scope_number(function, scope)?;
            register_number(function, register)?;
            match offset {
                None => Ok(()),
                Some(offset) => register_number(function, offset),
            }
        }
        Fact::Shut(scope) => scope_number(function, scope),
    }
}

/// The numbers of these entry facts.
fn facts_numbers(function: &Function, facts: &[Fact]) -> Result<(), VerifyFault>
    ensures { Tells result (first_in (fact_fault (function_of function.now)) facts.now) }
{
    for fact in facts {
        fact_numbers(function, *fact)?;
    }
    Ok(())
}

/// Whether an instruction leads out of its block.
fn leads_out(instruction: &Instruction) -> bool
    ensures { result ≡ leads_out_of (instruction_of instruction.now) }
{
    matches!(
        instruction,
        Instruction::Jump { .. }
            | Instruction::Branch { .. }
            | Instruction::Return { .. }
            | Instruction::ReturnVoid
            | Instruction::Error { .. }
    )
}

/// Whether an instruction with these behind it stands where it belongs: last in its block exactly where it leads out of it.
fn is_placed(instruction: &Instruction, rest: &[Instruction]) -> bool
    ensures { result ≡ is_placed_in (instruction_of instruction.now) (map instruction_of rest.now) }
{
    leads_out(instruction) == rest.is_empty()
}

/// The numbers of these instructions.
fn code_numbers(image: &Image, function: &Function, code: &[Instruction]) -> Result<(), VerifyFault>
    ensures { Tells result (code_fault (image_of image.now) (function_of function.now) (map instruction_of code.now)) }
{
    for index in 0..code.len() {
        let instruction = &code[index];
        unless(
            is_placed(instruction, &code[index + 1..]),
            VerifyFault::OutOfCode,
        )?;
        instruction_numbers(image, function, instruction)?;
    }
    Ok(())
}

/// The numbers of a block, which has an instruction.
fn block_numbers(image: &Image, function: &Function, block: &Block) -> Result<(), VerifyFault>
    ensures { Tells result (block_fault (image_of image.now) (function_of function.now) (block_of block.now)) }
{
    facts_numbers(function, &block.facts)?;
    let code = block.code.instructions();
    unless(!code.is_empty(), VerifyFault::OutOfCode)?;
    code_numbers(image, function, code)
}

/// The numbers of these blocks.
fn blocks_numbers(image: &Image, function: &Function, blocks: &[Block]) -> Result<(), VerifyFault>
    ensures { Tells result (first_in (block_fault (image_of image.now) (function_of function.now)) (map block_of blocks.now)) }
{
    for block in blocks {
        block_numbers(image, function, block)?;
    }
    Ok(())
}

/// Whether the layout that a kind names is one of so many.
fn names_layout(count: usize, kind: Kind) -> bool
    ensures { result ≡ names count kind }
{
    match kind {
        Kind::Ptr(layout) | Kind::Arr(layout) | Kind::Off(layout) => (layout as usize) < count,
        _ => true,
    }
}

/// Whether a kind is one of values, and names one of so many layouts.
fn is_cell_kind(count: usize, kind: Kind) -> bool
    ensures { result ≡ is_cell count kind }
{
    names_layout(count, kind) && !matches!(kind, Kind::Off(_))
}

/// Whether the kind of a result is, where there is one.
fn is_result_kind(count: usize, kind: Option<Kind>) -> bool
    ensures { result ≡ is_result count kind }
{
    match kind {
        None => true,
        Some(kind) => is_cell_kind(count, kind),
    }
}

/// The kinds of registers, where there are so many layouts.
fn kind_numbers(count: usize, kinds: &[Kind]) -> Result<(), VerifyFault>
    ensures { Tells result (first_in (kind_fault count) kinds.now) }
{
    for kind in kinds {
        unless(names_layout(count, *kind), VerifyFault::OperandKind)?;
    }
    Ok(())
}

/// The numbers of a function before its blocks.
fn outer_numbers(image: &Image, function: &Function) -> Result<(), VerifyFault>
    ensures { Tells result (outer_fault (image_of image.now) (function_of function.now)) }
{
    let count = image.layouts.len();
    unless(
        is_result_kind(count, function.result),
        VerifyFault::OperandKind,
    )?;
    unless(
        function.parameters as usize <= function.kinds.len(),
        VerifyFault::OperandKind,
    )?;
    kind_numbers(count, &function.kinds)?;
    unless(function.scopes <= 4, VerifyFault::TooManyScopes)
}

/// The numbers of a function, which has a block.
fn function_numbers(image: &Image, function: &Function) -> Result<(), VerifyFault>
    ensures { Tells result (function_fault (image_of image.now) (function_of function.now)) }
{
    outer_numbers(image, function)?;
    unless(!function.blocks.is_empty(), VerifyFault::OutOfCode)?;
    blocks_numbers(image, function, &function.blocks)
}

/// The numbers of these functions.
fn functions_numbers(image: &Image, functions: &[Function]) -> Result<(), VerifyFault>
    ensures { Tells result (first_in (function_fault (image_of image.now)) (map function_of functions.now)) }
{
    for function in functions {
        function_numbers(image, function)?;
    }
    Ok(())
}

/// The kinds of a layout, where there are so many.
fn layout_numbers(count: usize, cells: &[Kind]) -> Result<(), VerifyFault>
    ensures { Tells result (layout_fault count cells.now) }
{
    for kind in cells {
        unless(is_cell_kind(count, *kind), VerifyFault::OperandKind)?;
    }
    Ok(())
}

/// The kinds of these layouts.
fn layouts_numbers(count: usize, layouts: &[Vec<Kind>]) -> Result<(), VerifyFault>
    ensures { Tells result (first_in (layout_fault count) (map (λ l. l.items) layouts.now)) }
{
    for layout in layouts {
        layout_numbers(count, layout)?;
    }
    Ok(())
}

/// The numbers of an image.
pub(crate) fn numbers(image: &Image) -> Result<(), VerifyFault>
    ensures { Tells result (numbers_of (image_of image.now)) }
{
    layouts_numbers(image.layouts.len(), &image.layouts)?;
    functions_numbers(image, &image.functions)
}
