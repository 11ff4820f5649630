//! Whether all that the instructions of an image name is there, and of the right kind, but for what scopes are aimed at.
ghost use Rattle.call_execution.specs.Fitting.{are_fit, is_aimed_fit, is_fit, is_function_fit, is_image_fit, is_use_fit};
ghost use Rattle.code_form.specs.Code.{on_kind, has};
ghost use Rattle.code_form.specs.Form.{function_of, image_of, instruction_of};
ghost use Rattle.std.specs.Prelude.{◌≡◌, length, map, nat_lt};

use code_form::{Function, Image, Instruction, Kind, has_kind, is_place, kind_of_cell};
use code_operations::{callee_fits, operation_fits};

/// Whether the register is there and has the kind of the function's result.
pub(crate) fn returns_kind(function: &Function, from: u32) -> bool
    ensures { let g = function_of function.now in result ≡ on_kind (λ k. has g.kinds from k) g.result }
{
    match function.result {
        Some(kind) => has_kind(&function.kinds, from, kind),
        None => false,
    }
}

/// Whether a function has a block of this number.
fn is_block(function: &Function, block: u32) -> bool
    ensures { result ≡ nat_lt block (length (function_of function.now).blocks) }
{
    (block as usize) < function.blocks.len()
}

/// Whether what an instruction names fits.
fn instruction_fits(image: &Image, function: &Function, instruction: &Instruction) -> bool
    ensures { result ≡ is_fit (image_of image.now) (function_of function.now) (instruction_of instruction.now) }
{
    match instruction {
        Instruction::Simple(operation) => operation_fits(image, &function.kinds, operation),
        Instruction::Aim {
            register,
            offset,
            ..
        } => is_place(&function.kinds, *register, *offset),
        Instruction::Call {
            to,
            function: number,
            arguments,
        } => callee_fits(image, function, *to, *number, arguments),
        Instruction::Jump { block } => is_block(function, *block),
        Instruction::Branch {
            condition,
            then_block,
            else_block,
        } => {
            has_kind(&function.kinds, *condition, Kind::Bool)
                && is_block(function, *then_block)
                && is_block(function, *else_block)
        }
        Instruction::Return { from } => returns_kind(function, *from),
        Instruction::ReturnVoid => function.result.is_none(),
        Instruction::Load { .. }
        | Instruction::Store { .. }
        | Instruction::Leave { .. }
        | Instruction::Error { .. } => true,
    }
}

/// Whether a register of a function is one for what is in the cell that is `displacement` cells behind the place of `register`.
fn use_fits(image: &Image, function: &Function, used: u32, register: u32, displacement: u32) -> bool
    ensures { result ≡ is_use_fit (image_of image.now) (function_of function.now) used register displacement }
{
    match kind_of_cell(image, &function.kinds, register, displacement) {
        Some(kind) => has_kind(&function.kinds, used, kind),
        None => false,
    }
}

/// Whether a load or a store right behind an aim, the first of these instructions of a function, by its scope has a register for what is in the cell.
fn aimed_fits(image: &Image, function: &Function, code: &[Instruction]) -> bool
    ensures { result ≡ is_aimed_fit (image_of image.now) (function_of function.now) (map instruction_of code.now) }
{
    match (code.first(), code.get(1)) {
        (
            Some(
                Instruction::Aim {
                    scope,
                    register,
                    displacement,
                    ..
                },
            ),
            Some(Instruction::Load { to, scope: by }),
        ) => scope != by || use_fits(image, function, *to, *register, *displacement),
        (
            Some(
                Instruction::Aim {
                    scope,
                    register,
                    displacement,
                    ..
                },
            ),
            Some(Instruction::Store { scope: by, from }),
        ) => scope != by || use_fits(image, function, *from, *register, *displacement),
        _ => true,
    }
}

/// Whether what these instructions of a function name fits.
fn code_fits(image: &Image, function: &Function, code: &[Instruction]) -> bool
    ensures { result ≡ are_fit (image_of image.now) (function_of function.now) (map instruction_of code.now) }
{
    for at in 0..code.len() {
        if !instruction_fits(image, function, &code[at])
            || !aimed_fits(image, function, &code[at..])
        {
            return false;
        }
    }
    true
}

/// Whether what the instructions of a function name fits.
fn function_fits(image: &Image, function: &Function) -> bool
    ensures { result ≡ is_function_fit (image_of image.now) (function_of function.now) }
{
    for block in &function.blocks {
        if !code_fits(image, function, block.code.instructions()) {
            return false;
        }
    }
    true
}

/// Whether what the instructions of an image name fits.
pub fn image_fits(image: &Image) -> bool
    ensures { result ≡ is_image_fit (image_of image.now) }
{
    for function in &image.functions {
        if !function_fits(image, function) {
            return false;
        }
    }
    true
}
