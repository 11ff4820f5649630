//! The blocks of scoped code. A block under construction holds its instructions last first.
ghost use Rattle.code_form.specs.Form.{Aim, Branch, Call, Instruction as FormInstruction, Jump, Leave, Load, Store, instruction_of};
ghost use Rattle.codegen.specs.Building.{back, backs, exits_of, is_access, way_of};
ghost use Rattle.scoped_building.specs.Building.{is_straight};
ghost use Rattle.codegen.specs.Generated.{exit_from, extra, first, onward, target};
ghost use Rattle.middle_form.specs.ScopedViews.{scoped_code_of};
ghost use Rattle.std.specs.Prelude.{◌≡◌, ◌++◌, ◌∷◌, ℕ, [], IfOk, List, OnOk, length, true};

use code_form::Instruction;
use middle_form::ScopedCode;
use std::alloc::{AllocError, Global};

/// How code goes on: at a block, or by a return.
#[derive(Clone, Copy)]
pub(crate) enum Continuation {
    Jump(u32),
    Return(u32),
    ReturnVoid,
}

/// The ways out of the loops and blocks round some code, the innermost first.
#[derive(Drop)]
pub(crate) enum Exits<'a> {
    Nowhere,
    Around(Continuation, &'a Exits<'a>),
}

/// A block that was added: its number, and how to go on at it.
#[derive(Clone, Copy)]
pub(crate) struct Finished {
    number: u32,
    way: Continuation,
}

/// The way out by an exit; to the first block where nothing is round it.
fn exit_at(exits: &Exits, out: u32) -> Continuation
    ensures { way_of result ≡ exit_from (exits_of exits.now) out }
{
    match exits {
        Exits::Nowhere => Continuation::Jump(0),
        Exits::Around(way, outer) => if out == 0 {
            *way
        } else {
            exit_at(outer, out - 1)
        },
    }
}

/// How to go on at a block with this number and these instructions.
fn way_to(number: u32, block: &[Instruction]) -> Continuation
    ensures { way_of result ≡ onward number (back block.now) }
{
    match block {
        [Instruction::Jump { block }] => Continuation::Jump(*block),
        [Instruction::Return { from }] => Continuation::Return(*from),
        [Instruction::ReturnVoid] => Continuation::ReturnVoid,
        _ => Continuation::Jump(number),
    }
}

/// Where a branch leads that would lead to a block.
fn led_to(block: Finished) -> u32
    ensures { result ≡ target block.number (way_of block.way) }
{
    match block.way {
        Continuation::Jump(block) => block,
        Continuation::Return(_) | Continuation::ReturnVoid => block.number,
    }
}

/// One more instruction in front.
#[tactic(auto, using(crate::proofs::Emits::back_push))]
fn put(
    mut block: Vec<Instruction>,
    instruction: Instruction,
) -> Result<Vec<Instruction>, AllocError>
    ensures { IfOk result (λ v. back v.items ≡ instruction_of instruction ∷ back block.items) }
{
    block.push(instruction)?;
    Ok(block)
}

/// A block of one instruction.
pub(crate) fn one(alloc: Global, instruction: Instruction) -> Result<Vec<Instruction>, AllocError>
    ensures { IfOk result (λ v. back v.items ≡ instruction_of instruction ∷ []) }
{
    put(Vec::new(alloc), instruction)
}

/// A block that goes on at another.
fn jump(alloc: Global, block: u32) -> Result<Vec<Instruction>, AllocError>
    ensures { IfOk result (λ v. back v.items ≡ Jump block ∷ []) }
{
    one(alloc, Instruction::Jump { block })
}

/// A block that goes on so.
fn go_on(alloc: Global, way: Continuation) -> Result<Vec<Instruction>, AllocError>
    ensures { IfOk result (λ v. back v.items ≡ way_of way) }
{
    match way {
        Continuation::Jump(block) => jump(alloc, block),
        Continuation::Return(from) => one(alloc, Instruction::Return { from }),
        Continuation::ReturnVoid => one(alloc, Instruction::ReturnVoid),
    }
}

/// A block that goes on at one of two.
fn branch(
    alloc: Global,
    condition: u32,
    then_block: u32,
    else_block: u32,
) -> Result<Vec<Instruction>, AllocError>
    ensures { IfOk result (λ v. back v.items ≡ Branch condition then_block else_block ∷ []) }
{
    one(
        alloc,
        Instruction::Branch {
            condition,
            then_block,
            else_block,
        },
    )
}

/// An aim of a scope in front.
fn put_aim(
    block: Vec<Instruction>,
    scope: u8,
    register: u32,
    offset: Option<u32>,
    displacement: u32,
) -> Result<Vec<Instruction>, AllocError>
    ensures { IfOk result (λ v. back v.items ≡ Aim scope register offset displacement ∷ back block.items) }
{
    put(
        block,
        Instruction::Aim {
            scope,
            register,
            offset,
            displacement,
        },
    )
}

/// A load by a scope in front.
fn put_load(block: Vec<Instruction>, to: u32, scope: u8) -> Result<Vec<Instruction>, AllocError>
    ensures { IfOk result (λ v. back v.items ≡ Load to scope ∷ back block.items) }
{
    put(block, Instruction::Load { to, scope })
}

/// A store by a scope in front.
fn put_store(block: Vec<Instruction>, scope: u8, from: u32) -> Result<Vec<Instruction>, AllocError>
    ensures { IfOk result (λ v. back v.items ≡ Store scope from ∷ back block.items) }
{
    put(block, Instruction::Store { scope, from })
}

/// A leave of a scope in front.
fn put_leave(block: Vec<Instruction>, scope: u8) -> Result<Vec<Instruction>, AllocError>
    ensures { IfOk result (λ v. back v.items ≡ Leave scope ∷ back block.items) }
{
    put(block, Instruction::Leave { scope })
}

/// A call.
fn call(
    alloc: Global,
    to: Option<u32>,
    function: u32,
    arguments: &[u32],
) -> Result<Instruction, AllocError>
    ensures { IfOk result (λ i. instruction_of i ≡ Call to function arguments.now) }
{
    Ok(Instruction::Call {
        to,
        function,
        arguments: Vec::from_slice(alloc, arguments)?,
    })
}

/// One more block. More than numbers of 32 bits tell apart can't be had.
#[tactic(auto, using(crate::proofs::Emits::backs_push, crate::proofs::Emits::length_backs))]
pub(crate) fn finish(
    blocks: &mut Vec<Vec<Instruction>>,
    block: Vec<Instruction>,
) -> Result<Finished, AllocError>
    ensures number { IfOk result (λ f. f.number ≡ length (backs blocks.old.items)) }
    ensures way { IfOk result (λ f. way_of f.way ≡ onward (length (backs blocks.old.items)) (back block.items)) }
    ensures added { OnOk result (backs blocks.new.items ≡ backs blocks.old.items ++ back block.items ∷ []) }
{
    let Ok(number) = u32::try_from(blocks.len()) else {
        return Err(AllocError);
    };
    let way = way_to(number, &block);
    blocks.push(block)?;
    Ok(Finished { number, way })
}

/// The instructions that come in place of an access or an aim, and of what follows it.
fn emit_access(code: &ScopedCode, next: Vec<Instruction>) -> Result<Vec<Instruction>, AllocError>
    ensures { IfOk result (λ v. is_access (scoped_code_of code.now) ≡ true → (b : ℕ) (exits : List (List FormInstruction)) → back v.items ≡ first (scoped_code_of code.now) b (back next.items) exits) }
{
    match code {
        ScopedCode::Load {
            to,
            scope,
            register,
            offset,
            displacement,
        } => put_aim(
            put_load(next, *to, *scope)?,
            *scope,
            *register,
            *offset,
            *displacement,
        ),
        ScopedCode::Store {
            scope,
            register,
            offset,
            displacement,
            from,
        } => put_aim(
            put_store(next, *scope, *from)?,
            *scope,
            *register,
            *offset,
            *displacement,
        ),
        ScopedCode::LoadBy { to, scope, .. } => put_load(next, *to, *scope),
        ScopedCode::StoreBy { scope, from, .. } => put_store(next, *scope, *from),
        ScopedCode::Aim {
            scope,
            register,
            offset,
            displacement,
        } => put_aim(next, *scope, *register, *offset, *displacement),
        _ => Ok(next),
    }
}

/// The instructions that come in place of code that needs no more blocks, and of what follows it.
fn emit_straight(
    alloc: Global,
    code: &ScopedCode,
    next: Vec<Instruction>,
    exits: &Exits,
) -> Result<Vec<Instruction>, AllocError>
    ensures { IfOk result (λ v. is_straight (scoped_code_of code.now) ≡ true → (b : ℕ) → back v.items ≡ first (scoped_code_of code.now) b (back next.items) (exits_of exits.now)) }
{
    match code {
        ScopedCode::Do(operation) => put(next, Instruction::Simple(*operation)),
        ScopedCode::Leave(scope) => put_leave(next, *scope),
        ScopedCode::Loose(_) => Ok(next),
        ScopedCode::Call {
            to,
            function,
            arguments,
        } => put(next, call(alloc, *to, *function, arguments)?),
        ScopedCode::Fail { text } => one(alloc, Instruction::Error { text: *text }),
        ScopedCode::Exit(out) => go_on(alloc, exit_at(exits, *out)),
        _ => emit_access(code, next),
    }
}

/// The instructions that come in place of code and of what follows it. Its other blocks are added.
pub(crate) fn emit(
    alloc: Global,
    blocks: &mut Vec<Vec<Instruction>>,
    code: &ScopedCode,
    mut next: Vec<Instruction>,
    exits: &Exits,
) -> Result<Vec<Instruction>, AllocError>
    ensures instructions { IfOk result (λ v. back v.items ≡ first (scoped_code_of code.now) (length (backs blocks.old.items)) (back next.items) (exits_of exits.now)) }
    ensures added { OnOk result (backs blocks.new.items ≡ backs blocks.old.items ++ extra (scoped_code_of code.now) (length (backs blocks.old.items)) (back next.items) (exits_of exits.now)) }
{
    match code {
        ScopedCode::Sequence(parts) => {
            for i in (0..parts.len()).rev() {
                next = emit(alloc, blocks, &parts[i], next, exits)?;
            }
            Ok(next)
        }
        ScopedCode::Choose {
            condition,
            then_code,
            else_code,
        } => {
            let join = finish(blocks, next)?;
            let then_part = emit(alloc, blocks, then_code, go_on(alloc, join.way)?, exits)?;
            let then_block = finish(blocks, then_part)?;
            let else_part = emit(alloc, blocks, else_code, go_on(alloc, join.way)?, exits)?;
            let else_block = finish(blocks, else_part)?;
            branch(alloc, *condition, led_to(then_block), led_to(else_block))
        }
        ScopedCode::Loop {
            test,
            condition,
            body,
        } => {
            let head = finish(blocks, Vec::new(alloc))?.number;
            let out = finish(blocks, next)?;
            let inside = Exits::Around(out.way, &*exits);
            let turn = emit(alloc, blocks, body, jump(alloc, head)?, &inside)?;
            let turn_block = finish(blocks, turn)?;
            let end = branch(alloc, *condition, led_to(turn_block), led_to(out))?;
            blocks[head as usize] = emit(alloc, blocks, test, end, &inside)?;
            jump(alloc, head)
        }
        ScopedCode::Block(inner) => {
            let out = finish(blocks, next)?;
            let inside = Exits::Around(out.way, &*exits);
            emit(alloc, blocks, inner, go_on(alloc, out.way)?, &inside)
        }
        _ => emit_straight(alloc, code, next, exits),
    }
}
