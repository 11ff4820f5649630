//! The kinds and facts of an image in reading order: the first kind that does not fit, or fact that is not known where it is asked.
ghost use Rattle.code_form.specs.Code.{has, on_kind, place_fits};
ghost use Rattle.code_form.specs.declared.form.Kind.TheVariants as kind;
ghost use Rattle.code_form.specs.Form.{block_of, function_of, image_of, instruction_of};
ghost use Rattle.code_form.specs.Known.{Known, at_entry};
ghost use Rattle.scope_verifier.specs.Answers.{Finds, Tells};
ghost use Rattle.scope_verifier.specs.Shown.{Goes, IsReady, Shows, TellsKnown, TestsKnown, state_of};
ghost use Rattle.scope_verifier_laws.specs.Decided.{are_known as are_all_known, are_shut as are_all_shut, is_aimed as is_aimed_at, is_checked as is_check_known, is_known as is_fact_known, is_offset as is_same_offset, is_shut as is_scope_shut, names_fact as names_of_fact};
ghost use Rattle.scope_verifier_laws.specs.Faults.{beginning as beginning_of_block, beginning_fault, block_fault, code_fault, content_fault, entering_fault, fitting_fault, function_fault, instruction_fault, kinds_and_facts as kinds_and_facts_of, naming_fault, open_fault, place_fault};
ghost use Rattle.scope_verifier_laws.specs.First.{first_in, first_of, unless as unless_of};
ghost use Rattle.scope_verifier_laws.specs.Numbers.{scope_fault};
ghost use Rattle.scope_verifier_laws.specs.declared.fault.VerifyFault.TheVariants.{OperandKind};
ghost use Rattle.std.specs.Prelude.{◌≡◌, Some, length, map, slice_get};

use crate::kinds::is_main;
use crate::knowledge::{Knowledge, ScopeState};
use crate::numbers::{scope_number, unless};
use code_form::{
    Block, Fact, Function, Image, Instruction, Kind, has_array_of, has_kind, has_pointer, is_place,
    kind_of_cell, needs_shut,
};
use code_operations::{callee_fits, operation_fits};
use scope_verifier_laws::VerifyFault;
use std::alloc::Global;

/// Whether an entry fact names registers of the right kinds, and a scope that is there.
fn names_fact(function: &Function, fact: Fact) -> bool
    ensures { let f = function_of function.now in result ≡ names_of_fact f.kinds f.scopes fact }
{
    match fact {
        Fact::Nonnull(register) => has_pointer(&function.kinds, register),
        Fact::Inside(offset, array) => has_array_of(&function.kinds, offset, array),
        Fact::Aimed {
            scope,
            register,
            offset,
            ..
        } => scope < function.scopes && is_place(&function.kinds, register, offset),
        Fact::Shut(scope) => scope < function.scopes,
    }
}

/// What an entry fact names.
fn naming(function: &Function, fact: Fact) -> Result<(), VerifyFault>
    ensures { Tells result (naming_fault (function_of function.now) fact) }
{
    unless(names_fact(function, fact), VerifyFault::OperandKind)
}

/// What these entry facts name.
fn namings(function: &Function, facts: &[Fact]) -> Result<(), VerifyFault>
    ensures { Tells result (first_in (naming_fault (function_of function.now)) facts.now) }
{
    for fact in facts {
        naming(function, *fact)?;
    }
    Ok(())
}

/// Whether an entry fact holds at the entry of a function, where all scopes are shut.
fn holds_at_entry(fact: Fact) -> bool
    ensures { result ≡ is_fact_known at_entry fact }
{
    match fact {
        Fact::Shut(_) => true,
        Fact::Nonnull(_) | Fact::Inside(_, _) | Fact::Aimed { .. } => false,
    }
}

/// An entry fact of the first block.
fn beginning(function: &Function, fact: Fact) -> Result<(), VerifyFault>
    ensures { Tells result (beginning_fault (function_of function.now) fact) }
{
    naming(function, fact)?;
    unless(holds_at_entry(fact), VerifyFault::EntryFacts)
}

/// The entry facts of the first block.
fn beginnings(function: &Function, facts: &[Fact]) -> Result<(), VerifyFault>
    ensures { Tells result (first_in (beginning_fault (function_of function.now)) facts.now) }
{
    for fact in facts {
        beginning(function, *fact)?;
    }
    Ok(())
}

/// That a function begins at a block, with entry facts that hold at its entry.
fn begins(function: &Function) -> Result<(), VerifyFault>
    ensures { let f = function_of function.now in Tells result (beginning_of_block f (slice_get f.blocks 0)) }
{
    match function.blocks.first() {
        None => Err(VerifyFault::OutOfCode),
        Some(block) => beginnings(function, &block.facts),
    }
}

/// Whether two offsets are the same register, or none.
fn is_offset(offset: Option<u32>, other: Option<u32>) -> bool
    ensures { result ≡ is_same_offset offset other }
{
    match offset {
        None => other.is_none(),
        Some(offset) => match other {
            None => false,
            Some(other) => offset == other,
        },
    }
}

/// Whether a scope in this state is aimed at a place.
fn is_aimed(state: ScopeState, place: u32, place_offset: Option<u32>, cell: u32) -> bool
    ensures { result ≡ is_aimed_at place place_offset cell (state_of state) }
{
    match state {
        ScopeState::Aimed {
            register,
            offset,
            displacement,
        } => register == place && (is_offset(offset, place_offset) && displacement == cell),
        ScopeState::Unknown | ScopeState::Shut => false,
    }
}

/// Whether a scope in this state is shut.
fn is_shut(state: ScopeState) -> bool
    ensures { result ≡ is_scope_shut (state_of state) }
{
    match state {
        ScopeState::Shut => true,
        ScopeState::Unknown | ScopeState::Aimed { .. } => false,
    }
}

/// Whether an entry fact is known.
fn is_known(known: &Knowledge, fact: Fact) -> bool
    ensures { TestsKnown known.now result (λ k. is_fact_known k fact) }
{
    match fact {
        Fact::Nonnull(register) => known.is_nonnull(register),
        Fact::Inside(offset, array) => known.is_inside(offset, array),
        Fact::Aimed {
            scope,
            register,
            offset,
            displacement,
        } => is_aimed(known.scope(scope), register, offset, displacement),
        Fact::Shut(scope) => is_shut(known.scope(scope)),
    }
}

/// Whether each of these entry facts is known.
fn are_known(known: &Knowledge, facts: &[Fact]) -> bool
    ensures { TestsKnown known.now result (λ k. are_all_known k facts.now) }
{
    for fact in facts {
        if !is_known(known, *fact) {
            return false;
        }
    }
    true
}

/// That the entry facts of a block are known.
fn entering_block(known: &Knowledge, block: &Block) -> Result<(), VerifyFault>
    ensures { TellsKnown known.now result (λ k. entering_fault k (Some (block_of block.now))) }
{
    unless(are_known(known, &block.facts), VerifyFault::EntryFacts)
}

/// The same of a block that is named, which is there.
fn entering(function: &Function, known: &Knowledge, block: u32) -> Result<(), VerifyFault>
    ensures { TellsKnown known.now result (λ k. entering_fault k (slice_get (function_of function.now).blocks block)) }
{
    match function.blocks.get(block as usize) {
        None => Err(VerifyFault::OutOfCode),
        Some(block) => entering_block(known, block),
    }
}

/// Whether the check of a place is known to have been made.
fn is_checked(known: &Knowledge, register: u32, offset: Option<u32>) -> bool
    ensures { TestsKnown known.now result (λ k. is_check_known k register offset) }
{
    match offset {
        None => known.is_nonnull(register),
        Some(offset) => known.is_inside(offset, register),
    }
}

/// That a register has the kind of a cell, which is there.
fn content(function: &Function, register: u32, kind: Option<Kind>) -> Result<(), VerifyFault>
    ensures { Tells result (content_fault (function_of function.now) register kind) }
{
    match kind {
        None => Err(VerifyFault::NotChecked),
        Some(kind) => unless(
            has_kind(&function.kinds, register, kind),
            VerifyFault::OperandKind,
        ),
    }
}

/// That a scope in this state is aimed at a place that was checked, at a cell of the kind of a register.
fn place(
    image: &Image,
    function: &Function,
    known: &Knowledge,
    state: ScopeState,
    content_register: u32,
) -> Result<(), VerifyFault>
    ensures { TellsKnown known.now result (λ k. place_fault (image_of image.now) (function_of function.now) k (state_of state) content_register) }
{
    match state {
        ScopeState::Aimed {
            register,
            offset,
            displacement,
        } => {
            unless(
                is_place(&function.kinds, register, offset),
                VerifyFault::OperandKind,
            )?;
            unless(is_checked(known, register, offset), VerifyFault::NotChecked)?;
            let kind = kind_of_cell(image, &function.kinds, register, displacement);
            content(function, content_register, kind)
        }
        ScopeState::Unknown | ScopeState::Shut => Err(VerifyFault::NotAimed),
    }
}

/// That a load or a store by a scope is of a place that was checked.
fn access(
    image: &Image,
    function: &Function,
    known: &Knowledge,
    scope: u8,
    register: u32,
) -> Result<(), VerifyFault>
    ensures { TellsKnown known.now result (λ k. first_of (scope_fault (function_of function.now) scope) (place_fault (image_of image.now) (function_of function.now) k (k.scope scope) register)) }
{
    scope_number(function, scope)?;
    place(image, function, known, known.scope(scope), register)
}

/// That a condition is one, and the entry facts of both blocks are known.
fn branching(
    function: &Function,
    known: &Knowledge,
    condition: u32,
    then_block: u32,
    else_block: u32,
) -> Result<(), VerifyFault>
    ensures { let f = function_of function.now in TellsKnown known.now result (λ k. first_of (unless_of (has f.kinds condition kind.Bool) OperandKind) (first_of (entering_fault k (slice_get f.blocks then_block)) (entering_fault k (slice_get f.blocks else_block)))) }
{
    unless(
        has_kind(&function.kinds, condition, Kind::Bool),
        VerifyFault::OperandKind,
    )?;
    entering(function, known, then_block)?;
    entering(function, known, else_block)
}

/// That a scope, which is there, can be aimed in what a register refers to.
fn aiming(
    function: &Function,
    scope: u8,
    register: u32,
    offset: Option<u32>,
) -> Result<(), VerifyFault>
    ensures { let f = function_of function.now in Tells result (first_of (scope_fault f scope) (unless_of (place_fits f.kinds register offset) OperandKind)) }
{
    scope_number(function, scope)?;
    unless(
        is_place(&function.kinds, register, offset),
        VerifyFault::OperandKind,
    )
}

/// Whether a register has the kind of the function's result, which it has.
fn is_result(function: &Function, from: u32) -> bool
    ensures { let f = function_of function.now in result ≡ on_kind (λ k. has f.kinds from k) f.result }
{
    match function.result {
        None => false,
        Some(kind) => has_kind(&function.kinds, from, kind),
    }
}

/// The kinds of an instruction, and the facts that it asks.
fn fitting(
    image: &Image,
    function: &Function,
    known: &Knowledge,
    instruction: &Instruction,
) -> Result<(), VerifyFault>
    ensures { TellsKnown known.now result (λ k. fitting_fault (image_of image.now) (function_of function.now) k (instruction_of instruction.now)) }
{
    match instruction {
        Instruction::Simple(operation) => unless(
            operation_fits(image, &function.kinds, operation),
            VerifyFault::OperandKind,
        ),
        Instruction::Aim {
            scope,
            register,
            offset,
            ..
        } => aiming(function, *scope, *register, *offset),
        Instruction::Load { to, scope } => access(image, function, known, *scope, *to),
        Instruction::Store { scope, from } => access(image, function, known, *scope, *from),
        Instruction::Leave { scope } => scope_number(function, *scope),
        Instruction::Call {
            to,
            function: number,
            arguments,
        } => unless(
            callee_fits(image, function, *to, *number, arguments),
            VerifyFault::OperandKind,
        ),
        Instruction::Jump { block } => entering(function, known, *block),
        Instruction::Branch {
            condition,
            then_block,
            else_block,
        } => branching(function, known, *condition, *then_block, *else_block),
        Instruction::Return { from } => unless(
            is_result(function, *from),
            VerifyFault::OperandKind,
        ),
        Instruction::ReturnVoid => unless(function.result.is_none(), VerifyFault::OperandKind),
        Instruction::Error { text } => unless(
            has_kind(&function.kinds, *text, Kind::Text),
            VerifyFault::OperandKind,
        ),
    }
}

/// Whether the first so many scopes are known to be shut.
fn are_shut(known: &Knowledge, scopes: u8) -> bool
    ensures { TestsKnown known.now result (λ k. are_all_shut k scopes) }
{
    for scope in 0..scopes {
        if !is_shut(known.scope(scope)) {
            return false;
        }
    }
    true
}

/// That all scopes are shut at a call, a return and an allocation.
fn closed(
    function: &Function,
    known: &Knowledge,
    instruction: &Instruction,
) -> Result<(), VerifyFault>
    ensures { TellsKnown known.now result (λ k. open_fault (function_of function.now) k (instruction_of instruction.now)) }
{
    unless(
        !needs_shut(instruction) || are_shut(known, function.scopes),
        VerifyFault::OpenScope,
    )
}

/// An instruction before which so much is known.
fn allowed(
    image: &Image,
    function: &Function,
    known: &Knowledge,
    instruction: &Instruction,
) -> Result<(), VerifyFault>
    ensures { TellsKnown known.now result (λ k. instruction_fault (image_of image.now) (function_of function.now) k (instruction_of instruction.now)) }
{
    fitting(image, function, known, instruction)?;
    closed(function, known, instruction)
}

/// Instructions, of which so much is known before the first. What is known becomes that behind them.
fn code(
    image: &Image,
    function: &Function,
    known: &mut Knowledge,
    instructions: &[Instruction],
) -> Result<(), VerifyFault>
    ensures { let f = function_of function.now in (k : Known) → Shows (length f.kinds) f.scopes known.old k → Goes known.new f result (code_fault (image_of image.now) f k (map instruction_of instructions.now)) }
{
    for instruction in instructions {
        allowed(image, function, known, instruction)?;
        known.after(instruction)?;
    }
    Ok(())
}

/// A block.
fn block(
    image: &Image,
    function: &Function,
    known: &mut Knowledge,
    block: &Block,
) -> Result<(), VerifyFault>
    ensures { let f = function_of function.now in IsReady (length f.kinds) f.scopes known.old → Goes known.new f result (block_fault (image_of image.now) f (block_of block.now)) }
{
    namings(function, &block.facts)?;
    known.enter(&block.facts)?;
    code(image, function, known, block.code.instructions())
}

/// Blocks.
fn blocks(
    image: &Image,
    function: &Function,
    known: &mut Knowledge,
    blocks: &[Block],
) -> Result<(), VerifyFault>
    ensures { let f = function_of function.now in IsReady (length f.kinds) f.scopes known.old → Goes known.new f result (first_in (block_fault (image_of image.now) f) (map block_of blocks.now)) }
{
    for part in blocks {
        block(image, function, known, part)?;
    }
    Ok(())
}

/// A function.
fn function(alloc: Global, image: &Image, part: &Function) -> Result<(), VerifyFault>
    ensures { Finds result (function_fault (image_of image.now) (function_of part.now)) }
{
    begins(part)?;
    let mut known = Knowledge::new(alloc, part.kinds.len(), part.scopes)?;
    blocks(image, part, &mut known, &part.blocks)
}

/// Functions.
fn functions(alloc: Global, image: &Image, parts: &[Function]) -> Result<(), VerifyFault>
    ensures { Finds result (first_in (function_fault (image_of image.now)) (map function_of parts.now)) }
{
    for part in parts {
        function(alloc, image, part)?;
    }
    Ok(())
}

/// The kinds and facts of an image, `main` first.
pub(crate) fn kinds_and_facts(alloc: Global, image: &Image) -> Result<(), VerifyFault>
    ensures { Finds result (kinds_and_facts_of (image_of image.now)) }
{
    unless(is_main(image.functions.first()), VerifyFault::OperandKind)?;
    functions(alloc, image, &image.functions)
}
