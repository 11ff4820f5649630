//! Images from scoped code.
ghost use Rattle.cells.specs.Pieces.{cells_in};
ghost use Rattle.code_form.specs.Counts.{has_few_items as has_few};
ghost use Rattle.code_form.specs.Form.{Return, ReturnVoid, block_of, function_of as function_read, image_of, instruction_of};
ghost use Rattle.codegen.specs.Building.{back, backs, lists};
ghost use Rattle.codegen.specs.Generated.{block_with, blocks_with, blocks as all_blocks, function_of as function_with, generated, last};
ghost use Rattle.middle_form.specs.ScopedViews.{scoped_function_of, scoped_program_of};
ghost use Rattle.std.specs.Prelude.{◌≡◌, [], IfOk, map, slice_index_or, string_bytes, true};

use crate::counts::has_few_items;
use crate::emit::{Exits, emit, finish, one};
use crate::known::function_facts;
use cells::Piece;
use code_form::{Block, BlockCode, Fact, Image, Instruction, Kind};
use middle_form::{Scoped, ScopedFunction};
use std::alloc::{AllocError, Global};

/// The block of instructions that are held last first, with these facts at its entry.
fn close(alloc: Global, entry: &[Fact], mut code: Vec<Instruction>) -> Result<Block, AllocError>
    ensures { IfOk result (λ b. block_of b ≡ block_with entry.now (back code.items)) }
{
    code.reverse();
    let facts = Vec::from_slice(alloc, entry)?;
    let code = BlockCode::new(alloc, code)?;
    Ok(Block { facts, code })
}

/// The facts at the entry of a block.
fn facts_at(facts: &[Vec<Fact>], block: usize) -> &[Fact]
    ensures { result.now ≡ slice_index_or (lists facts.now) block [] }
{
    match facts.get(block) {
        Some(entry) => entry,
        None => &[],
    }
}

/// The blocks of instructions that are held last first, with the facts at the entry of each.
#[tactic(auto, using(crate::proofs::Images::closed_push))]
fn close_all(
    alloc: Global,
    facts: &[Vec<Fact>],
    started: Vec<Vec<Instruction>>,
) -> Result<Vec<Block>, AllocError>
    ensures { IfOk result (λ v. map block_of v.items ≡ blocks_with (lists facts.now) (backs started.items)) }
{
    let mut closed = Vec::new(alloc);
    for code in started {
        let block = close(alloc, facts_at(facts, closed.len()), code)?;
        closed.push(block)?;
    }
    Ok(closed)
}

/// The end of a function.
fn end(alloc: Global, function: &ScopedFunction) -> Result<Vec<Instruction>, AllocError>
    ensures { IfOk result (λ v. back v.items ≡ last (scoped_function_of function.now)) }
{
    match function.result {
        Some(_) => one(
            alloc,
            Instruction::Return {
                from: function.value,
            },
        ),
        None => one(alloc, Instruction::ReturnVoid),
    }
}

/// The blocks of a function, which begins at the first: this is written last.
fn function_blocks(
    alloc: Global,
    function: &ScopedFunction,
) -> Result<Vec<Vec<Instruction>>, AllocError>
    ensures { IfOk result (λ v. backs v.items ≡ all_blocks (scoped_function_of function.now)) }
{
    let mut blocks = Vec::new(alloc);
    let _start = finish(&mut blocks, Vec::new(alloc))?;
    let last = end(alloc, function)?;
    let start = emit(alloc, &mut blocks, &function.body, last, &Exits::Nowhere)?;
    blocks[0] = start;
    Ok(blocks)
}

/// The function of an image.
fn generate_function(
    alloc: Global,
    function: &ScopedFunction,
) -> Result<code_form::Function, AllocError>
    ensures { IfOk result (λ g. function_read g ≡ function_with (scoped_function_of function.now)) }
{
    let started = function_blocks(alloc, function)?;
    let facts = function_facts(alloc, function)?;
    let blocks = close_all(alloc, &facts, started)?;
    let kinds = Vec::from_slice(alloc, &function.kinds)?;
    Ok(code_form::Function {
        result: function.result,
        parameters: function.parameters,
        kinds,
        scopes: function.scopes,
        blocks,
    })
}

/// A copy of texts.
fn copy_texts(alloc: Global, texts: &[String]) -> Result<Vec<String>, AllocError>
    ensures { IfOk result (λ v. map string_bytes v.items ≡ map string_bytes texts.now) }
{
    let mut copies = Vec::new(alloc);
    for text in texts {
        copies.push(text.clone()?)?;
    }
    Ok(copies)
}

/// A copy of layouts.
fn copy_layouts(alloc: Global, layouts: &[Vec<Kind>]) -> Result<Vec<Vec<Kind>>, AllocError>
    ensures { IfOk result (λ v. map (λ l. l.items) v.items ≡ map (λ l. l.items) layouts.now) }
{
    let mut copies = Vec::new(alloc);
    for layout in layouts {
        copies.push(Vec::from_slice(alloc, layout)?)?;
    }
    Ok(copies)
}

/// The image of a program, however many items it has.
fn whole_image(alloc: Global, program: &Scoped, piece: Piece) -> Result<Image, AllocError>
    ensures { IfOk result (λ image. image_of image ≡ generated (cells_in piece) (scoped_program_of program.now)) }
{
    let mut functions = Vec::new(alloc);
    for function in &program.functions {
        functions.push(generate_function(alloc, function)?)?;
    }
    let texts = copy_texts(alloc, &program.texts)?;
    let layouts = copy_layouts(alloc, &program.layouts)?;
    Ok(Image {
        piece,
        texts,
        layouts,
        functions,
    })
}

/// The image of a program, for pieces of this size. A list of 2^32 items can't be had, as with memory that runs out.
pub fn generate(alloc: Global, program: &Scoped, piece: Piece) -> Result<Image, AllocError>
    ensures image { IfOk result (λ image. image_of image ≡ generated (cells_in piece) (scoped_program_of program.now)) }
    ensures few { IfOk result (λ image. has_few (image_of image) ≡ true) }
{
    let image = whole_image(alloc, program, piece)?;
    if !has_few_items(&image) {
        return Err(AllocError);
    }
    Ok(image)
}
