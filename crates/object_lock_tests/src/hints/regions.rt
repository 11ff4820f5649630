//! A region of one program.
ghost use Rattle.object_lock.specs.Fresh.{IsFresh};
ghost use Rattle.std.specs.List.{All};
ghost use Rattle.region.specs.Admission.{image_at};
ghost use Rattle.world_semantics.specs.Pieces.{piece_of as first_piece};
ghost use Rattle.std.specs.Prelude.{◌≡◌, IfSome};

use cells::Piece;
use code_form::{Block, BlockCode, Function, Image, Instruction, Kind, Operation};
use object_lock::{MoverSeat, OwnerSeat};
use region::{Region, admit, piece_of};
use remote_store::{Config, RawStore, Stores};
use scope_verifier::{Verified, verify};
use std::alloc::{AllocError, Global};

/// The blocks of a program that ends at once.
fn blocks(alloc: Global) -> Result<Vec<Block>, AllocError> {
    let mut code = Vec::with_capacity(alloc, 2)?;
    code.push_reserved(Instruction::Simple(Operation::Const { to: 0, value: 0 }));
    code.push_reserved(Instruction::Return { from: 0 });
    let mut blocks = Vec::with_capacity(alloc, 1)?;
    let facts = Vec::new(alloc);
    let code = BlockCode::new(alloc, code)?;
    blocks.push_reserved(Block { facts, code });
    Ok(blocks)
}

/// The function of a program that ends at once.
fn function(alloc: Global) -> Result<Function, AllocError> {
    let kinds = vec![in alloc; Kind::Int]?;
    Ok(Function {
        result: Some(Kind::Int),
        parameters: 0,
        kinds,
        scopes: 0,
        blocks: blocks(alloc)?,
    })
}

/// The functions of a program that ends at once.
fn functions(alloc: Global) -> Result<Vec<Function>, AllocError> {
    let mut functions = Vec::with_capacity(alloc, 1)?;
    functions.push_reserved(function(alloc)?);
    Ok(functions)
}

/// The only program, which has pieces of 64 cells. `None` where memory runs out.
fn programs(alloc: Global) -> Option<Vec<Verified>>
    ensures { IfSome result (λ programs. first_piece (image_at programs.items) ≡ 64) }
{
    let mut programs = Vec::with_capacity(alloc, 1).ok()?;
    let image = Image {
        piece: Piece::Cells64,
        texts: Vec::new(alloc),
        layouts: Vec::new(alloc),
        functions: functions(alloc).ok()?,
    };
    programs.push_reserved(verify(alloc, image).ok()?);
    if piece_of(&programs).cells() != 64 {
        return None;
    }
    Some(programs)
}

/// A region of two frames, and of a program with so many objects; the program's seat, and those of an evacuator and a fetcher. `None` where
/// memory runs out, or the store can't be made.
pub(crate) fn region<M: Stores + Drop>(
    alloc: Global,
    objects: u32,
    stores: M,
) -> Option<(Region<M::S>, Vec<OwnerSeat<M::S>>, Vec<MoverSeat<M::S>>)>
    requires store { M.makes stores 67 }
    ensures owners { IfSome result (λ t. All (IsFresh t.0.table) t.1.items) }
    ensures movers { IfSome result (λ t. All (IsFresh t.0.table) t.2.items) }
{
    let programs = programs(alloc)?;
    let config = Config {
        frames: 2,
        objects,
        evacuators: 1,
        fetchers: 1,
        workers: 4,
        quantum: 1_000,
        stores,
    };
    match admit(alloc, programs, config) {
        Ok((region, owners, movers)) => Some((region, owners, movers)),
        Err(_fault) => None,
    }
}

/// The last of these seats of the region, where there is one.
pub(crate) fn last_seat<S: RawStore>(
    region: &Region<S>,
    seats: &mut Vec<MoverSeat<S>>,
) -> Option<MoverSeat<S>>
    requires { All (IsFresh region.now.table) seats.old.items }
    ensures seat { IfSome result (IsFresh region.now.table) }
    ensures rest { All (IsFresh region.now.table) seats.new.items }
{
    // For the proof alone: the clauses speak of the region.
    let _ = region;
    seats.pop()
}
