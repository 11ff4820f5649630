//! The plain run of a whole program.
ghost use Rattle.std.specs.Prelude.{◌≡◌, IfErr, IfOk, None};
ghost use Rattle.c0_typed.specs.Meaning.{mean as mean_of};
ghost use Rattle.c0_typed.specs.Views.{program_of};
ghost use Rattle.c0_meaning.specs.Run.{Tells, meant_of};

use crate::context::Context;
use crate::pending::{Numbers, PlainRun};
use crate::room::Room;
use c0_typed::{Site, Typed};
use c0_values::{Halt, Value};
use cells::{Stop, Want};
use memory_limit::{MemoryLimit, MemoryUse};
use std::alloc::Global;

/// How a program ended within some turns, or None where it wanted one more, and what it printed.
#[derive(Debug, Drop)]
pub struct Meant {
    pub stop: Option<Stop>,
    pub output: Vec<u8>,
}

/// A plain run that is done, and where in the text that stands which stopped the program otherwise than by a result: the expression, or the condition. `numbers` are
/// those that stopped it, if it was for an index or a length.
#[derive(Debug, Drop)]
pub struct Placed {
    pub meant: Meant,
    pub place: Option<Site>,
    pub numbers: Option<Numbers>,
}

/// A plain run was refused memory: by its limit, where something came to more, else by the system. `call` is the number of the function for whose call there was no
/// room within the limit.
#[derive(Clone, Copy, Debug, PartialEq, Eq)]
pub struct NoRoom {
    pub passed: Option<MemoryUse>,
    pub call: Option<usize>,
}

impl NoRoom {
    /// The system refused memory.
    pub fn of_the_system() -> NoRoom
        ensures { result ≡ record { passed = None; call = None } }
    {
        NoRoom {
            passed: None,
            call: None,
        }
    }
}

/// What is told of how `main` came to its end, with what was printed.
fn tell(came: Result<Value, Halt>, output: Vec<u8>) -> Result<Meant, Want>
    ensures told { Tells came output.items result }
    ensures want { IfErr result (λ w. w ≡ Want.OutOfMemory) }
{
    match came {
        Ok(value) => Ok(Meant {
            stop: Some(Stop::Ended(value.number())),
            output,
        }),
        Err(Halt::Stopped(stop)) => Ok(Meant {
            stop: Some(stop),
            output,
        }),
        Err(Halt::Cut) => Ok(Meant { stop: None, output }),
        Err(Halt::Memory) => Err(Want::OutOfMemory),
    }
}

/// Where a program stopped that came to its end so, if that is no result, and a task at this site was the last.
fn place_of(came: &Result<Value, Halt>, site: Option<Site>) -> Option<Site>
    ensures { IfOk came.now (λ v. result ≡ None) }
{
    match came {
        Err(Halt::Stopped(_)) => site,
        _ => None,
    }
}

/// The bounded meaning of a program, as `mean` tells it, and where the program stopped. What its calls, its output and its heap hold keeps within a limit of memory:
/// where one comes to more, the next call, output or allocation is refused. `Err` where that is so, or a growth was refused.
pub fn mean_placed(
    alloc: Global,
    program: &Typed,
    checks: bool,
    turns: u64,
    limit: MemoryLimit,
) -> Result<Placed, NoRoom>
    ensures { IfOk result (λ r. meant_of r.meant ≡ mean_of (program_of program.now) checks turns) }
{
    let Ok(room) = Room::new(alloc, &program.structs, limit) else {
        return Err(NoRoom::of_the_system());
    };
    let context = Context {
        alloc,
        program,
        checks,
    };
    let mut run = PlainRun::begin(alloc, turns, room);
    let came = run.run_main(&context);
    let place = place_of(&came, run.site);
    let numbers = run.numbers;
    let passed = run.room.limit.passed;
    let call = run.refused;
    let state = run.into_state();
    match tell(came, state.output) {
        Ok(meant) => Ok(Placed {
            meant,
            place,
            numbers,
        }),
        Err(_want) => Err(NoRoom { passed, call }),
    }
}

/// The bounded meaning of a program: how it ends within this many turns, and what it prints. The call of `main` is the
/// first turn. `checks` tells whether contracts are checked. `Err` is `OutOfMemory`, where a growth was refused. Calls of
/// the program nest as deep as memory allows.
pub fn mean(alloc: Global, program: &Typed, checks: bool, turns: u64) -> Result<Meant, Want>
    ensures meant { IfOk result (λ r. meant_of r ≡ mean_of (program_of program.now) checks turns) }
    ensures want { IfErr result (λ w. w ≡ Want.OutOfMemory) }
{
    let limit = MemoryLimit::of_mebibytes(0);
    match mean_placed(alloc, program, checks, turns, limit) {
        Ok(placed) => Ok(placed.meant),
        Err(_refused) => Err(Want::OutOfMemory),
    }
}
