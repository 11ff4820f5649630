//! How a statement leaves what stands round it.
ghost use Rattle.lower.specs.Building.{any_continue};
ghost use Rattle.lower.specs.Exits.{deeper, has_continue, inside, whole};
ghost use Rattle.std.specs.Prelude.{◌≡◌, IfOk, suc};

use c0_typed::Statement;
use std::alloc::AllocError;

/// By how many loops and blocks, and one more, a statement is left: by `return`, by `break` and by `continue`.
#[derive(Clone, Copy)]
pub(crate) struct Exits {
    pub(crate) returns: u32,
    pub(crate) breaks: u32,
    pub(crate) continues: u32,
}

impl Exits {
    /// Those of the body of a function.
    pub(crate) fn whole() -> Exits
        ensures { result ≡ whole }
    {
        Exits {
            returns: 0,
            breaks: 0,
            continues: 0,
        }
    }

    /// With one loop more round the statement.
    pub(crate) fn deeper(self) -> Result<Exits, AllocError>
        ensures { IfOk result (λ e. e ≡ deeper self) }
    {
        Ok(Exits {
            returns: one_more(self.returns)?,
            breaks: one_more(self.breaks)?,
            continues: one_more(self.continues)?,
        })
    }

    /// Those of the body of a loop, which stands in a block where it has a `continue`.
    pub(crate) fn inside(self, in_block: bool) -> Result<Exits, AllocError>
        ensures { IfOk result (λ e. e ≡ inside in_block self) }
    {
        let returns = one_more(self.returns)?;
        if in_block {
            return Ok(Exits {
                returns: one_more(returns)?,
                breaks: 1,
                continues: 0,
            });
        }
        Ok(Exits {
            returns,
            breaks: 0,
            continues: 0,
        })
    }
}

/// More loops and blocks than numbers of 32 bits tell apart can't be had.
fn one_more(exits: u32) -> Result<u32, AllocError>
    ensures { IfOk result (λ n. n ≡ suc exits) }
{
    match exits.checked_add(1) {
        Some(more) => Ok(more),
        None => Err(AllocError),
    }
}

/// Whether a statement has a `continue` that is not one of a loop in it.
#[cycle(continues)]
pub(crate) fn statement_continues(statement: &Statement) -> bool
    ensures { result ≡ has_continue statement.now }
{
    match statement {
        Statement::Continue => true,
        Statement::Block(all) => some_continues(all),
        Statement::If(_, first, second) => {
            statement_continues(first) || statement_continues(second)
        }
        Statement::Loop(_, _, _, step) => statement_continues(step),
        _ => false,
    }
}

/// Whether one of these statements has.
#[cycle(continues)]
fn some_continues(all: &[Statement]) -> bool
    ensures { result ≡ any_continue all.now }
{
    for statement in all {
        if statement_continues(statement) {
            return true;
        }
    }
    false
}
