//! The allocations of a run.
ghost use Rattle.code_form.specs.Code.{cells_of, length_of, sizes, wanted};
ghost use Rattle.code_form.specs.Touches.{cell_option};
ghost use Rattle.std.specs.Prelude.{◌≡◌, ◌+◌, ◌∷◌, [], MatchResult, length};

use code_form::{Allocation, Cell};
use std::alloc::{AllocError, Global};
use std::marker::Model;

/// The allocations of a run, which are numbered from 1. A contract sees them as a list, the newest first.
#[derive(Drop)]
pub struct Allocations {
    items: Vec<Allocation>,
}

impl Model for Allocations {
    ghost use Rattle.code_form.specs.declared.allocation.Allocation.{Allocation};
    ghost use Rattle.std.specs.Prelude.{List, reverse};

    ghost Value = { List Allocation };

    ghost view = { λ a. reverse a.items.items };
}

impl Allocations {
    /// No allocation.
    pub fn new(alloc: Global) -> Allocations
        ensures { result ≡ [] }
    {
        Allocations {
            items: Vec::new(alloc),
        }
    }

    /// The number of the newest allocation; 0 where there is none.
    #[inline(always)]
    pub fn count(&self) -> u64
        ensures { result ≡ length self.now }
    {
        self.items.len() as u64
    }

    /// How many cells the allocation of this number has; 0 where there is none.
    #[inline(always)]
    pub fn cells(&self, reference: u64) -> u64
        ensures { result ≡ cells_of (sizes self.now) reference }
    {
        if reference == 0 {
            return 0;
        }
        if reference > self.items.len() as u64 {
            return 0;
        }
        self.items[(reference - 1) as usize].cells
    }

    /// How many elements the allocation of this number has; 0 where there is none.
    #[inline(always)]
    pub fn length(&self, reference: u64) -> u64
        ensures { result ≡ length_of self.now reference }
    {
        if reference == 0 {
            return 0;
        }
        if reference > self.items.len() as u64 {
            return 0;
        }
        self.items[(reference - 1) as usize].length
    }

    /// The cell `displacement` cells behind `start` in the allocation of this number, if it has it.
    #[inline(always)]
    pub fn cell(&self, reference: u64, start: u64, displacement: u32) -> Option<Cell>
        ensures { result ≡ cell_option (wanted self.now reference (start + displacement)) }
    {
        let cells = self.cells(reference);
        let displacement = u64::from(displacement);
        if start < cells && displacement < cells - start {
            Some(Cell {
                reference,
                index: start + displacement,
            })
        } else {
            None
        }
    }

    /// Adds an allocation. Where memory is refused nothing is changed.
    pub fn push(&mut self, allocation: Allocation) -> Result<(), AllocError>
        ensures { MatchResult result (λ _. self.new ≡ allocation ∷ self.old) (λ _. self.new ≡ self.old) }
    {
        self.items.push(allocation)?;
        Ok(())
    }
}
