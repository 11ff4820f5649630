//! Where kinds stand in a list, by the kinds.
ghost use Rattle.code_form.specs.declared.form.Kind.{Kind as KindOf};
ghost use Rattle.code_form.specs.Code.{same_kind};
ghost use Rattle.lower_tables.specs.Indexed.{slot};
ghost use Rattle.std.specs.Prelude.{◌≡◌, ◌==◌, ℕ, MatchResult, cond, get_or};

use code_form::Kind;
use std::alloc::{AllocError, Global};

/// A number for each kind, 0 where none was put: of those without a layout in their order, of the others by their layouts.
#[derive(Debug, Drop)]
pub(crate) struct Index {
    basic: Vec<u32>,
    pointers: Vec<u32>,
    arrays: Vec<u32>,
    offsets: Vec<u32>,
}

/// What stands at this place; 0 behind the last.
fn read(row: &[u32], at: u32) -> u32
    ensures { result ≡ get_or row.now at 0 }
{
    match row.get(at as usize) {
        Some(number) => *number,
        None => 0,
    }
}

/// Writes a number at this place, and 0 at those before it that are not there yet. `Err` where memory is refused: then nothing is changed.
fn write(row: &mut Vec<u32>, at: u32, number: u32) -> Result<(), AllocError>
    ensures { MatchResult result
        (λ _. (i : ℕ) → get_or row.new.items i 0 ≡ cond (i == at) number (get_or row.old.items i 0))
        (λ _. row.new.items ≡ row.old.items) }
{
    let place = at as usize;
    if place >= row.len() {
        row.resize(place + 1, 0)?;
    }
    row[place] = number;
    Ok(())
}

impl Index {
    /// No numbers.
    pub(crate) fn new(alloc: Global) -> Index
        ensures { (k : KindOf) → slot result k ≡ 0 }
    {
        Index {
            basic: Vec::new(alloc),
            pointers: Vec::new(alloc),
            arrays: Vec::new(alloc),
            offsets: Vec::new(alloc),
        }
    }

    /// The number of a kind; 0 where none was put.
    pub(crate) fn get(&self, kind: Kind) -> u32
        ensures { result ≡ slot self.now kind }
    {
        match kind {
            Kind::Int => read(&self.basic, 0),
            Kind::Bool => read(&self.basic, 1),
            Kind::Char => read(&self.basic, 2),
            Kind::Text => read(&self.basic, 3),
            Kind::Ptr(layout) => read(&self.pointers, layout),
            Kind::Arr(layout) => read(&self.arrays, layout),
            Kind::Off(layout) => read(&self.offsets, layout),
        }
    }

    /// From here on this is the number of the kind. `Err` where memory is refused: then the numbers are as they were.
    pub(crate) fn put(&mut self, kind: Kind, number: u32) -> Result<(), AllocError>
        ensures { MatchResult result
            (λ _. (k : KindOf) → slot self.new k ≡ cond (same_kind k kind) number (slot self.old k))
            (λ _. (k : KindOf) → slot self.new k ≡ slot self.old k) }
    {
        match kind {
            Kind::Int => write(&mut self.basic, 0, number),
            Kind::Bool => write(&mut self.basic, 1, number),
            Kind::Char => write(&mut self.basic, 2, number),
            Kind::Text => write(&mut self.basic, 3, number),
            Kind::Ptr(layout) => write(&mut self.pointers, layout, number),
            Kind::Arr(layout) => write(&mut self.arrays, layout, number),
            Kind::Off(layout) => write(&mut self.offsets, layout, number),
        }
    }
}
