//! What code is made over.
ghost use Rattle.lower_tables.specs.Tables.{AreNumbered, layouts_read, offsets_read, starts, structs_of};
ghost use Rattle.lower_tables.specs.Kinds.{struct_layouts};
ghost use Rattle.c0_typed.specs.Views.{texts_of};
ghost use Rattle.std.specs.Prelude.{◌≡◌, ◌+◌, ◌<◌, ◌^◌, [], length, map};

use c0_typed::Typed;
use code_form::Kind;
use lower_tables::singles::Singles;
use std::alloc::Global;
use std::collections::BTreeMap;

/// The program, the kinds of single cells that have a layout, the layouts of its structs and where their fields begin,
/// the numbers of its texts, and how many locals a function has beside its result.
#[derive(Clone, Copy)]
pub struct Context<'p> {
    pub alloc: Global,
    pub typed: &'p Typed,
    pub singles: &'p Singles,
    pub layouts: &'p [Vec<Kind>],
    pub offsets: &'p [Vec<u32>],
    pub numbers: &'p BTreeMap<String, u32>,
    pub structs: u32,
    pub locals: u32,
    pub checks: bool,
    ghost all_structs: { structs ≡ length (structs_of typed.now) },
    ghost numbered: { structs + length singles.now + 1 < 2 ^ 32 },
    ghost laid_out: { layouts_read layouts.now ≡ struct_layouts (length (structs_of typed.now)) singles.now [] (structs_of typed.now) },
    ghost first_texts: { AreNumbered (texts_of typed.now) numbers.now },
    ghost placed: { offsets_read offsets.now ≡ map (starts (length (structs_of typed.now)) singles.now (layouts_read layouts.now) 0) (structs_of typed.now) },
}
