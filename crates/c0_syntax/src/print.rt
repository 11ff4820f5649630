//! Printing a program.

ghost use Rattle.std.specs.Prelude.{◌≡◌, IfOk, MatchResult};
ghost use Rattle.std.specs.String.{string_bytes};
ghost use Rattle.c0_source.specs.FaultNumbers.{memory_fault};
ghost use Rattle.c0_syntax.specs.Printing.{printed, PrintsBack};
ghost use Rattle.c0_syntax.specs.Views.{program_of};

use crate::layout::Layout;
use crate::program::Program;
use crate::render::render;
use c0_source::fault::Fault;
use std::alloc::Global;

/// A text of the program: a statement a line, four blanks of indentation a level, annotations as `/*@ .. @*/` on lines of their own. Where some
/// text reads as the program, so does this one. Its only fault is want of memory.
#[tactic(auto, using(crate::proofs::PrintsBack::prints_back))]
pub fn print(alloc: Global, program: &Program) -> Result<String, Fault>
    ensures text { MatchResult result (λ text. string_bytes text ≡ printed (program_of program.now)) (λ fault. fault ≡ memory_fault) }
    ensures reads_back { IfOk result (λ text. PrintsBack (string_bytes text) (program_of program.now)) }
{
    let mut layout = Layout::new(alloc);
    layout.declarations(&program.declarations)?;
    Ok(render(alloc, layout.marks())?)
}
