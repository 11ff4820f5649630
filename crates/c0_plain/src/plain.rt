//! From a text to what it means.

ghost use Rattle.std.specs.Prelude.{◌≡◌, ◌⊎◌, ℕ, Bool, IfErr, IfOk, IsSome, MatchResult};
ghost use Rattle.c0_source.specs.declared.fault.FaultKind.TheVariants.{OutOfMemory};
ghost use Rattle.c0_source.specs.FaultNumbers.{memory_fault};
ghost use Rattle.c0_syntax.specs.Levels.{has_loops};
ghost use Rattle.c0_typed.specs.Meaning.{mean as mean_of};
ghost use Rattle.c0_typed.specs.Trees as y;
ghost use Rattle.c0_typed.specs.Views.{program_of};
ghost use Rattle.c0_meaning.specs.Run.{meant_of};
ghost use Rattle.c0_front.specs.Texts.{IsRefusedText, IsTypedAs};

use c0_front::check_text;
use c0_meaning::{Meant, Placed, mean_placed};
use c0_source::fault::Fault;
use c0_syntax::level::Level;
use memory_limit::{MemoryLimit, MemoryUse};
use std::alloc::Global;

/// Why it is not told what a text means: by this fault. Where that is want of memory, it may be that the limit was passed, by a call of the function of number `call`,
/// counted from 0 in the order of their definitions, or otherwise.
#[derive(Clone, Copy, Debug, PartialEq, Eq)]
pub struct Untold {
    pub fault: Fault,
    pub passed: Option<MemoryUse>,
    pub call: Option<usize>,
}

/// What the program of a text means within this many turns: how it ends, what it prints, and where in the text that stands which stopped it, otherwise than by a
/// result. `checks` tells whether contracts are checked, and `level` which statements are in the language. The fault is of the first stage that refuses the
/// text, or 50, where memory runs out, or where what the calls, the output or the heap hold passes the limit: then it is told which.
/// Of the place, and of which use of memory passed the limit, no clause tells.
pub fn mean_text_placed(
    alloc: Global,
    text: &[u8],
    checks: bool,
    level: Level,
    turns: u64,
    limit: MemoryLimit,
) -> Result<Placed, Untold>
    ensures meant { IfOk result (λ m. (p : y.Program) × IsTypedAs (has_loops level) text.now p × (meant_of m.meant ≡ mean_of p checks turns)) }
    ensures refused { IfErr result (λ u. (u.fault.kind ≡ OutOfMemory) ⊎ IsRefusedText (has_loops level) text.now u.fault) }
    // Want of memory is told with an empty span, at the beginning of the text.
    ensures place { IfErr result (λ u. u.fault.kind ≡ OutOfMemory → u.fault ≡ memory_fault) }
    // A limit was passed by a program alone: the text is that of a well-typed one.
    ensures over { IfErr result (λ u. IsSome u.passed → (p : y.Program) × IsTypedAs (has_loops level) text.now p) }
    // A text of a well-typed program is run as that program, and as no other, unless memory runs out.
    ensures every { (p : y.Program) → IsTypedAs (has_loops level) text.now p → MatchResult result (λ m. meant_of m.meant ≡ mean_of p checks turns) (λ u. u.fault.kind ≡ OutOfMemory) }
{
    let program = match check_text(alloc, text, level) {
        Ok(program) => program,
        Err(fault) => {
            return Err(Untold {
                fault,
                passed: None,
                call: None,
            });
        }
    };
    match mean_placed(alloc, &program, checks, turns, limit) {
        Ok(placed) => Ok(placed),
        Err(refused) => Err(Untold {
            fault: Fault::out_of_memory(),
            passed: refused.passed,
            call: refused.call,
        }),
    }
}

/// The same without a limit, but for the place.
pub fn mean_text(
    alloc: Global,
    text: &[u8],
    checks: bool,
    level: Level,
    turns: u64,
) -> Result<Meant, Fault>
    ensures meant { IfOk result (λ m. (p : y.Program) × IsTypedAs (has_loops level) text.now p × (meant_of m ≡ mean_of p checks turns)) }
    ensures refused { IfErr result (λ f. (f.kind ≡ OutOfMemory) ⊎ IsRefusedText (has_loops level) text.now f) }
    ensures place { IfErr result (λ f. f.kind ≡ OutOfMemory → f ≡ memory_fault) }
    ensures every { (p : y.Program) → IsTypedAs (has_loops level) text.now p → MatchResult result (λ m. meant_of m ≡ mean_of p checks turns) (λ f. f.kind ≡ OutOfMemory) }
{
    let limit = MemoryLimit::of_mebibytes(0);
    match mean_text_placed(alloc, text, checks, level, turns, limit) {
        Ok(placed) => Ok(placed.meant),
        Err(untold) => Err(untold.fault),
    }
}
