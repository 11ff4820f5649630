//! What a text is the text of, and the fault of the first stage that refuses it.

ghost use Rattle.std.specs.Prelude.{◌≡◌, ◌⊎◌, IfErr, IfOk, MatchResult};
ghost use Rattle.c0_source.specs.declared.fault.FaultKind.TheVariants.{OutOfMemory};
ghost use Rattle.c0_source.specs.FaultNumbers.{memory_fault};
ghost use Rattle.c0_syntax.specs.Levels.{has_loops};
ghost use Rattle.c0_syntax.specs.Trees as s;
ghost use Rattle.c0_syntax.specs.Views.{program_of as tree_of};
ghost use Rattle.c0_typed.specs.Trees as y;
ghost use Rattle.c0_typed.specs.Views.{program_of as typed_of};
ghost use Rattle.c0_front.specs.Texts.{IsPlacedTextOf, IsRefusedText, IsTextOf, IsTypedAs, IsUnreadText};

use c0_lexer::lex::lex;
use c0_parser::parse::parse;
use c0_source::fault::Fault;
use c0_source::source::Source;
use c0_syntax::level::Level;
use c0_syntax::program::Program;
use c0_typed::Typed;
use c0_types::check;
use std::alloc::Global;

/// The program that a text is the text of. The fault is of the first stage that finds one: 10 or 22 of the text, 11 or 12 of its tokens,
/// 20 to 22 of what the tokens read as; or 50, where memory runs out.
pub fn read_text(alloc: Global, text: &[u8], level: Level) -> Result<Program, Fault>
    // Each part of the program begins where the first of its tokens does, and ends where the last one does.
    ensures read { IfOk result (λ p. IsPlacedTextOf (has_loops level) text.now p) }
    ensures refused { IfErr result (λ f. (f.kind ≡ OutOfMemory) ⊎ IsUnreadText (has_loops level) text.now f) }
    // Want of memory is told with an empty span, at the beginning of the text.
    ensures place { IfErr result (λ f. f.kind ≡ OutOfMemory → f ≡ memory_fault) }
    // A text of a program is read as it, and as no other, unless memory runs out.
    ensures every { (p : s.Program) → IsTextOf (has_loops level) text.now p → MatchResult result (λ q. tree_of q ≡ p) (λ f. f.kind ≡ OutOfMemory) }
{
    let source = Source::new(alloc, text)?;
    let tokens = lex(alloc, &source)?;
    parse(alloc, &tokens, level)
}

/// The typed tree of the program that a text is the text of. The fault is of the first stage that finds one: as `read_text` has it, or 22
/// and 30 to 48 of the static rules, with its cause at its place; or 50, where memory runs out.
pub fn check_text(alloc: Global, text: &[u8], level: Level) -> Result<Typed, Fault>
    ensures typed { IfOk result (λ p. IsTypedAs (has_loops level) text.now (typed_of p)) }
    ensures refused { IfErr result (λ f. (f.kind ≡ OutOfMemory) ⊎ IsRefusedText (has_loops level) text.now f) }
    // Want of memory is told with an empty span, at the beginning of the text.
    ensures place { IfErr result (λ f. f.kind ≡ OutOfMemory → f ≡ memory_fault) }
    // A text of a well-typed program is accepted, with its one typed tree, unless memory runs out.
    ensures every { (p : y.Program) → IsTypedAs (has_loops level) text.now p → MatchResult result (λ q. typed_of q ≡ p) (λ f. f.kind ≡ OutOfMemory) }
{
    let program = read_text(alloc, text, level)?;
    check(alloc, program)
}
