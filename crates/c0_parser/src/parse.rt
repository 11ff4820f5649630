//! From the tokens of a text to its program.

ghost use Rattle.std.specs.Prelude.{◌≡◌, ◌≢◌, ◌-◌, ◌≤◌, length, map, take, IfErr, IfOk};
ghost use Rattle.c0_source.specs.declared.fault.FaultKind.TheVariants as f;
ghost use Rattle.c0_lexer.specs.Lexed.{lexeme};
ghost use Rattle.c0_syntax.specs.Levels.{has_loops};
ghost use Rattle.c0_syntax.specs.Programs.{Reads};
ghost use Rattle.c0_syntax.specs.Trees as t;
ghost use Rattle.c0_syntax.specs.Views.{declaration_of, program_of};
ghost use Rattle.c0_grammar_laws.specs.Outcome.{Gives};
ghost use Rattle.c0_grammar_laws.specs.ReadPrograms.{read_program};
ghost use Rattle.c0_parser.specs.Ended.{IsEnded};
ghost use Rattle.c0_parser.specs.Stands.{first_position};
ghost use Rattle.c0_grammar_laws.specs.PlacedPrograms.{PlacedDeclarations, PlacedIn};
ghost use Rattle.c0_grammar_laws.specs.Parsing.{IsReadFault, before_last, fault_by, place_of, read_from};
ghost use Rattle.c0_grammar_laws.specs.Tokens.{AreTokens};

use crate::declarations::program;
use c0_grammar_laws::read_error::ReadError;
use c0_lexer::token::Token;
use c0_parser_cursor::cursor::Cursor;
use c0_source::fault::{Fault, FaultKind};
use c0_syntax::level::Level;
use c0_syntax::program::{Declaration, Program};
use std::alloc::Global;

/// Where the token starts from which on `left` tokens stand, the end of the text not among them.
fn place(tokens: &[Token<'_>], left: usize) -> usize
    requires { AreTokens (map lexeme tokens.now) }
    ensures value { result ≡ place_of (map lexeme tokens.now) left }
    ensures small { result ≤ 1048576 }
{
    let before = tokens.len().saturating_sub(1).saturating_sub(left);
    match tokens.get(before) {
        Some(token) => token.start,
        None => 0,
    }
}

fn fault_of(tokens: &[Token<'_>], error: ReadError) -> Fault
    requires { AreTokens (map lexeme tokens.now) }
    ensures { result ≡ fault_by (map lexeme tokens.now) error }
{
    match error {
        ReadError::OutOfMemory => Fault::out_of_memory(),
        ReadError::Syntax(left) => Fault::at(FaultKind::Syntax, place(tokens, left)),
        ReadError::TooDeep(left) => Fault::at(FaultKind::TooDeep, place(tokens, left)),
        ReadError::TooLarge(left) => Fault::at(FaultKind::TooLarge, place(tokens, left)),
    }
}

/// Whether there are `break` and `continue`.
fn with_loops(level: Level) -> bool
    ensures { result ≡ has_loops level }
{
    match level {
        Level::C0 => false,
        Level::Loops => true,
    }
}

/// The tokens before the last one.
fn before_last<'a>(tokens: &'a [Token<'a>]) -> &'a [Token<'a>]
    ensures { result.now ≡ take (length tokens.now - 1) tokens.now }
{
    match tokens {
        [] => tokens,
        [inner @ .., _] => inner,
    }
}

/// The declarations that the tokens read as, without the last token.
fn declarations_of<'a>(
    alloc: Global,
    tokens: &'a [Token<'a>],
    level: Level,
) -> Result<Vec<Declaration>, ReadError>
    requires { AreTokens (map lexeme tokens.now) }
    ensures given { Gives (λ v. map declaration_of v.items) result (read_program (has_loops level) (read_from (map lexeme tokens.now))) }
    ensures placed { IfOk result (λ v. PlacedDeclarations (first_position (before_last (map lexeme tokens.now))) v.items) }
{
    let mut cursor = Cursor::new(alloc, before_last(tokens));
    program(&mut cursor, with_loops(level))
}

/// The program that the tokens of a text read as, where the last one is the end of the text. Its fault is 20 at the first token with which
/// no reading goes on, 21 at one where a tree is more than 200 nodes deep, 22 at the name of a local or a function that is too many, or 50,
/// where memory runs out.
pub fn parse<'a>(alloc: Global, tokens: &'a [Token<'a>], level: Level) -> Result<Program, Fault>
    requires tokens { AreTokens (map lexeme tokens.now) }
    requires ended { IsEnded (map lexeme tokens.now) }
    // What is given is what the tokens read as.
    ensures found { IfOk result (λ p. Reads (has_loops level) (read_from (map lexeme tokens.now)) (program_of p)) }
    // Each of its parts begins where the first of its tokens does, and ends where the last one does.
    ensures placed { IfOk result (λ p. PlacedIn (before_last (map lexeme tokens.now)) p) }
    // Its text ends where the last token stands.
    ensures ending { IfOk result (λ p. p.end ≡ place_of (map lexeme tokens.now) 0) }
    // Where none is given, they read as no program, unless memory ran out.
    ensures refused { IfErr result (λ fault. fault.kind ≢ f.OutOfMemory → (p : t.Program) → Reads (has_loops level) (read_from (map lexeme tokens.now)) p → ⊥) }
    // Which fault it is, and where.
    ensures fault { IfErr result (λ fault. IsReadFault (has_loops level) (map lexeme tokens.now) fault) }
{
    match declarations_of(alloc, tokens, level) {
        Ok(declarations) => Ok(Program {
            declarations,
            end: place(tokens, 0),
        }),
        Err(error) => Err(fault_of(tokens, error)),
    }
}
