//! The static rules of a whole program.

ghost use Rattle.std.specs.Prelude.{◌≡◌, ◌≢◌, ◌⊎◌, ◌&&◌, [], ◌∷◌, IfErr, IfOk, IfSome, is_some, map, true};
ghost use Rattle.std.specs.List.{list_all};
ghost use Rattle.c0_source.specs.declared.fault.Fault as g;
ghost use Rattle.c0_source.specs.declared.fault.FaultKind.TheVariants.{BadMain as MainIsBad, OutOfMemory};
ghost use Rattle.c0_source.specs.FaultNumbers.{memory_fault};
ghost use Rattle.c0_syntax.specs.Views.{declaration_of, program_of as tree_of};
ghost use Rattle.c0_typed.specs.Views.{program_of as typed_of};
ghost use Rattle.c0_types.specs.DeclareViews.{elaboration_of};
ghost use Rattle.c0_types_declarations.specs.DeclarationViews.{Accepts};
ghost use Rattle.c0_rules.specs.Answers.{Answers};
ghost use Rattle.c0_rules.specs.FaultExpressions.{Told};
ghost use Rattle.c0_rules.specs.FaultPrograms.{FaultAt, InDeclarations, InWhole, MainAmong, MainCause, MainDefined, ending};
ghost use Rattle.c0_rules.specs.Mentions.{calls_of, texts_of};
ghost use Rattle.c0_rules.specs.Programs.{beginning, function_names_of, is_callable, is_defined, is_main, main_name, typed_declarations, typed_program};
ghost use Rattle.c0_rules.specs.Types.{is_among, is_ascii};
ghost use Rattle.c0_types_tables.specs.Views.{environment_of};

use crate::declare::{Elaborated, has_main};
use c0_source::fault::{Fault, FaultKind, Span};
use c0_syntax::program::{Declaration, DeclarationKind, Program};
use c0_typed::Typed;
use c0_types_declarations::headers::earlier;
use c0_types_flow::mentioned::texts::collect_texts;
use c0_types_flow::mentioned::{check_calls, check_texts};
use c0_types_tables::environment::Environment;
use c0_types_tables::names::Names;
use std::alloc::Global;

/// What the declarations of a program make, and the texts that they write.
#[derive(Debug, Drop)]
pub(crate) struct Whole {
    pub(crate) elaborated: Elaborated,
    pub(crate) texts: Names,
}

/// The declarations of a program, one after the other.
pub(crate) fn declared(alloc: Global, declarations: &[Declaration]) -> Result<Whole, Fault>
    ensures answers { Answers (λ w. elaboration_of w.texts w.elaborated) result (typed_declarations (map declaration_of declarations.now) (beginning (map declaration_of declarations.now))) }
    ensures texts { IfOk result (λ w. w.texts ≡ texts_of (map declaration_of declarations.now)) }
    ensures cause { IfErr result (λ f. (f.kind ≡ OutOfMemory) ⊎ InDeclarations f (beginning (map declaration_of declarations.now)) declarations.now) }
{
    let texts = collect_texts(alloc, declarations)?;
    let mut elaborated = Elaborated::new(alloc, declarations)?;
    elaborated.declarations(alloc, &texts, declarations)?;
    Ok(Whole { elaborated, texts })
}

// The place of the header, where a declaration defines `main`.
fn main_defined(declaration: &Declaration) -> Option<Span>
    ensures there { IfSome result (λ span. (f : g.Fault) → Told MainIsBad span f → MainDefined f declaration.now.kind) }
    ensures named { is_some result ≡ is_among main_name (function_names_of (declaration_of declaration.now ∷ [])) }
{
    match &declaration.kind {
        DeclarationKind::DefineFunction(header, _) if header.name.text.as_str() == "main" => Some(
            header.span,
        ),
        _ => None,
    }
}

// The place of the header of `main`, where these declarations define it.
fn main_header(declarations: &[Declaration]) -> Option<Span>
    ensures there { IfSome result (λ span. (f : g.Fault) → Told MainIsBad span f → MainAmong f declarations.now) }
    ensures named { is_some result ≡ is_among main_name (function_names_of (map declaration_of declarations.now)) }
{
    for declaration in declarations {
        if let Some(span) = main_defined(declaration) {
            return Some(span);
        }
    }
    None
}

// A `main` of another type is an error at its header, and a program without one at its end.
fn check_main(environment: &Environment, program: &Program) -> Result<(), Fault>
    requires { is_defined ((environment_of environment.now).functions main_name) ≡ true → is_among main_name (function_names_of (tree_of program.now)) ≡ true }
    ensures answers { Accepts result (is_main ((environment_of environment.now).functions main_name)) }
    ensures cause { IfErr result (λ f. MainCause f (ending program.now) program.now.declarations.items ((environment_of environment.now).functions main_name)) }
{
    if has_main(environment) {
        return Ok(());
    }
    let end = Span {
        start: program.end,
        end: program.end,
    };
    let span = match environment.functions.get("main") {
        Some(main) if main.defined => match main_header(&program.declarations) {
            Some(header) => header,
            None => unreachable!(),
        },
        _ => end,
    };
    Err(Fault {
        kind: FaultKind::BadMain,
        span,
    })
}

// The rules that look at the whole program: `main` and what is called, in the order of the text, and then its texts.
fn check_whole(environment: &Environment, program: &Program) -> Result<(), Fault>
    requires { is_defined ((environment_of environment.now).functions main_name) ≡ true → is_among main_name (function_names_of (tree_of program.now)) ≡ true }
    ensures answers { Accepts result (is_main ((environment_of environment.now).functions main_name) && list_all (is_callable (environment_of environment.now)) (calls_of (tree_of program.now)) && list_all is_ascii (texts_of (tree_of program.now))) }
    ensures cause { IfErr result (λ f. InWhole f (ending program.now) (environment_of environment.now) program.now.declarations.items) }
{
    let main = check_main(environment, program);
    let calls = check_calls(environment, &program.declarations);
    earlier(main, calls)?;
    check_texts(&program.declarations)
}

// The typed tree of a program that keeps all static rules, or what is told of one that breaks some.
fn checked(alloc: Global, program: &Program) -> Result<Typed, Fault>
    ensures answers { Answers typed_of result (typed_program (tree_of program.now)) }
    ensures cause { IfErr result (λ f. (f.kind ≡ OutOfMemory) ⊎ FaultAt program.now f) }
{
    let Whole { elaborated, texts } = declared(alloc, &program.declarations)?;
    check_whole(&elaborated.environment, program)?;
    Ok(Typed {
        main: elaborated.environment.function_names.number("main") as usize,
        structs: elaborated.structs,
        functions: elaborated.functions,
        texts: texts.into_names(),
    })
}

// What is told at the end: want of memory has no place, wherever the rules met it, and every other fault is told as it is. The calls
// below need not say which place want of memory has.
fn told(fault: Fault) -> Fault
    ensures { ((fault.kind ≡ OutOfMemory) × (result ≡ memory_fault)) ⊎ ((fault.kind ≢ OutOfMemory) × (result ≡ fault)) }
{
    if fault.kind == FaultKind::OutOfMemory {
        Fault::out_of_memory()
    } else {
        fault
    }
}

/// The typed tree of a program that keeps all static rules. Else the fault is the first in the order of the text, but that names that a
/// path has not assigned and paths without a `return` are told behind the types of their function, and `main`, calls without a definition
/// and texts behind all declarations; or memory runs out.
pub fn check(alloc: Global, program: Program) -> Result<Typed, Fault>
    // Ok with the typed tree exactly where the program is well typed, want of memory aside.
    ensures answers { Answers typed_of result (typed_program (tree_of program)) }
    // What is told has its cause at its place.
    ensures cause { IfErr result (λ f. (f.kind ≡ OutOfMemory) ⊎ FaultAt program f) }
    // Want of memory is told with an empty span, at the beginning of the text.
    ensures place { IfErr result (λ f. f.kind ≡ OutOfMemory → f ≡ memory_fault) }
{
    match checked(alloc, &program) {
        Ok(typed) => Ok(typed),
        Err(fault) => Err(told(fault)),
    }
}
