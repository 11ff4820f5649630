//! Structured code of functions and of whole programs.
ghost use Rattle.c0_typed.specs.Views.{type_of};
ghost use Rattle.lower.specs.Building.{function_code, locals_of};
ghost use Rattle.lower_expressions.specs.Building.{kind_at, structs_in};
ghost use Rattle.lower_tables.specs.Gathered.{singles_of};
ghost use Rattle.lower_tables.specs.Kinds.{layouts_of};
ghost use Rattle.lower_tables.specs.Known.{KnowsProgram};
ghost use Rattle.lower.specs.Lowered.{lowered as lowered_with, result_kind as result_with, with_main_first};
ghost use Rattle.lower_tables.specs.Tables.{structs_of};
ghost use Rattle.middle_form.specs.Views.{function_of, program_of};
ghost use Rattle.std.specs.Prelude.{◌≡◌, ◌++◌, ◌∷◌, ◌+◌, ◌<◌, ◌^◌, [], IfOk, OnOk, length, map, string_bytes};

use crate::exits::Exits;
use crate::statement_code::statements;
use c0_typed::{Function, PlainType, Typed, ValueType};
use code_form::Kind;
use lower_expressions::building::{fresh, sequence};
use lower_expressions::condition_code::conditions;
use lower_expressions::context::Context;
use lower_tables::gathering::gathered;
use lower_tables::kinds::kind_of;
use lower_tables::singles::Singles;
use lower_tables::struct_layouts::{add_single_layouts, all_starts, struct_layouts};
use lower_tables::texts::text_numbers;
use middle_form::{Code, Middle};
use std::alloc::{AllocError, Global};

/// The kind of the result of a function of this type.
fn result_kind(context: &Context, ty: &ValueType) -> Option<Kind>
    ensures { result ≡ result_with (length (structs_in context.now)) context.now.singles.now (type_of ty.now) }
{
    match ty {
        ValueType::Plain(PlainType::Void) => None,
        ValueType::Plain(_) | ValueType::Pointer(_) | ValueType::Array(_) => {
            Some(kind_of(context.structs, context.singles, ty))
        }
    }
}

/// Registers for locals of these types.
fn add_locals(
    context: &Context,
    kinds: &mut Vec<Kind>,
    types: &[ValueType],
) -> Result<(), AllocError>
    ensures { OnOk result (kinds.new.items ≡ kinds.old.items ++ map (kind_at context.now) types.now) }
{
    for ty in types {
        let _register = fresh(kinds, kind_of(context.structs, context.singles, ty))?;
    }
    Ok(())
}

/// A function with so many locals: what must hold on entry, its body in a block, and what must hold at each return.
fn function_with(
    context: &Context,
    function: &Function,
    parameters: u32,
) -> Result<middle_form::Function, AllocError>
    requires locals { context.now.locals ≡ locals_of function.now }
    requires parameters { parameters ≡ length function.now.parameters.items }
    ensures { IfOk result (λ g. function_of g ≡ function_code context.now function.now) }
{
    let mut kinds = Vec::new(context.alloc);
    add_locals(context, &mut kinds, &function.parameters)?;
    add_locals(context, &mut kinds, &function.locals)?;
    let of_result = kind_of(context.structs, context.singles, &function.result);
    let value = fresh(&mut kinds, of_result)?;
    let mut code = Vec::new(context.alloc);
    conditions(context, &mut kinds, &mut code, &function.preconditions)?;
    let mut body = Vec::new(context.alloc);
    statements(
        context,
        &mut kinds,
        &mut body,
        &function.body,
        Exits::whole(),
    )?;
    code.push(Code::Block(sequence(context.alloc, body)?))?;
    conditions(context, &mut kinds, &mut code, &function.postconditions)?;
    Ok(middle_form::Function {
        result: result_kind(context, &function.result),
        parameters,
        kinds,
        body: Code::Sequence(code),
        value,
    })
}

/// A function. More locals than numbers of 32 bits tell apart can't be had.
fn function(context: &Context, function: &Function) -> Result<middle_form::Function, AllocError>
    ensures { IfOk result (λ g. function_of g ≡ function_code context.now function.now) }
{
    let (Ok(parameters), Ok(others)) = (
        u32::try_from(function.parameters.len()),
        u32::try_from(function.locals.len()),
    ) else {
        return Err(AllocError);
    };
    let Some(locals) = parameters.checked_add(others) else {
        return Err(AllocError);
    };
    let inside = Context {
        alloc: context.alloc,
        typed: context.typed,
        singles: context.singles,
        layouts: context.layouts,
        offsets: context.offsets,
        numbers: context.numbers,
        structs: context.structs,
        locals,
        checks: context.checks,
    };
    let made = function_with(&inside, function, parameters)?;
    Ok(made)
}

/// All functions, in the order of their numbers in the code.
fn functions(context: &Context) -> Result<Vec<middle_form::Function>, AllocError>
    ensures { IfOk result (λ v. map function_of v.items ≡ map (function_code context.now) (with_main_first context.now.typed.now.main context.now.typed.now.functions.items)) }
{
    let mut made = Vec::new(context.alloc);
    for source in &context.typed.functions {
        made.push(function(context, source)?)?;
    }
    if context.typed.main >= made.len() {
        return Ok(made);
    }
    made.swap(0, context.typed.main);
    Ok(made)
}

/// A copy of texts.
fn copied(alloc: Global, texts: &[String]) -> Result<Vec<String>, AllocError>
    ensures { IfOk result (λ v. map string_bytes v.items ≡ map string_bytes texts.now) }
{
    let mut copies = Vec::new(alloc);
    for text in texts {
        copies.push(text.clone()?)?;
    }
    Ok(copies)
}

/// The code of a program over the kinds of single cells.
fn lowered_over(
    alloc: Global,
    typed: &Typed,
    singles: &Singles,
    checks: bool,
) -> Result<Middle, AllocError>
    requires { length (structs_of typed.now) + length singles.now + 1 < 2 ^ 32 }
    ensures { IfOk result (λ m. program_of m ≡ lowered_with singles.now checks typed.now) }
{
    let structs = typed.structs.len() as u32;
    let mut layouts = struct_layouts(alloc, structs, singles, &typed.structs)?;
    let offsets = all_starts(alloc, &layouts, &typed.structs)?;
    let numbers = text_numbers(alloc, &typed.texts)?;
    let functions = functions(&Context {
        alloc,
        typed,
        singles,
        layouts: &layouts,
        offsets: &offsets,
        numbers: &numbers,
        structs,
        locals: 0,
        checks,
    })?;
    add_single_layouts(alloc, &mut layouts, singles)?;
    let texts = copied(alloc, &typed.texts)?;
    Ok(Middle {
        texts,
        layouts,
        functions,
    })
}

/// The structured code of a program, with the checks of its contracts or without them. What numbers of 32 bits can't tell
/// apart can't be had, as with memory that runs out.
pub(crate) fn lowered(alloc: Global, typed: &Typed, checks: bool) -> Result<Middle, AllocError>
    ensures { IfOk result (λ m. KnowsProgram (singles_of typed.now) typed.now × (program_of m ≡ lowered_with (singles_of typed.now) checks typed.now)) }
{
    let singles = gathered(alloc, typed)?;
    let made = lowered_over(alloc, typed, &singles, checks)?;
    Ok(made)
}
