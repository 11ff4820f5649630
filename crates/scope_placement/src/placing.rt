//! The scoped code that comes in place of structured code.
ghost use Rattle.code_form.specs.Code.{needs_shut};
ghost use Rattle.code_form.specs.Form.{Simple};
ghost use Rattle.middle_form.specs.Form.{Do, Load, Store};
ghost use Rattle.middle_form.specs.ScopedViews.{scoped_code_of, scoped_function_of, scoped_program_of};
ghost use Rattle.middle_form.specs.Views.{code_of, function_of, program_of};
ghost use Rattle.scoped_building.specs.Building.{codes};
ghost use Rattle.scope_placement.specs.Building.{is_straight};
ghost use Rattle.scope_placement.specs.Placed.{leaves, most_open, open_behind, placed, placed_function, placed_program, whole};
ghost use Rattle.std.specs.Prelude.{◌≡◌, ◌≤◌, ◌++◌, ◌∷◌, [], IfOk, OnOk, length, map, max, true};

use crate::runs::{RunScopes, access, end};
use code_form::Operation;
use middle_form::{Code, Function, Middle, Scoped, ScopedCode, ScopedFunction};
use scoped_building::{choice, map_functions, put, repetition};
use std::alloc::{AllocError, Global};

/// The end of a run, and one part more.
fn end_with(
    parts: &mut Vec<ScopedCode>,
    run: &mut RunScopes,
    part: ScopedCode,
) -> Result<(), AllocError>
    requires { length run.old.registers.items ≤ 4 }
    ensures parts { OnOk result (codes parts.new.items ≡ codes parts.old.items ++ (leaves run.old.registers.items ++ scoped_code_of part ∷ [])) }
    ensures registers { OnOk result (run.new.registers.items ≡ []) }
    ensures most { OnOk result (run.new.most ≡ run.old.most) }
{
    end(run, parts)?;
    put(parts, part)
}

/// Whether a simple instruction needs all scopes shut.
fn is_allocation(operation: &Operation) -> bool
    ensures { result ≡ needs_shut (Simple operation.now) }
{
    match operation {
        Operation::Alloc { .. } | Operation::AllocArray { .. } => true,
        _ => false,
    }
}

/// A simple instruction.
fn place_operation(
    parts: &mut Vec<ScopedCode>,
    run: &mut RunScopes,
    operation: Operation,
) -> Result<(), AllocError>
    requires { length run.old.registers.items ≤ 4 }
    ensures parts { OnOk result (codes parts.new.items ≡ codes parts.old.items ++ placed (Do operation) run.old.registers.items) }
    ensures registers { OnOk result (run.new.registers.items ≡ open_behind (Do operation) run.old.registers.items) }
    ensures most { OnOk result (run.new.most ≡ run.old.most) }
{
    if is_allocation(&operation) {
        end_with(parts, run, ScopedCode::Do(operation))
    } else {
        put(parts, ScopedCode::Do(operation))
    }
}

/// A load.
fn place_load(
    parts: &mut Vec<ScopedCode>,
    run: &mut RunScopes,
    to: u32,
    register: u32,
    offset: Option<u32>,
    displacement: u32,
) -> Result<(), AllocError>
    requires { length run.old.registers.items ≤ 4 }
    ensures parts { OnOk result (codes parts.new.items ≡ codes parts.old.items ++ placed (Load to register offset displacement) run.old.registers.items) }
    ensures registers { OnOk result (run.new.registers.items ≡ open_behind (Load to register offset displacement) run.old.registers.items) }
    ensures most { OnOk result (run.new.most ≡ max run.old.most (most_open (Load to register offset displacement) run.old.registers.items)) }
{
    let scope = access(run, register)?;
    put(
        parts,
        ScopedCode::Load {
            to,
            scope,
            register,
            offset,
            displacement,
        },
    )
}

/// A store.
fn place_store(
    parts: &mut Vec<ScopedCode>,
    run: &mut RunScopes,
    register: u32,
    offset: Option<u32>,
    displacement: u32,
    from: u32,
) -> Result<(), AllocError>
    requires { length run.old.registers.items ≤ 4 }
    ensures parts { OnOk result (codes parts.new.items ≡ codes parts.old.items ++ placed (Store register offset displacement from) run.old.registers.items) }
    ensures registers { OnOk result (run.new.registers.items ≡ open_behind (Store register offset displacement from) run.old.registers.items) }
    ensures most { OnOk result (run.new.most ≡ max run.old.most (most_open (Store register offset displacement from) run.old.registers.items)) }
{
    let scope = access(run, register)?;
    put(
        parts,
        ScopedCode::Store {
            scope,
            register,
            offset,
            displacement,
            from,
        },
    )
}

/// Code that has no other code in it.
fn place_straight(
    code: Code,
    parts: &mut Vec<ScopedCode>,
    run: &mut RunScopes,
) -> Result<(), AllocError>
    requires { length run.old.registers.items ≤ 4 }
    ensures parts { OnOk result (is_straight (code_of code) ≡ true → codes parts.new.items ≡ codes parts.old.items ++ placed (code_of code) run.old.registers.items) }
    ensures registers { OnOk result (is_straight (code_of code) ≡ true → run.new.registers.items ≡ open_behind (code_of code) run.old.registers.items) }
    ensures most { OnOk result (is_straight (code_of code) ≡ true → run.new.most ≡ max run.old.most (most_open (code_of code) run.old.registers.items)) }
{
    match code {
        Code::Do(operation) => place_operation(parts, run, operation),
        Code::Load {
            to,
            register,
            offset,
            displacement,
        } => place_load(parts, run, to, register, offset, displacement),
        Code::Store {
            register,
            offset,
            displacement,
            from,
        } => place_store(parts, run, register, offset, displacement, from),
        Code::Call {
            to,
            function,
            arguments,
        } => {
            let call = ScopedCode::Call {
                to,
                function,
                arguments,
            };
            end_with(parts, run, call)
        }
        Code::Fail { text } => put(parts, ScopedCode::Fail { text }),
        Code::Exit(out) => end_with(parts, run, ScopedCode::Exit(out)),
        _ => Ok(()),
    }
}

/// The parts that come in place of code are added.
#[cycle(placing)]
fn place_code(
    alloc: Global,
    code: Code,
    parts: &mut Vec<ScopedCode>,
    run: &mut RunScopes,
) -> Result<(), AllocError>
    requires { length run.old.registers.items ≤ 4 }
    ensures parts { OnOk result (codes parts.new.items ≡ codes parts.old.items ++ placed (code_of code) run.old.registers.items) }
    ensures registers { OnOk result (run.new.registers.items ≡ open_behind (code_of code) run.old.registers.items) }
    ensures most { OnOk result (run.new.most ≡ max run.old.most (most_open (code_of code) run.old.registers.items)) }
{
    match code {
        Code::Sequence(all) => {
            for part in all {
                place_code(alloc, part, parts, run)?;
            }
            Ok(())
        }
        Code::Choose {
            condition,
            then_code,
            else_code,
        } => {
            end(run, parts)?;
            let then_code = place_whole(alloc, then_code, run)?;
            let else_code = place_whole(alloc, else_code, run)?;
            put(parts, choice(condition, then_code, else_code))
        }
        Code::Loop {
            test,
            condition,
            body,
        } => {
            end(run, parts)?;
            let test = place_whole(alloc, test, run)?;
            let body = place_whole(alloc, body, run)?;
            put(parts, repetition(test, condition, body))
        }
        Code::Block(inner) => {
            end(run, parts)?;
            let inner = place_whole(alloc, inner, run)?;
            put(parts, ScopedCode::Block(inner))
        }
        straight => place_straight(straight, parts, run),
    }
}

/// Code that begins and ends with all scopes shut.
#[cycle(placing)]
fn place_whole(
    alloc: Global,
    code: Box<Code>,
    run: &mut RunScopes,
) -> Result<Box<ScopedCode>, AllocError>
    requires { run.old.registers.items ≡ [] }
    ensures code { IfOk result (λ c. scoped_code_of c.value ≡ whole (code_of code.value)) }
    ensures registers { OnOk result (run.new.registers.items ≡ []) }
    ensures most { OnOk result (run.new.most ≡ max run.old.most (most_open (code_of code.value) [])) }
{
    let mut parts = Vec::new(alloc);
    place_code(alloc, Box::into_inner(code), &mut parts, run)?;
    end(run, &mut parts)?;
    Ok(Box::new(alloc, ScopedCode::Sequence(parts))?)
}

/// A function.
fn place_function(alloc: Global, function: Function) -> Result<ScopedFunction, AllocError>
    ensures { IfOk result (λ g. scoped_function_of g ≡ placed_function (function_of function)) }
{
    let Function {
        result,
        parameters,
        kinds,
        body,
        value,
    } = function;
    let mut run = RunScopes {
        registers: Vec::new(alloc),
        most: 0,
    };
    let mut parts = Vec::new(alloc);
    place_code(alloc, body, &mut parts, &mut run)?;
    end(&mut run, &mut parts)?;
    Ok(ScopedFunction {
        result,
        parameters,
        kinds,
        scopes: run.most,
        body: ScopedCode::Sequence(parts),
        value,
    })
}

/// The program with its scopes: in a straight run of instructions one scope serves all loads and stores through one register.
pub fn place(alloc: Global, middle: Middle) -> Result<Scoped, AllocError>
    ensures { IfOk result (λ s. scoped_program_of s ≡ placed_program (program_of middle)) }
{
    let Middle {
        texts,
        layouts,
        functions,
    } = middle;
    let functions = map_functions(
        alloc,
        functions,
        |function|
            ensures { IfOk result (λ g. scoped_function_of g ≡ placed_function (function_of function)) }
        { place_function(alloc, function) },
    )?;
    Ok(Scoped {
        texts,
        layouts,
        functions,
    })
}
