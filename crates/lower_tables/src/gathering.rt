//! The kinds of single cells that a program needs.
ghost use Rattle.c0_typed.specs.Views.{levels_of, plain_of, type_of, within};
ghost use Rattle.lower_tables.specs.Gathered.{all_learned, learned, singles_of, types_at, types_in, types_in_all, types_of, types_of_all, types_of_function, types_of_functions, with_kind};
ghost use Rattle.lower_tables.specs.Kinds.{layout_number as layout_with};
ghost use Rattle.lower_tables.specs.Known.{KnowsProgram};
ghost use Rattle.lower_tables.specs.Tables.{structs_of};
ghost use Rattle.std.specs.Prelude.{◌≡◌, ◌++◌, ◌+◌, ◌<◌, ◌^◌, IfOk, OnOk, length, map};

use crate::kinds::{single_layout, struct_number};
use crate::singles::Singles;
use c0_typed::{
    Expression, Function, Levels, Place, PlainType, Statement, Target, Typed, ValueType,
};
use code_form::Kind;
use std::alloc::{AllocError, Global};

/// One more kind, where the list does not have it yet. More than have numbers of 32 bits can't be had.
fn add_kind(structs: u32, singles: &mut Singles, kind: Kind) -> Result<(), AllocError>
    requires { structs + length singles.old + 1 < 2 ^ 32 }
    ensures numbered { structs + length singles.new + 1 < 2 ^ 32 }
    ensures learned { OnOk result (singles.new ≡ with_kind kind singles.old) }
{
    if singles.len() + 2 + structs as usize <= u32::MAX as usize {
        return singles.add(kind);
    }
    if singles.position(kind) < singles.len() {
        Ok(())
    } else {
        Err(AllocError)
    }
}

/// What a type that is neither a pointer nor an array tells, and the number of its layout then.
#[tactic(auto, using(crate::proofs::CodeKnown::number_kept))]
fn learn_plain(structs: u32, singles: &mut Singles, plain: PlainType) -> Result<u32, AllocError>
    requires { structs + length singles.old + 1 < 2 ^ 32 }
    ensures numbered { structs + length singles.new + 1 < 2 ^ 32 }
    ensures learned { OnOk result (singles.new ≡ learned structs singles.old (plain_of plain)) }
    ensures layout { IfOk result (λ n. n ≡ layout_with structs singles.new (plain_of plain)) }
{
    let kind = match plain {
        PlainType::Void => return Ok(structs),
        PlainType::Struct(number) => return Ok(struct_number(structs, number)),
        PlainType::Int => Kind::Int,
        PlainType::Bool => Kind::Bool,
        PlainType::Char => Kind::Char,
        PlainType::Text => Kind::Text,
    };
    add_kind(structs, singles, kind)?;
    Ok(single_layout(structs, singles, kind))
}

/// What a type within pointers and arrays tells, and the number of its layout then.
#[tactic(auto, using(crate::proofs::CodeKnown::number_kept))]
fn learn_within(
    structs: u32,
    singles: &mut Singles,
    levels: &Levels,
    innermost: PlainType,
) -> Result<u32, AllocError>
    requires { structs + length singles.old + 1 < 2 ^ 32 }
    ensures numbered { structs + length singles.new + 1 < 2 ^ 32 }
    ensures learned { OnOk result (singles.new ≡ learned structs singles.old (within (levels_of levels.now) (plain_of innermost))) }
    ensures layout { IfOk result (λ n. n ≡ layout_with structs singles.new (within (levels_of levels.now) (plain_of innermost))) }
{
    let kind = match levels {
        Levels::Innermost => return learn_plain(structs, singles, innermost),
        Levels::Pointer(inner) => Kind::Ptr(learn_within(structs, singles, inner, innermost)?),
        Levels::Array(inner) => Kind::Arr(learn_within(structs, singles, inner, innermost)?),
    };
    add_kind(structs, singles, kind)?;
    Ok(single_layout(structs, singles, kind))
}

/// What a type tells.
#[tactic(auto, using(crate::proofs::CodeKnown::number_kept))]
fn learn(structs: u32, singles: &mut Singles, ty: &ValueType) -> Result<(), AllocError>
    requires { structs + length singles.old + 1 < 2 ^ 32 }
    ensures numbered { structs + length singles.new + 1 < 2 ^ 32 }
    ensures learned { OnOk result (singles.new ≡ learned structs singles.old (type_of ty.now)) }
{
    let kind = match ty {
        ValueType::Plain(plain) => {
            learn_plain(structs, singles, *plain)?;
            return Ok(());
        }
        ValueType::Pointer(Target { levels, innermost }) => Kind::Ptr(learn_within(
            structs, singles, levels, *innermost,
        )?),
        ValueType::Array(Target { levels, innermost }) => Kind::Arr(learn_within(
            structs, singles, levels, *innermost,
        )?),
    };
    add_kind(structs, singles, kind)
}

/// What an expression tells.
#[cycle(gathering)]
#[tactic(auto, using(crate::proofs::CodeGathered::all_learned_append))]
fn from_expression(
    structs: u32,
    singles: &mut Singles,
    whole: &Expression,
) -> Result<(), AllocError>
    requires { structs + length singles.old + 1 < 2 ^ 32 }
    ensures numbered { structs + length singles.new + 1 < 2 ^ 32 }
    ensures learned { OnOk result (singles.new ≡ all_learned structs singles.old (types_in whole.now)) }
{
    match whole {
        Expression::Constant(_) | Expression::Null(_) | Expression::Local(_) => Ok(()),
        Expression::At(_, operand)
        | Expression::Unary(_, operand)
        | Expression::Length(_, operand) => from_expression(structs, singles, operand),
        Expression::Binary(_, left, right)
        | Expression::Compare(_, _, left, right)
        | Expression::And(left, right)
        | Expression::Or(left, right) => from_two(structs, singles, left, right),
        Expression::Choose(_, condition, first, second) => {
            from_expression(structs, singles, condition)?;
            from_two(structs, singles, first, second)
        }
        Expression::Call(_, given) => from_expressions(structs, singles, given),
        Expression::Print(_, given) => from_expressions(structs, singles, given),
        Expression::Load(_, place) => from_place(structs, singles, place),
        Expression::Alloc(ty) => learn(structs, singles, ty),
        Expression::AllocArray(ty, count) => {
            learn(structs, singles, ty)?;
            from_expression(structs, singles, count)
        }
    }
}

/// What two expressions tell.
#[cycle(gathering)]
#[tactic(auto, using(crate::proofs::CodeGathered::all_learned_append))]
fn from_two(
    structs: u32,
    singles: &mut Singles,
    left: &Expression,
    right: &Expression,
) -> Result<(), AllocError>
    requires { structs + length singles.old + 1 < 2 ^ 32 }
    ensures numbered { structs + length singles.new + 1 < 2 ^ 32 }
    ensures learned { OnOk result (singles.new ≡ all_learned structs singles.old (types_in left.now ++ types_in right.now)) }
{
    from_expression(structs, singles, left)?;
    from_expression(structs, singles, right)?;
    Ok(())
}

/// What expressions tell, in order.
#[cycle(gathering)]
#[tactic(auto, using(crate::proofs::CodeGathered::all_learned_append))]
fn from_expressions(
    structs: u32,
    singles: &mut Singles,
    all: &[Expression],
) -> Result<(), AllocError>
    requires { structs + length singles.old + 1 < 2 ^ 32 }
    ensures numbered { structs + length singles.new + 1 < 2 ^ 32 }
    ensures learned { OnOk result (singles.new ≡ all_learned structs singles.old (types_in_all all.now)) }
{
    for part in all {
        from_expression(structs, singles, part)?;
    }
    Ok(())
}

/// What a place tells.
#[cycle(gathering)]
#[tactic(auto, using(crate::proofs::CodeGathered::all_learned_append))]
fn from_place(structs: u32, singles: &mut Singles, place: &Place) -> Result<(), AllocError>
    requires { structs + length singles.old + 1 < 2 ^ 32 }
    ensures numbered { structs + length singles.new + 1 < 2 ^ 32 }
    ensures learned { OnOk result (singles.new ≡ all_learned structs singles.old (types_at place.now)) }
{
    match place {
        Place::Deref(ty, pointer) => {
            learn(structs, singles, ty)?;
            from_expression(structs, singles, pointer)
        }
        Place::Index(ty, array, index) => {
            learn(structs, singles, ty)?;
            from_two(structs, singles, array, index)
        }
        Place::Field(_, inner, _) => from_place(structs, singles, inner),
    }
}

/// What a statement tells.
#[cycle(gathering_statements)]
#[tactic(auto, using(crate::proofs::CodeGathered::all_learned_append))]
fn from_statement(structs: u32, singles: &mut Singles, whole: &Statement) -> Result<(), AllocError>
    requires { structs + length singles.old + 1 < 2 ^ 32 }
    ensures numbered { structs + length singles.new + 1 < 2 ^ 32 }
    ensures learned { OnOk result (singles.new ≡ all_learned structs singles.old (types_of whole.now)) }
{
    match whole {
        Statement::Block(all) => from_statements(structs, singles, all),
        Statement::Set(_, value)
        | Statement::Update(_, _, value)
        | Statement::Do(value)
        | Statement::ReturnValue(value)
        | Statement::Assert(value)
        | Statement::Error(value) => from_expression(structs, singles, value),
        Statement::Store(place, value) | Statement::StoreUpdate(place, _, value) => {
            from_place(structs, singles, place)?;
            from_expression(structs, singles, value)
        }
        Statement::If(condition, first, second) => {
            from_expression(structs, singles, condition)?;
            from_statement(structs, singles, first)?;
            from_statement(structs, singles, second)
        }
        Statement::Loop(invariants, condition, body, step) => {
            from_expressions(structs, singles, invariants)?;
            from_expression(structs, singles, condition)?;
            from_statement(structs, singles, body)?;
            from_statement(structs, singles, step)
        }
        Statement::Return | Statement::Break | Statement::Continue => Ok(()),
        Statement::Check(all) => from_expressions(structs, singles, all),
    }
}

/// What statements tell, in order.
#[cycle(gathering_statements)]
#[tactic(auto, using(crate::proofs::CodeGathered::all_learned_append))]
fn from_statements(structs: u32, singles: &mut Singles, all: &[Statement]) -> Result<(), AllocError>
    requires { structs + length singles.old + 1 < 2 ^ 32 }
    ensures numbered { structs + length singles.new + 1 < 2 ^ 32 }
    ensures learned { OnOk result (singles.new ≡ all_learned structs singles.old (types_of_all all.now)) }
{
    for part in all {
        from_statement(structs, singles, part)?;
    }
    Ok(())
}

/// What a function tells.
#[tactic(auto, using(crate::proofs::CodeGathered::all_learned_append))]
fn from_function(structs: u32, singles: &mut Singles, function: &Function) -> Result<(), AllocError>
    requires { structs + length singles.old + 1 < 2 ^ 32 }
    ensures numbered { structs + length singles.new + 1 < 2 ^ 32 }
    ensures learned { OnOk result (singles.new ≡ all_learned structs singles.old (types_of_function function.now)) }
{
    from_expressions(structs, singles, &function.preconditions)?;
    from_statements(structs, singles, &function.body)?;
    from_expressions(structs, singles, &function.postconditions)?;
    Ok(())
}

/// The kinds of single cells that a program allocates or looks at. More than have numbers of 32 bits can't be had.
pub fn gathered(alloc: Global, typed: &Typed) -> Result<Singles, AllocError>
    ensures exact { IfOk result (λ v. v ≡ singles_of typed.now) }
    ensures known { IfOk result (λ v. KnowsProgram v typed.now) }
    ensures numbered { IfOk result (λ v. length (structs_of typed.now) + length v + 1 < 2 ^ 32) }
{
    let Ok(structs) = u32::try_from(typed.structs.len()) else {
        return Err(AllocError);
    };
    if structs == u32::MAX {
        return Err(AllocError);
    }
    let mut singles = Singles::new(alloc);
    for function in &typed.functions {
        from_function(structs, &mut singles, function)?;
    }
    Ok(singles)
}
