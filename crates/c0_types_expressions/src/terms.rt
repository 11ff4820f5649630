//! The static rules of expressions.
//! A typed operand held where the next may be refused is dropped there by a call: a drop that `?` makes is proved variant by
//! variant.

mod forms;

ghost use Rattle.std.specs.Prelude.{◌≡◌, ◌⊎◌, Some, false, true, IfErr, IfOk, map};
ghost use Rattle.c0_source.specs.declared.fault.FaultKind.TheVariants.{OutOfMemory, TypeMismatch};
ghost use Rattle.c0_syntax.specs.Trees as s;
ghost use Rattle.c0_syntax.specs.Views.{expression_of, expression_of_kind, expressions_of, name_of};
ghost use Rattle.c0_typed.specs.Trees as y;
ghost use Rattle.c0_typed.specs.Views.{exp_of, exps_of};
ghost use Rattle.c0_rules.specs.Expressions as x;
ghost use Rattle.c0_rules.specs.Expressions.{typed_expression, typed_place, wanted};
ghost use Rattle.c0_rules.specs.FaultExpressions.{AsPlace, AsValue, InExpression, Mistyped, Told, is_value};
ghost use Rattle.c0_rules.specs.FaultStatements.{InEvaluated};
ghost use Rattle.c0_rules.specs.Statements.{Scope, evaluated, is_call, within};
ghost use Rattle.c0_types_expressions.specs.Forms.{ArgumentsCause, CalledCause, InAmong, has_form, is_composed, is_conditional};
ghost use Rattle.c0_types_places.specs.Places.{callee_of};
ghost use Rattle.c0_types_terms.specs.Terms.{HasTexts, HaveTexts, context_of, env_of, place_of, typing_of, valued};
ghost use Rattle.c0_rules.specs.Types.{VoidType, and_so, same_type};
ghost use Rattle.c0_rules.specs.Answers.{Answers};
ghost use Rattle.c0_types_tables.specs.Views.{resolved_of};

use c0_source::fault::{Fault, FaultKind, Span};
use c0_syntax::expression::{Expression, ExpressionKind};
use c0_syntax::name::Name;
use c0_syntax::operator::PrefixOperator;
use c0_typed::{Constant, Expression as TypedExpression, PlainType, ValueType};
use c0_types_operators::operands::{chosen, left_operand, operated};
use c0_types_operators::operators::operator_rule;
use c0_types_places::memory::{allocated, allocated_array, held, lengthed};
use c0_types_places::names::{
    Callee, call_of, character, declared, number, output_takes, returned, text, variable,
};
use c0_types_places::places::{array_operand, element, fielded, pointed, pointer_field, read_of};
use c0_types_tables::resolved::{ResolvedPlain, ResolvedType};
use c0_types_terms::steps;
use c0_types_terms::steps::fault_at;
use c0_types_terms::typing::{ResolvedPlace, Terms, Typing};
use forms::{discarded, required, unary};

// Whether this type is `void`.
fn is_void(resolved: &ResolvedType) -> bool
    ensures { result ≡ same_type VoidType (resolved_of resolved.now) }
{
    match resolved {
        ResolvedType::Plain(ResolvedPlain::Void) => true,
        ResolvedType::Plain(_) | ResolvedType::Pointer(_) | ResolvedType::Array(_) => false,
    }
}

// Whether an expression has the form of a place, or stands in parentheses.
fn has_form(kind: &ExpressionKind) -> bool
    ensures { result ≡ has_form kind.now }
{
    match kind {
        ExpressionKind::Parenthesized(_) => true,
        ExpressionKind::Index(_, _) => true,
        ExpressionKind::Field(_, _) => true,
        ExpressionKind::PointerField(_, _) => true,
        ExpressionKind::Unary(operator, _) => matches!(operator, PrefixOperator::Dereference),
        _ => false,
    }
}

// Why a value is no place: a fault in it, or that it stands where a place is needed.
fn no_place(value: Result<Typing, Fault>, span: Span) -> Fault
    ensures fault { IfErr value (λ f. result ≡ f) }
    ensures value { IfOk value (λ _. Told TypeMismatch span result) }
{
    match value {
        Ok(typing) => {
            drop(typing);
            fault_at(FaultKind::TypeMismatch, span)
        }
        Err(fault) => fault,
    }
}

/// An expression that has a value, NULL among them.
#[cycle(expression)]
pub fn value(terms: &Terms<'_>, kind: &ExpressionKind, span: Span) -> Result<Typing, Fault>
    requires { HasTexts terms.now.texts.now (expression_of_kind kind.now) }
    ensures answers { Answers (typing_of terms.now.texts.now) result (valued (typed_expression (env_of terms.now) (context_of terms.now) (expression_of_kind kind.now))) }
    ensures cause { IfErr result (λ f. (f.kind ≡ OutOfMemory) ⊎ InExpression (env_of terms.now) (context_of terms.now) f AsValue kind.now span) }
{
    let typing = typing(terms, kind, span)?;
    if has_value(terms, &typing) {
        Ok(typing)
    } else {
        drop(typing);
        Err(void_use(terms, kind, span))
    }
}

// Whether an expression has a value; a void call has none.
fn has_value(terms: &Terms<'_>, typing: &Typing) -> bool
    ensures { result ≡ is_value (typing_of terms.now.texts.now typing.now) }
{
    match typing {
        Typing::Has(resolved, _) => !is_void(resolved),
        Typing::Null(_) => true,
    }
}

// A void call where a value is needed, which may stand in parentheses.
fn void_use(terms: &Terms<'_>, kind: &ExpressionKind, span: Span) -> Fault
    ensures { (e : y.Exp) → typed_expression (env_of terms.now) (context_of terms.now) (expression_of_kind kind.now) ≡ Some (x.Has VoidType e) → (result.kind ≡ OutOfMemory) ⊎ InExpression (env_of terms.now) (context_of terms.now) result AsValue kind.now span }
{
    match kind {
        ExpressionKind::Parenthesized(inner) => void_use(terms, &inner.kind, inner.span),
        ExpressionKind::Call(_, _) => fault_at(FaultKind::VoidUse, span),
        // Nothing else that is declared has the type `void`.
        _ => Fault::out_of_memory(),
    }
}

// An expression, a void call among them.
#[cycle(expression)]
fn typing(terms: &Terms<'_>, kind: &ExpressionKind, span: Span) -> Result<Typing, Fault>
    requires { HasTexts terms.now.texts.now (expression_of_kind kind.now) }
    ensures answers { Answers (typing_of terms.now.texts.now) result (typed_expression (env_of terms.now) (context_of terms.now) (expression_of_kind kind.now)) }
    ensures cause { IfErr result (λ f. (f.kind ≡ OutOfMemory) ⊎ InExpression (env_of terms.now) (context_of terms.now) f AsValue kind.now span) }
{
    match kind {
        ExpressionKind::Number(value) => Ok(number(terms, *value)),
        ExpressionKind::Character(code) => character(terms, *code, span),
        ExpressionKind::Truth(truth) => Ok(Typing::Has(
            ResolvedType::BOOL,
            TypedExpression::Constant(Constant::Truth(*truth)),
        )),
        ExpressionKind::Null => Ok(Typing::Null(TypedExpression::Null(ValueType::Plain(
            PlainType::Int,
        )))),
        ExpressionKind::Text(content) => Ok(text(terms, content)),
        ExpressionKind::Variable(name) => variable(terms, name),
        ExpressionKind::Parenthesized(inner) => typing(terms, &inner.kind, inner.span),
        ExpressionKind::Alloc(written) => allocated(terms, written),
        ExpressionKind::Result => returned(terms, span),
        ExpressionKind::AllocArray(written, length) => {
            let element = held(terms, written)?;
            match value(terms, &length.kind, length.span) {
                Ok(number) => allocated_array(terms, element, number, length.span),
                Err(fault) => {
                    drop(element);
                    Err(fault)
                }
            }
        }
        ExpressionKind::Length(array) => {
            let sized = value(terms, &array.kind, array.span)?;
            lengthed(terms, sized, array.span)
        }
        ExpressionKind::Unary(operator, operand) => {
            let only = value(terms, &operand.kind, operand.span)?;
            unary(terms, *operator, only, operand.span, span)
        }
        ExpressionKind::Conditional(_, _, _) => conditional(terms, kind, span),
        _ => composed(terms, kind, span),
    }
}

// One of two values by a condition.
#[cycle(expression)]
fn conditional(terms: &Terms<'_>, kind: &ExpressionKind, span: Span) -> Result<Typing, Fault>
    requires texts { HasTexts terms.now.texts.now (expression_of_kind kind.now) }
    requires form { is_conditional kind.now ≡ true }
    ensures answers { Answers (typing_of terms.now.texts.now) result (typed_expression (env_of terms.now) (context_of terms.now) (expression_of_kind kind.now)) }
    ensures cause { IfErr result (λ f. (f.kind ≡ OutOfMemory) ⊎ InExpression (env_of terms.now) (context_of terms.now) f AsValue kind.now span) }
{
    match kind {
        ExpressionKind::Conditional(condition, first, second) => {
            let test = value(terms, &condition.kind, condition.span)?;
            let truth = terms.as_wanted(&ResolvedType::BOOL, test, condition.span)?;
            let one = match value(terms, &first.kind, first.span) {
                Ok(one) => one,
                Err(fault) => {
                    drop(truth);
                    return Err(fault);
                }
            };
            match value(terms, &second.kind, second.span) {
                Ok(other) => chosen(terms, truth, one, other, second.span),
                Err(fault) => {
                    drop(truth);
                    drop(one);
                    Err(fault)
                }
            }
        }
        _ => unreachable!(),
    }
}

// An expression of two operands, a call, an element or a field.
#[cycle(expression)]
fn composed(terms: &Terms<'_>, kind: &ExpressionKind, span: Span) -> Result<Typing, Fault>
    requires texts { HasTexts terms.now.texts.now (expression_of_kind kind.now) }
    requires form { is_composed kind.now ≡ true }
    ensures answers { Answers (typing_of terms.now.texts.now) result (typed_expression (env_of terms.now) (context_of terms.now) (expression_of_kind kind.now)) }
    ensures cause { IfErr result (λ f. (f.kind ≡ OutOfMemory) ⊎ InExpression (env_of terms.now) (context_of terms.now) f AsValue kind.now span) }
{
    match kind {
        ExpressionKind::Binary(operator, left, right) => {
            let rule = operator_rule(*operator);
            let operand = value(terms, &left.kind, left.span)?;
            let first = left_operand(rule, operand, left.span)?;
            match value(terms, &right.kind, right.span) {
                Ok(second) => operated(terms, rule, first, second, (left.span, right.span)),
                Err(fault) => {
                    drop(first);
                    Err(fault)
                }
            }
        }
        ExpressionKind::Call(name, arguments) => called(terms, name, arguments, span),
        ExpressionKind::Index(_, _)
        | ExpressionKind::Field(_, _)
        | ExpressionKind::PointerField(_, _) => {
            let place = place_at(terms, kind, span, span)?;
            read_of(terms, place, span)
        }
        _ => unreachable!(),
    }
}

// A call.
#[cycle(expression)]
fn called(
    terms: &Terms<'_>,
    name: &Name,
    arguments: &Vec<Expression>,
    span: Span,
) -> Result<Typing, Fault>
    requires texts { HaveTexts terms.now.texts.now (expressions_of arguments.now.items) }
    ensures answers { Answers (typing_of terms.now.texts.now) result (typed_expression (env_of terms.now) (context_of terms.now) (s.Call (name_of name.now) (expressions_of arguments.now.items))) }
    ensures cause { IfErr result (λ f. (f.kind ≡ OutOfMemory) ⊎ CalledCause (env_of terms.now) (context_of terms.now) f name.now arguments.now.items span ⊎ InAmong (env_of terms.now) (context_of terms.now) f arguments.now.items) }
{
    let callee = declared(terms, name)?;
    let typed = arguments_of(terms, callee, arguments, span)?;
    Ok(call_of(terms, callee, typed)?)
}

// The arguments of a call of this.
#[cycle(expression)]
fn arguments_of(
    terms: &Terms<'_>,
    callee: Callee<'_>,
    arguments: &Vec<Expression>,
    span: Span,
) -> Result<Vec<TypedExpression>, Fault>
    requires texts { HaveTexts terms.now.texts.now (expressions_of arguments.now.items) }
    ensures answers { Answers (λ v. exps_of terms.now.texts.now v.items) result (x.typed_arguments (env_of terms.now) (context_of terms.now) (expressions_of arguments.now.items) (x.takes (callee_of callee.entry))) }
    ensures cause { IfErr result (λ f. (f.kind ≡ OutOfMemory) ⊎ ArgumentsCause (env_of terms.now) (context_of terms.now) f arguments.now.items (x.takes (callee_of callee.entry)) span ⊎ InAmong (env_of terms.now) (context_of terms.now) f arguments.now.items) }
{
    match callee {
        Callee::Output(output) => {
            let takes = output_takes(terms.alloc, output)?;
            arguments_wanted(terms, arguments, &takes, span)
        }
        Callee::Function(_, signature) => {
            arguments_wanted(terms, arguments, &signature.parameters, span)
        }
    }
}

// Arguments of these types, as many as there are types.
#[cycle(expression)]
fn arguments_wanted(
    terms: &Terms<'_>,
    arguments: &[Expression],
    wants: &[ResolvedType],
    span: Span,
) -> Result<Vec<TypedExpression>, Fault>
    requires texts { HaveTexts terms.now.texts.now (expressions_of arguments.now) }
    ensures answers { Answers (λ v. exps_of terms.now.texts.now v.items) result (x.typed_arguments (env_of terms.now) (context_of terms.now) (expressions_of arguments.now) (map resolved_of wants.now)) }
    ensures cause { IfErr result (λ f. (f.kind ≡ OutOfMemory) ⊎ ArgumentsCause (env_of terms.now) (context_of terms.now) f arguments.now (map resolved_of wants.now) span ⊎ InAmong (env_of terms.now) (context_of terms.now) f arguments.now) }
{
    if arguments.len() != wants.len() {
        return Err(fault_at(FaultKind::ArgumentCount, span));
    }
    let mut typed = Vec::new(terms.alloc);
    for i in 0..arguments.len() {
        let want = &wants[i];
        let argument = &arguments[i];
        let typing = typing(terms, &argument.kind, argument.span)?;
        let found = required(terms, want, argument, typing)?;
        typed.push(found)?;
    }
    Ok(typed)
}

/// A place of the heap, small or a struct. With all its parentheses it stands at `whole`, where it is told that it is none.
#[cycle(expression)]
pub fn place(
    terms: &Terms<'_>,
    kind: &ExpressionKind,
    span: Span,
    whole: Span,
) -> Result<ResolvedPlace, Fault>
    requires { HasTexts terms.now.texts.now (expression_of_kind kind.now) }
    ensures answers { Answers (place_of terms.now.texts.now) result (typed_place (env_of terms.now) (context_of terms.now) (expression_of_kind kind.now)) }
    ensures cause { IfErr result (λ f. (f.kind ≡ OutOfMemory) ⊎ InExpression (env_of terms.now) (context_of terms.now) f (AsPlace whole) kind.now span) }
{
    if has_form(kind) {
        place_at(terms, kind, span, whole)
    } else {
        Err(no_place(value(terms, kind, span), whole))
    }
}

// A place by its form.
#[cycle(expression)]
fn place_at(
    terms: &Terms<'_>,
    kind: &ExpressionKind,
    span: Span,
    whole: Span,
) -> Result<ResolvedPlace, Fault>
    requires texts { HasTexts terms.now.texts.now (expression_of_kind kind.now) }
    requires form { has_form kind.now ≡ true }
    ensures answers { Answers (place_of terms.now.texts.now) result (typed_place (env_of terms.now) (context_of terms.now) (expression_of_kind kind.now)) }
    ensures cause { IfErr result (λ f. (f.kind ≡ OutOfMemory) ⊎ InExpression (env_of terms.now) (context_of terms.now) f (AsPlace whole) kind.now span) }
{
    match kind {
        ExpressionKind::Parenthesized(inner) => place(terms, &inner.kind, inner.span, whole),
        ExpressionKind::Index(array, index) => {
            let operand = value(terms, &array.kind, array.span)?;
            let sized = array_operand(terms, operand, array.span, span)?;
            match value(terms, &index.kind, index.span) {
                Ok(number) => element(terms, sized, number, (array.span, index.span), span),
                Err(fault) => {
                    drop(sized);
                    Err(fault)
                }
            }
        }
        ExpressionKind::Field(of, name) => {
            let outer = place(terms, &of.kind, of.span, of.span)?;
            fielded(terms, outer, of.span, name, span)
        }
        ExpressionKind::PointerField(of, name) => {
            let pointer = value(terms, &of.kind, of.span)?;
            pointer_field(terms, pointer, of.span, name, span)
        }
        ExpressionKind::Unary(_, operand) => {
            let pointer = value(terms, &operand.kind, operand.span)?;
            pointed(terms, pointer, operand.span, span)
        }
        _ => unreachable!(),
    }
}

/// An expression of this type.
pub fn wanted(
    terms: &Terms<'_>,
    want: &ResolvedType,
    e: &Expression,
) -> Result<TypedExpression, Fault>
    requires { HasTexts terms.now.texts.now (expression_of e.now) }
    ensures answers { Answers (exp_of terms.now.texts.now) result (wanted (env_of terms.now) (resolved_of want.now) (typed_expression (env_of terms.now) (context_of terms.now) (expression_of e.now))) }
    ensures cause { IfErr result (λ f. (f.kind ≡ OutOfMemory) ⊎ InExpression (env_of terms.now) (context_of terms.now) f AsValue e.now.kind e.now.span ⊎ Mistyped (env_of terms.now) (context_of terms.now) f (resolved_of want.now) e.now.kind e.now.span) }
{
    let typing = typing(terms, &e.kind, e.span)?;
    required(terms, want, e, typing)
}

/// The same, of an expression that tells where it stands.
pub fn sited(
    terms: &Terms<'_>,
    want: &ResolvedType,
    e: &Expression,
) -> Result<TypedExpression, Fault>
    requires { HasTexts terms.now.texts.now (expression_of e.now) }
    ensures answers { Answers (exp_of terms.now.texts.now) result (wanted (env_of terms.now) (resolved_of want.now) (typed_expression (env_of terms.now) (context_of terms.now) (expression_of e.now))) }
    ensures cause { IfErr result (λ f. (f.kind ≡ OutOfMemory) ⊎ InExpression (env_of terms.now) (context_of terms.now) f AsValue e.now.kind e.now.span ⊎ Mistyped (env_of terms.now) (context_of terms.now) f (resolved_of want.now) e.now.kind e.now.span) }
{
    let found = wanted(terms, want, e)?;
    Ok(steps::sited(terms.alloc, found, e.span)?)
}

/// An expression as a statement: it has a small value or NULL's type, or is a call.
pub fn evaluated(terms: &Terms<'_>, e: &Expression) -> Result<TypedExpression, Fault>
    requires { HasTexts terms.now.texts.now (expression_of e.now) }
    ensures answers { Answers (exp_of terms.now.texts.now) result (and_so (typed_expression (env_of terms.now) (context_of terms.now) (expression_of e.now)) (evaluated (env_of terms.now) (expression_of e.now))) }
    ensures cause { (s : Scope) → within s ≡ (context_of terms.now) → IfErr result (λ f. (f.kind ≡ OutOfMemory) ⊎ InEvaluated (env_of terms.now) f s e.now.kind e.now.span) }
{
    match &e.kind {
        ExpressionKind::Call(name, arguments) => {
            let typing = called(terms, name, arguments, e.span)?;
            discarded(terms, typing)
        }
        _ => evaluated_value(terms, e),
    }
}

// The same of what is no call.
fn evaluated_value(terms: &Terms<'_>, e: &Expression) -> Result<TypedExpression, Fault>
    requires texts { HasTexts terms.now.texts.now (expression_of e.now) }
    requires value { is_call (expression_of e.now) ≡ false }
    ensures answers { Answers (exp_of terms.now.texts.now) result (and_so (typed_expression (env_of terms.now) (context_of terms.now) (expression_of e.now)) (evaluated (env_of terms.now) (expression_of e.now))) }
    ensures cause { (s : Scope) → within s ≡ (context_of terms.now) → IfErr result (λ f. (f.kind ≡ OutOfMemory) ⊎ InEvaluated (env_of terms.now) f s e.now.kind e.now.span) }
{
    let typing = value(terms, &e.kind, e.span)?;
    discarded(terms, typing)
}
