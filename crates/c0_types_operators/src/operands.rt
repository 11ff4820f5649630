//! The steps from what operands are to what they are together.
//! A tree or a type that is held where a step may fail is boxed before, or dropped there by a call: a drop that `?` makes is
//! proved variant by variant.

ghost use Rattle.std.specs.Prelude.{◌≡◌, ◌≢◌, ◌⊎◌, List, None, Some, false, true, IfErr, IfOk};
ghost use Rattle.c0_source.specs.declared.fault.FaultKind.TheVariants.{OutOfMemory, TypeMismatch};
ghost use Rattle.c0_typed.specs.Trees as t;
ghost use Rattle.c0_typed.specs.Views.{exp_of, relation_of};
ghost use Rattle.c0_rules.specs.Expressions as x;
ghost use Rattle.c0_rules.specs.FaultExpressions.{Told, has_common};
ghost use Rattle.c0_syntax.specs.declared.operator.PrefixOperator.TheVariants.{Dereference};
ghost use Rattle.c0_types_operators.specs.Operators.{LeftCause, OperatedCause, pair_of, rule_of, takes_left};
ghost use Rattle.c0_types_terms.specs.Terms.{env_of, typing_of};
ghost use Rattle.c0_rules.specs.Types.{BoolType, Environment, IntType, Name, and_so};
ghost use Rattle.c0_rules.specs.Answers.{Answers};
ghost use Rattle.c0_types_tables.specs.Views.{resolved_of};

use crate::operators::{OperatorRule, is_compared, is_equality};
use c0_source::fault::{Fault, FaultKind, Span};
use c0_syntax::operator::PrefixOperator;
use c0_typed::{Expression, PlainType, Relation, Target, UnaryOperator, ValueType};
use c0_types_tables::resolved::ResolvedType;
use c0_types_terms::retyping::retype_to_numbers;
use c0_types_terms::steps::{boxed, boxed_at, fault_at};
use c0_types_terms::typing::{Terms, Typing};
use cells::Int32Op;
use std::alloc::{AllocError, Global};

// Whether an operator takes an operand of this type on its left, with some operand on its right.
fn takes_left(rule: OperatorRule, first: &Typing) -> bool
    ensures { (texts : List Name) → result ≡ takes_left (rule_of rule) (typing_of texts first.now) }
{
    match (rule, first) {
        (OperatorRule::Compares(relation), Typing::Has(resolved, _)) => {
            is_compared(relation, resolved)
        }
        (OperatorRule::Compares(relation), Typing::Null(_)) => is_equality(relation),
        (OperatorRule::OnNumbers(_), Typing::Has(resolved, _)) => {
            resolved.same_as(&ResolvedType::INT)
        }
        (OperatorRule::Conjunction, Typing::Has(resolved, _)) => {
            resolved.same_as(&ResolvedType::BOOL)
        }
        (OperatorRule::Disjunction, Typing::Has(resolved, _)) => {
            resolved.same_as(&ResolvedType::BOOL)
        }
        (_, Typing::Null(_)) => false,
    }
}

/// The operand on the left of an operator, which stands here; it is refused where the operator doesn't take it, whatever the other is,
/// so that a fault in the other isn't told before.
#[tactic(auto, using(crate::proofs::LeftOperands::left_cause))]
pub fn left_operand(rule: OperatorRule, first: Typing, here: Span) -> Result<Typing, Fault>
    ensures taken { IfOk result (λ x. x ≡ first) }
    ensures fits { (texts : List Name) → IfOk result (λ x. takes_left (rule_of rule) (typing_of texts x) ≡ true) }
    ensures refused { (env : Environment) (texts : List Name) → IfErr result (λ f. LeftCause env f (rule_of rule) (typing_of texts first) here) }
{
    if takes_left(rule, &first) {
        Ok(first)
    } else {
        drop(first);
        Err(fault_at(FaultKind::TypeMismatch, here))
    }
}

// Two operands of an operator on numbers, on the heap. Where it may stop the program, the first tells where it stands.
fn numbers_boxed(
    alloc: Global,
    operator: Int32Op,
    first: Expression,
    second: Expression,
    here: Span,
) -> Result<(Box<Expression>, Box<Expression>), AllocError>
    ensures { (texts : List Name) → IfOk result (λ r. (exp_of texts r.0.value ≡ exp_of texts first) × (r.1.value ≡ second)) }
{
    match operator {
        Int32Op::Div | Int32Op::Mod | Int32Op::Shl | Int32Op::Shr => {
            boxed_at(alloc, first, second, here)
        }
        Int32Op::Add | Int32Op::Sub | Int32Op::Mul => boxed(alloc, first, second),
        Int32Op::And | Int32Op::Or | Int32Op::Xor => boxed(alloc, first, second),
    }
}

// An operand that is NULL, as a pointer to numbers.
fn null_boxed(alloc: Global, e: Expression) -> Result<Box<Expression>, AllocError>
    ensures { (texts : List Name) → IfOk result (λ r. exp_of texts r.value ≡ x.retyped t.IntTy (exp_of texts e)) }
{
    Ok(Box::new(alloc, retype_to_numbers(alloc, e)?)?)
}

// A comparison of values of this type.
fn comparison(
    terms: &Terms<'_>,
    resolved: &ResolvedType,
    relation: Relation,
    first: Expression,
    second: Expression,
) -> Result<Typing, AllocError>
    ensures { IfOk result (λ r. typing_of terms.now.texts.now r ≡ x.Has BoolType (t.Compare (x.num (env_of terms.now) (resolved_of resolved.now)) (relation_of relation) (exp_of terms.now.texts.now first) (exp_of terms.now.texts.now second))) }
{
    let (first, second) = boxed(terms.alloc, first, second)?;
    let value_type = terms.numbered(resolved)?;
    Ok(Typing::Has(
        ResolvedType::BOOL,
        Expression::Compare(value_type, relation, first, second),
    ))
}

/// A comparison of two operands of one type.
pub fn compared(
    terms: &Terms<'_>,
    relation: Relation,
    first: Typing,
    second: Typing,
    span: Span,
) -> Result<Typing, Fault>
    ensures answers { Answers (typing_of terms.now.texts.now) result (x.compared (env_of terms.now) (relation_of relation) (typing_of terms.now.texts.now first) (typing_of terms.now.texts.now second)) }
    ensures cause { IfErr result (λ f. (f.kind ≡ OutOfMemory) ⊎ Told TypeMismatch span f) }
{
    match (first, second) {
        (Typing::Has(a, x), Typing::Has(b, y)) => {
            let are_compared = a.same_as(&b) && is_compared(relation, &a);
            drop(b);
            if are_compared {
                let found = comparison(terms, &a, relation, x, y);
                drop(a);
                Ok(found?)
            } else {
                drop(a);
                drop(x);
                drop(y);
                Err(fault_at(FaultKind::TypeMismatch, span))
            }
        }
        (Typing::Has(a, x), Typing::Null(y)) => {
            let found = null_on_right(terms, relation, &a, x, y, span);
            drop(a);
            found
        }
        (Typing::Null(x), Typing::Has(b, y)) => {
            let found = null_on_left(terms, relation, x, &b, y, span);
            drop(b);
            found
        }
        (Typing::Null(x), Typing::Null(y)) => {
            if is_equality(relation) {
                Ok(comparison_of_nulls(terms, relation, x, y)?)
            } else {
                drop(x);
                drop(y);
                Err(fault_at(FaultKind::TypeMismatch, span))
            }
        }
    }
}

// A comparison of a value of this type with NULL.
fn null_on_right(
    terms: &Terms<'_>,
    relation: Relation,
    resolved: &ResolvedType,
    first: Expression,
    null: Expression,
    span: Span,
) -> Result<Typing, Fault>
    ensures answers { Answers (typing_of terms.now.texts.now) result (x.compared (env_of terms.now) (relation_of relation) (x.Has (resolved_of resolved.now) (exp_of terms.now.texts.now first)) (x.IsNull (exp_of terms.now.texts.now null))) }
    ensures cause { IfErr result (λ f. (f.kind ≡ OutOfMemory) ⊎ Told TypeMismatch span f) }
{
    if !is_equality(relation) {
        drop(first);
        drop(null);
        return Err(fault_at(FaultKind::TypeMismatch, span));
    }
    match terms.null_as(resolved, null, span) {
        Ok(second) => Ok(comparison(terms, resolved, relation, first, second)?),
        Err(fault) => {
            drop(first);
            Err(fault)
        }
    }
}

// A comparison of NULL with a value of this type.
fn null_on_left(
    terms: &Terms<'_>,
    relation: Relation,
    null: Expression,
    resolved: &ResolvedType,
    second: Expression,
    span: Span,
) -> Result<Typing, Fault>
    ensures answers { Answers (typing_of terms.now.texts.now) result (x.compared (env_of terms.now) (relation_of relation) (x.IsNull (exp_of terms.now.texts.now null)) (x.Has (resolved_of resolved.now) (exp_of terms.now.texts.now second))) }
    ensures cause { IfErr result (λ f. (f.kind ≡ OutOfMemory) ⊎ Told TypeMismatch span f) }
{
    if !is_equality(relation) {
        drop(null);
        drop(second);
        return Err(fault_at(FaultKind::TypeMismatch, span));
    }
    match terms.null_as(resolved, null, span) {
        Ok(first) => Ok(comparison(terms, resolved, relation, first, second)?),
        Err(fault) => {
            drop(second);
            Err(fault)
        }
    }
}

// A comparison of two that are NULL.
fn comparison_of_nulls(
    terms: &Terms<'_>,
    relation: Relation,
    first: Expression,
    second: Expression,
) -> Result<Typing, AllocError>
    ensures { IfOk result (λ r. typing_of terms.now.texts.now r ≡ x.Has BoolType (t.Compare (t.PointerTy t.IntTy) (relation_of relation) (x.retyped t.IntTy (exp_of terms.now.texts.now first)) (x.retyped t.IntTy (exp_of terms.now.texts.now second)))) }
{
    match null_boxed(terms.alloc, first) {
        Ok(first) => {
            let second = null_boxed(terms.alloc, second)?;
            let number = Target::of_plain(terms.alloc, PlainType::Int)?;
            Ok(Typing::Has(
                ResolvedType::BOOL,
                Expression::Compare(ValueType::Pointer(number), relation, first, second),
            ))
        }
        Err(refused) => {
            drop(second);
            Err(refused)
        }
    }
}

// One of two arms of this type.
fn choice(
    terms: &Terms<'_>,
    resolved: ResolvedType,
    condition: Box<Expression>,
    first: Expression,
    second: Expression,
) -> Result<Typing, AllocError>
    ensures { IfOk result (λ r. typing_of terms.now.texts.now r ≡ x.Has (resolved_of resolved) (t.Choose (x.num (env_of terms.now) (resolved_of resolved)) (exp_of terms.now.texts.now condition.value) (exp_of terms.now.texts.now first) (exp_of terms.now.texts.now second))) }
{
    let (first, second) = match boxed(terms.alloc, first, second) {
        Ok(operands) => operands,
        Err(refused) => {
            drop(resolved);
            return Err(refused);
        }
    };
    match terms.numbered(&resolved) {
        Ok(value_type) => Ok(Typing::Has(
            resolved,
            Expression::Choose(value_type, condition, first, second),
        )),
        Err(refused) => {
            drop(resolved);
            Err(refused)
        }
    }
}

// One of two arms that are NULL.
fn choice_of_nulls(
    terms: &Terms<'_>,
    condition: Box<Expression>,
    first: Expression,
    second: Expression,
) -> Result<Typing, AllocError>
    ensures { IfOk result (λ r. typing_of terms.now.texts.now r ≡ x.IsNull (t.Choose (t.PointerTy t.IntTy) (exp_of terms.now.texts.now condition.value) (exp_of terms.now.texts.now first) (exp_of terms.now.texts.now second))) }
{
    let (first, second) = boxed(terms.alloc, first, second)?;
    let number = Target::of_plain(terms.alloc, PlainType::Int)?;
    Ok(Typing::Null(Expression::Choose(ValueType::Pointer(number), condition, first, second)))
}

/// One of two arms of one small type; of two that are NULL it has NULL's own type.
pub fn chosen(
    terms: &Terms<'_>,
    condition: Expression,
    first: Typing,
    second: Typing,
    span: Span,
) -> Result<Typing, Fault>
    ensures answers { Answers (typing_of terms.now.texts.now) result (x.chosen (env_of terms.now) (exp_of terms.now.texts.now condition) (typing_of terms.now.texts.now first) (typing_of terms.now.texts.now second)) }
    ensures cause { IfErr result (λ f. (f.kind ≡ OutOfMemory) ⊎ ((has_common (typing_of terms.now.texts.now first) (typing_of terms.now.texts.now second) ≡ false) × Told TypeMismatch span f)) }
{
    match Box::new(terms.alloc, condition) {
        Ok(condition) => chosen_by(terms, condition, first, second, span),
        Err(refused) => {
            drop(first);
            drop(second);
            Err(refused.into())
        }
    }
}

// The same, of a condition that stands in a box.
fn chosen_by(
    terms: &Terms<'_>,
    condition: Box<Expression>,
    first: Typing,
    second: Typing,
    span: Span,
) -> Result<Typing, Fault>
    ensures answers { Answers (typing_of terms.now.texts.now) result (x.chosen (env_of terms.now) (exp_of terms.now.texts.now condition.value) (typing_of terms.now.texts.now first) (typing_of terms.now.texts.now second)) }
    ensures cause { IfErr result (λ f. (f.kind ≡ OutOfMemory) ⊎ ((has_common (typing_of terms.now.texts.now first) (typing_of terms.now.texts.now second) ≡ false) × Told TypeMismatch span f)) }
{
    match (first, second) {
        (Typing::Has(a, x), Typing::Has(b, y)) => {
            let is_common = a.same_as(&b) && a.is_small();
            drop(b);
            if is_common {
                Ok(choice(terms, a, condition, x, y)?)
            } else {
                drop(a);
                drop(x);
                drop(y);
                Err(fault_at(FaultKind::TypeMismatch, span))
            }
        }
        (Typing::Has(a, x), Typing::Null(y)) => match terms.null_as(&a, y, span) {
            Ok(y) => Ok(choice(terms, a, condition, x, y)?),
            Err(fault) => {
                drop(a);
                drop(x);
                Err(fault)
            }
        },
        (Typing::Null(x), Typing::Has(b, y)) => match terms.null_as(&b, x, span) {
            Ok(x) => Ok(choice(terms, b, condition, x, y)?),
            Err(fault) => {
                drop(b);
                drop(y);
                Err(fault)
            }
        },
        (Typing::Null(x), Typing::Null(y)) => Ok(choice_of_nulls(terms, condition, x, y)?),
    }
}

/// An operator before its operand, but for `*`.
pub fn prefixed(
    terms: &Terms<'_>,
    operator: PrefixOperator,
    operand: Typing,
    span: Span,
) -> Result<Typing, Fault>
    requires { operator ≢ Dereference }
    ensures answers { Answers (typing_of terms.now.texts.now) result (x.prefixed (env_of terms.now) operator (typing_of terms.now.texts.now operand)) }
    ensures cause { IfErr result (λ f. (f.kind ≡ OutOfMemory) ⊎ Told TypeMismatch span f) }
{
    match operator {
        PrefixOperator::Not => {
            let a = terms.as_wanted(&ResolvedType::BOOL, operand, span)?;
            let a = Box::new(terms.alloc, a)?;
            Ok(Typing::Has(ResolvedType::BOOL, Expression::Unary(UnaryOperator::Not, a)))
        }
        PrefixOperator::Complement => {
            let a = terms.as_wanted(&ResolvedType::INT, operand, span)?;
            let a = Box::new(terms.alloc, a)?;
            let e = Expression::Unary(UnaryOperator::Complement, a);
            Ok(Typing::Has(ResolvedType::INT, e))
        }
        PrefixOperator::Negate => {
            let a = terms.as_wanted(&ResolvedType::INT, operand, span)?;
            let a = Box::new(terms.alloc, a)?;
            let e = Expression::Unary(UnaryOperator::Negate, a);
            Ok(Typing::Has(ResolvedType::INT, e))
        }
        PrefixOperator::Dereference => unreachable!(),
    }
}

// Two operands of this type.
fn operands(
    terms: &Terms<'_>,
    want: &ResolvedType,
    first: Typing,
    second: Typing,
    spans: (Span, Span),
) -> Result<(Expression, Expression), Fault>
    ensures answers { Answers (pair_of terms.now.texts.now) result (and_so (x.as_wanted (env_of terms.now) (resolved_of want.now) (typing_of terms.now.texts.now first)) (λ a. and_so (x.as_wanted (env_of terms.now) (resolved_of want.now) (typing_of terms.now.texts.now second)) (λ b. Some (a, b)))) }
    ensures cause { IfErr result (λ f. (f.kind ≡ OutOfMemory) ⊎ ((x.as_wanted (env_of terms.now) (resolved_of want.now) (typing_of terms.now.texts.now first) ≡ None) × Told TypeMismatch spans.0 f) ⊎ ((x.as_wanted (env_of terms.now) (resolved_of want.now) (typing_of terms.now.texts.now second) ≡ None) × Told TypeMismatch spans.1 f)) }
{
    let first = match terms.as_wanted(want, first, spans.0) {
        Ok(first) => first,
        Err(fault) => {
            drop(second);
            return Err(fault);
        }
    };
    match terms.as_wanted(want, second, spans.1) {
        Ok(second) => Ok((first, second)),
        Err(fault) => {
            drop(first);
            Err(fault)
        }
    }
}

/// An operator between two operands, which stand at these places.
pub fn operated(
    terms: &Terms<'_>,
    rule: OperatorRule,
    first: Typing,
    second: Typing,
    spans: (Span, Span),
) -> Result<Typing, Fault>
    ensures answers { Answers (typing_of terms.now.texts.now) result (x.operated (env_of terms.now) (rule_of rule) (typing_of terms.now.texts.now first) (typing_of terms.now.texts.now second)) }
    ensures cause { IfErr result (λ f. (f.kind ≡ OutOfMemory) ⊎ OperatedCause (env_of terms.now) f (rule_of rule) (typing_of terms.now.texts.now first) (typing_of terms.now.texts.now second) spans.0 spans.1) }
{
    match rule {
        OperatorRule::OnNumbers(operator) => {
            let (a, b) = operands(terms, &ResolvedType::INT, first, second, spans)?;
            let (a, b) = numbers_boxed(terms.alloc, operator, a, b, spans.0)?;
            Ok(Typing::Has(ResolvedType::INT, Expression::Binary(operator, a, b)))
        }
        OperatorRule::Compares(relation) => compared(terms, relation, first, second, spans.1),
        OperatorRule::Conjunction => {
            let (a, b) = operands(terms, &ResolvedType::BOOL, first, second, spans)?;
            let (a, b) = boxed(terms.alloc, a, b)?;
            Ok(Typing::Has(ResolvedType::BOOL, Expression::And(a, b)))
        }
        OperatorRule::Disjunction => {
            let (a, b) = operands(terms, &ResolvedType::BOOL, first, second, spans)?;
            let (a, b) = boxed(terms.alloc, a, b)?;
            Ok(Typing::Has(ResolvedType::BOOL, Expression::Or(a, b)))
        }
    }
}
