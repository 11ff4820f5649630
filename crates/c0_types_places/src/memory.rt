//! New memory, and the length of an array.
//! A tree or a type that is held where a step may fail is boxed before, or dropped there by a call: a drop that `?` makes is
//! proved variant by variant.

ghost use Rattle.std.specs.Prelude.{◌≡◌, ◌⊎◌, None, Some, IfErr, IfOk};
ghost use Rattle.c0_source.specs.declared.fault.FaultKind.TheVariants.{OutOfMemory, TypeMismatch};
ghost use Rattle.c0_syntax.specs.Views.{type_of};
ghost use Rattle.c0_typed.specs.Trees as y;
ghost use Rattle.c0_typed.specs.Views.{exp_of};
ghost use Rattle.c0_rules.specs.Expressions as x;
ghost use Rattle.c0_rules.specs.FaultExpressions.{HeldTypeCause, Told};
ghost use Rattle.c0_types_places.specs.Places.{array_of};
ghost use Rattle.c0_types_terms.specs.Terms.{env_of, typing_of};
ghost use Rattle.c0_rules.specs.Types as t;
ghost use Rattle.c0_rules.specs.Answers.{Answers};
ghost use Rattle.c0_types_tables.specs.Views.{resolved_of, resolved_target_of};

use c0_source::fault::{Fault, FaultKind, Span};
use c0_syntax::value_type::ValueType as WrittenType;
use c0_typed::Expression;
use c0_types_tables::resolved::{ResolvedTarget, ResolvedType};
use c0_types_terms::steps::{fault_at, sited_boxed};
use c0_types_terms::typing::{Terms, Typing};
use std::alloc::AllocError;

/// A type that memory can hold here.
pub fn held(terms: &Terms<'_>, written: &WrittenType) -> Result<ResolvedType, Fault>
    ensures answers { Answers resolved_of result (x.held_type (env_of terms.now) (type_of written.now)) }
    ensures cause { IfErr result (λ f. (f.kind ≡ OutOfMemory) ⊎ HeldTypeCause (env_of terms.now) f written.now) }
{
    let resolved = terms.environment.typedefs.resolve(terms.alloc, written)?;
    match terms.environment.structs.cells(&resolved) {
        Some(_) => Ok(resolved),
        None => {
            drop(resolved);
            Err(fault_at(FaultKind::StructNotComplete, written.span))
        }
    }
}

/// A pointer to new memory.
pub fn allocated(terms: &Terms<'_>, written: &WrittenType) -> Result<Typing, Fault>
    ensures answers { Answers (typing_of terms.now.texts.now) result (t.and_so (x.held_type (env_of terms.now) (type_of written.now)) (λ r. Some (x.Has (t.PointerTo r) (y.Alloc (x.num (env_of terms.now) r))))) }
    ensures cause { IfErr result (λ f. (f.kind ≡ OutOfMemory) ⊎ HeldTypeCause (env_of terms.now) f written.now) }
{
    let resolved = held(terms, written)?;
    let value_type = terms.numbered(&resolved)?;
    let target = ResolvedTarget::of(terms.alloc, resolved)?;
    Ok(Typing::Has(ResolvedType::Pointer(target), Expression::Alloc(value_type)))
}

/// An array of this many elements of this type.
pub fn allocated_array(
    terms: &Terms<'_>,
    element: ResolvedType,
    length: Typing,
    here: Span,
) -> Result<Typing, Fault>
    ensures answers { Answers (typing_of terms.now.texts.now) result (array_of (env_of terms.now) (resolved_of element) (typing_of terms.now.texts.now length)) }
    ensures cause { IfErr result (λ f. (f.kind ≡ OutOfMemory) ⊎ ((x.as_wanted (env_of terms.now) t.IntType (typing_of terms.now.texts.now length) ≡ None) × Told TypeMismatch here f)) }
{
    let length = match terms.as_wanted(&ResolvedType::INT, length, here) {
        Ok(length) => length,
        Err(fault) => {
            drop(element);
            return Err(fault);
        }
    };
    match sited_boxed(terms.alloc, length, here) {
        Ok(length) => Ok(array_made(terms, element, length)?),
        Err(refused) => {
            drop(element);
            Err(refused.into())
        }
    }
}

// A new array of this many elements of this type.
fn array_made(
    terms: &Terms<'_>,
    element: ResolvedType,
    length: Box<Expression>,
) -> Result<Typing, AllocError>
    ensures { IfOk result (λ r. typing_of terms.now.texts.now r ≡ x.Has (t.ArrayOf (resolved_of element)) (y.AllocArray (x.num (env_of terms.now) (resolved_of element)) (exp_of terms.now.texts.now length.value))) }
{
    let value_type = terms.numbered(&element)?;
    let element = ResolvedTarget::of(terms.alloc, element)?;
    Ok(Typing::Has(
        ResolvedType::Array(element),
        Expression::AllocArray(value_type, length),
    ))
}

/// The length of an array.
pub fn lengthed(terms: &Terms<'_>, array: Typing, span: Span) -> Result<Typing, Fault>
    ensures answers { Answers (typing_of terms.now.texts.now) result (x.lengthed (env_of terms.now) (typing_of terms.now.texts.now array)) }
    ensures cause { IfErr result (λ f. (f.kind ≡ OutOfMemory) ⊎ Told TypeMismatch span f) }
{
    match array {
        Typing::Has(resolved, e) => match resolved {
            ResolvedType::Array(element) => Ok(length_of(terms, element, e)?),
            other => {
                drop(other);
                drop(e);
                Err(fault_at(FaultKind::TypeMismatch, span))
            }
        },
        Typing::Null(e) => {
            drop(e);
            Err(fault_at(FaultKind::TypeMismatch, span))
        }
    }
}

// The length of this array, of elements of this type.
fn length_of(
    terms: &Terms<'_>,
    element: ResolvedTarget,
    array: Expression,
) -> Result<Typing, AllocError>
    ensures { IfOk result (λ r. typing_of terms.now.texts.now r ≡ x.Has t.IntType (y.Length (x.num (env_of terms.now) (resolved_target_of element)) (exp_of terms.now.texts.now array))) }
{
    let array = Box::new(terms.alloc, array)?;
    let value_type = terms.numbered(&element.resolved()?)?;
    Ok(Typing::Has(ResolvedType::INT, Expression::Length(value_type, array)))
}
