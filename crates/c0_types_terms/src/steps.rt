//! Steps that forms of expressions have in common: a tree on the heap, and a value of a wanted type.
//! A tree or a type that is held where a step may fail is boxed before, or dropped there by a call: a drop that `?` makes is
//! proved variant by variant.

ghost use Rattle.std.specs.Prelude.{◌≡◌, ◌⊎◌, List, IfErr, IfOk};
ghost use Rattle.c0_source.specs.declared.fault.FaultKind.TheVariants.{OutOfMemory, TypeMismatch};
ghost use Rattle.c0_typed.specs.Views.{exp_of, type_of};
ghost use Rattle.c0_rules.specs.Expressions as x;
ghost use Rattle.c0_rules.specs.FaultExpressions.{Told};
ghost use Rattle.c0_rules.specs.Types.{Name};
ghost use Rattle.c0_types_terms.specs.Terms.{env_of, typing_of};
ghost use Rattle.c0_rules.specs.Answers.{Answers};
ghost use Rattle.c0_types_tables.specs.Views.{resolved_of};

use crate::retyping::retype;
use crate::typing::{Terms, Typing};
use c0_source::fault::{Fault, FaultKind, Span};
use c0_typed::{Expression, Site, ValueType};
use c0_types_tables::resolved::ResolvedType;
use std::alloc::{AllocError, Global};

/// A fault at a place.
pub fn fault_at(kind: FaultKind, span: Span) -> Fault
    ensures { Told kind span result }
{
    Fault { kind, span }
}

/// Two operands on the heap. A tree that stands in a box is dropped by one step, and one that does not is dropped variant by variant.
pub fn boxed(
    alloc: Global,
    first: Expression,
    second: Expression,
) -> Result<(Box<Expression>, Box<Expression>), AllocError>
    ensures { IfOk result (λ r. (r.0.value ≡ first) × (r.1.value ≡ second)) }
{
    match Box::new(alloc, first) {
        Ok(first) => Ok((first, Box::new(alloc, second)?)),
        Err(refused) => {
            drop(second);
            Err(refused.into())
        }
    }
}

/// An expression that tells where it stands.
pub fn sited(alloc: Global, e: Expression, here: Span) -> Result<Expression, AllocError>
    ensures { (texts : List Name) → IfOk result (λ r. exp_of texts r ≡ exp_of texts e) }
{
    let inner = Box::new(alloc, e)?;
    let site = Site { offset: here.start };
    Ok(Expression::At(site, inner))
}

/// Two operands on the heap, of which the first tells where it stands.
pub fn boxed_at(
    alloc: Global,
    first: Expression,
    second: Expression,
    here: Span,
) -> Result<(Box<Expression>, Box<Expression>), AllocError>
    ensures { (texts : List Name) → IfOk result (λ r. (exp_of texts r.0.value ≡ exp_of texts first) × (r.1.value ≡ second)) }
{
    match sited(alloc, first, here) {
        Ok(first) => boxed(alloc, first, second),
        Err(refused) => {
            drop(second);
            Err(refused)
        }
    }
}

/// An expression on the heap that tells where it stands.
pub fn sited_boxed(alloc: Global, e: Expression, here: Span) -> Result<Box<Expression>, AllocError>
    ensures { (texts : List Name) → IfOk result (λ r. exp_of texts r.value ≡ exp_of texts e) }
{
    Ok(Box::new(alloc, sited(alloc, e, here)?)?)
}

impl<'a> Terms<'a> {
    /// A type as typed trees have it.
    pub fn numbered(&self, resolved: &ResolvedType) -> Result<ValueType, AllocError>
        ensures { IfOk result (λ r. type_of r ≡ x.num (env_of self.now) (resolved_of resolved.now)) }
    {
        self.environment.numbered(resolved)
    }

    /// NULL where this type is wanted: every pointer type has it.
    pub fn null_as(
        &self,
        want: &ResolvedType,
        e: Expression,
        span: Span,
    ) -> Result<Expression, Fault>
        ensures answers { Answers (exp_of self.now.texts.now) result (x.null_as (env_of self.now) (resolved_of want.now) (exp_of self.now.texts.now e)) }
        ensures cause { IfErr result (λ f. (f.kind ≡ OutOfMemory) ⊎ Told TypeMismatch span f) }
    {
        match want {
            ResolvedType::Pointer(target) => match self.environment.numbered_target(target) {
                Ok(target) => {
                    let pointer = retype(self.alloc, &target, e);
                    drop(target);
                    Ok(pointer?)
                }
                Err(refused) => {
                    drop(e);
                    Err(refused.into())
                }
            },
            _ => {
                drop(e);
                Err(fault_at(FaultKind::TypeMismatch, span))
            }
        }
    }

    /// An expression where this type is wanted.
    pub fn as_wanted(
        &self,
        want: &ResolvedType,
        typing: Typing,
        span: Span,
    ) -> Result<Expression, Fault>
        ensures answers { Answers (exp_of self.now.texts.now) result (x.as_wanted (env_of self.now) (resolved_of want.now) (typing_of self.now.texts.now typing)) }
        ensures cause { IfErr result (λ f. (f.kind ≡ OutOfMemory) ⊎ Told TypeMismatch span f) }
    {
        match typing {
            Typing::Has(resolved, e) => {
                let is_wanted = resolved.same_as(want);
                drop(resolved);
                if is_wanted {
                    Ok(e)
                } else {
                    drop(e);
                    Err(fault_at(FaultKind::TypeMismatch, span))
                }
            }
            Typing::Null(e) => self.null_as(want, e, span),
        }
    }
}
