//! Steps to places of the heap, and what stands there.
//! A tree or a type that is held where a step may fail is boxed before, or dropped there by a call: a drop that `?` makes is
//! proved variant by variant.

ghost use Rattle.std.specs.Prelude.{◌≡◌, ◌⊎◌, None, Some, false, true, IfErr, IfOk, MatchOption};
ghost use Rattle.c0_source.specs.declared.fault.FaultKind.TheVariants.{NotSmall, NullDereference, OutOfMemory, StructNotComplete, TypeMismatch, UnknownField};
ghost use Rattle.c0_syntax.specs.Views.{name_of};
ghost use Rattle.c0_typed.specs.Trees as y;
ghost use Rattle.c0_typed.specs.Views.{exp_of, place_of as at_of};
ghost use Rattle.c0_rules.specs.Expressions as x;
ghost use Rattle.c0_rules.specs.FaultExpressions.{FieldCause, Told, element_of, is_null};
ghost use Rattle.c0_types_places.specs.Places.{ArrayCause, HasElements, PointedCause, field_place};
ghost use Rattle.c0_types_terms.specs.Terms.{context_of, env_of, place_of, typing_of};
ghost use Rattle.c0_rules.specs.Types as t;
ghost use Rattle.c0_rules.specs.Answers.{Answers};
ghost use Rattle.c0_types_tables.specs.Views.{field_entry_of, resolved_of, resolved_target_of, struct_entry_of};

use c0_source::fault::{Fault, FaultKind, Span};
use c0_syntax::name::Name;
use c0_typed::{Expression, Place};
use c0_types_tables::resolved::{ResolvedPlain, ResolvedTarget, ResolvedType};
use c0_types_tables::structs::{FieldEntry, StructEntry};
use c0_types_terms::steps::{boxed_at, fault_at, sited_boxed};
use c0_types_terms::typing::{ResolvedPlace, Terms, Typing};
use std::alloc::AllocError;

/// What a pointer points to. NULL itself points to nothing, which is told at the sign.
pub fn pointed(
    terms: &Terms<'_>,
    pointer: Typing,
    span: Span,
    sign: Span,
) -> Result<ResolvedPlace, Fault>
    ensures answers { Answers (place_of terms.now.texts.now) result (x.pointed (env_of terms.now) (typing_of terms.now.texts.now pointer)) }
    ensures cause { IfErr result (λ f. (f.kind ≡ OutOfMemory) ⊎ ((is_null (typing_of terms.now.texts.now pointer) ≡ true) × Told NullDereference sign f) ⊎ ((is_null (typing_of terms.now.texts.now pointer) ≡ false) × (x.pointed (env_of terms.now) (typing_of terms.now.texts.now pointer) ≡ None) × Told TypeMismatch span f)) }
{
    match pointer {
        Typing::Has(resolved, e) => match resolved {
            ResolvedType::Pointer(target) => Ok(target_of(terms, target, e, sign)?),
            other => {
                drop(other);
                drop(e);
                Err(fault_at(FaultKind::TypeMismatch, span))
            }
        },
        Typing::Null(e) => {
            drop(e);
            Err(fault_at(FaultKind::NullDereference, sign))
        }
    }
}

// What this pointer points to, of this type.
fn target_of(
    terms: &Terms<'_>,
    target: ResolvedTarget,
    e: Expression,
    sign: Span,
) -> Result<ResolvedPlace, AllocError>
    ensures { IfOk result (λ r. x.pointed (env_of terms.now) (x.Has (t.PointerTo (resolved_target_of target)) (exp_of terms.now.texts.now e)) ≡ Some (place_of terms.now.texts.now r)) }
{
    let pointer = sited_boxed(terms.alloc, e, sign)?;
    let resolved = target.resolved()?;
    let value_type = terms.numbered(&resolved)?;
    Ok(ResolvedPlace {
        resolved,
        place: Place::Deref(value_type, pointer),
    })
}

/// An element of an array; a struct must be complete.
pub fn indexed(
    terms: &Terms<'_>,
    array: Typing,
    index: Expression,
    here: Span,
    span: Span,
) -> Result<ResolvedPlace, Fault>
    ensures answers { Answers (place_of terms.now.texts.now) result (x.indexed (env_of terms.now) (typing_of terms.now.texts.now array) (exp_of terms.now.texts.now index)) }
    ensures cause { IfErr result (λ f. (f.kind ≡ OutOfMemory) ⊎ ((element_of (typing_of terms.now.texts.now array) ≡ None) × Told TypeMismatch here f) ⊎ ((r : t.ResolvedType) × (element_of (typing_of terms.now.texts.now array) ≡ Some r) × (t.cells_of (env_of terms.now).structs r ≡ None) × Told StructNotComplete span f)) }
{
    match array {
        Typing::Has(resolved, e) => match resolved {
            ResolvedType::Array(element) => element_at(terms, element, e, index, span),
            other => {
                drop(other);
                drop(e);
                drop(index);
                Err(fault_at(FaultKind::TypeMismatch, here))
            }
        },
        Typing::Null(e) => {
            drop(e);
            drop(index);
            Err(fault_at(FaultKind::TypeMismatch, here))
        }
    }
}

// An element of this array, of this type.
fn element_at(
    terms: &Terms<'_>,
    element: ResolvedTarget,
    array: Expression,
    index: Expression,
    span: Span,
) -> Result<ResolvedPlace, Fault>
    ensures answers { Answers (place_of terms.now.texts.now) result (x.indexed (env_of terms.now) (x.Has (t.ArrayOf (resolved_target_of element)) (exp_of terms.now.texts.now array)) (exp_of terms.now.texts.now index)) }
    ensures cause { IfErr result (λ f. (f.kind ≡ OutOfMemory) ⊎ ((t.cells_of (env_of terms.now).structs (resolved_target_of element) ≡ None) × Told StructNotComplete span f)) }
{
    if terms.environment.structs.element_cells(&element).is_none() {
        drop(array);
        drop(index);
        return Err(fault_at(FaultKind::StructNotComplete, span));
    }
    let (array, index) = boxed_at(terms.alloc, array, index, span)?;
    let resolved = element.resolved()?;
    let value_type = terms.numbered(&resolved)?;
    Ok(ResolvedPlace {
        resolved,
        place: Place::Index(value_type, array, index),
    })
}

/// The array of an element at this place; it is refused where it has none, whatever the index is, so that a fault in that isn't
/// told before. What is taken has elements.
pub fn array_operand(
    terms: &Terms<'_>,
    array: Typing,
    here: Span,
    span: Span,
) -> Result<Typing, Fault>
    ensures taken { IfOk result (λ x. x ≡ array) }
    ensures elements { IfOk result (λ _. HasElements (env_of terms.now) (typing_of terms.now.texts.now array)) }
    ensures refused { IfErr result (λ f. ArrayCause (env_of terms.now) f (typing_of terms.now.texts.now array) here span) }
{
    let found = array_fault(terms, &array, here, span);
    match found {
        None => Ok(array),
        Some(fault) => {
            drop(array);
            Err(fault)
        }
    }
}

// Why a value has no element.
fn array_fault(terms: &Terms<'_>, array: &Typing, here: Span, span: Span) -> Option<Fault>
    ensures { MatchOption result (HasElements (env_of terms.now) (typing_of terms.now.texts.now array.now)) (λ f. ArrayCause (env_of terms.now) f (typing_of terms.now.texts.now array.now) here span) }
{
    match array {
        Typing::Has(ResolvedType::Array(element), _) => {
            if terms.environment.structs.element_cells(element).is_none() {
                return Some(fault_at(FaultKind::StructNotComplete, span));
            }
            None
        }
        _ => Some(fault_at(FaultKind::TypeMismatch, here)),
    }
}

/// An element of an array, by two operands at these places.
pub fn element(
    terms: &Terms<'_>,
    array: Typing,
    index: Typing,
    spans: (Span, Span),
    span: Span,
) -> Result<ResolvedPlace, Fault>
    ensures answers { Answers (place_of terms.now.texts.now) result (t.and_so (x.as_wanted (env_of terms.now) t.IntType (typing_of terms.now.texts.now index)) (x.indexed (env_of terms.now) (typing_of terms.now.texts.now array))) }
    ensures cause { IfErr result (λ f. (f.kind ≡ OutOfMemory) ⊎ ((element_of (typing_of terms.now.texts.now array) ≡ None) × Told TypeMismatch spans.0 f) ⊎ ((x.as_wanted (env_of terms.now) t.IntType (typing_of terms.now.texts.now index) ≡ None) × Told TypeMismatch spans.1 f) ⊎ ((r : t.ResolvedType) × (element_of (typing_of terms.now.texts.now array) ≡ Some r) × (t.cells_of (env_of terms.now).structs r ≡ None) × Told StructNotComplete span f)) }
{
    match terms.as_wanted(&ResolvedType::INT, index, spans.1) {
        Ok(index) => indexed(terms, array, index, spans.0, span),
        Err(fault) => {
            drop(array);
            Err(fault)
        }
    }
}

// This field of a struct at a place.
fn field_at(
    terms: &Terms<'_>,
    name: &str,
    place: Place,
    field: &FieldEntry,
) -> Result<ResolvedPlace, AllocError>
    ensures { IfOk result (λ r. place_of terms.now.texts.now r ≡ field_place (env_of terms.now) name.now (at_of terms.now.texts.now place) (field_entry_of field.now)) }
{
    let place = Box::new(terms.alloc, place)?;
    if field.number > u32::MAX as usize {
        return Err(AllocError);
    }
    let number = terms.environment.struct_names.number(name);
    let resolved = field.resolved.duplicate()?;
    Ok(ResolvedPlace {
        resolved,
        place: Place::Field(number, place, field.number as u32),
    })
}

/// A field of what a place holds, a complete struct.
pub fn fielded(
    terms: &Terms<'_>,
    of: ResolvedPlace,
    here: Span,
    name: &Name,
    span: Span,
) -> Result<ResolvedPlace, Fault>
    ensures answers { Answers (place_of terms.now.texts.now) result (x.fielded (env_of terms.now) (name_of name.now) (place_of terms.now.texts.now of)) }
    ensures cause { IfErr result (λ f. (f.kind ≡ OutOfMemory) ⊎ FieldCause (env_of terms.now) (context_of terms.now) f (resolved_of of.resolved) here name.now span) }
{
    let ResolvedPlace { resolved, place } = of;
    let ResolvedType::Plain(plain) = &resolved else {
        drop(resolved);
        drop(place);
        return Err(fault_at(FaultKind::TypeMismatch, here));
    };
    let ResolvedPlain::Struct(struct_name) = plain else {
        drop(resolved);
        drop(place);
        return Err(fault_at(FaultKind::TypeMismatch, here));
    };
    let Some(entry) = terms.environment.structs.get(struct_name.as_str()) else {
        drop(resolved);
        drop(place);
        return Err(fault_at(FaultKind::StructNotComplete, span));
    };
    let field = field_of(terms, struct_name.as_str(), entry, place, name);
    drop(resolved);
    field
}

// A field of a struct with these fields.
fn field_of(
    terms: &Terms<'_>,
    struct_name: &str,
    entry: &StructEntry,
    place: Place,
    name: &Name,
) -> Result<ResolvedPlace, Fault>
    ensures answers { Answers (place_of terms.now.texts.now) result (t.and_so ((struct_entry_of entry.now).fields (name_of name.now)) (λ f. Some (field_place (env_of terms.now) struct_name.now (at_of terms.now.texts.now place) f))) }
    ensures cause { IfErr result (λ f. (f.kind ≡ OutOfMemory) ⊎ (((struct_entry_of entry.now).fields (name_of name.now) ≡ None) × Told UnknownField name.now.span f)) }
{
    match entry.fields.get(&name.text) {
        Some(field) => Ok(field_at(terms, struct_name, place, field)?),
        None => {
            drop(place);
            Err(fault_at(FaultKind::UnknownField, name.span))
        }
    }
}

/// The value at a place, where it is small.
pub fn read_of(terms: &Terms<'_>, place: ResolvedPlace, span: Span) -> Result<Typing, Fault>
    ensures answers { Answers (typing_of terms.now.texts.now) result (x.read_of (env_of terms.now) (place_of terms.now.texts.now place)) }
    ensures cause { IfErr result (λ f. (f.kind ≡ OutOfMemory) ⊎ ((t.is_small (resolved_of place.resolved) ≡ false) × Told NotSmall span f)) }
{
    let ResolvedPlace { resolved, place } = place;
    if !resolved.is_small() {
        drop(resolved);
        drop(place);
        return Err(fault_at(FaultKind::NotSmall, span));
    }
    match Box::new(terms.alloc, place) {
        Ok(place) => Ok(reading(terms, resolved, place)?),
        Err(refused) => {
            drop(resolved);
            Err(refused.into())
        }
    }
}

// What stands at this place, of this type.
fn reading(
    terms: &Terms<'_>,
    resolved: ResolvedType,
    place: Box<Place>,
) -> Result<Typing, AllocError>
    ensures { IfOk result (λ r. typing_of terms.now.texts.now r ≡ x.Has (resolved_of resolved) (y.Load (x.num (env_of terms.now) (resolved_of resolved)) (at_of terms.now.texts.now place.value))) }
{
    match terms.numbered(&resolved) {
        Ok(value_type) => Ok(Typing::Has(resolved, Expression::Load(value_type, place))),
        Err(refused) => {
            drop(resolved);
            Err(refused)
        }
    }
}

/// A field of what a pointer points to.
pub fn pointer_field(
    terms: &Terms<'_>,
    pointer: Typing,
    here: Span,
    name: &Name,
    span: Span,
) -> Result<ResolvedPlace, Fault>
    ensures answers { Answers (place_of terms.now.texts.now) result (t.and_so (x.pointed (env_of terms.now) (typing_of terms.now.texts.now pointer)) (x.fielded (env_of terms.now) (name_of name.now))) }
    ensures cause { IfErr result (λ f. (f.kind ≡ OutOfMemory) ⊎ PointedCause (env_of terms.now) f (typing_of terms.now.texts.now pointer) here here ⊎ ((q : x.Place) × (x.pointed (env_of terms.now) (typing_of terms.now.texts.now pointer) ≡ Some q) × FieldCause (env_of terms.now) (context_of terms.now) f q.resolved here name.now span)) }
{
    let place = pointed(terms, pointer, here, here)?;
    fielded(terms, place, here, name, span)
}
