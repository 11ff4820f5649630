//! Annotations.
//! A tree held where reading may fail is boxed before, or dropped there by a call: a drop that `?` makes is proved
//! variant by variant.

ghost use Rattle.std.specs.Prelude.{length, map, suc, IfOk};
ghost use Rattle.c0_syntax.specs.Views.{annotation_of, spec_of};
ghost use Rattle.c0_grammar_laws.specs.Outcome.{Gives, next, plain_at};
ghost use Rattle.c0_grammar_laws.specs.PlacedStatements.{AnnotationStands, AnnotationsStand, SpecStands, SpecsStand};
ghost use Rattle.c0_parser.specs.Found.{spec_behind};
ghost use Rattle.c0_grammar_laws.specs.ReadStatements.{read_annotations, read_spec, read_specs, spec_by};

use c0_grammar_laws::read_error::ReadError;
use c0_parser_cursor::cursor::Cursor;
use c0_parser_cursor::type_names::TypeNames;
use c0_parser_expressions::expressions::expression;
use c0_source::kind::Kind;
use c0_syntax::statement::{Annotation, Spec, SpecKind};

/// A spec whose word stands next.
fn condition(
    cursor: &mut Cursor<'_>,
    types: &TypeNames<'_>,
    depth: usize,
    kind: SpecKind,
) -> Result<Spec, ReadError>
    ensures given { Gives (λ s. record { value = spec_of s; rest = cursor.new.seen }) result (spec_behind types.now depth kind cursor.old.seen) }
    ensures placed { IfOk result (λ s. SpecStands cursor.old.position s cursor.new.position) }
{
    let start = cursor.start();
    cursor.advance();
    let word = cursor.span_from(start);
    let found = expression(cursor, types, depth, 1)?;
    if let Err(error) = cursor.semi() {
        drop(found);
        return Err(error);
    }
    Ok(Spec {
        kind,
        word,
        condition: found.expression,
        span: cursor.span_from(start),
    })
}

/// A spec whose condition has at most `depth` nodes on a path.
fn any_spec(cursor: &mut Cursor<'_>, types: &TypeNames<'_>, depth: usize) -> Result<Spec, ReadError>
    ensures given { Gives (λ s. record { value = spec_of s; rest = cursor.new.seen }) result (spec_by types.now depth (plain_at cursor.old.seen) cursor.old.seen) }
    ensures placed { IfOk result (λ s. SpecStands cursor.old.position s cursor.new.position) }
{
    match cursor.peek() {
        Kind::Clause(clause) => condition(cursor, types, depth, SpecKind::Contract(clause)),
        Kind::Assert => condition(cursor, types, depth, SpecKind::Assert),
        _ => Err(cursor.syntax()),
    }
}

/// A spec of at most `depth` nodes on a path.
fn spec(cursor: &mut Cursor<'_>, types: &TypeNames<'_>, depth: usize) -> Result<Spec, ReadError>
    ensures given { Gives (λ s. record { value = spec_of s; rest = cursor.new.seen }) result (read_spec types.now depth cursor.old.seen) }
    ensures placed { IfOk result (λ s. SpecStands cursor.old.position s cursor.new.position) }
{
    if depth == 0 {
        return Err(cursor.too_deep());
    }
    any_spec(cursor, types, depth - 1)
}

/// Specs, fewer than `most`, and the end of their annotation.
fn specs(
    cursor: &mut Cursor<'_>,
    types: &TypeNames<'_>,
    depth: usize,
    most: usize,
) -> Result<Vec<Spec>, ReadError>
    ensures given { Gives (λ v. record { value = map spec_of v.items; rest = cursor.new.seen }) result (read_specs types.now depth most cursor.old.seen) }
    ensures placed { IfOk result (λ v. SpecsStand cursor.old.position v.items cursor.new.position) }
{
    let mut specs = Vec::new(cursor.alloc());
    for _turn in 0..most {
        match cursor.peek() {
            Kind::End => {
                cursor.advance();
                return Ok(specs);
            }
            _ => {
                let spec = spec(cursor, types, depth)?;
                specs.push(spec)?;
            }
        }
    }
    Err(cursor.syntax())
}

/// An annotation, whose opening stands next.
pub(crate) fn annotation(
    cursor: &mut Cursor<'_>,
    types: &TypeNames<'_>,
    depth: usize,
) -> Result<Annotation, ReadError>
    ensures given { Gives (λ a. record { value = annotation_of a; rest = cursor.new.seen }) result (read_specs types.now depth (length cursor.old.seen) (next cursor.old.seen)) }
    ensures placed { IfOk result (λ a. AnnotationStands cursor.old.position a cursor.new.position) }
{
    let start = cursor.start();
    let most = cursor.remaining();
    cursor.advance();
    let specs = specs(cursor, types, depth, most)?;
    Ok(Annotation {
        specs,
        span: cursor.span_from(start),
    })
}

/// As many annotations as stand next.
pub(crate) fn annotations(
    cursor: &mut Cursor<'_>,
    types: &TypeNames<'_>,
    depth: usize,
) -> Result<Vec<Annotation>, ReadError>
    ensures given { Gives (λ v. record { value = map annotation_of v.items; rest = cursor.new.seen }) result (read_annotations types.now depth (suc (length cursor.old.seen)) cursor.old.seen) }
    ensures placed { IfOk result (λ v. AnnotationsStand cursor.old.position v.items cursor.new.position) }
{
    let mut annotations = Vec::new(cursor.alloc());
    for _turn in 0..cursor.remaining() + 1 {
        match cursor.peek() {
            Kind::Begin => {
                let annotation = annotation(cursor, types, depth)?;
                annotations.push(annotation)?;
            }
            _ => return Ok(annotations),
        }
    }
    Err(cursor.syntax())
}
