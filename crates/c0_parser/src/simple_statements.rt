//! Simple statements.
//! A tree held where reading may fail is boxed before, or dropped there by a call: a drop that `?` makes is proved
//! variant by variant.

ghost use Rattle.std.specs.Prelude.{◌≡◌, ℕ, option_map, IfOk};
ghost use Rattle.c0_source.specs.declared.kind.Kind.TheVariants as k;
ghost use Rattle.c0_syntax.specs.Expressions.{begins_star as spec_begins_star};
ghost use Rattle.c0_syntax.specs.Trees as t;
ghost use Rattle.c0_syntax.specs.Views.{expression_of, name_of, simple_of, type_of};
ghost use Rattle.c0_grammar_laws.specs.Outcome.{Gives, kind_at, plain_at};
ghost use Rattle.c0_grammar_laws.specs.Places.{ExpressionStands, NameStands, Position, TypeStands, start_of};
ghost use Rattle.c0_grammar_laws.specs.PlacedStatements.{OptionStands, SimpleStands};
ghost use Rattle.c0_grammar_laws.specs.ReadStatements.{behind_by, first_by, local_declaration as spec_local_declaration, read_simple, simple_by, step_by, third_by, value_by};
ghost use Rattle.c0_parser_expressions.specs.Found.{found_expression};

use c0_grammar_laws::read_error::ReadError;
use c0_parser_cursor::cursor::Cursor;
use c0_parser_cursor::type_names::TypeNames;
use c0_parser_expressions::expressions::expression;
use c0_parser_expressions::found::FoundExpression;
use c0_source::kind::{Kind, Operator};
use c0_syntax::expression::{Expression, ExpressionKind};
use c0_syntax::name::Name;
use c0_syntax::operator::{Change, PrefixOperator};
use c0_syntax::statement::{SimpleKind, SimpleStatement};
use c0_syntax::value_type::ValueType;

/// Whether the first token of an expression is `*`.
fn begins_star(expression: &Expression) -> bool
    ensures { result ≡ spec_begins_star (expression_of expression.now) }
{
    match &expression.kind {
        ExpressionKind::Unary(PrefixOperator::Dereference, _) => true,
        ExpressionKind::Index(first, _)
        | ExpressionKind::Field(first, _)
        | ExpressionKind::PointerField(first, _)
        | ExpressionKind::Binary(_, first, _)
        | ExpressionKind::Conditional(first, _, _) => begins_star(first),
        _ => false,
    }
}

fn simple_node(cursor: &Cursor<'_>, start: usize, kind: SimpleKind) -> SimpleStatement
    ensures node { result.kind ≡ kind }
    ensures start { result.span.start ≡ start }
    ensures end { result.span.end ≡ cursor.now.position.end }
{
    SimpleStatement {
        kind,
        span: cursor.span_from(start),
    }
}

/// The local of this type and name, with its value if `=` stands next.
fn local(
    cursor: &mut Cursor<'_>,
    types: &TypeNames<'_>,
    depth: usize,
    start: usize,
    value_type: ValueType,
    name: Name,
) -> Result<SimpleStatement, ReadError>
    ensures given { (room : ℕ) → Gives (λ s. record { value = simple_of s; room = room; rest = cursor.new.seen }) result
        (value_by types.now depth room (plain_at cursor.old.seen) (type_of value_type) (record { value = name_of name; rest = cursor.old.seen })) }
    ensures placed { (first middle : Position) → start ≡ start_of first → TypeStands first value_type middle → NameStands middle name cursor.old.position → IfOk result (λ s. SimpleStands first s cursor.new.position) }
{
    match cursor.peek() {
        Kind::Assign => {
            cursor.advance();
            match expression(cursor, types, depth, 1) {
                Ok(value) => {
                    let kind = SimpleKind::Initialize(value_type, name, value.expression);
                    Ok(simple_node(cursor, start, kind))
                }
                Err(error) => {
                    drop(value_type);
                    Err(error)
                }
            }
        }
        _ => Ok(simple_node(cursor, start, SimpleKind::Declare(value_type, name))),
    }
}

/// The declaration of a local, one of those that there may be.
#[tactic(auto, unfolding(c0_grammar_laws::specs::ReadStatements::local_declaration))]
fn local_declaration(
    cursor: &mut Cursor<'_>,
    types: &TypeNames<'_>,
    depth: usize,
    room: &mut usize,
) -> Result<SimpleStatement, ReadError>
    ensures given { Gives (λ s. record { value = simple_of s; room = room.new; rest = cursor.new.seen }) result (spec_local_declaration types.now depth room.old cursor.old.seen) }
    ensures placed { IfOk result (λ s. SimpleStands cursor.old.position s cursor.new.position) }
{
    let start = cursor.start();
    let found = cursor.value_type(types, depth)?;
    let too_many = cursor.too_large();
    let name = cursor.new_name(types)?;
    if *room == 0 {
        return Err(too_many);
    }
    *room -= 1;
    local(cursor, types, depth, start, found.value_type, name)
}

/// The `++` or `--` that stands next, behind what it changes.
fn step(
    cursor: &mut Cursor<'_>,
    destination: FoundExpression,
    change: Change,
) -> Result<SimpleStatement, ReadError>
    ensures given { (room : ℕ) → Gives (λ s. record { value = simple_of s; room = room; rest = cursor.new.seen }) result
        (step_by room (spec_begins_star (expression_of destination.expression)) (t.Step (expression_of destination.expression) change) (found_expression cursor.old.seen destination)) }
    ensures placed { (first : Position) → ExpressionStands first destination.expression cursor.old.position → IfOk result (λ s. SimpleStands first s cursor.new.position) }
{
    if begins_star(&destination.expression) {
        drop(destination);
        return Err(cursor.syntax());
    }
    let start = destination.expression.span.start;
    cursor.advance();
    Ok(simple_node(
        cursor,
        start,
        SimpleKind::Step(destination.expression, change),
    ))
}

/// The update whose operator stands next, behind what it changes.
fn update(
    cursor: &mut Cursor<'_>,
    types: &TypeNames<'_>,
    depth: usize,
    destination: FoundExpression,
    operator: Operator,
) -> Result<SimpleStatement, ReadError>
    ensures given { (room : ℕ) → Gives (λ s. record { value = simple_of s; room = room; rest = cursor.new.seen }) result (behind_by types.now depth room (k.Update operator) (found_expression cursor.old.seen destination)) }
    ensures placed { (first : Position) → ExpressionStands first destination.expression cursor.old.position → IfOk result (λ s. SimpleStands first s cursor.new.position) }
{
    let start = destination.expression.span.start;
    cursor.advance();
    match expression(cursor, types, depth, 1) {
        Ok(value) => {
            let kind = SimpleKind::Update(destination.expression, operator, value.expression);
            Ok(simple_node(cursor, start, kind))
        }
        Err(error) => {
            drop(destination);
            Err(error)
        }
    }
}

/// The simple statement that begins with this expression.
fn behind_expression(
    cursor: &mut Cursor<'_>,
    types: &TypeNames<'_>,
    depth: usize,
    first: FoundExpression,
) -> Result<SimpleStatement, ReadError>
    ensures given { (room : ℕ) → Gives (λ s. record { value = simple_of s; room = room; rest = cursor.new.seen }) result (behind_by types.now depth room (plain_at cursor.old.seen) (found_expression cursor.old.seen first)) }
    ensures placed { (begin : Position) → ExpressionStands begin first.expression cursor.old.position → IfOk result (λ s. SimpleStands begin s cursor.new.position) }
{
    let start = first.expression.span.start;
    match cursor.peek() {
        Kind::Assign => {
            cursor.advance();
            match expression(cursor, types, depth, 1) {
                Ok(value) => {
                    let kind = SimpleKind::Assign(first.expression, value.expression);
                    Ok(simple_node(cursor, start, kind))
                }
                Err(error) => {
                    drop(first);
                    Err(error)
                }
            }
        }
        Kind::Update(operator) => update(cursor, types, depth, first, operator),
        Kind::PlusPlus => step(cursor, first, Change::Increment),
        Kind::MinusMinus => step(cursor, first, Change::Decrement),
        _ => Ok(simple_node(cursor, start, SimpleKind::Evaluate(first.expression))),
    }
}

/// A simple statement whose parts have at most `depth` nodes on a path, where `room` more locals may be declared.
pub(crate) fn any_simple(
    cursor: &mut Cursor<'_>,
    types: &TypeNames<'_>,
    depth: usize,
    room: &mut usize,
) -> Result<SimpleStatement, ReadError>
    ensures given { Gives (λ s. record { value = simple_of s; room = room.new; rest = cursor.new.seen }) result (simple_by types.now depth room.old (kind_at types.now cursor.old.seen) cursor.old.seen) }
    ensures placed { IfOk result (λ s. SimpleStands cursor.old.position s cursor.new.position) }
{
    match cursor.peek_among(types) {
        Kind::Base(_) | Kind::Struct | Kind::TypeName => {
            local_declaration(cursor, types, depth, room)
        }
        _ => {
            let first = expression(cursor, types, depth, 1)?;
            behind_expression(cursor, types, depth, first)
        }
    }
}

/// A simple statement of at most `depth` nodes on a path.
fn simple(
    cursor: &mut Cursor<'_>,
    types: &TypeNames<'_>,
    depth: usize,
    room: &mut usize,
) -> Result<SimpleStatement, ReadError>
    ensures given { Gives (λ s. record { value = simple_of s; room = room.new; rest = cursor.new.seen }) result (read_simple types.now depth room.old cursor.old.seen) }
    ensures placed { IfOk result (λ s. SimpleStands cursor.old.position s cursor.new.position) }
{
    if depth == 0 {
        return Err(cursor.too_deep());
    }
    any_simple(cursor, types, depth - 1, room)
}

/// The first part of a `for`, which a semicolon may stand for.
pub(crate) fn first_part(
    cursor: &mut Cursor<'_>,
    types: &TypeNames<'_>,
    depth: usize,
    room: &mut usize,
) -> Result<Option<SimpleStatement>, ReadError>
    ensures given { Gives (λ s. record { value = option_map simple_of s; room = room.new; rest = cursor.new.seen }) result (first_by types.now depth room.old (plain_at cursor.old.seen) cursor.old.seen) }
    ensures placed { IfOk result (λ s. OptionStands cursor.old.position s cursor.new.position) }
{
    match cursor.peek() {
        Kind::Semi => Ok(None),
        _ => Ok(Some(simple(cursor, types, depth, room)?)),
    }
}

/// The third part, which `)` may stand for.
pub(crate) fn third_part(
    cursor: &mut Cursor<'_>,
    types: &TypeNames<'_>,
    depth: usize,
    room: &mut usize,
) -> Result<Option<SimpleStatement>, ReadError>
    ensures given { Gives (λ s. record { value = option_map simple_of s; room = room.new; rest = cursor.new.seen }) result (third_by types.now depth room.old (plain_at cursor.old.seen) cursor.old.seen) }
    ensures placed { IfOk result (λ s. OptionStands cursor.old.position s cursor.new.position) }
{
    match cursor.peek() {
        Kind::RParen => Ok(None),
        _ => Ok(Some(simple(cursor, types, depth, room)?)),
    }
}
