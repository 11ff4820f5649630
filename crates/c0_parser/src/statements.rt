//! Statements.
//! A tree held where reading may fail is boxed before, or dropped there by a call: a drop that `?` makes is proved
//! variant by variant.

ghost use Rattle.std.specs.Prelude.{◌≡◌, ℕ, box_value, option_map, IfOk};
ghost use Rattle.c0_source.specs.declared.kind.Kind.TheVariants as k;
ghost use Rattle.c0_syntax.specs.Trees as t;
ghost use Rattle.c0_syntax.specs.Views.{expression_of, simple_of, statement_of, statement_of_kind, statements_of};
ghost use Rattle.c0_grammar_laws.specs.Outcome.{Gives, next, plain_at};
ghost use Rattle.c0_grammar_laws.specs.Places.{Position, skip, start_of};
ghost use Rattle.c0_grammar_laws.specs.PlacedStatements.{ConditionStands, OptionStands, PlacedStatementKind, StatementStands, StatementsStand, after_statement};
ghost use Rattle.c0_grammar_laws.specs.ReadStatements.{call_of, else_by, for_of, for_test as spec_for_test, for_end as spec_for_end, if_of, leave_by, loop_body as spec_loop_body, read_statement, read_statements, return_by, statement_by, read_condition, while_of, with_semi as spec_with_semi};
ghost use Rattle.c0_parser.specs.Stands.{BodyStands, CheckedStands, ForEndStands, ForTestStands};
ghost use Rattle.c0_parser.specs.Found.{found_body, found_for_end, found_for_test, for_tree, simple_line as spec_simple_line};

use crate::annotations::{annotation, annotations};
use crate::found::{FoundBody, FoundForEnd, FoundForTest};
use crate::simple_statements::{any_simple, first_part, third_part};
use c0_grammar_laws::read_error::ReadError;
use c0_parser_cursor::cursor::Cursor;
use c0_parser_cursor::type_names::TypeNames;
use c0_parser_expressions::expressions::expression;
use c0_source::kind::Kind;
use c0_syntax::expression::Expression;
use c0_syntax::statement::{SimpleStatement, Statement, StatementKind};

fn statement_node(cursor: &Cursor<'_>, start: usize, kind: StatementKind) -> Statement
    ensures node { result.kind ≡ kind }
    ensures start { result.span.start ≡ start }
    ensures end { result.span.end ≡ cursor.now.position.end }
{
    Statement {
        kind,
        span: cursor.span_from(start),
    }
}

fn block_node(cursor: &Cursor<'_>, start: usize, statements: Vec<Statement>) -> Statement
    ensures node { statement_of result ≡ t.Block (statements_of statements.items) }
    ensures placed { (first : Position) → start ≡ start_of first → StatementsStand (skip first) statements.items cursor.now.position → StatementStands first result cursor.now.position }
{
    statement_node(cursor, start, StatementKind::Block(statements))
}

fn for_node(
    cursor: &Cursor<'_>,
    start: usize,
    first: Option<SimpleStatement>,
    found: FoundForTest,
) -> Statement
    ensures node { statement_of result ≡ for_tree (option_map simple_of first) found }
    ensures placed { (begin middle : Position) → start ≡ start_of begin → OptionStands (skip (skip begin)) first middle → ForTestStands (skip middle) found cursor.now.position → StatementStands begin result cursor.now.position }
{
    let FoundForTest { condition, end } = found;
    let FoundForEnd { step, body } = end;
    let FoundBody { annotations, body } = body;
    let kind = StatementKind::For(first, condition, step, annotations, body);
    statement_node(cursor, start, kind)
}

/// A statement, whose semicolon stands next.
fn with_semi(
    cursor: &mut Cursor<'_>,
    start: usize,
    kind: StatementKind,
) -> Result<Statement, ReadError>
    ensures given { (room : ℕ) → Gives (λ s. record { value = statement_of s; room = room; rest = cursor.new.seen }) result (spec_with_semi (statement_of_kind kind) room cursor.old.seen) }
    ensures placed { (first : Position) → start ≡ start_of first → PlacedStatementKind first kind → after_statement (statement_of_kind kind) first ≡ skip cursor.old.position → IfOk result (λ s. StatementStands first s cursor.new.position) }
{
    if let Err(error) = cursor.semi() {
        drop(kind);
        return Err(error);
    }
    Ok(statement_node(cursor, start, kind))
}

/// An expression in parentheses.
#[tactic(auto, unfolding(c0_grammar_laws::specs::ReadStatements::read_condition))]
fn test(
    cursor: &mut Cursor<'_>,
    types: &TypeNames<'_>,
    depth: usize,
) -> Result<Expression, ReadError>
    ensures given { Gives (λ e. record { value = expression_of e; rest = cursor.new.seen }) result (read_condition types.now depth cursor.old.seen) }
    ensures placed { IfOk result (λ e. ConditionStands cursor.old.position e cursor.new.position) }
{
    cursor.lparen()?;
    let found = expression(cursor, types, depth, 1)?;
    if let Err(error) = cursor.rparen() {
        drop(found);
        return Err(error);
    }
    Ok(found.expression)
}

/// An expression in parentheses and a semicolon.
#[tactic(auto, unfolding(c0_grammar_laws::specs::ReadStatements::call_of))]
fn checked(
    cursor: &mut Cursor<'_>,
    types: &TypeNames<'_>,
    depth: usize,
) -> Result<Expression, ReadError>
    ensures given { Gives (λ e. record { value = expression_of e; rest = cursor.new.seen }) result (call_of types.now depth cursor.old.seen) }
    ensures placed { IfOk result (λ e. CheckedStands cursor.old.position e cursor.new.position) }
{
    let operand = test(cursor, types, depth)?;
    if let Err(error) = cursor.semi() {
        drop(operand);
        return Err(error);
    }
    Ok(operand)
}

/// A simple statement and its semicolon.
#[tactic(auto, unfolding(c0_grammar_laws::specs::ReadStatements::read_simple))]
fn simple_line(
    cursor: &mut Cursor<'_>,
    types: &TypeNames<'_>,
    depth: usize,
    room: &mut usize,
) -> Result<Statement, ReadError>
    ensures given { Gives (λ s. record { value = statement_of s; room = room.new; rest = cursor.new.seen }) result (spec_simple_line types.now depth room.old cursor.old.seen) }
    ensures placed { IfOk result (λ s. StatementStands cursor.old.position s cursor.new.position) }
{
    let start = cursor.start();
    let simple = any_simple(cursor, types, depth, room)?;
    with_semi(cursor, start, StatementKind::Simple(simple))
}

/// A `return`, which stands next.
fn return_statement(
    cursor: &mut Cursor<'_>,
    types: &TypeNames<'_>,
    depth: usize,
) -> Result<Statement, ReadError>
    ensures given { (room : ℕ) → Gives (λ s. record { value = statement_of s; room = room; rest = cursor.new.seen }) result (return_by types.now depth room (plain_at (next cursor.old.seen)) (next cursor.old.seen)) }
    ensures placed { IfOk result (λ s. StatementStands cursor.old.position s cursor.new.position) }
{
    let start = cursor.start();
    cursor.advance();
    match cursor.peek() {
        Kind::Semi => {
            cursor.advance();
            Ok(statement_node(cursor, start, StatementKind::Return))
        }
        _ => {
            let value = expression(cursor, types, depth, 1)?;
            with_semi(cursor, start, StatementKind::ReturnValue(value.expression))
        }
    }
}

/// `break` or `continue`, which stands next, where there are any.
fn leave(cursor: &mut Cursor<'_>, loops: bool, kind: StatementKind) -> Result<Statement, ReadError>
    ensures given { (room : ℕ) → Gives (λ s. record { value = statement_of s; room = room; rest = cursor.new.seen }) result (leave_by loops (statement_of_kind kind) room cursor.old.seen) }
    ensures placed { PlacedStatementKind cursor.old.position kind → after_statement (statement_of_kind kind) cursor.old.position ≡ skip (skip cursor.old.position) → IfOk result (λ s. StatementStands cursor.old.position s cursor.new.position) }
{
    if !loops {
        return Err(cursor.syntax());
    }
    let start = cursor.start();
    cursor.advance();
    with_semi(cursor, start, kind)
}

/// A statement of at most `depth` nodes on a path, where `room` more locals may be declared.
#[cycle(statement)]
fn statement(
    cursor: &mut Cursor<'_>,
    types: &TypeNames<'_>,
    loops: bool,
    depth: usize,
    room: &mut usize,
) -> Result<Statement, ReadError>
    ensures given { Gives (λ s. record { value = statement_of s; room = room.new; rest = cursor.new.seen }) result (read_statement types.now loops depth room.old cursor.old.seen) }
    ensures placed { IfOk result (λ s. StatementStands cursor.old.position s cursor.new.position) }
{
    if depth == 0 {
        return Err(cursor.too_deep());
    }
    any_statement(cursor, types, loops, depth - 1, room)
}

/// A statement whose parts have at most `depth` nodes on a path.
#[cycle(statement)]
fn any_statement(
    cursor: &mut Cursor<'_>,
    types: &TypeNames<'_>,
    loops: bool,
    depth: usize,
    room: &mut usize,
) -> Result<Statement, ReadError>
    ensures given { Gives (λ s. record { value = statement_of s; room = room.new; rest = cursor.new.seen }) result (statement_by types.now loops (read_statement types.now loops depth) depth (plain_at cursor.old.seen) room.old cursor.old.seen) }
    ensures placed { IfOk result (λ s. StatementStands cursor.old.position s cursor.new.position) }
{
    let start = cursor.start();
    match cursor.peek() {
        Kind::LBrace => block(cursor, types, loops, depth, room),
        Kind::Begin => {
            let annotation = annotation(cursor, types, depth)?;
            Ok(statement_node(cursor, start, StatementKind::Annotated(annotation)))
        }
        Kind::Return => return_statement(cursor, types, depth),
        Kind::If => if_statement(cursor, types, loops, depth, room),
        Kind::While => while_statement(cursor, types, loops, depth, room),
        Kind::For => for_statement(cursor, types, loops, depth, room),
        Kind::Assert => {
            cursor.advance();
            let condition = checked(cursor, types, depth)?;
            Ok(statement_node(cursor, start, StatementKind::Assert(condition)))
        }
        Kind::Error => {
            cursor.advance();
            let text = checked(cursor, types, depth)?;
            Ok(statement_node(cursor, start, StatementKind::Error(text)))
        }
        Kind::Break => leave(cursor, loops, StatementKind::Break),
        Kind::Continue => leave(cursor, loops, StatementKind::Continue),
        _ => simple_line(cursor, types, depth, room),
    }
}

/// A block, whose opening brace stands next.
#[cycle(statement)]
fn block(
    cursor: &mut Cursor<'_>,
    types: &TypeNames<'_>,
    loops: bool,
    depth: usize,
    room: &mut usize,
) -> Result<Statement, ReadError>
    ensures given { Gives (λ s. record { value = statement_of s; room = room.new; rest = cursor.new.seen }) result (statement_by types.now loops (read_statement types.now loops depth) depth k.LBrace room.old cursor.old.seen) }
    ensures placed { IfOk result (λ s. StatementStands cursor.old.position s cursor.new.position) }
{
    let start = cursor.start();
    let most = cursor.remaining();
    cursor.advance();
    let statements = statements(cursor, types, loops, depth, most, room)?;
    Ok(block_node(cursor, start, statements))
}

/// Statements, fewer than `most`, and the closing brace.
#[cycle(statement)]
pub(crate) fn statements(
    cursor: &mut Cursor<'_>,
    types: &TypeNames<'_>,
    loops: bool,
    depth: usize,
    most: usize,
    room: &mut usize,
) -> Result<Vec<Statement>, ReadError>
    ensures given { Gives (λ v. record { value = statements_of v.items; room = room.new; rest = cursor.new.seen }) result (read_statements types.now loops (read_statement types.now loops depth) depth most room.old cursor.old.seen) }
    ensures placed { IfOk result (λ v. StatementsStand cursor.old.position v.items cursor.new.position) }
{
    let mut statements = Vec::new(cursor.alloc());
    for _turn in 0..most {
        match cursor.peek() {
            Kind::RBrace => {
                cursor.advance();
                return Ok(statements);
            }
            _ => {
                let statement = statement(cursor, types, loops, depth, room)?;
                statements.push(statement)?;
            }
        }
    }
    Err(cursor.syntax())
}

/// A statement in a box of its own.
#[cycle(statement)]
fn boxed(
    cursor: &mut Cursor<'_>,
    types: &TypeNames<'_>,
    loops: bool,
    depth: usize,
    room: &mut usize,
) -> Result<Box<Statement>, ReadError>
    ensures given { Gives (λ s. record { value = statement_of (box_value s); room = room.new; rest = cursor.new.seen }) result (read_statement types.now loops depth room.old cursor.old.seen) }
    ensures placed { IfOk result (λ s. StatementStands cursor.old.position (box_value s) cursor.new.position) }
{
    let statement = statement(cursor, types, loops, depth, room)?;
    Ok(Box::new(cursor.alloc(), statement)?)
}

/// An `if`, which stands next.
#[cycle(statement)]
#[tactic(auto, unfolding(c0_grammar_laws::specs::ReadStatements::if_of))]
fn if_statement(
    cursor: &mut Cursor<'_>,
    types: &TypeNames<'_>,
    loops: bool,
    depth: usize,
    room: &mut usize,
) -> Result<Statement, ReadError>
    ensures given { Gives (λ s. record { value = statement_of s; room = room.new; rest = cursor.new.seen }) result (if_of types.now loops (read_statement types.now loops depth) depth room.old (next cursor.old.seen)) }
    ensures placed { IfOk result (λ s. StatementStands cursor.old.position s cursor.new.position) }
{
    let start = cursor.start();
    cursor.advance();
    let condition = test(cursor, types, depth)?;
    match boxed(cursor, types, loops, depth, room) {
        Ok(first) => behind_first(cursor, types, loops, depth, room, start, condition, first),
        Err(error) => {
            drop(condition);
            Err(error)
        }
    }
}

/// An `if` behind its first statement: the `else` that stands next belongs to it.
#[cycle(statement)]
fn behind_first(
    cursor: &mut Cursor<'_>,
    types: &TypeNames<'_>,
    loops: bool,
    depth: usize,
    room: &mut usize,
    start: usize,
    condition: Expression,
    first: Box<Statement>,
) -> Result<Statement, ReadError>
    ensures given { Gives (λ s. record { value = statement_of s; room = room.new; rest = cursor.new.seen }) result
        (else_by types.now loops (read_statement types.now loops depth) depth (plain_at cursor.old.seen) (expression_of condition) (record { value = statement_of (box_value first); room = room.old; rest = cursor.old.seen })) }
    ensures placed { (begin middle : Position) → start ≡ start_of begin → ConditionStands (skip begin) condition middle → StatementStands middle (box_value first) cursor.old.position → IfOk result (λ s. StatementStands begin s cursor.new.position) }
{
    match cursor.peek() {
        Kind::Else => {
            cursor.advance();
            match boxed(cursor, types, loops, depth, room) {
                Ok(second) => {
                    let kind = StatementKind::IfElse(condition, first, second);
                    Ok(statement_node(cursor, start, kind))
                }
                Err(error) => {
                    drop(condition);
                    Err(error)
                }
            }
        }
        _ => Ok(statement_node(cursor, start, StatementKind::If(condition, first))),
    }
}

/// The annotations and the body of a loop.
#[cycle(statement)]
#[tactic(auto, unfolding(c0_grammar_laws::specs::ReadStatements::loop_body))]
fn loop_body(
    cursor: &mut Cursor<'_>,
    types: &TypeNames<'_>,
    loops: bool,
    depth: usize,
    room: &mut usize,
) -> Result<FoundBody, ReadError>
    ensures given { Gives (found_body room.new cursor.new.seen) result (spec_loop_body types.now loops (read_statement types.now loops depth) depth room.old cursor.old.seen) }
    ensures placed { IfOk result (λ f. BodyStands cursor.old.position f cursor.new.position) }
{
    let annotations = annotations(cursor, types, depth)?;
    let body = boxed(cursor, types, loops, depth, room)?;
    Ok(FoundBody { annotations, body })
}

/// A `while`, which stands next.
#[cycle(statement)]
#[tactic(auto, unfolding(c0_grammar_laws::specs::ReadStatements::while_of))]
fn while_statement(
    cursor: &mut Cursor<'_>,
    types: &TypeNames<'_>,
    loops: bool,
    depth: usize,
    room: &mut usize,
) -> Result<Statement, ReadError>
    ensures given { Gives (λ s. record { value = statement_of s; room = room.new; rest = cursor.new.seen }) result (while_of types.now loops (read_statement types.now loops depth) depth room.old (next cursor.old.seen)) }
    ensures placed { IfOk result (λ s. StatementStands cursor.old.position s cursor.new.position) }
{
    let start = cursor.start();
    cursor.advance();
    let condition = test(cursor, types, depth)?;
    match loop_body(cursor, types, loops, depth, room) {
        Ok(found) => {
            let kind = StatementKind::While(condition, found.annotations, found.body);
            Ok(statement_node(cursor, start, kind))
        }
        Err(error) => {
            drop(condition);
            Err(error)
        }
    }
}

/// A `for` behind its second semicolon.
#[cycle(statement)]
#[tactic(auto, unfolding(c0_grammar_laws::specs::ReadStatements::for_end))]
fn for_end(
    cursor: &mut Cursor<'_>,
    types: &TypeNames<'_>,
    loops: bool,
    depth: usize,
    room: &mut usize,
) -> Result<FoundForEnd, ReadError>
    ensures given { Gives (found_for_end room.new cursor.new.seen) result (spec_for_end types.now loops (read_statement types.now loops depth) depth room.old cursor.old.seen) }
    ensures placed { IfOk result (λ f. ForEndStands cursor.old.position f cursor.new.position) }
{
    let step = third_part(cursor, types, depth, room)?;
    if let Err(error) = cursor.rparen() {
        drop(step);
        return Err(error);
    }
    match loop_body(cursor, types, loops, depth, room) {
        Ok(body) => Ok(FoundForEnd { step, body }),
        Err(error) => {
            drop(step);
            Err(error)
        }
    }
}

/// A `for` behind its first semicolon.
#[cycle(statement)]
#[tactic(auto, unfolding(c0_grammar_laws::specs::ReadStatements::for_test))]
fn for_test(
    cursor: &mut Cursor<'_>,
    types: &TypeNames<'_>,
    loops: bool,
    depth: usize,
    room: &mut usize,
) -> Result<FoundForTest, ReadError>
    ensures given { Gives (found_for_test room.new cursor.new.seen) result (spec_for_test types.now loops (read_statement types.now loops depth) depth room.old cursor.old.seen) }
    ensures placed { IfOk result (λ f. ForTestStands cursor.old.position f cursor.new.position) }
{
    let condition = expression(cursor, types, depth, 1)?.expression;
    if let Err(error) = cursor.semi() {
        drop(condition);
        return Err(error);
    }
    match for_end(cursor, types, loops, depth, room) {
        Ok(end) => Ok(FoundForTest { condition, end }),
        Err(error) => {
            drop(condition);
            Err(error)
        }
    }
}

/// A `for`, which stands next.
#[cycle(statement)]
#[tactic(auto, unfolding(c0_grammar_laws::specs::ReadStatements::for_of))]
fn for_statement(
    cursor: &mut Cursor<'_>,
    types: &TypeNames<'_>,
    loops: bool,
    depth: usize,
    room: &mut usize,
) -> Result<Statement, ReadError>
    ensures given { Gives (λ s. record { value = statement_of s; room = room.new; rest = cursor.new.seen }) result (for_of types.now loops (read_statement types.now loops depth) depth room.old (next cursor.old.seen)) }
    ensures placed { IfOk result (λ s. StatementStands cursor.old.position s cursor.new.position) }
{
    let start = cursor.start();
    cursor.advance();
    cursor.lparen()?;
    let first = first_part(cursor, types, depth, room)?;
    if let Err(error) = cursor.semi() {
        drop(first);
        return Err(error);
    }
    match for_test(cursor, types, loops, depth, room) {
        Ok(found) => Ok(for_node(cursor, start, first, found)),
        Err(error) => {
            drop(first);
            Err(error)
        }
    }
}
