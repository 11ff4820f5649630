//! Expressions.
//! A tree held where reading may fail is boxed before, or dropped there by a call: a drop that `?` makes is proved
//! variant by variant.

ghost use Rattle.std.specs.Prelude.{◌≡◌, ◌-◌, ◌<◌, ◌≤◌, length, Some, None, Ok, IfOk, suc};
ghost use Rattle.c0_source.specs.declared.kind.Kind.TheVariants as k;
ghost use Rattle.c0_syntax.specs.Trees as t;
ghost use Rattle.c0_syntax.specs.Expressions.{precedence as spec_precedence};
ghost use Rattle.c0_syntax.specs.Views.{expression_of, expression_of_kind, expressions_of, name_of};
ghost use Rattle.c0_grammar_laws.specs.Outcome.{Gives, Outcome, bytes_at, next, plain_at};
ghost use Rattle.c0_grammar_laws.specs.Places.{ArgumentsStand, ExpressionStands, IsPlaced, NameStands, Position, skip, start_of};
ghost use Rattle.c0_grammar_laws.specs.ReadExpressions.{ReadExpression, alloc, alloc_array, arguments as spec_arguments, arguments_by, climb, index as spec_index, join, join_by, leaf as spec_leaf, length_of as spec_length_of, named_by, operator_of as spec_operator_of, parenthesized as spec_parenthesized, postfix as spec_postfix, postfix_by, prefix_of as spec_prefix_of, primary as spec_primary, read_expression, read_type, unary, unary_by};
ghost use Rattle.c0_parser_expressions.specs.Found.{GivesExpression, expression_of_step, field_behind, found_arguments, found_expression, height_of_expression_step, pointer_field_behind};

use crate::found::{ExpressionStep, FoundArguments, FoundExpression};
use c0_grammar_laws::read_error::ReadError;
use c0_parser_cursor::cursor::Cursor;
use c0_parser_cursor::type_names::TypeNames;
use c0_source::kind::{Kind, Operator};
use c0_syntax::expression::{Expression, ExpressionKind};
use c0_syntax::name::Name;
use c0_syntax::operator::PrefixOperator;

/// How tightly a sign binds behind an expression, or 0.
fn precedence(kind: Kind) -> u8
    ensures value { result ≡ spec_precedence kind }
    ensures small { result < 12 }
{
    match kind {
        Kind::Question => 1,
        Kind::Infix(operator) => match operator {
            Operator::Or => 2,
            Operator::And => 3,
            Operator::BitOr => 4,
            Operator::BitXor => 5,
            Operator::BitAnd => 6,
            Operator::Equal | Operator::NotEqual => 7,
            Operator::Less | Operator::LessEqual => 8,
            Operator::Greater | Operator::GreaterEqual => 8,
            Operator::ShiftLeft | Operator::ShiftRight => 9,
            Operator::Add | Operator::Subtract => 10,
            Operator::Multiply | Operator::Divide | Operator::Modulo => 11,
        },
        _ => 0,
    }
}

/// The operator between two operands that a sign is.
fn operator_of(kind: Kind) -> Option<Operator>
    ensures { result ≡ spec_operator_of kind }
{
    match kind {
        Kind::Infix(operator) => Some(operator),
        _ => None,
    }
}

/// The operator before an operand that a sign is.
fn prefix_of(kind: Kind) -> Option<PrefixOperator>
    ensures { result ≡ spec_prefix_of kind }
{
    match kind {
        Kind::Bang => Some(PrefixOperator::Not),
        Kind::Tilde => Some(PrefixOperator::Complement),
        Kind::Infix(Operator::Subtract) => Some(PrefixOperator::Negate),
        Kind::Infix(Operator::Multiply) => Some(PrefixOperator::Dereference),
        _ => None,
    }
}

fn expression_node(
    cursor: &Cursor<'_>,
    start: usize,
    kind: ExpressionKind,
    height: usize,
) -> FoundExpression
    ensures node { result.expression.kind ≡ kind }
    ensures height { result.height ≡ height }
    ensures start { result.expression.span.start ≡ start }
    ensures end { result.expression.span.end ≡ cursor.now.position.end }
{
    FoundExpression {
        expression: Expression {
            kind,
            span: cursor.span_from(start),
        },
        height,
    }
}

/// An expression that is the next token.
fn leaf(cursor: &mut Cursor<'_>, kind: ExpressionKind) -> FoundExpression
    ensures node { spec_leaf (expression_of_kind kind) (next cursor.old.seen) ≡ Ok (found_expression cursor.new.seen result) }
    ensures small { result.height ≡ 1 }
    ensures kind { result.expression.kind ≡ kind }
    ensures placed { IsPlaced result.expression.span cursor.old.position (skip cursor.old.position) }
    ensures position { skip cursor.old.position ≡ cursor.new.position }
{
    let start = cursor.start();
    cursor.advance();
    expression_node(cursor, start, kind, 1)
}

/// The field behind an expression, whose `.` stands next.
fn field(
    cursor: &mut Cursor<'_>,
    depth: usize,
    of: FoundExpression,
) -> Result<FoundExpression, ReadError>
    requires { of.height < depth }
    ensures given { Gives (found_expression cursor.new.seen) result (field_behind (found_expression cursor.old.seen of)) }
    ensures small { IfOk result (λ f. f.height ≤ depth) }
    ensures placed { (first : Position) → ExpressionStands first of.expression cursor.old.position → IfOk result (λ f. ExpressionStands first f.expression cursor.new.position) }
{
    cursor.advance();
    let start = of.expression.span.start;
    let inner = Box::new(cursor.alloc(), of.expression)?;
    let name = cursor.name()?;
    Ok(expression_node(
        cursor,
        start,
        ExpressionKind::Field(inner, name),
        of.height + 1,
    ))
}

/// The field behind an expression, whose `->` stands next.
fn pointer_field(
    cursor: &mut Cursor<'_>,
    depth: usize,
    of: FoundExpression,
) -> Result<FoundExpression, ReadError>
    requires { of.height < depth }
    ensures given { Gives (found_expression cursor.new.seen) result (pointer_field_behind (found_expression cursor.old.seen of)) }
    ensures small { IfOk result (λ f. f.height ≤ depth) }
    ensures placed { (first : Position) → ExpressionStands first of.expression cursor.old.position → IfOk result (λ f. ExpressionStands first f.expression cursor.new.position) }
{
    cursor.advance();
    let start = of.expression.span.start;
    let inner = Box::new(cursor.alloc(), of.expression)?;
    let name = cursor.name()?;
    Ok(expression_node(
        cursor,
        start,
        ExpressionKind::PointerField(inner, name),
        of.height + 1,
    ))
}

fn call_node(
    cursor: &Cursor<'_>,
    start: usize,
    function: Name,
    found: FoundArguments,
) -> FoundExpression
    requires { found.height < usize.MAX }
    ensures tree { expression_of result.expression ≡ t.Call (name_of function) (expressions_of found.arguments.items) }
    ensures height { result.height ≡ suc found.height }
    ensures placed { (first behind : Position) → start ≡ start_of first → NameStands first function behind → ArgumentsStand (skip behind) found.arguments.items cursor.now.position
        → ExpressionStands first result.expression cursor.now.position }
{
    let height = found.height + 1;
    expression_node(
        cursor,
        start,
        ExpressionKind::Call(function, found.arguments),
        height,
    )
}

/// The text that the next token is.
fn text_leaf(cursor: &mut Cursor<'_>) -> Result<FoundExpression, ReadError>
    requires { plain_at cursor.old.seen ≡ k.Text }
    ensures given { Gives (found_expression cursor.new.seen) result (spec_leaf (t.Text (bytes_at cursor.old.seen)) (next cursor.old.seen)) }
    ensures small { IfOk result (λ f. f.height ≡ 1) }
    ensures placed { IfOk result (λ f. ExpressionStands cursor.old.position f.expression cursor.new.position) }
{
    let text = cursor.text()?;
    Ok(leaf(cursor, ExpressionKind::Text(text)))
}

/// An expression that binds at least as tightly as `least`, of at most `depth` nodes on a path.
#[cycle(expression)]
pub fn expression(
    cursor: &mut Cursor<'_>,
    types: &TypeNames<'_>,
    depth: usize,
    least: u8,
) -> Result<FoundExpression, ReadError>
    ensures given { Gives (found_expression cursor.new.seen) result (read_expression types.now depth least cursor.old.seen) }
    ensures small { IfOk result (λ f. f.height ≤ depth) }
    ensures placed { IfOk result (λ f. ExpressionStands cursor.old.position f.expression cursor.new.position) }
{
    if depth == 0 {
        return Err(cursor.too_deep());
    }
    let found = operand(cursor, types, depth)?;
    operators(cursor, types, depth, least, found)
}

/// An expression with operators before it or signs behind it.
#[cycle(expression)]
#[tactic(auto, unfolding(c0_grammar_laws::specs::ReadExpressions::unary))]
fn operand(
    cursor: &mut Cursor<'_>,
    types: &TypeNames<'_>,
    depth: usize,
) -> Result<FoundExpression, ReadError>
    requires { 0 < depth }
    ensures given { Gives (found_expression cursor.new.seen) result (unary types.now (read_expression types.now (depth - 1)) (read_type types.now (depth - 1)) depth cursor.old.seen) }
    ensures small { IfOk result (λ f. f.height ≤ depth) }
    ensures placed { IfOk result (λ f. ExpressionStands cursor.old.position f.expression cursor.new.position) }
{
    match prefix_of(cursor.peek()) {
        Some(operator) => prefixed(cursor, types, depth, operator),
        None => {
            let found = primary(cursor, types, depth)?;
            postfixes(cursor, types, depth, found)
        }
    }
}

/// An operand behind the operator that stands next.
#[cycle(expression)]
fn prefixed(
    cursor: &mut Cursor<'_>,
    types: &TypeNames<'_>,
    depth: usize,
    operator: PrefixOperator,
) -> Result<FoundExpression, ReadError>
    requires { 0 < depth }
    ensures given { Gives (found_expression cursor.new.seen) result (unary_by types.now (read_expression types.now (depth - 1)) (read_type types.now (depth - 1)) depth (Some operator) cursor.old.seen) }
    ensures small { IfOk result (λ f. f.height ≤ depth) }
    ensures placed { IfOk result (λ f. ExpressionStands cursor.old.position f.expression cursor.new.position) }
{
    let start = cursor.start();
    cursor.advance();
    let operand = expression(cursor, types, depth - 1, 12)?;
    let inner = Box::new(cursor.alloc(), operand.expression)?;
    Ok(expression_node(
        cursor,
        start,
        ExpressionKind::Unary(operator, inner),
        operand.height + 1,
    ))
}

/// An expression without operators, up to what stands behind it.
#[cycle(expression)]
#[tactic(auto, unfolding(c0_grammar_laws::specs::ReadExpressions::primary))]
fn primary(
    cursor: &mut Cursor<'_>,
    types: &TypeNames<'_>,
    depth: usize,
) -> Result<FoundExpression, ReadError>
    requires { 0 < depth }
    ensures given { Gives (found_expression cursor.new.seen) result (spec_primary types.now (read_expression types.now (depth - 1)) (read_type types.now (depth - 1)) cursor.old.seen) }
    ensures small { IfOk result (λ f. f.height ≤ depth) }
    ensures placed { IfOk result (λ f. ExpressionStands cursor.old.position f.expression cursor.new.position) }
{
    match cursor.peek_among(types) {
        Kind::Number(value) => Ok(leaf(cursor, ExpressionKind::Number(value))),
        Kind::Character(code) => Ok(leaf(cursor, ExpressionKind::Character(code))),
        Kind::Truth(truth) => Ok(leaf(cursor, ExpressionKind::Truth(truth))),
        Kind::Null => Ok(leaf(cursor, ExpressionKind::Null)),
        Kind::Text => text_leaf(cursor),
        Kind::Name => named(cursor, types, depth),
        Kind::LParen => parenthesized(cursor, types, depth),
        Kind::Alloc => alloc_of(cursor, types, depth),
        Kind::AllocArray => alloc_array_of(cursor, types, depth),
        Kind::Result => Ok(leaf(cursor, ExpressionKind::Result)),
        Kind::Length => length_of(cursor, types, depth),
        _ => Err(cursor.syntax()),
    }
}

/// A variable, or a call.
#[cycle(expression)]
fn named(
    cursor: &mut Cursor<'_>,
    types: &TypeNames<'_>,
    depth: usize,
) -> Result<FoundExpression, ReadError>
    requires name { plain_at cursor.old.seen ≡ k.Name }
    requires deep { 0 < depth }
    ensures given { Gives (found_expression cursor.new.seen) result (named_by types.now (read_expression types.now (depth - 1)) (read_type types.now (depth - 1)) (plain_at (next cursor.old.seen)) (bytes_at cursor.old.seen) (next cursor.old.seen)) }
    ensures small { IfOk result (λ f. f.height ≤ depth) }
    ensures placed { IfOk result (λ f. ExpressionStands cursor.old.position f.expression cursor.new.position) }
{
    let start = cursor.start();
    let name = cursor.take_name()?;
    match cursor.peek() {
        Kind::LParen => {
            cursor.advance();
            let found = arguments(cursor, types, depth)?;
            Ok(call_node(cursor, start, name, found))
        }
        _ => Ok(expression_node(cursor, start, ExpressionKind::Variable(name), 1)),
    }
}

/// What stands between the parentheses of a call, and the closing one.
#[cycle(expression)]
fn arguments(
    cursor: &mut Cursor<'_>,
    types: &TypeNames<'_>,
    depth: usize,
) -> Result<FoundArguments, ReadError>
    requires { 0 < depth }
    ensures given { Gives (found_arguments cursor.new.seen) result (arguments_by types.now (read_expression types.now (depth - 1)) (read_type types.now (depth - 1)) (plain_at cursor.old.seen) cursor.old.seen) }
    ensures small { IfOk result (λ f. f.height < depth) }
    ensures placed { IfOk result (λ f. ArgumentsStand cursor.old.position f.arguments.items cursor.new.position) }
{
    match cursor.peek() {
        Kind::RParen => {
            cursor.advance();
            Ok(FoundArguments {
                arguments: Vec::new(cursor.alloc()),
                height: 0,
            })
        }
        _ => some_arguments(cursor, types, depth),
    }
}

/// One argument or more, and the closing parenthesis.
#[cycle(expression)]
fn some_arguments(
    cursor: &mut Cursor<'_>,
    types: &TypeNames<'_>,
    depth: usize,
) -> Result<FoundArguments, ReadError>
    requires { 0 < depth }
    ensures given { Gives (found_arguments cursor.new.seen) result (spec_arguments types.now (read_expression types.now (depth - 1)) (read_type types.now (depth - 1)) (length cursor.old.seen) cursor.old.seen) }
    ensures small { IfOk result (λ f. f.height < depth) }
    ensures placed { IfOk result (λ f. ArgumentsStand cursor.old.position f.arguments.items cursor.new.position) }
{
    let mut arguments = Vec::new(cursor.alloc());
    let mut height = 0;
    for _turn in 0..cursor.remaining() {
        let found = expression(cursor, types, depth - 1, 1)?;
        arguments.push(found.expression)?;
        height = found.height.max(height);
        match cursor.peek() {
            Kind::Comma => cursor.advance(),
            Kind::RParen => {
                cursor.advance();
                return Ok(FoundArguments { arguments, height });
            }
            _ => return Err(cursor.syntax()),
        }
    }
    Err(cursor.syntax())
}

/// An expression in parentheses, the first of which stands next.
#[cycle(expression)]
#[tactic(auto, unfolding(c0_grammar_laws::specs::ReadExpressions::parenthesized))]
fn parenthesized(
    cursor: &mut Cursor<'_>,
    types: &TypeNames<'_>,
    depth: usize,
) -> Result<FoundExpression, ReadError>
    requires { 0 < depth }
    ensures given { Gives (found_expression cursor.new.seen) result (spec_parenthesized types.now (read_expression types.now (depth - 1)) (read_type types.now (depth - 1)) (next cursor.old.seen)) }
    ensures small { IfOk result (λ f. f.height ≤ depth) }
    ensures placed { IfOk result (λ f. ExpressionStands cursor.old.position f.expression cursor.new.position) }
{
    let start = cursor.start();
    cursor.advance();
    let inside = expression(cursor, types, depth - 1, 1)?;
    let inner = Box::new(cursor.alloc(), inside.expression)?;
    cursor.rparen()?;
    let kind = ExpressionKind::Parenthesized(inner);
    Ok(expression_node(cursor, start, kind, inside.height + 1))
}

/// `\length` and its operand.
#[cycle(expression)]
#[tactic(auto, unfolding(c0_grammar_laws::specs::ReadExpressions::length_of))]
fn length_of(
    cursor: &mut Cursor<'_>,
    types: &TypeNames<'_>,
    depth: usize,
) -> Result<FoundExpression, ReadError>
    requires { 0 < depth }
    ensures given { Gives (found_expression cursor.new.seen) result (spec_length_of types.now (read_expression types.now (depth - 1)) (read_type types.now (depth - 1)) (next cursor.old.seen)) }
    ensures small { IfOk result (λ f. f.height ≤ depth) }
    ensures placed { IfOk result (λ f. ExpressionStands cursor.old.position f.expression cursor.new.position) }
{
    let start = cursor.start();
    cursor.advance();
    cursor.lparen()?;
    let found = expression(cursor, types, depth - 1, 1)?;
    let array = Box::new(cursor.alloc(), found.expression)?;
    cursor.rparen()?;
    Ok(expression_node(
        cursor,
        start,
        ExpressionKind::Length(array),
        found.height + 1,
    ))
}

/// `alloc` and its type.
#[tactic(auto, unfolding(c0_grammar_laws::specs::ReadExpressions::alloc))]
fn alloc_of(
    cursor: &mut Cursor<'_>,
    types: &TypeNames<'_>,
    depth: usize,
) -> Result<FoundExpression, ReadError>
    requires { 0 < depth }
    ensures given { Gives (found_expression cursor.new.seen) result (alloc types.now (read_expression types.now (depth - 1)) (read_type types.now (depth - 1)) (next cursor.old.seen)) }
    ensures small { IfOk result (λ f. f.height ≤ depth) }
    ensures placed { IfOk result (λ f. ExpressionStands cursor.old.position f.expression cursor.new.position) }
{
    let start = cursor.start();
    cursor.advance();
    cursor.lparen()?;
    let found = cursor.value_type(types, depth - 1)?;
    cursor.rparen()?;
    let height = found.height + 1;
    Ok(expression_node(
        cursor,
        start,
        ExpressionKind::Alloc(found.value_type),
        height,
    ))
}

/// `alloc_array`, its type and its number of elements.
#[cycle(expression)]
#[tactic(auto, unfolding(c0_grammar_laws::specs::ReadExpressions::alloc_array))]
fn alloc_array_of(
    cursor: &mut Cursor<'_>,
    types: &TypeNames<'_>,
    depth: usize,
) -> Result<FoundExpression, ReadError>
    requires { 0 < depth }
    ensures given { Gives (found_expression cursor.new.seen) result (alloc_array types.now (read_expression types.now (depth - 1)) (read_type types.now (depth - 1)) (next cursor.old.seen)) }
    ensures small { IfOk result (λ f. f.height ≤ depth) }
    ensures placed { IfOk result (λ f. ExpressionStands cursor.old.position f.expression cursor.new.position) }
{
    let start = cursor.start();
    cursor.advance();
    cursor.lparen()?;
    let element = cursor.value_type(types, depth - 1)?;
    cursor.comma()?;
    let count = expression(cursor, types, depth - 1, 1)?;
    let inner = Box::new(cursor.alloc(), count.expression)?;
    cursor.rparen()?;
    let height = element.height.max(count.height) + 1;
    let kind = ExpressionKind::AllocArray(element.value_type, inner);
    Ok(expression_node(cursor, start, kind, height))
}

/// The index behind an expression, whose `[` stands next.
#[cycle(expression)]
fn index(
    cursor: &mut Cursor<'_>,
    types: &TypeNames<'_>,
    depth: usize,
    of: FoundExpression,
) -> Result<FoundExpression, ReadError>
    requires { of.height < depth }
    ensures given { Gives (found_expression cursor.new.seen) result (spec_index types.now (read_expression types.now (depth - 1)) (read_type types.now (depth - 1)) (found_expression cursor.old.seen of)) }
    ensures small { IfOk result (λ f. f.height ≤ depth) }
    ensures placed { (first : Position) → ExpressionStands first of.expression cursor.old.position → IfOk result (λ f. ExpressionStands first f.expression cursor.new.position) }
{
    cursor.advance();
    let start = of.expression.span.start;
    let array = Box::new(cursor.alloc(), of.expression)?;
    let index = expression(cursor, types, depth - 1, 1)?;
    let inner = Box::new(cursor.alloc(), index.expression)?;
    cursor.rbracket()?;
    let height = of.height.max(index.height) + 1;
    Ok(expression_node(cursor, start, ExpressionKind::Index(array, inner), height))
}

/// The expression with the index or the field that stands next, if one does.
#[cycle(expression)]
fn postfix(
    cursor: &mut Cursor<'_>,
    types: &TypeNames<'_>,
    depth: usize,
    found: FoundExpression,
) -> Result<ExpressionStep, ReadError>
    requires tall { found.height ≤ depth }
    requires deep { 0 < depth }
    ensures given { (go_on : ReadExpression → Outcome ReadExpression) → GivesExpression go_on cursor.new.seen result (postfix_by types.now (read_expression types.now (depth - 1)) (read_type types.now (depth - 1)) depth go_on (plain_at cursor.old.seen) (found_expression cursor.old.seen found)) }
    ensures small { IfOk result (λ step. height_of_expression_step step ≤ depth) }
    ensures placed { (first : Position) → ExpressionStands first found.expression cursor.old.position → IfOk result (λ step. ExpressionStands first (expression_of_step step) cursor.new.position) }
{
    match cursor.peek() {
        Kind::LBracket => {
            if found.height >= depth {
                drop(found);
                return Err(cursor.too_deep());
            }
            let more = index(cursor, types, depth, found)?;
            Ok(ExpressionStep::More(more))
        }
        Kind::Dot => {
            if found.height >= depth {
                drop(found);
                return Err(cursor.too_deep());
            }
            let more = field(cursor, depth, found)?;
            Ok(ExpressionStep::More(more))
        }
        Kind::Arrow => {
            if found.height >= depth {
                drop(found);
                return Err(cursor.too_deep());
            }
            let more = pointer_field(cursor, depth, found)?;
            Ok(ExpressionStep::More(more))
        }
        _ => Ok(ExpressionStep::Done(found)),
    }
}

/// The indexes and fields behind an expression.
#[cycle(expression)]
fn postfixes(
    cursor: &mut Cursor<'_>,
    types: &TypeNames<'_>,
    depth: usize,
    found: FoundExpression,
) -> Result<FoundExpression, ReadError>
    requires tall { found.height ≤ depth }
    requires deep { 0 < depth }
    ensures given { Gives (found_expression cursor.new.seen) result (spec_postfix types.now (read_expression types.now (depth - 1)) (read_type types.now (depth - 1)) depth depth (found_expression cursor.old.seen found)) }
    ensures small { IfOk result (λ f. f.height ≤ depth) }
    ensures placed { (first : Position) → ExpressionStands first found.expression cursor.old.position → IfOk result (λ f. ExpressionStands first f.expression cursor.new.position) }
{
    let mut found = found;
    for _turn in 0..depth {
        match postfix(cursor, types, depth, found)? {
            ExpressionStep::More(more) => found = more,
            ExpressionStep::Done(done) => return Ok(done),
        }
    }
    drop(found);
    Err(cursor.too_deep())
}

/// The operators behind an operand that bind at least as tightly as `least`.
#[cycle(expression)]
fn operators(
    cursor: &mut Cursor<'_>,
    types: &TypeNames<'_>,
    depth: usize,
    least: u8,
    found: FoundExpression,
) -> Result<FoundExpression, ReadError>
    requires tall { found.height ≤ depth }
    requires deep { 0 < depth }
    ensures given { Gives (found_expression cursor.new.seen) result (climb types.now (read_expression types.now (depth - 1)) (read_type types.now (depth - 1)) depth least depth (found_expression cursor.old.seen found)) }
    ensures small { IfOk result (λ f. f.height ≤ depth) }
    ensures placed { (first : Position) → ExpressionStands first found.expression cursor.old.position → IfOk result (λ f. ExpressionStands first f.expression cursor.new.position) }
{
    let mut found = found;
    for _turn in 0..depth {
        if precedence(cursor.peek()) < least {
            return Ok(found);
        }
        if found.height >= depth {
            drop(found);
            return Err(cursor.too_deep());
        }
        found = joined(cursor, types, depth, found)?;
    }
    drop(found);
    Err(cursor.too_deep())
}

/// The expression with the operator that stands next.
#[cycle(expression)]
#[tactic(auto, unfolding(c0_grammar_laws::specs::ReadExpressions::join))]
fn joined(
    cursor: &mut Cursor<'_>,
    types: &TypeNames<'_>,
    depth: usize,
    left: FoundExpression,
) -> Result<FoundExpression, ReadError>
    requires { left.height < depth }
    ensures given { Gives (found_expression cursor.new.seen) result (join types.now (read_expression types.now (depth - 1)) (read_type types.now (depth - 1)) (found_expression cursor.old.seen left)) }
    ensures small { IfOk result (λ f. f.height ≤ depth) }
    ensures placed { (first : Position) → ExpressionStands first left.expression cursor.old.position → IfOk result (λ f. ExpressionStands first f.expression cursor.new.position) }
{
    match operator_of(cursor.peek()) {
        Some(operator) => binary(cursor, types, depth, operator, left),
        None => conditional(cursor, types, depth, left),
    }
}

/// An operator and its right operand behind the left one.
#[cycle(expression)]
fn binary(
    cursor: &mut Cursor<'_>,
    types: &TypeNames<'_>,
    depth: usize,
    operator: Operator,
    left: FoundExpression,
) -> Result<FoundExpression, ReadError>
    requires { left.height < depth }
    ensures given { Gives (found_expression cursor.new.seen) result (join_by types.now (read_expression types.now (depth - 1)) (read_type types.now (depth - 1)) (Some operator) (found_expression cursor.old.seen left)) }
    ensures small { IfOk result (λ f. f.height ≤ depth) }
    ensures placed { (first : Position) → ExpressionStands first left.expression cursor.old.position → IfOk result (λ f. ExpressionStands first f.expression cursor.new.position) }
{
    cursor.advance();
    let start = left.expression.span.start;
    let first = Box::new(cursor.alloc(), left.expression)?;
    let tighter = precedence(Kind::Infix(operator)) + 1;
    let right = expression(cursor, types, depth - 1, tighter)?;
    let second = Box::new(cursor.alloc(), right.expression)?;
    let height = left.height.max(right.height) + 1;
    let kind = ExpressionKind::Binary(operator, first, second);
    Ok(expression_node(cursor, start, kind, height))
}

/// `?` and both of its operands behind a condition.
#[cycle(expression)]
fn conditional(
    cursor: &mut Cursor<'_>,
    types: &TypeNames<'_>,
    depth: usize,
    condition: FoundExpression,
) -> Result<FoundExpression, ReadError>
    requires { condition.height < depth }
    ensures given { Gives (found_expression cursor.new.seen) result (join_by types.now (read_expression types.now (depth - 1)) (read_type types.now (depth - 1)) None (found_expression cursor.old.seen condition)) }
    ensures small { IfOk result (λ f. f.height ≤ depth) }
    ensures placed { (first : Position) → ExpressionStands first condition.expression cursor.old.position → IfOk result (λ f. ExpressionStands first f.expression cursor.new.position) }
{
    cursor.advance();
    let start = condition.expression.span.start;
    let test = Box::new(cursor.alloc(), condition.expression)?;
    let first = expression(cursor, types, depth - 1, 1)?;
    let yes = Box::new(cursor.alloc(), first.expression)?;
    cursor.colon()?;
    let second = expression(cursor, types, depth - 1, 1)?;
    let other = Box::new(cursor.alloc(), second.expression)?;
    let height = condition.height.max(first.height.max(second.height)) + 1;
    let kind = ExpressionKind::Conditional(test, yes, other);
    Ok(expression_node(cursor, start, kind, height))
}
