//! The variables that statements assign to.

ghost use Rattle.std.specs.Prelude.{◌≡◌, option_map};
ghost use Rattle.c0_syntax.specs.Views.{expression_of, name_of, simple_of, statement_of, statements_of};
ghost use Rattle.c0_rules.specs.Mentions.{as_variable as variable_by, destination_names, part_assigns as names_by_part, simple_assigns as names_by_simple, statement_assigns as names_by_statement, statements_assign};
ghost use Rattle.c0_rules.specs.Types.{is_among};

use c0_syntax::expression::{Expression, ExpressionKind};
use c0_syntax::name::Name;
use c0_syntax::statement::{SimpleKind, SimpleStatement, Statement, StatementKind};

/// The variable that an expression is, in parentheses or not.
pub(crate) fn as_variable(expression: &Expression) -> Option<&Name>
    ensures { option_map (λ n. name_of n.now) result ≡ variable_by (expression_of expression.now) }
{
    match &expression.kind {
        ExpressionKind::Variable(name) => Some(name),
        ExpressionKind::Parenthesized(inner) => as_variable(inner),
        _ => None,
    }
}

// Whether a destination is the variable of this name.
fn is_variable(destination: &Expression, name: &str) -> bool
    ensures { result ≡ is_among name.now (destination_names (expression_of destination.now)) }
{
    match as_variable(destination) {
        Some(variable) => name == variable.text.as_str(),
        None => false,
    }
}

fn simple_assigns(simple: &SimpleStatement, name: &str) -> bool
    ensures { result ≡ is_among name.now (names_by_simple (simple_of simple.now)) }
{
    match &simple.kind {
        SimpleKind::Declare(_, _) => false,
        SimpleKind::Initialize(_, _, _) => false,
        SimpleKind::Assign(destination, _) => is_variable(destination, name),
        SimpleKind::Update(destination, _, _) => is_variable(destination, name),
        SimpleKind::Step(destination, _) => is_variable(destination, name),
        SimpleKind::Evaluate(_) => false,
    }
}

fn part_assigns(part: &Option<SimpleStatement>, name: &str) -> bool
    ensures { result ≡ is_among name.now (names_by_part (option_map simple_of part.now)) }
{
    match part {
        Some(simple) => simple_assigns(simple, name),
        None => false,
    }
}

#[cycle(assigns)]
fn statement_assigns(statement: &Statement, name: &str) -> bool
    ensures { result ≡ is_among name.now (names_by_statement (statement_of statement.now)) }
{
    match &statement.kind {
        StatementKind::Simple(simple) => simple_assigns(simple, name),
        StatementKind::Block(statements) => assigns(statements, name),
        StatementKind::Annotated(_) => false,
        StatementKind::Return => false,
        StatementKind::ReturnValue(_) => false,
        StatementKind::If(_, body) => statement_assigns(body, name),
        StatementKind::IfElse(_, first, second) => {
            statement_assigns(first, name) || statement_assigns(second, name)
        }
        StatementKind::While(_, _, body) => statement_assigns(body, name),
        StatementKind::For(first, _, third, _, body) => {
            part_assigns(first, name) || part_assigns(third, name) || statement_assigns(body, name)
        }
        StatementKind::Assert(_) => false,
        StatementKind::Error(_) => false,
        StatementKind::Break => false,
        StatementKind::Continue => false,
    }
}

/// Whether one of these statements, or one in it, assigns to the variable of this name.
#[cycle(assigns)]
pub(crate) fn assigns(body: &[Statement], name: &str) -> bool
    ensures { result ≡ is_among name.now (statements_assign (statements_of body.now)) }
{
    for statement in body {
        if statement_assigns(statement, name) {
            return true;
        }
    }
    false
}
