//! Where what stands in a statement begins, and how far it is indented.

ghost use Rattle.std.specs.Prelude.{◌≡◌, map};
ghost use Rattle.c0_syntax.specs.Layouts as l;
ghost use Rattle.c0_syntax.specs.Views.{annotation_of, statement_of};

use crate::mark::Gap;
use crate::statement::{Annotation, Statement, StatementKind};

const MOST_LEVELS: usize = 200;

/// One level more, up to 200.
pub fn deeper(level: usize) -> usize
    ensures { result ≡ l.deeper level }
{
    if level < MOST_LEVELS {
        level + 1
    } else {
        level
    }
}

/// What stands before the body of a statement of this level.
pub fn gap_of_body(level: usize, body: &Statement) -> Gap
    ensures { result ≡ l.gap_of_body level (statement_of body.now) }
{
    match &body.kind {
        StatementKind::Block(_) => Gap::Blank,
        _ => Gap::Line(deeper(level)),
    }
}

/// The level of that body.
pub fn level_of_body(level: usize, body: &Statement) -> usize
    ensures { result ≡ l.level_of_body level (statement_of body.now) }
{
    match &body.kind {
        StatementKind::Block(_) => level,
        _ => deeper(level),
    }
}

/// What stands before the body of a loop, behind the loop's annotations.
pub fn gap_of_loop_body(level: usize, annotations: &[Annotation], body: &Statement) -> Gap
    ensures { result ≡ l.gap_of_loop_body level (map annotation_of annotations.now) (statement_of body.now) }
{
    match annotations {
        [] => gap_of_body(level, body),
        _ => Gap::Line(level_of_body(level, body)),
    }
}

/// What stands before `else`, behind this statement.
pub fn gap_of_else(level: usize, before: &Statement) -> Gap
    ensures { result ≡ l.gap_of_else level (statement_of before.now) }
{
    match &before.kind {
        StatementKind::Block(_) => Gap::Blank,
        _ => Gap::Line(level),
    }
}

/// What stands behind `else`, before this statement.
pub fn gap_behind_else(level: usize, body: &Statement) -> Gap
    ensures { result ≡ l.gap_behind_else level (statement_of body.now) }
{
    match &body.kind {
        StatementKind::If(_, _) | StatementKind::IfElse(_, _, _) => Gap::Blank,
        _ => gap_of_body(level, body),
    }
}

/// The level of the statement behind `else`.
pub fn level_behind_else(level: usize, body: &Statement) -> usize
    ensures { result ≡ l.level_behind_else level (statement_of body.now) }
{
    match &body.kind {
        StatementKind::If(_, _) | StatementKind::IfElse(_, _, _) => level,
        _ => level_of_body(level, body),
    }
}
