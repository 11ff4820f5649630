//! Laying out annotations and statements.

ghost use Rattle.std.specs.Prelude.{◌≡◌, [], ◌∷◌, ◌++◌, map, option_map, IfOk};
ghost use Rattle.c0_source.specs.Terminals.{Sign};
ghost use Rattle.c0_source.specs.declared.kind.Kind.TheVariants as k;
ghost use Rattle.c0_syntax.specs.Layouts.{behind, touching, layout_expression, layout_condition, layout_spec, layout_specs, layout_annotations, layout_simple, layout_option, layout_check, layout_test, layout_for_start, layout_for_end, layout_statement, layout_statements};
ghost use Rattle.c0_syntax.specs.declared.mark.Gap.TheVariants as g;
ghost use Rattle.c0_syntax.specs.Layouts as l;
ghost use Rattle.c0_syntax.specs.Statements.{change_sign as spec_change_sign};
ghost use Rattle.c0_syntax.specs.Views.{expression_of, spec_of, annotation_of, simple_of, statement_of, statements_of};

use super::Layout;
use super::levels::{
    deeper, gap_behind_else, gap_of_body, gap_of_else, gap_of_loop_body, level_behind_else,
    level_of_body,
};
use crate::expression::Expression;
use crate::mark::Gap;
use crate::operator::Change;
use crate::statement::{
    Annotation, SimpleKind, SimpleStatement, Spec, SpecKind, Statement, StatementKind,
};
use c0_source::kind::Kind;
use std::alloc::AllocError;

fn change_sign(change: Change) -> Kind
    ensures { result ≡ spec_change_sign change }
{
    match change {
        Change::Increment => Kind::PlusPlus,
        Change::Decrement => Kind::MinusMinus,
    }
}

impl<'a> Layout<'a> {
    fn spec(&mut self, spec: &'a Spec) -> Result<(), AllocError>
        ensures { IfOk result (λ _. self.new ≡ self.old ++ layout_spec (spec_of spec.now)) }
    {
        match spec.kind {
            SpecKind::Contract(clause) => self.condition(Kind::Clause(clause), &spec.condition),
            SpecKind::Assert => self.condition(Kind::Assert, &spec.condition),
        }
    }

    fn condition(&mut self, word: Kind, condition: &'a Expression) -> Result<(), AllocError>
        ensures { IfOk result (λ _. self.new ≡ self.old ++ layout_condition word (expression_of condition.now)) }
    {
        self.spaced(word)?;
        self.expression(Gap::Blank, condition)?;
        self.touching(Kind::Semi)
    }

    fn specs(&mut self, specs: &'a [Spec]) -> Result<(), AllocError>
        ensures { IfOk result (λ _. self.new ≡ self.old ++ layout_specs (map spec_of specs.now)) }
    {
        for spec in specs {
            self.spec(spec)?;
        }
        self.spaced(Kind::End)
    }

    /// Annotations behind a header, each on a line of its own.
    pub fn annotations(
        &mut self,
        level: usize,
        annotations: &'a [Annotation],
    ) -> Result<(), AllocError>
        ensures { IfOk result (λ _. self.new ≡ self.old ++ layout_annotations level (map annotation_of annotations.now)) }
    {
        for annotation in annotations {
            self.sign(Gap::Line(level), Kind::Begin)?;
            self.specs(&annotation.specs)?;
        }
        Ok(())
    }

    fn simple(&mut self, gap: Gap, simple: &'a SimpleStatement) -> Result<(), AllocError>
        ensures { IfOk result (λ _. self.new ≡ self.old ++ layout_simple gap (simple_of simple.now)) }
    {
        match &simple.kind {
            SimpleKind::Declare(value_type, name) => {
                self.value_type(gap, value_type)?;
                self.name(Gap::Blank, name)
            }
            SimpleKind::Initialize(value_type, name, value) => {
                self.value_type(gap, value_type)?;
                self.name(Gap::Blank, name)?;
                self.spaced(Kind::Assign)?;
                self.expression(Gap::Blank, value)
            }
            SimpleKind::Assign(destination, value) => {
                self.expression(gap, destination)?;
                self.spaced(Kind::Assign)?;
                self.expression(Gap::Blank, value)
            }
            SimpleKind::Update(destination, operator, value) => {
                self.expression(gap, destination)?;
                self.spaced(Kind::Update(*operator))?;
                self.expression(Gap::Blank, value)
            }
            SimpleKind::Step(destination, change) => {
                self.expression(gap, destination)?;
                self.touching(change_sign(*change))
            }
            SimpleKind::Evaluate(expression) => self.expression(gap, expression),
        }
    }

    fn option(&mut self, gap: Gap, simple: &'a Option<SimpleStatement>) -> Result<(), AllocError>
        ensures { IfOk result (λ _. self.new ≡ self.old ++ layout_option gap (option_map simple_of simple.now)) }
    {
        match simple {
            Some(simple) => self.simple(gap, simple),
            None => Ok(()),
        }
    }

    // `if` or `while`, with its condition.
    fn test(&mut self, gap: Gap, word: Kind, condition: &'a Expression) -> Result<(), AllocError>
        ensures { IfOk result (λ _. self.new ≡ self.old ++ layout_test gap word (expression_of condition.now)) }
    {
        self.sign(gap, word)?;
        self.spaced(Kind::LParen)?;
        self.expression(Gap::Touching, condition)?;
        self.touching(Kind::RParen)
    }

    // `assert` or `error`, with its operand.
    fn check(&mut self, gap: Gap, word: Kind, operand: &'a Expression) -> Result<(), AllocError>
        ensures { IfOk result (λ _. self.new ≡ self.old ++ layout_check gap word (expression_of operand.now)) }
    {
        self.sign(gap, word)?;
        self.touching(Kind::LParen)?;
        self.expression(Gap::Touching, operand)?;
        self.touching(Kind::RParen)?;
        self.touching(Kind::Semi)
    }

    // `for`, with the first part of its header.
    fn for_start(&mut self, gap: Gap, first: &'a Option<SimpleStatement>) -> Result<(), AllocError>
        ensures { IfOk result (λ _. self.new ≡ self.old ++ layout_for_start gap (option_map simple_of first.now)) }
    {
        self.sign(gap, Kind::For)?;
        self.spaced(Kind::LParen)?;
        self.option(Gap::Touching, first)?;
        self.touching(Kind::Semi)
    }

    // The other parts of the header.
    fn for_end(
        &mut self,
        condition: &'a Expression,
        third: &'a Option<SimpleStatement>,
    ) -> Result<(), AllocError>
        ensures { IfOk result (λ _. self.new ≡ self.old ++ layout_for_end (expression_of condition.now) (option_map simple_of third.now)) }
    {
        self.expression(Gap::Blank, condition)?;
        self.touching(Kind::Semi)?;
        self.option(Gap::Blank, third)?;
        self.touching(Kind::RParen)
    }

    // A statement of one word.
    fn word(&mut self, gap: Gap, word: Kind) -> Result<(), AllocError>
        ensures { IfOk result (λ _. self.new ≡ self.old ++ behind gap (Sign word) ∷ touching k.Semi ∷ []) }
    {
        self.sign(gap, word)?;
        self.touching(Kind::Semi)
    }

    // A simple statement and its semicolon.
    fn simple_line(&mut self, gap: Gap, simple: &'a SimpleStatement) -> Result<(), AllocError>
        ensures { IfOk result (λ _. self.new ≡ self.old ++ layout_simple gap (simple_of simple.now) ++ touching k.Semi ∷ []) }
    {
        self.simple(gap, simple)?;
        self.touching(Kind::Semi)
    }

    fn return_value(&mut self, gap: Gap, value: &'a Expression) -> Result<(), AllocError>
        ensures { IfOk result (λ _. self.new ≡ self.old ++ behind gap (Sign k.Return) ∷ layout_expression g.Blank (expression_of value.now) ++ touching k.Semi ∷ []) }
    {
        self.sign(gap, Kind::Return)?;
        self.expression(Gap::Blank, value)?;
        self.touching(Kind::Semi)
    }

    /// A statement that stands in `level` others, its first token behind this gap.
    #[cycle(statement)]
    pub fn statement(
        &mut self,
        gap: Gap,
        level: usize,
        statement: &'a Statement,
    ) -> Result<(), AllocError>
        ensures { IfOk result (λ _. self.new ≡ self.old ++ layout_statement gap level (statement_of statement.now)) }
    {
        match &statement.kind {
            StatementKind::Simple(simple) => self.simple_line(gap, simple),
            StatementKind::Block(statements) => {
                self.sign(gap, Kind::LBrace)?;
                self.statements(level, statements)
            }
            StatementKind::Annotated(annotation) => {
                self.sign(gap, Kind::Begin)?;
                self.specs(&annotation.specs)
            }
            StatementKind::Return => self.word(gap, Kind::Return),
            StatementKind::ReturnValue(value) => self.return_value(gap, value),
            StatementKind::If(condition, body) => {
                self.test(gap, Kind::If, condition)?;
                self.body(level, body)
            }
            StatementKind::IfElse(condition, first, second) => {
                self.test(gap, Kind::If, condition)?;
                self.body(level, first)?;
                self.sign(gap_of_else(level, first), Kind::Else)?;
                self.statement(
                    gap_behind_else(level, second),
                    level_behind_else(level, second),
                    second,
                )
            }
            StatementKind::While(condition, annotations, body) => {
                self.test(gap, Kind::While, condition)?;
                self.loop_body(level, annotations, body)
            }
            StatementKind::For(first, condition, third, annotations, body) => {
                self.for_start(gap, first)?;
                self.for_end(condition, third)?;
                self.loop_body(level, annotations, body)
            }
            StatementKind::Assert(condition) => self.check(gap, Kind::Assert, condition),
            StatementKind::Error(text) => self.check(gap, Kind::Error, text),
            StatementKind::Break => self.word(gap, Kind::Break),
            StatementKind::Continue => self.word(gap, Kind::Continue),
        }
    }

    // What stands behind a condition.
    #[cycle(statement)]
    fn body(&mut self, level: usize, body: &'a Statement) -> Result<(), AllocError>
        ensures { IfOk result (λ _. self.new ≡ self.old ++ layout_statement (l.gap_of_body level (statement_of body.now)) (l.level_of_body level (statement_of body.now)) (statement_of body.now)) }
    {
        self.statement(gap_of_body(level, body), level_of_body(level, body), body)
    }

    // What stands behind a loop's header.
    #[cycle(statement)]
    fn loop_body(
        &mut self,
        level: usize,
        annotations: &'a [Annotation],
        body: &'a Statement,
    ) -> Result<(), AllocError>
        ensures { IfOk result (λ _. self.new ≡ self.old ++ layout_annotations (l.deeper level) (map annotation_of annotations.now) ++ layout_statement (l.gap_of_loop_body level (map annotation_of annotations.now) (statement_of body.now)) (l.level_of_body level (statement_of body.now)) (statement_of body.now)) }
    {
        self.annotations(deeper(level), annotations)?;
        self.statement(
            gap_of_loop_body(level, annotations, body),
            level_of_body(level, body),
            body,
        )
    }

    /// The statements of a block that stands in `level` others, and the closing brace.
    #[cycle(statement)]
    pub fn statements(
        &mut self,
        level: usize,
        statements: &'a Vec<Statement>,
    ) -> Result<(), AllocError>
        ensures { IfOk result (λ _. self.new ≡ self.old ++ layout_statements level (statements_of statements.now.items)) }
    {
        for statement in statements {
            self.statement(Gap::Line(deeper(level)), deeper(level), statement)?;
        }
        self.sign(Gap::Line(level), Kind::RBrace)
    }
}
