//! The texts that a program writes.

ghost use Rattle.std.specs.Prelude.{◌≡◌, [], ◌∷◌, ◌++◌, IfOk, filter_map, map, option_map, string_bytes};
ghost use Rattle.c0_syntax.specs.Views.{annotation_of, declaration_of, expression_of, expressions_of, simple_of, spec_of, statement_of, statements_of};
ghost use Rattle.c0_rules.specs.Mentions.{argument_mentions, declaration_mentions, mentions, part_mentions, program_mentions, simple_mentions, spec_mentions, specs_in, statement_mentions, statements_mentions, text_of, texts_of};

use c0_syntax::expression::{Expression, ExpressionKind};
use c0_syntax::program::{Declaration, DeclarationKind};
use c0_syntax::statement::{
    Annotation, SimpleKind, SimpleStatement, Spec, Statement, StatementKind,
};
use c0_types_tables::names::Names;
use std::alloc::{AllocError, Global};
use std::marker::Model;

// Texts so far.
#[derive(Drop)]
struct Texts {
    found: Names,
}

impl Model for Texts {
    ghost use Rattle.std.specs.Prelude.{List};
    ghost use Rattle.c0_rules.specs.Types.{Name};

    ghost Value = { List Name };

    ghost view = { λ x. x.found };
}

impl Texts {
    fn push(&mut self, text: String) -> Result<(), AllocError>
        ensures { IfOk result (λ _. self.new ≡ self.old ++ string_bytes text ∷ []) }
    {
        self.found.push(text)?;
        Ok(())
    }

    #[cycle(expression)]
    fn expression(&mut self, expression: &Expression) -> Result<(), AllocError>
        ensures { IfOk result (λ _. self.new ≡ self.old ++ filter_map text_of (mentions (expression_of expression.now))) }
    {
        match &expression.kind {
            ExpressionKind::Number(_) => Ok(()),
            ExpressionKind::Character(_) => Ok(()),
            ExpressionKind::Truth(_) => Ok(()),
            ExpressionKind::Null => Ok(()),
            ExpressionKind::Text(text) => self.push(text.clone()?),
            ExpressionKind::Variable(_) => Ok(()),
            ExpressionKind::Parenthesized(inner) => self.expression(inner),
            ExpressionKind::Call(_, arguments) => self.arguments(arguments),
            ExpressionKind::Alloc(_) => Ok(()),
            ExpressionKind::AllocArray(_, length) => self.expression(length),
            ExpressionKind::Result => Ok(()),
            ExpressionKind::Length(array) => self.expression(array),
            ExpressionKind::Index(array, index) => {
                self.expression(array)?;
                self.expression(index)
            }
            ExpressionKind::Field(of, _) => self.expression(of),
            ExpressionKind::PointerField(of, _) => self.expression(of),
            ExpressionKind::Unary(_, operand) => self.expression(operand),
            ExpressionKind::Binary(_, left, right) => {
                self.expression(left)?;
                self.expression(right)
            }
            ExpressionKind::Conditional(condition, first, second) => {
                self.expression(condition)?;
                self.expression(first)?;
                self.expression(second)
            }
        }
    }

    #[cycle(expression)]
    fn arguments(&mut self, arguments: &Vec<Expression>) -> Result<(), AllocError>
        ensures { IfOk result (λ _. self.new ≡ self.old ++ filter_map text_of (argument_mentions (expressions_of arguments.now.items))) }
    {
        for argument in arguments {
            self.expression(argument)?;
        }
        Ok(())
    }

    fn specs(&mut self, specs: &[Spec]) -> Result<(), AllocError>
        ensures { IfOk result (λ _. self.new ≡ self.old ++ filter_map text_of (spec_mentions (map spec_of specs.now))) }
    {
        for spec in specs {
            self.expression(&spec.condition)?;
        }
        Ok(())
    }

    fn annotations(&mut self, annotations: &[Annotation]) -> Result<(), AllocError>
        ensures { IfOk result (λ _. self.new ≡ self.old ++ filter_map text_of (spec_mentions (specs_in (map annotation_of annotations.now)))) }
    {
        for annotation in annotations {
            self.specs(&annotation.specs)?;
        }
        Ok(())
    }

    fn simple(&mut self, simple: &SimpleStatement) -> Result<(), AllocError>
        ensures { IfOk result (λ _. self.new ≡ self.old ++ filter_map text_of (simple_mentions (simple_of simple.now))) }
    {
        match &simple.kind {
            SimpleKind::Declare(_, _) => Ok(()),
            SimpleKind::Initialize(_, _, value) => self.expression(value),
            SimpleKind::Assign(destination, value) => {
                self.expression(destination)?;
                self.expression(value)
            }
            SimpleKind::Update(destination, _, value) => {
                self.expression(destination)?;
                self.expression(value)
            }
            SimpleKind::Step(destination, _) => self.expression(destination),
            SimpleKind::Evaluate(expression) => self.expression(expression),
        }
    }

    fn part(&mut self, part: &Option<SimpleStatement>) -> Result<(), AllocError>
        ensures { IfOk result (λ _. self.new ≡ self.old ++ filter_map text_of (part_mentions (option_map simple_of part.now))) }
    {
        match part {
            Some(simple) => self.simple(simple),
            None => Ok(()),
        }
    }

    // The parts of a `for` in its parentheses.
    fn for_parts(
        &mut self,
        first: &Option<SimpleStatement>,
        condition: &Expression,
        third: &Option<SimpleStatement>,
    ) -> Result<(), AllocError>
        ensures { IfOk result (λ _. self.new ≡ self.old ++ filter_map text_of (part_mentions (option_map simple_of first.now) ++ mentions (expression_of condition.now) ++ part_mentions (option_map simple_of third.now))) }
    {
        self.part(first)?;
        self.expression(condition)?;
        self.part(third)
    }

    #[cycle(statement)]
    fn statement(&mut self, statement: &Statement) -> Result<(), AllocError>
        ensures { IfOk result (λ _. self.new ≡ self.old ++ filter_map text_of (statement_mentions (statement_of statement.now))) }
    {
        match &statement.kind {
            StatementKind::Simple(simple) => self.simple(simple),
            StatementKind::Block(statements) => self.statements(statements),
            StatementKind::Annotated(annotation) => self.specs(&annotation.specs),
            StatementKind::Return => Ok(()),
            StatementKind::ReturnValue(value) => self.expression(value),
            StatementKind::If(condition, body) => {
                self.expression(condition)?;
                self.statement(body)
            }
            StatementKind::IfElse(condition, first, second) => {
                self.expression(condition)?;
                self.statement(first)?;
                self.statement(second)
            }
            StatementKind::While(condition, annotations, body) => {
                self.expression(condition)?;
                self.annotations(annotations)?;
                self.statement(body)
            }
            StatementKind::For(first, condition, third, annotations, body) => {
                self.for_parts(first, condition, third)?;
                self.annotations(annotations)?;
                self.statement(body)
            }
            StatementKind::Assert(condition) => self.expression(condition),
            StatementKind::Error(text) => self.expression(text),
            StatementKind::Break => Ok(()),
            StatementKind::Continue => Ok(()),
        }
    }

    #[cycle(statement)]
    fn statements(&mut self, statements: &[Statement]) -> Result<(), AllocError>
        ensures { IfOk result (λ _. self.new ≡ self.old ++ filter_map text_of (statements_mentions (statements_of statements.now))) }
    {
        for statement in statements {
            self.statement(statement)?;
        }
        Ok(())
    }

    // Only a definition of a function writes any.
    fn declaration(&mut self, declaration: &Declaration) -> Result<(), AllocError>
        ensures { IfOk result (λ _. self.new ≡ self.old ++ filter_map text_of (declaration_mentions (declaration_of declaration.now))) }
    {
        match &declaration.kind {
            DeclarationKind::DefineFunction(header, body) => {
                self.annotations(&header.annotations)?;
                self.statements(body)
            }
            _ => Ok(()),
        }
    }

    fn declarations(&mut self, declarations: &[Declaration]) -> Result<(), AllocError>
        ensures { IfOk result (λ _. self.new ≡ self.old ++ filter_map text_of (program_mentions (map declaration_of declarations.now))) }
    {
        for declaration in declarations {
            self.declaration(declaration)?;
        }
        Ok(())
    }
}

/// The texts that the declarations of a program write, in order. `Err` where memory is refused or there are 2^32 - 1 of them.
pub fn collect_texts(alloc: Global, declarations: &[Declaration]) -> Result<Names, AllocError>
    ensures { IfOk result (λ texts. texts ≡ texts_of (map declaration_of declarations.now)) }
{
    let mut texts = Texts {
        found: Names::new(alloc),
    };
    texts.declarations(declarations)?;
    Ok(texts.found)
}
