//! What a program names: which variables, functions and texts may not stand where they do.

ghost use Rattle.std.specs.Prelude.{◌≡◌, ◌⊎◌, ◌++◌, IfErr, true, is_ok, is_some, map, not, option_map};
ghost use Rattle.std.specs.List.{Any, list_all, list_any};
ghost use Rattle.c0_source.specs.declared.fault.FaultKind.TheVariants.{BadToken, NotDefined};
ghost use Rattle.c0_syntax.specs.Views.{annotation_of, declaration_of, expression_of, expressions_of, simple_of, spec_of, statement_of, statements_of, typed_name_of};
ghost use Rattle.c0_rules.specs.FaultExpressions.{Told};
ghost use Rattle.c0_rules.specs.FaultPaths.{NamedIn, NamedInAnnotations, NamedInBody, NamedInPart, NamedInSimple, NamedInSpecs, NamedInStatement};
ghost use Rattle.c0_rules.specs.FaultPrograms.{NamedAmong, NamedInDefinition, is_beyond, is_undefined};
ghost use Rattle.c0_types_flow.specs.FlowViews.{refused_by, told_of};
ghost use Rattle.c0_rules.specs.Mentions.{OfFunction, OfText, OfVariable, argument_mentions, calls_of, declaration_mentions, mentions, part_mentions, program_mentions, simple_mentions, spec_mentions, specs_in, statement_mentions, statements_mentions, texts_of};
ghost use Rattle.c0_rules.specs.Programs.{is_callable, names_of};
ghost use Rattle.c0_rules.specs.Types.{is_among, is_ascii as are_ascii};
ghost use Rattle.c0_types_tables.specs.Views.{environment_of};

use crate::flow::Flow;
use crate::flow::assigned::assigns;
use c0_source::fault::{Fault, FaultKind, Span};
use c0_syntax::expression::{Expression, ExpressionKind};
use c0_syntax::program::{Declaration, DeclarationKind, TypedName};
use c0_syntax::statement::{
    Annotation, SimpleKind, SimpleStatement, Spec, Statement, StatementKind,
};
use c0_types_tables::environment::Environment;

pub mod texts;

/// What no name or text may be.
#[derive(Clone, Copy, Debug)]
pub(crate) enum Refused<'a> {
    /// A local that some path has not assigned.
    Unassigned(&'a Flow<'a>),
    /// One of these parameters, to which these statements assign.
    AssignedIn(&'a [TypedName], &'a [Statement]),
    /// A called function that is neither defined in the program nor an output call in use.
    Uncallable(&'a Environment),
    /// A text beyond ASCII.
    BeyondAscii,
}

// Whether one of these parameters has this name.
fn is_parameter(parameters: &[TypedName], name: &str) -> bool
    ensures { result ≡ is_among name.now (names_of (map typed_name_of parameters.now)) }
{
    for parameter in parameters {
        if name == parameter.name.text.as_str() {
            return true;
        }
    }
    false
}

// Whether all bytes are below 128.
fn is_ascii(text: &str) -> bool
    ensures { result ≡ are_ascii text.now }
{
    text.as_bytes().iter().all(|byte| *byte < 128)
}

impl Refused<'_> {
    // What is told of a name or a text that is refused.
    fn told(&self) -> FaultKind
        ensures { result ≡ told_of self.now }
    {
        match self {
            Refused::Unassigned(_) => FaultKind::NotAssigned,
            Refused::AssignedIn(_, _) => FaultKind::BadContract,
            Refused::Uncallable(_) => FaultKind::NotDefined,
            Refused::BeyondAscii => FaultKind::BadToken,
        }
    }

    // Whether a variable of this name may not be read.
    fn refuses_variable(&self, name: &str) -> bool
        ensures { result ≡ refused_by self.now (OfVariable name.now) }
    {
        match self {
            Refused::Unassigned(flow) => flow.lacks(name),
            Refused::AssignedIn(parameters, body) => {
                is_parameter(parameters, name) && assigns(body, name)
            }
            _ => false,
        }
    }

    // Whether a function of this name may not be called.
    fn refuses_function(&self, name: &str) -> bool
        ensures { result ≡ refused_by self.now (OfFunction name.now) }
    {
        match self {
            Refused::Uncallable(environment) => !environment.has_definition(name),
            _ => false,
        }
    }

    // Whether this text may not be written.
    fn refuses_text(&self, text: &str) -> bool
        ensures { result ≡ refused_by self.now (OfText text.now) }
    {
        match self {
            Refused::BeyondAscii => !is_ascii(text),
            _ => false,
        }
    }

    // An error at this place, where what stands there is refused.
    fn verdict(&self, is_refused: bool, span: Span) -> Result<(), Fault>
        ensures answers { is_ok result ≡ not is_refused }
        ensures cause { IfErr result (λ f. (is_refused ≡ true) × Told (told_of self.now) span f) }
    {
        if is_refused {
            return Err(Fault {
                kind: self.told(),
                span,
            });
        }
        Ok(())
    }

    /// The first name or text in an expression that is refused is an error, at its place.
    #[cycle(expression)]
    pub(crate) fn check_expression(&self, expression: &Expression) -> Result<(), Fault>
        ensures answers { is_ok result ≡ not (list_any (refused_by self.now) (mentions (expression_of expression.now))) }
        ensures cause { IfErr result (λ f. NamedIn (refused_by self.now) (told_of self.now) f expression.now.kind expression.now.span) }
    {
        match &expression.kind {
            ExpressionKind::Number(_) => Ok(()),
            ExpressionKind::Character(_) => Ok(()),
            ExpressionKind::Truth(_) => Ok(()),
            ExpressionKind::Null => Ok(()),
            ExpressionKind::Text(text) => self.verdict(self.refuses_text(text), expression.span),
            ExpressionKind::Variable(name) => {
                self.verdict(self.refuses_variable(&name.text), name.span)
            }
            ExpressionKind::Parenthesized(inner) => self.check_expression(inner),
            ExpressionKind::Call(name, arguments) => {
                self.verdict(self.refuses_function(&name.text), name.span)?;
                self.check_arguments(arguments)
            }
            ExpressionKind::Alloc(_) => Ok(()),
            ExpressionKind::AllocArray(_, length) => self.check_expression(length),
            ExpressionKind::Result => Ok(()),
            ExpressionKind::Length(array) => self.check_expression(array),
            ExpressionKind::Index(array, index) => {
                self.check_expression(array)?;
                self.check_expression(index)
            }
            ExpressionKind::Field(of, _) => self.check_expression(of),
            ExpressionKind::PointerField(of, _) => self.check_expression(of),
            ExpressionKind::Unary(_, operand) => self.check_expression(operand),
            ExpressionKind::Binary(_, left, right) => {
                self.check_expression(left)?;
                self.check_expression(right)
            }
            ExpressionKind::Conditional(condition, first, second) => {
                self.check_expression(condition)?;
                self.check_expression(first)?;
                self.check_expression(second)
            }
        }
    }

    // The arguments of a call.
    #[cycle(expression)]
    fn check_arguments(&self, arguments: &Vec<Expression>) -> Result<(), Fault>
        ensures answers { is_ok result ≡ not (list_any (refused_by self.now) (argument_mentions (expressions_of arguments.now.items))) }
        ensures cause { IfErr result (λ f. Any (λ e. NamedIn (refused_by self.now) (told_of self.now) f e.kind e.span) arguments.now.items) }
    {
        for argument in arguments {
            self.check_expression(argument)?;
        }
        Ok(())
    }

    /// The same of the conditions of specs.
    pub(crate) fn check_specs(&self, specs: &[Spec]) -> Result<(), Fault>
        ensures answers { is_ok result ≡ not (list_any (refused_by self.now) (spec_mentions (map spec_of specs.now))) }
        ensures cause { IfErr result (λ f. NamedInSpecs (refused_by self.now) (told_of self.now) f specs.now) }
    {
        for spec in specs {
            self.check_expression(&spec.condition)?;
        }
        Ok(())
    }

    /// The same of the specs of annotations.
    pub(crate) fn check_annotations(&self, annotations: &[Annotation]) -> Result<(), Fault>
        ensures answers { is_ok result ≡ not (list_any (refused_by self.now) (spec_mentions (specs_in (map annotation_of annotations.now)))) }
        ensures cause { IfErr result (λ f. NamedInAnnotations (refused_by self.now) (told_of self.now) f annotations.now) }
    {
        for annotation in annotations {
            self.check_specs(&annotation.specs)?;
        }
        Ok(())
    }

    // The same of a simple statement.
    fn check_simple(&self, simple: &SimpleStatement) -> Result<(), Fault>
        ensures answers { is_ok result ≡ not (list_any (refused_by self.now) (simple_mentions (simple_of simple.now))) }
        ensures cause { IfErr result (λ f. NamedInSimple (refused_by self.now) (told_of self.now) f simple.now.kind) }
    {
        match &simple.kind {
            SimpleKind::Declare(_, _) => Ok(()),
            SimpleKind::Initialize(_, _, value) => self.check_expression(value),
            SimpleKind::Assign(destination, value) => {
                self.check_expression(destination)?;
                self.check_expression(value)
            }
            SimpleKind::Update(destination, _, value) => {
                self.check_expression(destination)?;
                self.check_expression(value)
            }
            SimpleKind::Step(destination, _) => self.check_expression(destination),
            SimpleKind::Evaluate(expression) => self.check_expression(expression),
        }
    }

    // The same of the first or the third part of a `for`.
    fn check_part(&self, part: &Option<SimpleStatement>) -> Result<(), Fault>
        ensures answers { is_ok result ≡ not (list_any (refused_by self.now) (part_mentions (option_map simple_of part.now))) }
        ensures cause { IfErr result (λ f. NamedInPart (refused_by self.now) (told_of self.now) f part.now) }
    {
        match part {
            Some(simple) => self.check_simple(simple),
            None => Ok(()),
        }
    }

    // The parts of a `for` in its parentheses.
    fn check_for_parts(
        &self,
        first: &Option<SimpleStatement>,
        condition: &Expression,
        third: &Option<SimpleStatement>,
    ) -> Result<(), Fault>
        ensures answers { is_ok result ≡ not (list_any (refused_by self.now) (part_mentions (option_map simple_of first.now) ++ mentions (expression_of condition.now) ++ part_mentions (option_map simple_of third.now))) }
        ensures cause { IfErr result (λ f. NamedInPart (refused_by self.now) (told_of self.now) f first.now ⊎ NamedIn (refused_by self.now) (told_of self.now) f condition.now.kind condition.now.span ⊎ NamedInPart (refused_by self.now) (told_of self.now) f third.now) }
    {
        self.check_part(first)?;
        self.check_expression(condition)?;
        self.check_part(third)
    }

    // The same of a statement.
    #[cycle(statement)]
    fn check_statement(&self, statement: &Statement) -> Result<(), Fault>
        ensures answers { is_ok result ≡ not (list_any (refused_by self.now) (statement_mentions (statement_of statement.now))) }
        ensures cause { IfErr result (λ f. NamedInStatement (refused_by self.now) (told_of self.now) f statement.now.kind) }
    {
        match &statement.kind {
            StatementKind::Simple(simple) => self.check_simple(simple),
            StatementKind::Block(statements) => self.check_body(statements),
            StatementKind::Annotated(annotation) => self.check_specs(&annotation.specs),
            StatementKind::Return => Ok(()),
            StatementKind::ReturnValue(value) => self.check_expression(value),
            StatementKind::If(condition, body) => {
                self.check_expression(condition)?;
                self.check_statement(body)
            }
            StatementKind::IfElse(condition, first, second) => {
                self.check_expression(condition)?;
                self.check_statement(first)?;
                self.check_statement(second)
            }
            StatementKind::While(condition, annotations, body) => {
                self.check_expression(condition)?;
                self.check_annotations(annotations)?;
                self.check_statement(body)
            }
            StatementKind::For(first, condition, third, annotations, body) => {
                self.check_for_parts(first, condition, third)?;
                self.check_annotations(annotations)?;
                self.check_statement(body)
            }
            StatementKind::Assert(condition) => self.check_expression(condition),
            StatementKind::Error(text) => self.check_expression(text),
            StatementKind::Break => Ok(()),
            StatementKind::Continue => Ok(()),
        }
    }

    // The same of statements in order.
    #[cycle(statement)]
    fn check_body(&self, body: &[Statement]) -> Result<(), Fault>
        ensures answers { is_ok result ≡ not (list_any (refused_by self.now) (statements_mentions (statements_of body.now))) }
        ensures cause { IfErr result (λ f. NamedInBody (refused_by self.now) (told_of self.now) f body.now) }
    {
        for statement in body {
            self.check_statement(statement)?;
        }
        Ok(())
    }

    // The same of a declaration: only a definition of a function names anything.
    fn check_declaration(&self, declaration: &Declaration) -> Result<(), Fault>
        ensures answers { is_ok result ≡ not (list_any (refused_by self.now) (declaration_mentions (declaration_of declaration.now))) }
        ensures cause { IfErr result (λ f. NamedInDefinition f (refused_by self.now) (told_of self.now) declaration.now.kind) }
    {
        match &declaration.kind {
            DeclarationKind::DefineFunction(header, body) => {
                self.check_annotations(&header.annotations)?;
                self.check_body(body)
            }
            _ => Ok(()),
        }
    }

    // The same of the declarations of a program.
    fn check_declarations(&self, declarations: &[Declaration]) -> Result<(), Fault>
        ensures answers { is_ok result ≡ not (list_any (refused_by self.now) (program_mentions (map declaration_of declarations.now))) }
        ensures cause { IfErr result (λ f. NamedAmong f (refused_by self.now) (told_of self.now) declarations.now) }
    {
        for declaration in declarations {
            self.check_declaration(declaration)?;
        }
        Ok(())
    }
}

/// The first text of a program that goes beyond ASCII is an error, `BadToken` at its place.
pub fn check_texts(declarations: &[Declaration]) -> Result<(), Fault>
    ensures answers { is_ok result ≡ list_all are_ascii (texts_of (map declaration_of declarations.now)) }
    ensures cause { IfErr result (λ f. NamedAmong f (is_beyond f) BadToken declarations.now) }
{
    Refused::BeyondAscii.check_declarations(declarations)
}

/// The first name that is called and may not be is an error, `NotDefined` at the name.
pub fn check_calls(environment: &Environment, declarations: &[Declaration]) -> Result<(), Fault>
    ensures answers { is_ok result ≡ list_all (is_callable (environment_of environment.now)) (calls_of (map declaration_of declarations.now)) }
    ensures cause { IfErr result (λ f. NamedAmong f (is_undefined f (environment_of environment.now)) NotDefined declarations.now) }
{
    Refused::Uncallable(environment).check_declarations(declarations)
}
