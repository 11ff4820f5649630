//! Simple statements.
//! A tree held where a step fails is dropped there by a call: a drop that `?` makes is proved variant by variant.

ghost use Rattle.std.specs.Prelude.{◌≡◌, ◌⊎◌, IfErr, List, Some, false, is_ok, not, option_map};
ghost use Rattle.cells.specs.declared.int32.Int32Op.{Int32Op};
ghost use Rattle.c0_source.specs.declared.fault.FaultKind.TheVariants.{OutOfMemory};
ghost use Rattle.c0_syntax.specs.Trees as t;
ghost use Rattle.c0_syntax.specs.Views.{expression_of, expression_of_kind, name_of, simple_of, type_of};
ghost use Rattle.c0_typed.specs.Views.{exp_of};
ghost use Rattle.c0_types_bodies.specs.Bodies.{Declares, Gives, InAssigned, InDestinationOf, InUpdated, NoNumber, SimpleHasTexts, destination_of, scope_of};
ghost use Rattle.c0_rules.specs.Expressions.{operator_rule};
ghost use Rattle.c0_rules.specs.FaultStatements.{InDestination, InSimple, TakenCause, destination_type};
ghost use Rattle.c0_rules.specs.Mentions.{as_variable};
ghost use Rattle.c0_rules.specs.Statements.{assigned, change_of, declared, destination as destination_by_rules, destination_by, is_taken, step_of, typed_simple, updated};
ghost use Rattle.c0_types_terms.specs.Terms.{HasTexts};
ghost use Rattle.c0_rules.specs.Answers.{Answers};
ghost use Rattle.c0_rules.specs.Types.{IntType, Name as Word, same_type};
ghost use Rattle.c0_types_tables.specs.Views.{environment_of, resolved_of};

use super::Body;
use c0_source::fault::{Fault, FaultKind, Span};
use c0_source::kind::Operator;
use c0_syntax::expression::{Expression, ExpressionKind};
use c0_syntax::name::Name;
use c0_syntax::operator::{Change, PrefixOperator};
use c0_syntax::statement::{SimpleKind, SimpleStatement};
use c0_syntax::value_type::ValueType;
use c0_typed::{Constant, Expression as TypedExpression, Statement as TypedStatement};
use c0_types_bodies::branches::skip;
use c0_types_bodies::changes::{change_of_operator, check_number, no_number, operator_of_step};
use c0_types_bodies::scope::Destination;
use c0_types_tables::resolved::ResolvedType;
use c0_types_terms::steps::fault_at;
use c0_types_terms::typing::ResolvedPlace;
use cells::Int32Op;

impl<'a> Body<'a> {
    // No local and no function in scope, and no output call in use, has this name.
    fn check_free(&self, name: &Name) -> Result<(), Fault>
        ensures free { is_ok result ≡ not (is_taken (environment_of self.now.environment.now) (scope_of self.now.scope) (name_of name.now)) }
        ensures cause { IfErr result (λ f. TakenCause (environment_of self.now.environment.now) f (scope_of self.now.scope) name.now) }
    {
        let taken = self.scope.local(&name.text).is_some();
        if taken || self.environment.is_function(&name.text) {
            return Err(Fault {
                kind: FaultKind::DuplicateName,
                span: name.span,
            });
        }
        Ok(())
    }

    // A new local, and its number.
    fn declare(&mut self, name: &Name, resolved: ResolvedType) -> Result<u32, Fault>
        ensures environment { self.new.environment ≡ self.old.environment }
        ensures texts { self.new.texts ≡ self.old.texts }
        ensures answers { Declares (scope_of self.old.scope) self.new.scope result (declared (environment_of self.old.environment.now) (name_of name.now) (resolved_of resolved) (scope_of self.old.scope)) }
        ensures cause { IfErr result (λ f. (f.kind ≡ OutOfMemory) ⊎ TakenCause (environment_of self.old.environment.now) f (scope_of self.old.scope) name.now) }
    {
        self.check_free(name)?;
        Ok(self.scope.push(name, resolved)?)
    }

    // A declaration of a local without a value.
    fn declaration(
        &mut self,
        written: &ValueType,
        name: &Name,
        span: Span,
    ) -> Result<TypedStatement, Fault>
        ensures environment { self.new.environment ≡ self.old.environment }
        ensures texts { self.new.texts ≡ self.old.texts }
        ensures answers { Gives self.old.texts.now self.new.scope result (typed_simple (environment_of self.old.environment.now) (t.Declare (type_of written.now) (name_of name.now)) (scope_of self.old.scope)) }
        ensures cause { IfErr result (λ f. (f.kind ≡ OutOfMemory) ⊎ InSimple (environment_of self.old.environment.now) f (scope_of self.old.scope) (SimpleKind.Declare written.now name.now) span) }
    {
        let resolved = self
            .environment
            .typedefs
            .resolve_small(self.alloc, written)?;
        self.declare(name, resolved)?;
        Ok(skip(self.alloc))
    }

    // A declaration of a local with a value, which is looked at behind the name but before the local is in scope.
    fn initialization(
        &mut self,
        written: &ValueType,
        name: &Name,
        value: &Expression,
        span: Span,
    ) -> Result<TypedStatement, Fault>
        requires { HasTexts self.old.texts.now (expression_of value.now) }
        ensures environment { self.new.environment ≡ self.old.environment }
        ensures texts { self.new.texts ≡ self.old.texts }
        ensures answers { Gives self.old.texts.now self.new.scope result (typed_simple (environment_of self.old.environment.now) (t.Initialize (type_of written.now) (name_of name.now) (expression_of value.now)) (scope_of self.old.scope)) }
        ensures cause { IfErr result (λ f. (f.kind ≡ OutOfMemory) ⊎ InSimple (environment_of self.old.environment.now) f (scope_of self.old.scope) (SimpleKind.Initialize written.now name.now value.now) span) }
    {
        let resolved = self
            .environment
            .typedefs
            .resolve_small(self.alloc, written)?;
        self.check_free(name)?;
        match self.wanted(&resolved, value) {
            Ok(value) => match self.declare(name, resolved) {
                Ok(number) => Ok(TypedStatement::Set(number, value)),
                Err(fault) => {
                    drop(value);
                    Err(fault)
                }
            },
            Err(fault) => {
                drop(resolved);
                Err(fault)
            }
        }
    }

    // A variable that is assigned to.
    fn variable(&self, name: &Name, span: Span) -> Result<Destination<'_>, Fault>
        ensures answers { Answers (destination_of self.now.texts.now) result (destination_by (environment_of self.now.environment.now) (Some (name_of name.now)) (scope_of self.now.scope) (t.Variable (name_of name.now))) }
        ensures cause { IfErr result (λ f. (f.kind ≡ OutOfMemory) ⊎ InDestinationOf (environment_of self.now.environment.now) f (scope_of self.now.scope) span (ExpressionKind.Variable name.now) span) }
    {
        match self.scope.local(&name.text) {
            Some(local) => Ok(Destination::Local(local)),
            None => Err(Fault {
                kind: FaultKind::UnknownName,
                span: name.span,
            }),
        }
    }

    // What is assigned to, by its kind and its place; `whole` is its place with all parentheses.
    #[cycle(destination)]
    fn destination_of_kind(
        &self,
        kind: &ExpressionKind,
        span: Span,
        whole: Span,
    ) -> Result<Destination<'_>, Fault>
        requires { HasTexts self.now.texts.now (expression_of_kind kind.now) }
        ensures answers { Answers (destination_of self.now.texts.now) result (destination_by_rules (environment_of self.now.environment.now) (scope_of self.now.scope) (expression_of_kind kind.now)) }
        ensures cause { IfErr result (λ f. (f.kind ≡ OutOfMemory) ⊎ InDestinationOf (environment_of self.now.environment.now) f (scope_of self.now.scope) whole kind.now span) }
    {
        match kind {
            ExpressionKind::Variable(name) => self.variable(name, span),
            ExpressionKind::Parenthesized(inner) => {
                self.destination_of_kind(&inner.kind, inner.span, whole)
            }
            ExpressionKind::Index(_, _)
            | ExpressionKind::Field(_, _)
            | ExpressionKind::PointerField(_, _) => {
                Ok(Destination::Place(self.place(kind, span, whole)?))
            }
            ExpressionKind::Unary(operator, _) => match operator {
                PrefixOperator::Dereference => {
                    Ok(Destination::Place(self.place(kind, span, whole)?))
                }
                PrefixOperator::Negate | PrefixOperator::Complement | PrefixOperator::Not => {
                    Err(fault_at(FaultKind::NotDestination, whole))
                }
            },
            _ => Err(fault_at(FaultKind::NotDestination, whole)),
        }
    }

    // What is assigned to.
    fn destination(&self, e: &Expression) -> Result<Destination<'_>, Fault>
        requires { HasTexts self.now.texts.now (expression_of e.now) }
        ensures answers { Answers (destination_of self.now.texts.now) result (destination_by_rules (environment_of self.now.environment.now) (scope_of self.now.scope) (expression_of e.now)) }
        ensures cause { IfErr result (λ f. (f.kind ≡ OutOfMemory) ⊎ InDestination (environment_of self.now.environment.now) f (scope_of self.now.scope) e.now) }
    {
        self.destination_of_kind(&e.kind, e.span, e.span)
    }

    // A value for a destination at this place.
    fn assigned(
        &self,
        destination: Destination<'_>,
        span: Span,
        value: &Expression,
    ) -> Result<TypedStatement, Fault>
        requires { HasTexts self.now.texts.now (expression_of value.now) }
        ensures answers { Gives self.now.texts.now self.now.scope result (assigned (environment_of self.now.environment.now) (scope_of self.now.scope) (expression_of value.now) (destination_of self.now.texts.now destination.entry)) }
        ensures cause { IfErr result (λ f. (f.kind ≡ OutOfMemory) ⊎ InAssigned (environment_of self.now.environment.now) f (scope_of self.now.scope) (destination_of self.now.texts.now destination.entry) span value.now) }
    {
        match destination {
            Destination::Local(local) => {
                let value = self.wanted(&local.resolved, value)?;
                Ok(TypedStatement::Set(local.number, value))
            }
            Destination::Place(found) => {
                let ResolvedPlace { resolved, place } = found;
                if !resolved.is_small() {
                    drop(resolved);
                    drop(place);
                    return Err(Fault {
                        kind: FaultKind::NotSmall,
                        span,
                    });
                }
                let value = self.wanted(&resolved, value);
                drop(resolved);
                match value {
                    Ok(value) => Ok(TypedStatement::Store(place, value)),
                    Err(fault) => {
                        drop(place);
                        Err(fault)
                    }
                }
            }
        }
    }

    // A number for a destination at this place, by an operator on what it holds.
    fn updated(
        &self,
        destination: Destination<'_>,
        span: Span,
        operator: Int32Op,
        number: TypedExpression,
    ) -> Result<TypedStatement, Fault>
        ensures answers { Gives self.now.texts.now self.now.scope result (updated (environment_of self.now.environment.now) (scope_of self.now.scope) operator (exp_of self.now.texts.now number) (destination_of self.now.texts.now destination.entry)) }
        ensures cause { IfErr result (λ f. InUpdated f (destination_of self.now.texts.now destination.entry) span) }
    {
        match destination {
            Destination::Local(local) => {
                if !local.resolved.same_as(&ResolvedType::INT) {
                    drop(number);
                    return Err(no_number(&local.resolved, span));
                }
                Ok(TypedStatement::Update(local.number, operator, number))
            }
            Destination::Place(found) => {
                let ResolvedPlace { resolved, place } = found;
                if !resolved.same_as(&ResolvedType::INT) {
                    let fault = no_number(&resolved, span);
                    drop(resolved);
                    drop(place);
                    drop(number);
                    return Err(fault);
                }
                drop(resolved);
                Ok(TypedStatement::StoreUpdate(place, operator, number))
            }
        }
    }

    // An assignment.
    fn assignment(
        &self,
        destination: &Expression,
        value: &Expression,
        span: Span,
    ) -> Result<TypedStatement, Fault>
        requires { HasTexts self.now.texts.now (expression_of destination.now) × HasTexts self.now.texts.now (expression_of value.now) }
        ensures answers { Gives self.now.texts.now self.now.scope result (typed_simple (environment_of self.now.environment.now) (t.Assign (expression_of destination.now) (expression_of value.now)) (scope_of self.now.scope)) }
        ensures cause { IfErr result (λ f. (f.kind ≡ OutOfMemory) ⊎ InSimple (environment_of self.now.environment.now) f (scope_of self.now.scope) (SimpleKind.Assign destination.now value.now) span) }
    {
        let found = self.destination(destination)?;
        self.assigned(found, destination.span, value)
    }

    // An assignment by an operator.
    fn update(
        &self,
        destination: &Expression,
        operator: Operator,
        value: &Expression,
        span: Span,
    ) -> Result<TypedStatement, Fault>
        requires { HasTexts self.now.texts.now (expression_of destination.now) × HasTexts self.now.texts.now (expression_of value.now) }
        ensures answers { Gives self.now.texts.now self.now.scope result (typed_simple (environment_of self.now.environment.now) (t.Update (expression_of destination.now) operator (expression_of value.now)) (scope_of self.now.scope)) }
        ensures cause { IfErr result (λ f. (f.kind ≡ OutOfMemory) ⊎ InSimple (environment_of self.now.environment.now) f (scope_of self.now.scope) (SimpleKind.Update destination.now operator value.now) span) }
    {
        let found = self.destination(destination)?;
        check_number(&found, destination.span)?;
        let Some(change) = change_of_operator(operator) else {
            drop(found);
            return Err(Fault {
                kind: FaultKind::Syntax,
                span,
            });
        };
        match self.sited(&ResolvedType::INT, value) {
            Ok(number) => self.updated(found, destination.span, change, number),
            Err(fault) => {
                drop(found);
                Err(fault)
            }
        }
    }

    // `++` or `--`.
    fn step(
        &self,
        destination: &Expression,
        change: Change,
        span: Span,
    ) -> Result<TypedStatement, Fault>
        requires { HasTexts self.now.texts.now (expression_of destination.now) }
        ensures answers { Gives self.now.texts.now self.now.scope result (typed_simple (environment_of self.now.environment.now) (t.Step (expression_of destination.now) change) (scope_of self.now.scope)) }
        ensures cause { IfErr result (λ f. (f.kind ≡ OutOfMemory) ⊎ InSimple (environment_of self.now.environment.now) f (scope_of self.now.scope) (SimpleKind.Step destination.now change) span) }
    {
        let found = self.destination(destination)?;
        let one = TypedExpression::Constant(Constant::Number(1));
        self.updated(found, destination.span, operator_of_step(change), one)
    }

    /// A simple statement. What is in scope behind an `Err` is not told.
    pub(super) fn simple(&mut self, simple: &SimpleStatement) -> Result<TypedStatement, Fault>
        requires { SimpleHasTexts self.old.texts.now (simple_of simple.now) }
        ensures environment { self.new.environment ≡ self.old.environment }
        ensures texts { self.new.texts ≡ self.old.texts }
        ensures answers { Gives self.old.texts.now self.new.scope result (typed_simple (environment_of self.old.environment.now) (simple_of simple.now) (scope_of self.old.scope)) }
        ensures cause { IfErr result (λ f. (f.kind ≡ OutOfMemory) ⊎ InSimple (environment_of self.old.environment.now) f (scope_of self.old.scope) simple.now.kind simple.now.span) }
    {
        let span = simple.span;
        match &simple.kind {
            SimpleKind::Declare(written, name) => self.declaration(written, name, span),
            SimpleKind::Initialize(written, name, value) => {
                self.initialization(written, name, value, span)
            }
            SimpleKind::Assign(destination, value) => self.assignment(destination, value, span),
            SimpleKind::Update(destination, operator, value) => {
                self.update(destination, *operator, value, span)
            }
            SimpleKind::Step(destination, change) => self.step(destination, *change, span),
            SimpleKind::Evaluate(e) => Ok(TypedStatement::Do(self.evaluated(e)?)),
        }
    }
}
