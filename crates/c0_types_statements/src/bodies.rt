//! The static rules of statements.

ghost use Rattle.std.specs.Prelude.{◌≡◌, ◌⊎◌, List, IfErr, map};
ghost use Rattle.c0_source.specs.declared.fault.FaultKind.TheVariants.{OutOfMemory};
ghost use Rattle.c0_syntax.specs.Views.{annotation_of, expression_of, expression_of_kind, spec_of};
ghost use Rattle.c0_typed.specs.Views.{exp_of, exps_of};
ghost use Rattle.c0_types_bodies.specs.Bodies.{SpecsHaveTexts, scope_of};
ghost use Rattle.c0_rules.specs.Expressions.{typed_expression, typed_place};
ghost use Rattle.c0_rules.specs.FaultExpressions.{AsPlace, InExpression};
ghost use Rattle.c0_rules.specs.FaultStatements.{InAnnotations, InEvaluated, InSpecs, InWanted};
ghost use Rattle.c0_rules.specs.Mentions.{specs_in};
ghost use Rattle.c0_rules.specs.Statements.{Assertion, Invariant, conditions_of_all, evaluated, expression_as, within};
ghost use Rattle.c0_types_terms.specs.Terms.{HasTexts, context_of, env_of, place_of};
ghost use Rattle.c0_rules.specs.Types.{Name, and_so};
ghost use Rattle.c0_rules.specs.Answers.{Answers};
ghost use Rattle.c0_types_tables.specs.Views.{environment_of, resolved_of};

use c0_source::fault::{Fault, Span};
use c0_syntax::expression::{Expression, ExpressionKind};
use c0_syntax::statement::{Annotation, Spec};
use c0_typed::Expression as TypedExpression;
use c0_types_bodies::scope::Scope;
use c0_types_expressions::terms;
use c0_types_tables::environment::Environment;
use c0_types_tables::names::Names;
use c0_types_tables::resolved::ResolvedType;
use c0_types_terms::typing::{ResolvedPlace, Terms};
use std::alloc::Global;

mod conditions;
mod loops;
mod nested_statements;
mod simple_statements;

/// A body that is looked at: what is declared before its function, the texts of the program, and what is in scope.
#[derive(Drop)]
pub struct Body<'a> {
    pub alloc: Global,
    pub environment: &'a Environment,
    pub texts: &'a Names,
    pub scope: Scope,
}

impl<'a> Body<'a> {
    // Where its expressions stand.
    fn terms(&self) -> Terms<'_>
        ensures environment { env_of result ≡ environment_of self.now.environment.now }
        ensures texts { result.texts.now ≡ self.now.texts.now }
        ensures context { context_of result ≡ within (scope_of self.now.scope) }
    {
        Terms {
            alloc: self.alloc,
            environment: self.environment,
            texts: self.texts,
            locals: &self.scope.locals,
            result: None,
        }
    }

    // An expression of this type.
    fn wanted(&self, want: &ResolvedType, e: &Expression) -> Result<TypedExpression, Fault>
        requires { HasTexts self.now.texts.now (expression_of e.now) }
        ensures answers { Answers (exp_of self.now.texts.now) result (expression_as (environment_of self.now.environment.now) (resolved_of want.now) (scope_of self.now.scope) (expression_of e.now)) }
        ensures cause { IfErr result (λ f. (f.kind ≡ OutOfMemory) ⊎ InWanted (environment_of self.now.environment.now) f (scope_of self.now.scope) (resolved_of want.now) e.now) }
    {
        terms::wanted(&self.terms(), want, e)
    }

    // The same, of an expression that tells where it stands.
    fn sited(&self, want: &ResolvedType, e: &Expression) -> Result<TypedExpression, Fault>
        requires { HasTexts self.now.texts.now (expression_of e.now) }
        ensures answers { Answers (exp_of self.now.texts.now) result (expression_as (environment_of self.now.environment.now) (resolved_of want.now) (scope_of self.now.scope) (expression_of e.now)) }
        ensures cause { IfErr result (λ f. (f.kind ≡ OutOfMemory) ⊎ InWanted (environment_of self.now.environment.now) f (scope_of self.now.scope) (resolved_of want.now) e.now) }
    {
        terms::sited(&self.terms(), want, e)
    }

    // A place of the heap; `whole` is its place with all parentheses.
    fn place(&self, kind: &ExpressionKind, span: Span, whole: Span) -> Result<ResolvedPlace, Fault>
        requires { HasTexts self.now.texts.now (expression_of_kind kind.now) }
        ensures answers { Answers (place_of self.now.texts.now) result (typed_place (environment_of self.now.environment.now) (within (scope_of self.now.scope)) (expression_of_kind kind.now)) }
        ensures cause { IfErr result (λ f. (f.kind ≡ OutOfMemory) ⊎ InExpression (environment_of self.now.environment.now) (within (scope_of self.now.scope)) f (AsPlace whole) kind.now span) }
    {
        terms::place(&self.terms(), kind, span, whole)
    }

    // An expression as a statement.
    fn evaluated(&self, e: &Expression) -> Result<TypedExpression, Fault>
        requires { HasTexts self.now.texts.now (expression_of e.now) }
        ensures answers { Answers (exp_of self.now.texts.now) result (and_so (typed_expression (environment_of self.now.environment.now) (within (scope_of self.now.scope)) (expression_of e.now)) (evaluated (environment_of self.now.environment.now) (expression_of e.now))) }
        ensures cause { IfErr result (λ f. (f.kind ≡ OutOfMemory) ⊎ InEvaluated (environment_of self.now.environment.now) f (scope_of self.now.scope) e.now.kind e.now.span) }
    {
        terms::evaluated(&self.terms(), e)
    }

    // The conditions of an annotation that stands where a statement may.
    fn assertions(&self, specs: &[Spec]) -> Result<Vec<TypedExpression>, Fault>
        requires { SpecsHaveTexts self.now.texts.now (map spec_of specs.now) }
        ensures answers { Answers (λ v. exps_of self.now.texts.now v.items) result (conditions_of_all (environment_of self.now.environment.now) Assertion (within (scope_of self.now.scope)) (map spec_of specs.now)) }
        ensures cause { IfErr result (λ f. (f.kind ≡ OutOfMemory) ⊎ InSpecs (environment_of self.now.environment.now) f Assertion (within (scope_of self.now.scope)) specs.now) }
    {
        conditions::assertions(&self.terms(), specs)
    }

    // The invariants of a loop.
    fn invariants(&self, annotations: &[Annotation]) -> Result<Vec<TypedExpression>, Fault>
        requires { SpecsHaveTexts self.now.texts.now (specs_in (map annotation_of annotations.now)) }
        ensures answers { Answers (λ v. exps_of self.now.texts.now v.items) result (conditions_of_all (environment_of self.now.environment.now) Invariant (within (scope_of self.now.scope)) (specs_in (map annotation_of annotations.now))) }
        ensures cause { IfErr result (λ f. (f.kind ≡ OutOfMemory) ⊎ InAnnotations (environment_of self.now.environment.now) f Invariant (within (scope_of self.now.scope)) annotations.now) }
    {
        conditions::invariants(&self.terms(), annotations)
    }
}
