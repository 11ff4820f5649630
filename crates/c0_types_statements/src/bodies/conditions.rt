//! The conditions of specs.

ghost use Rattle.std.specs.Prelude.{◌≡◌, ◌⊎◌, Bool, false, IfErr, map};
ghost use Rattle.c0_source.specs.declared.fault.FaultKind.TheVariants as k;
ghost use Rattle.c0_source.specs.declared.fault.FaultKind.TheVariants.{OutOfMemory};
ghost use Rattle.c0_syntax.specs.Views.{annotation_of, expression_of, spec_of};
ghost use Rattle.c0_typed.specs.Views.{exp_of, exps_of};
ghost use Rattle.c0_types_bodies.specs.Bodies.{GivesMore, SpecsHaveTexts, role_by, rule_of, with_front};
ghost use Rattle.c0_rules.specs.FaultExpressions.{Told};
ghost use Rattle.c0_rules.specs.FaultStatements.{InAnnotations, InCondition, InSpecs};
ghost use Rattle.c0_rules.specs.Mentions.{specs_in};
ghost use Rattle.c0_rules.specs.Statements.{Assertion, Invariant, conditions_of_all, role_of, same_role};
ghost use Rattle.c0_types_terms.specs.Terms.{HasTexts, context_of, env_of};
ghost use Rattle.c0_rules.specs.Answers.{Answers};

use c0_source::fault::{Fault, FaultKind};
use c0_source::kind::Clause;
use c0_syntax::statement::{Annotation, Spec, SpecKind};
use c0_typed::Expression as TypedExpression;
use c0_types_expressions::terms::sited;
use c0_types_tables::resolved::ResolvedType;
use c0_types_terms::typing::Terms;

// Whether both are for the same thing.
fn is_role(kind: SpecKind, role: SpecKind) -> bool
    ensures { result ≡ same_role (role_by role) (role_by kind) }
{
    match (role, kind) {
        (SpecKind::Assert, SpecKind::Assert) => true,
        (SpecKind::Contract(Clause::Requires), SpecKind::Contract(Clause::Requires)) => true,
        (SpecKind::Contract(Clause::Ensures), SpecKind::Contract(Clause::Ensures)) => true,
        (SpecKind::Contract(Clause::LoopInvariant), SpecKind::Contract(Clause::LoopInvariant)) => {
            true
        }
        _ => false,
    }
}

// The condition of a spec, which must have this role.
fn condition(terms: &Terms<'_>, role: SpecKind, spec: &Spec) -> Result<TypedExpression, Fault>
    requires { HasTexts terms.now.texts.now (expression_of spec.now.condition) }
    ensures answers { Answers (exp_of terms.now.texts.now) result (rule_of (env_of terms.now) (role_by role) (context_of terms.now) (spec_of spec.now)) }
    ensures cause { IfErr result (λ f. (f.kind ≡ OutOfMemory) ⊎ ((same_role (role_by role) (role_of (spec_of spec.now)) ≡ false) × Told k.BadContract spec.now.word f) ⊎ InCondition (env_of terms.now) f (context_of terms.now) spec.now.condition) }
{
    if !is_role(spec.kind, role) {
        return Err(Fault {
            kind: FaultKind::BadContract,
            span: spec.word,
        });
    }
    sited(terms, &ResolvedType::BOOL, &spec.condition)
}

// The conditions of specs, which must all have this role, behind those so far.
fn push_conditions(
    terms: &Terms<'_>,
    role: SpecKind,
    specs: &[Spec],
    conditions: &mut Vec<TypedExpression>,
) -> Result<(), Fault>
    requires { SpecsHaveTexts terms.now.texts.now (map spec_of specs.now) }
    ensures answers { GivesMore terms.now.texts.now conditions.new.items result (with_front (exps_of terms.now.texts.now conditions.old.items) (conditions_of_all (env_of terms.now) (role_by role) (context_of terms.now) (map spec_of specs.now))) }
    ensures cause { IfErr result (λ f. (f.kind ≡ OutOfMemory) ⊎ InSpecs (env_of terms.now) f (role_by role) (context_of terms.now) specs.now) }
{
    for spec in specs {
        let found = condition(terms, role, spec)?;
        conditions.push(found)?;
    }
    Ok(())
}

/// What `//@assert` annotations want.
pub(super) fn assertions(terms: &Terms<'_>, specs: &[Spec]) -> Result<Vec<TypedExpression>, Fault>
    requires { SpecsHaveTexts terms.now.texts.now (map spec_of specs.now) }
    ensures answers { Answers (λ v. exps_of terms.now.texts.now v.items) result (conditions_of_all (env_of terms.now) Assertion (context_of terms.now) (map spec_of specs.now)) }
    ensures cause { IfErr result (λ f. (f.kind ≡ OutOfMemory) ⊎ InSpecs (env_of terms.now) f Assertion (context_of terms.now) specs.now) }
{
    let mut conditions = Vec::new(terms.alloc);
    push_conditions(terms, SpecKind::Assert, specs, &mut conditions)?;
    Ok(conditions)
}

/// The invariants of a loop.
pub(super) fn invariants(
    terms: &Terms<'_>,
    annotations: &[Annotation],
) -> Result<Vec<TypedExpression>, Fault>
    requires { SpecsHaveTexts terms.now.texts.now (specs_in (map annotation_of annotations.now)) }
    ensures answers { Answers (λ v. exps_of terms.now.texts.now v.items) result (conditions_of_all (env_of terms.now) Invariant (context_of terms.now) (specs_in (map annotation_of annotations.now))) }
    ensures cause { IfErr result (λ f. (f.kind ≡ OutOfMemory) ⊎ InAnnotations (env_of terms.now) f Invariant (context_of terms.now) annotations.now) }
{
    let mut conditions = Vec::new(terms.alloc);
    let role = SpecKind::Contract(Clause::LoopInvariant);
    for annotation in annotations {
        push_conditions(terms, role, &annotation.specs, &mut conditions)?;
    }
    Ok(conditions)
}
