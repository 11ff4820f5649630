//! The contract of a function.

ghost use Rattle.std.specs.Prelude.{◌≡◌, ◌⊎◌, ◌≤◌, Err, IfErr, MatchResult, Ok, is_ok, map, true};
ghost use Rattle.c0_source.specs.declared.fault.FaultKind.TheVariants.{OutOfMemory};
ghost use Rattle.c0_syntax.specs.Views.{annotation_of, spec_of};
ghost use Rattle.c0_types_bodies.specs.Bodies.{SpecsHaveTexts};
ghost use Rattle.c0_types_contracts.specs.ContractViews.{InContractSpec, condition_added, conditions_of, contract_of, specs_added};
ghost use Rattle.c0_rules.specs.FaultPrograms.{InContract, InContracts};
ghost use Rattle.c0_rules.specs.Mentions.{condition_of, specs_in};
ghost use Rattle.c0_rules.specs.Statements.{role_of};
ghost use Rattle.c0_types_terms.specs.Terms.{HasTexts, context_of, env_of};
ghost use Rattle.c0_rules.specs.Answers.{Answers};

use c0_source::fault::{Fault, FaultKind};
use c0_source::kind::Clause;
use c0_syntax::statement::{Annotation, Spec, SpecKind};
use c0_typed::Expression as TypedExpression;
use c0_types_declarations::headers::first_told;
use c0_types_expressions::terms::sited;
use c0_types_tables::resolved::ResolvedType;
use c0_types_terms::typing::Terms;

/// What a contract wants: on entry, and at each return.
#[derive(Debug, Drop)]
pub struct Conditions {
    pub preconditions: Vec<TypedExpression>,
    pub postconditions: Vec<TypedExpression>,
}

// The condition of a spec, behind those so far. What is left of them behind an `Err` is not told; so it is with more specs.
fn push_spec(
    before: &Terms<'_>,
    behind: &Terms<'_>,
    spec: &Spec,
    conditions: &mut Conditions,
) -> Result<(), Fault>
    requires environment { env_of behind.now ≡ env_of before.now }
    requires texts { behind.now.texts.now ≡ before.now.texts.now }
    requires in_texts { HasTexts before.now.texts.now (condition_of (spec_of spec.now)) }
    ensures answers { Answers (λ _. conditions_of before.now.texts.now conditions.new) result (condition_added (env_of before.now) (context_of before.now) (context_of behind.now) (role_of (spec_of spec.now)) (condition_of (spec_of spec.now)) (conditions_of before.now.texts.now conditions.old)) }
    ensures cause { IfErr result (λ f. (f.kind ≡ OutOfMemory) ⊎ InContractSpec (env_of before.now) (context_of before.now) (context_of behind.now) f spec.now) }
{
    match spec.kind {
        SpecKind::Contract(Clause::Requires) => {
            let found = sited(before, &ResolvedType::BOOL, &spec.condition)?;
            conditions.preconditions.push(found)?;
            Ok(())
        }
        SpecKind::Contract(Clause::Ensures) => {
            let found = sited(behind, &ResolvedType::BOOL, &spec.condition)?;
            conditions.postconditions.push(found)?;
            Ok(())
        }
        _ => Err(Fault {
            kind: FaultKind::BadContract,
            span: spec.word,
        }),
    }
}

// The conditions of specs, behind those so far.
fn push_specs(
    before: &Terms<'_>,
    behind: &Terms<'_>,
    specs: &[Spec],
    conditions: &mut Conditions,
) -> Result<(), Fault>
    requires environment { env_of behind.now ≡ env_of before.now }
    requires texts { behind.now.texts.now ≡ before.now.texts.now }
    requires in_texts { SpecsHaveTexts before.now.texts.now (map spec_of specs.now) }
    ensures answers { Answers (λ _. conditions_of before.now.texts.now conditions.new) result (specs_added (env_of before.now) (context_of before.now) (context_of behind.now) (map spec_of specs.now) (conditions_of before.now.texts.now conditions.old)) }
    ensures cause { IfErr result (λ f. (f.kind ≡ OutOfMemory) ⊎ InContract f (env_of before.now) (context_of before.now) (context_of behind.now) specs.now) }
{
    for spec in specs {
        push_spec(before, behind, spec, conditions)?;
    }
    Ok(())
}

/// The conditions of a contract, each of type bool: `requires` where `before` stands, `ensures` where `behind` stands. A spec that is
/// neither is an error, `BadContract` at its word.
pub fn contract(
    before: &Terms<'_>,
    behind: &Terms<'_>,
    annotations: &[Annotation],
) -> Result<Conditions, Fault>
    requires environment { env_of behind.now ≡ env_of before.now }
    requires texts { behind.now.texts.now ≡ before.now.texts.now }
    requires in_texts { SpecsHaveTexts before.now.texts.now (specs_in (map annotation_of annotations.now)) }
    ensures answers { Answers (conditions_of before.now.texts.now) result (contract_of (env_of before.now) (context_of before.now) (context_of behind.now) (specs_in (map annotation_of annotations.now))) }
    ensures cause { IfErr result (λ f. (f.kind ≡ OutOfMemory) ⊎ InContracts f (env_of before.now) (context_of before.now) (context_of behind.now) annotations.now) }
{
    let mut conditions = Conditions {
        preconditions: Vec::new(before.alloc),
        postconditions: Vec::new(before.alloc),
    };
    for annotation in annotations {
        push_specs(before, behind, &annotation.specs, &mut conditions)?;
    }
    Ok(conditions)
}

/// What a contract wants, where both are right; else the fault that comes first in the text.
pub fn kept_conditions(
    found: Result<Conditions, Fault>,
    kept: Result<(), Fault>,
) -> Result<Conditions, Fault>
    ensures one { MatchResult result (λ x. (found ≡ Ok x) × (is_ok kept ≡ true)) (λ f. (found ≡ Err f) ⊎ (kept ≡ Err f)) }
    ensures first { IfErr result (λ f. IfErr found (λ g. f.span.start ≤ g.span.start) × IfErr kept (λ g. f.span.start ≤ g.span.start)) }
{
    match (found, kept) {
        (Ok(conditions), Ok(())) => Ok(conditions),
        (Ok(conditions), Err(fault)) => {
            drop(conditions);
            Err(fault)
        }
        (Err(fault), kept) => Err(first_told(fault, kept)),
    }
}
