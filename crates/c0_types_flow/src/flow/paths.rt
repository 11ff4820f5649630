//! The rules that look at what a function assigns: to parameters that its `ensures` read, and on all paths once its types are right.

ghost use Rattle.std.specs.Prelude.{◌≡◌, ◌⊎◌, ◌&&◌, [], ◌∷◌, IfErr, MatchResult, false, is_ok, map, not, true};
ghost use Rattle.c0_source.specs.declared.fault.FaultKind.TheVariants.{BadContract, OutOfMemory};
ghost use Rattle.c0_syntax.specs.Views.{expression_of, header_of, spec_of, statements_of, typed_name_of};
ghost use Rattle.c0_rules.specs.FaultPaths.{NamedInSpecs};
ghost use Rattle.c0_rules.specs.FaultPrograms.{AssignedParameter, AssignedParameters, InPaths, is_assigned_in};
ghost use Rattle.std.specs.List.{list_any};
ghost use Rattle.c0_rules.specs.Mentions.{statements_assign, variables_in};
ghost use Rattle.c0_rules.specs.Programs.{is_assigned_parameter, keeps_parameters, names_in_ensures, names_of, paths_agree};
ghost use Rattle.c0_rules.specs.Statements.{Postcondition, role_of, same_role};
ghost use Rattle.c0_rules.specs.Types.{Signature, VoidType, same_type};

use super::Flow;
use super::after::after_statements;
use super::statements::behind_statements;
use crate::mentioned::Refused;
use c0_source::fault::{Fault, FaultKind};
use c0_source::kind::Clause;
use c0_syntax::program::{Header, TypedName};
use c0_syntax::statement::{Spec, SpecKind, Statement};
use std::alloc::Global;

// Whether a spec is an `ensures`.
fn is_postcondition(spec: &Spec) -> bool
    ensures { result ≡ same_role Postcondition (role_of (spec_of spec.now)) }
{
    matches!(spec.kind, SpecKind::Contract(Clause::Ensures))
}

// An error at the first of these parameters in an `ensures` that the body assigns to.
fn check_spec(parameters: &[TypedName], spec: &Spec, body: &[Statement]) -> Result<(), Fault>
    ensures answers { is_ok result ≡ not (same_role Postcondition (role_of (spec_of spec.now)) && list_any (is_assigned_parameter (names_of (map typed_name_of parameters.now)) (statements_assign (statements_of body.now))) (variables_in (expression_of spec.now.condition))) }
    ensures cause { IfErr result (λ f. (same_role Postcondition (role_of (spec_of spec.now)) ≡ true) × NamedInSpecs (is_assigned_in f parameters.now body.now) BadContract f (spec.now ∷ [])) }
{
    if !is_postcondition(spec) {
        return Ok(());
    }
    Refused::AssignedIn(parameters, body).check_expression(&spec.condition)
}

// The same of specs.
fn check_specs(parameters: &[TypedName], specs: &[Spec], body: &[Statement]) -> Result<(), Fault>
    ensures answers { is_ok result ≡ not (list_any (is_assigned_parameter (names_of (map typed_name_of parameters.now)) (statements_assign (statements_of body.now))) (names_in_ensures (map spec_of specs.now))) }
    ensures cause { IfErr result (λ f. AssignedParameter f (is_assigned_in f parameters.now body.now) specs.now) }
{
    for spec in specs {
        check_spec(parameters, spec, body)?;
    }
    Ok(())
}

/// The first parameter that an `ensures` reads and the body assigns to is an error, `BadContract` at its name.
pub fn check_ensures(header: &Header, body: &[Statement]) -> Result<(), Fault>
    ensures answers { is_ok result ≡ keeps_parameters (header_of header.now) (statements_of body.now) }
    ensures cause { IfErr result (λ f. AssignedParameters f (is_assigned_in f header.now.parameters.items body.now) header.now.annotations.items) }
{
    for annotation in &header.annotations {
        check_specs(&header.parameters, &annotation.specs, body)?;
    }
    Ok(())
}

/// The rules of a function's paths. In this order: but where the result is `void`, a path that ends without `return` or
/// `error` is an error, `NoReturn` at the function's name; and a read of a local that may not be assigned, `NotAssigned`.
pub fn check_paths(
    alloc: Global,
    is_void: bool,
    header: &Header,
    body: &[Statement],
) -> Result<(), Fault>
    ensures answers { (f : Signature) → same_type f.result VoidType ≡ is_void → let holds = paths_agree f (statements_of body.now) in MatchResult result (λ _. holds ≡ true) (λ fault. (fault.kind ≡ OutOfMemory) ⊎ (holds ≡ false)) }
    ensures cause { (f : Signature) → same_type f.result VoidType ≡ is_void → IfErr result (λ fault. (fault.kind ≡ OutOfMemory) ⊎ InPaths fault f header.now body.now) }
{
    let start = Flow::Reached(Vec::new(alloc));
    let behind = after_statements(alloc, body, &start)?;
    if !is_void && !behind.over(&start).has_ended() {
        return Err(Fault {
            kind: FaultKind::NoReturn,
            span: header.name.span,
        });
    }
    behind_statements(alloc, body, &start)?;
    Ok(())
}
