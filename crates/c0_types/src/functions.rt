//! A function with its body.

ghost use Rattle.std.specs.Prelude.{◌≡◌, ◌⊎◌, IfErr, IfOk, List, map, option_map};
ghost use Rattle.c0_source.specs.declared.fault.FaultKind.TheVariants.{OutOfMemory};
ghost use Rattle.c0_syntax.specs.Views.{header_of, statements_of};
ghost use Rattle.c0_typed.specs.Views.{function_of, type_of};
ghost use Rattle.c0_types_bodies.specs.Bodies.{SpecsHaveTexts, StatementsHaveTexts, scope_of};
ghost use Rattle.c0_types_contracts.specs.ContractViews.{conditions_of, contract_of};
ghost use Rattle.c0_types.specs.FunctionViews.{at_entry, at_return, checked_of, first_scope as scope_at_first, numbers_in, parts_of};
ghost use Rattle.c0_rules.specs.FaultPrograms.{AssignedParameters, InContracts, InFunction, InTypes, is_assigned_in};
ghost use Rattle.c0_rules.specs.FaultStatements.{InBody};
ghost use Rattle.c0_rules.specs.Mentions.{specs_in};
ghost use Rattle.c0_rules.specs.Programs.{function_from as function_by, keeps_parameters, result_of, typed_function as function_typed, typed_parts as parts_typed};
ghost use Rattle.c0_rules.specs.Statements.{typed_statements};
ghost use Rattle.c0_rules.specs.Types.{Name, VoidType, provided, same_type};
ghost use Rattle.c0_rules.specs.Answers.{Answers};
ghost use Rattle.c0_types_tables.specs.Views.{environment_of, resolved_of, signature_of};
ghost use Rattle.c0_types_terms.specs.Terms.{local_of};

use c0_source::fault::Fault;
use c0_syntax::program::Header;
use c0_syntax::statement::Statement;
use c0_typed::{Function, Statement as TypedStatement, ValueType};
use c0_types_bodies::scope::Scope;
use c0_types_contracts::contracts::{Conditions, contract, kept_conditions};
use c0_types_declarations::headers::parameter_locals;
use c0_types_flow::flow::paths::{check_ensures, check_paths};
use c0_types_statements::bodies::Body;
use c0_types_tables::environment::Environment;
use c0_types_tables::names::Names;
use c0_types_tables::resolved::ResolvedType;
use c0_types_tables::signatures::Signature;
use c0_types_terms::typing::{Local, Terms};
use std::alloc::{AllocError, Global};

/// The statements of a body, and what is in scope behind them.
#[derive(Debug, Drop)]
pub(crate) struct CheckedBody {
    pub(crate) statements: Vec<TypedStatement>,
    pub(crate) scope: Scope,
}

/// The parts of a function.
#[derive(Debug, Drop)]
pub(crate) struct Parts {
    pub(crate) conditions: Conditions,
    pub(crate) checked: CheckedBody,
}

// Whether a function has no result.
fn is_void(signature: &Signature) -> bool
    ensures { result ≡ same_type (signature_of signature.now).result VoidType }
{
    signature.result.same_as(&ResolvedType::VOID)
}

// The type of `\result`; a void function has none.
fn result_type(signature: &Signature) -> Option<&ResolvedType>
    ensures { option_map (λ r. resolved_of r.now) result ≡ result_of (signature_of signature.now).result }
{
    if is_void(signature) {
        return None;
    }
    Some(&signature.result)
}

// The contract of a function with these locals and this body, which assigns to no parameter that an `ensures` reads. `\result` stands in
// `ensures` alone.
fn function_contract(
    alloc: Global,
    environment: &Environment,
    texts: &Names,
    signature: &Signature,
    locals: &[Local],
    header: &Header,
    body: &[Statement],
) -> Result<Conditions, Fault>
    requires { SpecsHaveTexts texts.now (specs_in ((header_of header.now).annotations)) }
    ensures answers { Answers (conditions_of texts.now) result (provided (keeps_parameters (header_of header.now) (statements_of body.now)) (contract_of (environment_of environment.now) (at_entry (map local_of locals.now)) (at_return (map local_of locals.now) (signature_of signature.now)) (specs_in ((header_of header.now).annotations)))) }
    ensures cause { IfErr result (λ f. (f.kind ≡ OutOfMemory) ⊎ InContracts f (environment_of environment.now) (at_entry (map local_of locals.now)) (at_return (map local_of locals.now) (signature_of signature.now)) header.now.annotations.items ⊎ AssignedParameters f (is_assigned_in f header.now.parameters.items body.now) header.now.annotations.items) }
{
    let before = Terms {
        alloc,
        environment,
        texts,
        locals,
        result: None,
    };
    let behind = Terms {
        alloc,
        environment,
        texts,
        locals,
        result: result_type(signature),
    };
    let kept = check_ensures(header, body);
    kept_conditions(contract(&before, &behind, &header.annotations), kept)
}

// What is in scope where the body of a function with these locals begins.
fn first_scope(
    alloc: Global,
    signature: &Signature,
    locals: Vec<Local>,
) -> Result<Scope, AllocError>
    ensures { IfOk result (λ s. scope_of s ≡ scope_at_first (map local_of locals.items) (signature_of signature.now)) }
{
    Ok(Scope {
        locals,
        parameters: signature.parameters.len(),
        declared: Vec::new(alloc),
        result: signature.result.duplicate()?,
        in_loop: false,
    })
}

// A body that begins in this scope.
fn checked_body(
    alloc: Global,
    environment: &Environment,
    texts: &Names,
    scope: Scope,
    body: &[Statement],
) -> Result<CheckedBody, Fault>
    requires { StatementsHaveTexts texts.now (statements_of body.now) }
    ensures answers { Answers (checked_of texts.now) result (typed_statements (environment_of environment.now) (statements_of body.now) (scope_of scope)) }
    ensures cause { IfErr result (λ f. (f.kind ≡ OutOfMemory) ⊎ InBody (environment_of environment.now) f (scope_of scope) body.now) }
{
    let mut walk = Body {
        alloc,
        environment,
        texts,
        scope,
    };
    let statements = walk.statements(body)?;
    let Body { scope, .. } = walk;
    Ok(CheckedBody { statements, scope })
}

// The parts of a function by the rules of names and types.
fn typed_parts(
    alloc: Global,
    environment: &Environment,
    texts: &Names,
    signature: &Signature,
    header: &Header,
    body: &[Statement],
) -> Result<Parts, Fault>
    requires { SpecsHaveTexts texts.now (specs_in ((header_of header.now).annotations)) × StatementsHaveTexts texts.now (statements_of body.now) }
    ensures answers { Answers (parts_of texts.now) result (parts_typed (environment_of environment.now) (signature_of signature.now) (header_of header.now) (statements_of body.now)) }
    ensures cause { IfErr result (λ f. (f.kind ≡ OutOfMemory) ⊎ InTypes f (environment_of environment.now) (signature_of signature.now) header.now body.now) }
{
    let locals = parameter_locals(alloc, &header.parameters, &signature.parameters)?;
    let conditions = function_contract(
        alloc,
        environment,
        texts,
        signature,
        &locals,
        header,
        body,
    )?;
    let scope = first_scope(alloc, signature, locals)?;
    let checked = checked_body(alloc, environment, texts, scope, body)?;
    Ok(Parts {
        conditions,
        checked,
    })
}

// Types as typed trees have them.
fn numbered_types(
    environment: &Environment,
    alloc: Global,
    types: &[ResolvedType],
) -> Result<Vec<ValueType>, AllocError>
    ensures { IfOk result (λ v. map type_of v.items ≡ numbers_in (environment_of environment.now) types.now) }
{
    let mut numbered = Vec::new(alloc);
    for resolved in types {
        numbered.push(environment.numbered(resolved)?)?;
    }
    Ok(numbered)
}

// A function of typed trees, by its parts.
fn function_from(
    alloc: Global,
    environment: &Environment,
    signature: &Signature,
    parts: Parts,
) -> Result<Function, AllocError>
    ensures { (texts : List Name) → IfOk result (λ g. function_of texts g ≡ function_by (environment_of environment.now) (signature_of signature.now) (parts_of texts parts)) }
{
    let Parts {
        conditions,
        checked,
    } = parts;
    let result = environment.numbered(&signature.result)?;
    let parameters = numbered_types(environment, alloc, &signature.parameters)?;
    let locals = numbered_types(environment, alloc, &checked.scope.declared)?;
    Ok(Function {
        result,
        parameters,
        locals,
        preconditions: conditions.preconditions,
        postconditions: conditions.postconditions,
        body: checked.statements,
    })
}

/// A function with its body, where its own name is in scope. In this order: its contract is looked at, with the parameters that it reads
/// and the body assigns to; then the statements of the body; and last its paths.
pub(crate) fn typed_function(
    alloc: Global,
    environment: &Environment,
    texts: &Names,
    signature: &Signature,
    header: &Header,
    body: &[Statement],
) -> Result<Function, Fault>
    requires { SpecsHaveTexts texts.now (specs_in ((header_of header.now).annotations)) × StatementsHaveTexts texts.now (statements_of body.now) }
    ensures answers { Answers (function_of texts.now) result (function_typed (environment_of environment.now) (signature_of signature.now) (header_of header.now) (statements_of body.now)) }
    ensures cause { IfErr result (λ f. (f.kind ≡ OutOfMemory) ⊎ InFunction f (environment_of environment.now) (signature_of signature.now) header.now body.now) }
{
    let parts = typed_parts(alloc, environment, texts, signature, header, body)?;
    check_paths(alloc, is_void(signature), header, body)?;
    Ok(function_from(alloc, environment, signature, parts)?)
}
