//! The static rules of a function's header: its types, its names, and what was declared of its name before.

ghost use Rattle.std.specs.Prelude.{◌≡◌, ◌≤◌, ◌⊎◌, ◌&&◌, ◌||◌, [], Err, IfErr, IfOk, OnOk, Some, false, is_ok, is_some, map, not, true};
ghost use Rattle.c0_source.specs.declared.fault.FaultKind.TheVariants.{OutOfMemory};
ghost use Rattle.c0_syntax.specs.Views.{annotation_of, header_of, name_of, typed_name_of};
ghost use Rattle.c0_types_declarations.specs.DeclarationViews.{Accepts};
ghost use Rattle.c0_rules.specs.FaultPrograms.{AnySpecs, FunctionParameter, InHeader, NameCause, OtherTypesCause, ParameterCause, SecondName};
ghost use Rattle.c0_rules.specs.Mentions.{specs_in};
ghost use Rattle.c0_rules.specs.Programs.{agrees, are_locals, are_none, is_defined as was_defined, names_function as is_of_function, names_of, parameter_types as types_of_parameters, parameters_from, signature as header_signature, with_function};
ghost use Rattle.c0_types_terms.specs.Terms.{local_of};
ghost use Rattle.c0_rules.specs.Types.{Signature as Declared, are_distinct, output_named};
ghost use Rattle.c0_rules.specs.Answers.{Answers};
ghost use Rattle.c0_types_tables.specs.Views.{environment_of, resolved_of, signature_of};

use c0_source::fault::{Fault, FaultKind, Span};
use c0_syntax::name::Name;
use c0_syntax::program::{Header, TypedName};
use c0_syntax::statement::Annotation;
use c0_types_tables::environment::Environment;
use c0_types_tables::resolved::ResolvedType;
use c0_types_tables::signatures::Signature;
use c0_types_terms::typing::Local;
use std::alloc::{AllocError, Global};
use std::collections::BTreeSet;

/// No name stands there twice.
pub(crate) fn check_distinct(alloc: Global, items: &[TypedName]) -> Result<(), Fault>
    ensures distinct { Accepts result (are_distinct (names_of (map typed_name_of items.now))) }
    ensures cause { IfErr result (λ f. (f.kind ≡ OutOfMemory) ⊎ SecondName f [] items.now) }
{
    let mut seen = BTreeSet::new(alloc);
    for item in items {
        if !seen.insert(item.name.text.as_str())? {
            return Err(Fault {
                kind: FaultKind::DuplicateName,
                span: item.name.span,
            });
        }
    }
    Ok(())
}

/// The fault, or another one that stands before it in the text.
pub fn first_told(fault: Fault, other: Result<(), Fault>) -> Fault
    ensures one { (result ≡ fault) ⊎ (other ≡ Err result) }
    ensures first { (result.span.start ≤ fault.span.start) × IfErr other (λ f. result.span.start ≤ f.span.start) }
{
    match other {
        Err(other) if other.span.start < fault.span.start => other,
        _ => fault,
    }
}

/// The types of parameters.
pub(crate) fn parameter_types(
    environment: &Environment,
    alloc: Global,
    items: &[TypedName],
) -> Result<Vec<ResolvedType>, Fault>
    ensures answers { Answers (λ v. map resolved_of v.items) result (types_of_parameters (environment_of environment.now).typedefs (map typed_name_of items.now)) }
    ensures cause { IfErr result (λ f. (f.kind ≡ OutOfMemory) ⊎ ParameterCause f (environment_of environment.now) items.now) }
{
    let mut types = Vec::new(alloc);
    for item in items {
        let resolved = environment.typedefs.resolve_small(alloc, &item.value_type)?;
        types.push(resolved)?;
    }
    Ok(types)
}

/// Both, or the fault that comes first in the text.
pub fn earlier(first: Result<(), Fault>, second: Result<(), Fault>) -> Result<(), Fault>
    ensures both { is_ok result ≡ is_ok first && is_ok second }
    ensures one { (result ≡ first) ⊎ (result ≡ second) }
    ensures first { IfErr result (λ f. IfErr first (λ g. f.span.start ≤ g.span.start) × IfErr second (λ g. f.span.start ≤ g.span.start)) }
{
    match (&first, &second) {
        (Err(one), Err(other)) if other.span.start < one.span.start => second,
        (Ok(()), _) => second,
        _ => first,
    }
}

// Whether a function of this name has been defined.
fn is_defined(environment: &Environment, name: &str) -> bool
    ensures { result ≡ was_defined ((environment_of environment.now).functions name.now) }
{
    match environment.functions.get(name) {
        Some(old) => old.defined,
        None => false,
    }
}

// The name of a function, which is defined here or not, is not that of an output call in use, and it was not defined before where it is now.
fn check_name(environment: &Environment, defined: bool, name: &Name) -> Result<(), Fault>
    ensures answers { Accepts result (not (is_some (output_named (environment_of environment.now).conio (name_of name.now)) || (defined && was_defined ((environment_of environment.now).functions (name_of name.now))))) }
    ensures cause { IfErr result (λ f. NameCause f (environment_of environment.now) defined name.now) }
{
    if environment.is_output(&name.text) || (defined && is_defined(environment, &name.text)) {
        return Err(Fault {
            kind: FaultKind::DuplicateName,
            span: name.span,
        });
    }
    Ok(())
}

// Whether a name is that of a function in scope, of the one whose header this is, or of an output call in use.
fn names_function(environment: &Environment, own: &Name, name: &str) -> bool
    ensures { result ≡ is_of_function (environment_of environment.now) (name_of own.now) name.now }
{
    environment.is_function(name) || name == own.text.as_str()
}

// The first parameter of a definition that has the name of a function in scope, of its own function or of an output call in use is an
// error, `DuplicateName` at its name.
fn check_locals(
    environment: &Environment,
    defined: bool,
    own: &Name,
    parameters: &[TypedName],
) -> Result<(), Fault>
    ensures answers { Accepts result (are_locals (environment_of environment.now) defined (name_of own.now) (names_of (map typed_name_of parameters.now))) }
    ensures cause { IfErr result (λ f. (defined ≡ true) × FunctionParameter f (environment_of environment.now) (name_of own.now) parameters.now) }
{
    if !defined {
        return Ok(());
    }
    for parameter in parameters {
        if names_function(environment, own, &parameter.name.text) {
            return Err(Fault {
                kind: FaultKind::DuplicateName,
                span: parameter.name.span,
            });
        }
    }
    Ok(())
}

// The names of parameters: none stands twice, and those of a definition are locals. Of two faults the first in the text is told.
fn check_parameter_names(
    environment: &Environment,
    alloc: Global,
    defined: bool,
    header: &Header,
) -> Result<(), Fault>
    ensures answers { Accepts result (are_distinct (names_of ((header_of header.now).parameters)) && are_locals (environment_of environment.now) defined (header_of header.now).name (names_of ((header_of header.now).parameters))) }
    ensures cause { IfErr result (λ f. (f.kind ≡ OutOfMemory) ⊎ SecondName f [] header.now.parameters.items ⊎ ((defined ≡ true) × FunctionParameter f (environment_of environment.now) (name_of header.now.name) header.now.parameters.items)) }
{
    let distinct = check_distinct(alloc, &header.parameters);
    let locals = check_locals(environment, defined, &header.name, &header.parameters);
    earlier(distinct, locals)
}

// The types of what was declared of the name of a function before are the same; it was not defined before where it is now.
fn check_again(environment: &Environment, signature: &Signature, span: Span) -> Result<(), Fault>
    requires { (signature.now.defined && was_defined ((environment_of environment.now).functions (signature_of signature.now).name)) ≡ false }
    ensures agrees { Accepts result (agrees (signature_of signature.now) ((environment_of environment.now).functions (signature_of signature.now).name)) }
    ensures cause { IfErr result (λ f. (old : Declared) × ((environment_of environment.now).functions (signature_of signature.now).name ≡ Some old) × OtherTypesCause f (signature_of signature.now) old span) }
{
    let Some(old) = environment.functions.get(&signature.name) else {
        return Ok(());
    };
    if !signature.same_as(old) {
        return Err(Fault {
            kind: FaultKind::DeclMismatch,
            span,
        });
    }
    Ok(())
}

/// What a header declares. Of several faults the first in the text is told, but that a second declaration has other types, at the name of
/// the function, is told where the types are right.
pub fn signature(
    environment: &Environment,
    alloc: Global,
    defined: bool,
    header: &Header,
) -> Result<Signature, Fault>
    ensures answers { Answers signature_of result (header_signature (environment_of environment.now) defined (header_of header.now)) }
    ensures cause { IfErr result (λ f. (f.kind ≡ OutOfMemory) ⊎ InHeader f (environment_of environment.now) defined header.now) }
{
    let result_type = environment.typedefs.resolve_result(alloc, &header.result)?;
    check_name(environment, defined, &header.name)?;
    let names = check_parameter_names(environment, alloc, defined, header);
    let parameters = match parameter_types(environment, alloc, &header.parameters) {
        Ok(types) => types,
        Err(fault) => return Err(first_told(fault, names)),
    };
    let signature = Signature {
        name: header.name.text.clone()?,
        result: result_type,
        parameters,
        defined,
    };
    check_again(environment, &signature, header.name.span)?;
    match names {
        Ok(_) => Ok(signature),
        Err(fault) => {
            drop(signature);
            Err(fault)
        }
    }
}

/// From here on the function is declared; it is defined where it is now or was before. Where memory is refused, nothing is said of the
/// environment.
pub fn add_function(
    environment: &mut Environment,
    mut signature: Signature,
) -> Result<(), AllocError>
    ensures { OnOk result (environment_of environment.new ≡ with_function (signature_of signature) (environment_of environment.old)) }
{
    if let Some(old) = environment.functions.get(&signature.name) {
        signature.defined = signature.defined || old.defined;
    }
    let name = signature.name.clone()?;
    environment.functions.insert(name, signature)
}

/// The parameters of a function as locals, from 1.
pub fn parameter_locals(
    alloc: Global,
    items: &[TypedName],
    types: &[ResolvedType],
) -> Result<Vec<Local>, AllocError>
    ensures { IfOk result (λ v. map local_of v.items ≡ parameters_from 1 (map typed_name_of items.now) (map resolved_of types.now)) }
{
    let mut locals = Vec::new(alloc);
    for i in 0..items.len().min(types.len()) {
        let Ok(number) = u32::try_from(i + 1) else {
            return Err(AllocError);
        };
        locals.push(Local {
            name: items[i].name.text.clone()?,
            number,
            resolved: types[i].duplicate()?,
        })?;
    }
    Ok(locals)
}

/// There is no spec.
pub fn refuse_specs(annotations: &[Annotation]) -> Result<(), Fault>
    ensures none { Accepts result (are_none (specs_in (map annotation_of annotations.now))) }
    ensures cause { IfErr result (λ f. AnySpecs f annotations.now) }
{
    for annotation in annotations {
        if let Some(spec) = annotation.specs.first() {
            return Err(Fault {
                kind: FaultKind::BadContract,
                span: spec.word,
            });
        }
    }
    Ok(())
}
