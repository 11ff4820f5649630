//! What names and constants stand for, and calls of what is named.

ghost use Rattle.std.specs.Prelude.{◌≡◌, ◌⊎◌, None, Some, false, true, nat_lt, pos, IfErr, IfOk, map, option_map};
ghost use Rattle.cells.specs.Numbers.{wrap32};
ghost use Rattle.c0_source.specs.declared.fault.FaultKind.TheVariants.{BadContract, BadToken, OutOfMemory, UnknownName};
ghost use Rattle.c0_syntax.specs.Views.{name_of};
ghost use Rattle.c0_typed.specs.Trees as y;
ghost use Rattle.c0_typed.specs.Values as v;
ghost use Rattle.c0_typed.specs.Views.{exps_of, output_of};
ghost use Rattle.c0_rules.specs.Expressions as x;
ghost use Rattle.c0_rules.specs.FaultExpressions.{Told};
ghost use Rattle.c0_types_places.specs.Places.{callee_of};
ghost use Rattle.c0_types_terms.specs.Terms.{IsText, context_of, env_of, local_of, typing_of};
ghost use Rattle.c0_rules.specs.Types as t;
ghost use Rattle.c0_rules.specs.Answers.{Answers};
ghost use Rattle.c0_types_tables.specs.Views.{resolved_of};

use c0_source::fault::{Fault, FaultKind, Span};
use c0_syntax::name::Name;
use c0_typed::{Constant, Expression, Output};
use c0_types_tables::resolved::ResolvedType;
use c0_types_tables::signatures::Signature;
use c0_types_terms::steps::fault_at;
use c0_types_terms::typing::{Local, Terms, Typing};
use std::alloc::{AllocError, Global};

/// What is called: an output call, or a function by its number.
#[derive(Clone, Copy)]
pub enum Callee<'a> {
    Output(Output),
    Function(u32, &'a Signature),
}

/// The output call of a name.
fn output_named(name: &str) -> Option<Output>
    ensures { option_map output_of result ≡ t.output_named true name.now }
{
    match name {
        "print" => Some(Output::Print),
        "println" => Some(Output::Println),
        "printint" => Some(Output::Printint),
        "printbool" => Some(Output::Printbool),
        "printchar" => Some(Output::Printchar),
        "flush" => Some(Output::Flush),
        _ => None,
    }
}

/// What an output call takes.
pub fn output_takes(alloc: Global, output: Output) -> Result<Vec<ResolvedType>, AllocError>
    ensures { IfOk result (λ r. map resolved_of r.items ≡ t.output_takes (output_of output)) }
{
    match output {
        Output::Print | Output::Println => Ok(vec![in alloc; ResolvedType::TEXT]?),
        Output::Printint => Ok(vec![in alloc; ResolvedType::INT]?),
        Output::Printbool => Ok(vec![in alloc; ResolvedType::BOOL]?),
        Output::Printchar => Ok(vec![in alloc; ResolvedType::CHAR]?),
        Output::Flush => Ok(Vec::new(alloc)),
    }
}

/// The first local of a name.
#[tactic(auto, using(crate::proofs::Locals::found, crate::proofs::Locals::passed))]
fn local_named<'b>(locals: &'b [Local], name: &str) -> Option<&'b Local>
    ensures { option_map (λ l. local_of l.now) result ≡ x.local_of (map local_of locals.now) name.now }
{
    for i in 0..locals.len() {
        let local = &locals[i];
        if name == local.name.as_str() {
            return Some(local);
        }
    }
    None
}

/// A number, read from -2^31 to 2^31 - 1.
pub fn number(terms: &Terms<'_>, value: u32) -> Typing
    ensures { typing_of terms.now.texts.now result ≡ x.Has t.IntType (y.Constant (v.Number (wrap32 (pos value)))) }
{
    Typing::Has(
        ResolvedType::INT,
        Expression::Constant(Constant::Number(value.cast_signed())),
    )
}

/// A character, which is one of ASCII.
pub fn character(terms: &Terms<'_>, code: u8, span: Span) -> Result<Typing, Fault>
    ensures answers { Answers (typing_of terms.now.texts.now) result (t.provided (nat_lt code 128) (Some (x.Has t.CharType (y.Constant (v.Letter code))))) }
    ensures cause { IfErr result (λ f. (nat_lt code 128 ≡ false) × Told BadToken span f) }
{
    if code < 128 {
        Ok(Typing::Has(
            ResolvedType::CHAR,
            Expression::Constant(Constant::Letter(code)),
        ))
    } else {
        Err(fault_at(FaultKind::BadToken, span))
    }
}

/// A local by its name.
pub fn variable(terms: &Terms<'_>, name: &Name) -> Result<Typing, Fault>
    ensures answers { Answers (typing_of terms.now.texts.now) result (t.and_so (x.local_of (context_of terms.now).locals (name_of name.now)) (λ l. Some (x.Has l.resolved (y.Local l.number)))) }
    ensures cause { IfErr result (λ f. (f.kind ≡ OutOfMemory) ⊎ ((x.local_of (context_of terms.now).locals (name_of name.now) ≡ None) × Told UnknownName name.now.span f)) }
{
    match local_named(terms.locals, &name.text) {
        Some(local) => {
            let resolved = local.resolved.duplicate()?;
            Ok(Typing::Has(resolved, Expression::Local(local.number)))
        }
        None => Err(fault_at(FaultKind::UnknownName, name.span)),
    }
}

/// What the function returns.
pub fn returned(terms: &Terms<'_>, span: Span) -> Result<Typing, Fault>
    ensures answers { Answers (typing_of terms.now.texts.now) result (t.and_so (context_of terms.now).result (λ r. Some (x.Has r (y.Local 0)))) }
    ensures cause { IfErr result (λ f. (f.kind ≡ OutOfMemory) ⊎ (((context_of terms.now).result ≡ None) × Told BadContract span f)) }
{
    match terms.result {
        Some(resolved) => {
            let resolved = resolved.duplicate()?;
            Ok(Typing::Has(resolved, Expression::Local(0)))
        }
        None => Err(fault_at(FaultKind::BadContract, span)),
    }
}

/// A text, by its number among those of the program; number 0 is the empty one.
pub fn text(terms: &Terms<'_>, text: &str) -> Typing
    requires { IsText terms.now.texts.now text.now }
    ensures { typing_of terms.now.texts.now result ≡ x.Has t.StringType (y.Constant (v.Text text.now)) }
{
    match terms.texts.get(text) {
        Some(number) => Typing::Has(
            ResolvedType::TEXT,
            Expression::Constant(Constant::Text(number + 1)),
        ),
        None => unreachable!(),
    }
}

/// What a name calls: an output call, or else a function that is declared before.
pub fn callee_named<'a>(terms: &Terms<'a>, name: &str) -> Option<Callee<'a>>
    ensures { option_map callee_of result ≡ x.callee (env_of terms.now) name.now }
{
    if terms.environment.conio {
        if let Some(output) = output_named(name) {
            return Some(Callee::Output(output));
        }
    }
    let signature = terms.environment.functions.get(name)?;
    let number = terms.environment.function_names.number(name);
    Some(Callee::Function(number, signature))
}

/// What a call names.
pub fn declared<'a>(terms: &Terms<'a>, name: &Name) -> Result<Callee<'a>, Fault>
    ensures answers { Answers callee_of result (x.callee (env_of terms.now) (name_of name.now)) }
    ensures cause { IfErr result (λ f. (x.callee (env_of terms.now) (name_of name.now) ≡ None) × Told UnknownName name.now.span f) }
{
    match callee_named(terms, &name.text) {
        Some(callee) => Ok(callee),
        None => Err(fault_at(FaultKind::UnknownName, name.span)),
    }
}

/// A call of this with these arguments.
pub fn call_of(
    terms: &Terms<'_>,
    callee: Callee<'_>,
    arguments: Vec<Expression>,
) -> Result<Typing, AllocError>
    ensures { IfOk result (λ r. typing_of terms.now.texts.now r ≡ x.Has (x.gives (callee_of callee.entry)) (x.call_of (callee_of callee.entry) (exps_of terms.now.texts.now arguments.items))) }
{
    match callee {
        Callee::Output(output) => Ok(Typing::Has(
            ResolvedType::VOID,
            Expression::Print(output, arguments),
        )),
        Callee::Function(number, signature) => {
            let resolved = signature.result.duplicate()?;
            Ok(Typing::Has(resolved, Expression::Call(number, arguments)))
        }
    }
}
