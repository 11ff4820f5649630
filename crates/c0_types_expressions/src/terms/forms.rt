//! Forms of expressions, of operands that have been typed.
//! A tree or a type that is held where a step may fail is dropped there by a call: a drop that `?` makes is proved variant by
//! variant.

ghost use Rattle.std.specs.Prelude.{◌≡◌, ◌⊎◌, Some, IfErr};
ghost use Rattle.c0_source.specs.declared.fault.FaultKind.TheVariants.{OutOfMemory};
ghost use Rattle.c0_syntax.specs.Views.{expression_of};
ghost use Rattle.c0_typed.specs.Views.{exp_of};
ghost use Rattle.c0_rules.specs.Expressions as x;
ghost use Rattle.c0_rules.specs.FaultExpressions.{AsValue, InExpression, Mistyped};
ghost use Rattle.c0_types_expressions.specs.Forms.{PrefixedCause, discarded};
ghost use Rattle.c0_types_terms.specs.Terms.{context_of, env_of, typing_of};
ghost use Rattle.c0_rules.specs.Answers.{Answers};
ghost use Rattle.c0_types_tables.specs.Views.{resolved_of};

use super::{has_value, is_void, void_use};
use c0_source::fault::{Fault, Span};
use c0_syntax::expression::Expression;
use c0_syntax::operator::PrefixOperator;
use c0_typed::Expression as TypedExpression;
use c0_types_operators::operands::prefixed;
use c0_types_places::places::{pointed, read_of};
use c0_types_tables::resolved::ResolvedType;
use c0_types_terms::retyping::retype_to_numbers;
use c0_types_terms::typing::{Terms, Typing};

/// An expression of this type, as it was typed; a void call has no value.
pub(crate) fn required(
    terms: &Terms<'_>,
    want: &ResolvedType,
    e: &Expression,
    typing: Typing,
) -> Result<TypedExpression, Fault>
    requires { x.typed_expression (env_of terms.now) (context_of terms.now) (expression_of e.now) ≡ Some (typing_of terms.now.texts.now typing) }
    ensures answers { Answers (exp_of terms.now.texts.now) result (x.as_wanted (env_of terms.now) (resolved_of want.now) (typing_of terms.now.texts.now typing)) }
    ensures cause { IfErr result (λ f. (f.kind ≡ OutOfMemory) ⊎ InExpression (env_of terms.now) (context_of terms.now) f AsValue e.now.kind e.now.span ⊎ Mistyped (env_of terms.now) (context_of terms.now) f (resolved_of want.now) e.now.kind e.now.span) }
{
    if !has_value(terms, &typing) && !is_void(want) {
        drop(typing);
        return Err(void_use(terms, &e.kind, e.span));
    }
    terms.as_wanted(want, typing, e.span)
}

/// An operator before its operand, at these places.
pub(crate) fn unary(
    terms: &Terms<'_>,
    operator: PrefixOperator,
    operand: Typing,
    here: Span,
    span: Span,
) -> Result<Typing, Fault>
    ensures answers { Answers (typing_of terms.now.texts.now) result (x.prefixed (env_of terms.now) operator (typing_of terms.now.texts.now operand)) }
    ensures cause { IfErr result (λ f. (f.kind ≡ OutOfMemory) ⊎ PrefixedCause (env_of terms.now) f operator (typing_of terms.now.texts.now operand) here span) }
{
    match operator {
        PrefixOperator::Dereference => {
            let place = pointed(terms, operand, here, span)?;
            read_of(terms, place, span)
        }
        _ => prefixed(terms, operator, operand, here),
    }
}

/// An expression whose value is not used: small, NULL, or a void call.
pub(crate) fn discarded(terms: &Terms<'_>, typing: Typing) -> Result<TypedExpression, Fault>
    ensures answers { Answers (exp_of terms.now.texts.now) result (discarded (typing_of terms.now.texts.now typing)) }
    ensures cause { IfErr result (λ f. f.kind ≡ OutOfMemory) }
{
    match typing {
        Typing::Has(resolved, e) => {
            let is_taken = resolved.is_small() || is_void(&resolved);
            drop(resolved);
            if is_taken {
                Ok(e)
            } else {
                drop(e);
                // Nothing that is declared has such a type.
                Err(Fault::out_of_memory())
            }
        }
        Typing::Null(e) => Ok(retype_to_numbers(terms.alloc, e)?),
    }
}
