//! NULL with the type that is wanted.

ghost use Rattle.std.specs.Prelude.{◌≡◌, IfOk, List};
ghost use Rattle.c0_typed.specs.Trees as y;
ghost use Rattle.c0_typed.specs.Views.{exp_of, target_of};
ghost use Rattle.c0_rules.specs.Expressions.{retyped};
ghost use Rattle.c0_rules.specs.Types.{Name};

use c0_typed::{Expression, PlainType, Target, ValueType};
use std::alloc::{AllocError, Global};

/// NULL's own type becomes that of a pointer to this type.
pub fn retype(alloc: Global, target: &Target, e: Expression) -> Result<Expression, AllocError>
    ensures { (texts : List Name) → IfOk result (λ r. exp_of texts r ≡ retyped (target_of target.now) (exp_of texts e)) }
{
    match e {
        Expression::At(site, inner) => {
            let inner = retype(alloc, target, Box::into_inner(inner))?;
            Ok(Expression::At(site, Box::new(alloc, inner)?))
        }
        Expression::Null(old) => {
            drop(old);
            Ok(Expression::Null(target.value_type()?))
        }
        Expression::Choose(old, condition, first, second) => {
            drop(old);
            let first = retype(alloc, target, Box::into_inner(first))?;
            let first = Box::new(alloc, first)?;
            let second = retype(alloc, target, Box::into_inner(second))?;
            let second = Box::new(alloc, second)?;
            let pointer = ValueType::Pointer(target.share()?);
            Ok(Expression::Choose(pointer, condition, first, second))
        }
        other => Ok(other),
    }
}

/// NULL's own type becomes that of a pointer to numbers, which it is read as where no type is wanted.
pub fn retype_to_numbers(alloc: Global, e: Expression) -> Result<Expression, AllocError>
    ensures { (texts : List Name) → IfOk result (λ r. exp_of texts r ≡ retyped y.IntTy (exp_of texts e)) }
{
    match Target::of_plain(alloc, PlainType::Int) {
        Ok(target) => retype(alloc, &target, e),
        Err(refused) => {
            drop(e);
            Err(refused)
        }
    }
}
