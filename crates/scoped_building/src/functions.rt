//! The functions of a program, each made of another.
ghost use Rattle.middle_form.specs.Scoped.{Function as ScopedForm};
ghost use Rattle.middle_form.specs.ScopedViews.{scoped_function_of};
ghost use Rattle.std.specs.Prelude.{◌≡◌, IfOk, Ok, map};

use middle_form::ScopedFunction;
use std::alloc::{AllocError, Global};

/// Each function made into another.
pub fn map_functions<T: Drop, F: Fn(T) -> Result<ScopedFunction, AllocError>>(
    alloc: Global,
    functions: Vec<T>,
    make: F,
) -> Result<Vec<ScopedFunction>, AllocError>
    requires { F.IsAlwaysCallable make }
    ensures { IfOk result (λ v. (meant : T → ScopedForm) → ((f : T) (g : _) → F.post make f (Ok g) → scoped_function_of g ≡ meant f) → map scoped_function_of v.items ≡ map meant functions.items) }
{
    let mut made = Vec::new(alloc);
    for function in functions {
        made.push(make(function)?)?;
    }
    Ok(made)
}
