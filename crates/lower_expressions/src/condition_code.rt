//! The code of conditions.
ghost use Rattle.lower_expressions.specs.Building.{codes, conditions_code, conditions_kinds};
ghost use Rattle.std.specs.Prelude.{◌≡◌, ◌++◌, OnOk, length};

use crate::building::put;
use crate::context::Context;
use crate::expression_code::expression;
use c0_typed::Expression;
use code_form::{Kind, Operation};
use middle_form::Code;
use std::alloc::AllocError;

/// The code of conditions that must hold, where contracts are checked.
pub fn conditions(
    context: &Context,
    kinds: &mut Vec<Kind>,
    code: &mut Vec<Code>,
    all: &[Expression],
) -> Result<(), AllocError>
    ensures registers { OnOk result (kinds.new.items ≡ kinds.old.items ++ conditions_kinds context.now all.now) }
    ensures added { OnOk result (codes code.new.items ≡ codes code.old.items ++ conditions_code context.now all.now (length kinds.old.items)) }
{
    if !context.checks {
        return Ok(());
    }
    for condition in all {
        let register = expression(context, kinds, code, condition)?;
        let _register = put(
            code,
            register,
            Operation::Assert {
                condition: register,
            },
        )?;
    }
    Ok(())
}
