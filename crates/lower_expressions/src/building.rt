//! Registers and instructions that are added.
ghost use Rattle.lower_expressions.specs.Building.{codes};
ghost use Rattle.lower_expressions.specs.Expressions.{local_register as register_of, sequence as in_order};
ghost use Rattle.middle_form.specs.Form.{Do};
ghost use Rattle.middle_form.specs.Views.{code_of};
ghost use Rattle.std.specs.Prelude.{◌≡◌, ◌++◌, ◌∷◌, [], IfOk, OnOk, length, suc};

use code_form::{Kind, Operation};
use middle_form::Code;
use std::alloc::{AllocError, Global};

/// One more register, by its number. More than numbers of 32 bits tell apart can't be had.
#[tactic(auto, using(crate::proofs::CodeLists::length_push))]
pub fn fresh(kinds: &mut Vec<Kind>, kind: Kind) -> Result<u32, AllocError>
    ensures number { IfOk result (λ r. r ≡ length kinds.old.items) }
    ensures added { OnOk result (kinds.new.items ≡ kinds.old.items ++ kind ∷ []) }
    ensures next { OnOk result (length kinds.new.items ≡ suc (length kinds.old.items)) }
{
    let Ok(number) = u32::try_from(kinds.len()) else {
        return Err(AllocError);
    };
    kinds.push(kind)?;
    Ok(number)
}

/// One more instruction, which writes register `to`.
pub fn put(code: &mut Vec<Code>, to: u32, operation: Operation) -> Result<u32, AllocError>
    ensures register { IfOk result (λ r. r ≡ to) }
    ensures added { OnOk result (codes code.new.items ≡ codes code.old.items ++ Do operation ∷ []) }
{
    code.push(Code::Do(operation))?;
    Ok(to)
}

/// The register of a local.
pub fn local_register(locals: u32, local: u32) -> u32
    ensures { result ≡ register_of locals local }
{
    if local == 0 { locals } else { local - 1 }
}

/// Code in order, as one.
pub fn sequence(alloc: Global, parts: Vec<Code>) -> Result<Box<Code>, AllocError>
    ensures { IfOk result (λ b. code_of b.value ≡ in_order (codes parts.items)) }
{
    let whole = Box::new(alloc, Code::Sequence(parts))?;
    Ok(whole)
}
