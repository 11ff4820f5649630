//! Parts of scoped code.
ghost use Rattle.middle_form.specs.Scoped.{Choose as ScopedChoose, Loop as ScopedLoop};
ghost use Rattle.middle_form.specs.ScopedViews.{scoped_code_of};
ghost use Rattle.scoped_building.specs.Building.{codes};
ghost use Rattle.std.specs.Prelude.{◌≡◌, ◌++◌, ◌∷◌, [], OnOk};

use middle_form::ScopedCode;
use std::alloc::AllocError;

/// One part more.
pub fn put(parts: &mut Vec<ScopedCode>, part: ScopedCode) -> Result<(), AllocError>
    ensures { OnOk result (codes parts.new.items ≡ codes parts.old.items ++ scoped_code_of part ∷ []) }
{
    parts.push(part)?;
    Ok(())
}

/// A choice.
pub fn choice(condition: u32, then_code: Box<ScopedCode>, else_code: Box<ScopedCode>) -> ScopedCode
    ensures { scoped_code_of result ≡ ScopedChoose condition (scoped_code_of then_code.value) (scoped_code_of else_code.value) }
{
    ScopedCode::Choose {
        condition,
        then_code,
        else_code,
    }
}

/// A loop.
pub fn repetition(test: Box<ScopedCode>, condition: u32, body: Box<ScopedCode>) -> ScopedCode
    ensures { scoped_code_of result ≡ ScopedLoop (scoped_code_of test.value) condition (scoped_code_of body.value) }
{
    ScopedCode::Loop {
        test,
        condition,
        body,
    }
}
