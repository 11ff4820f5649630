//! Whether `main` is as it has to be.
ghost use Rattle.code_form.specs.Form.{function_of};
ghost use Rattle.code_verification.specs.WellFormed.{main_fits};
ghost use Rattle.std.specs.Prelude.{◌≡◌, option_map};

use code_form::{Function, Kind, call_fits};

/// Whether `main` takes nothing and gives a number.
pub(crate) fn is_main(function: Option<&Function>) -> bool
    ensures { result ≡ main_fits (option_map (λ f. function_of f.now) function.entry) }
{
    match function {
        None => false,
        Some(function) => call_fits(&[Kind::Int], function, Some(0), &[]),
    }
}
