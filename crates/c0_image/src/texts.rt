//! From the bytes of a text to the verified image of its program.
ghost use Rattle.std.specs.Prelude.{◌≡◌, ◌⊎◌, IfErr, IfOk, MatchResult, None, OnOk};
ghost use Rattle.cells.specs.Pieces.{cells_in};
ghost use Rattle.c0_source.specs.declared.fault.FaultKind.TheVariants.{OutOfMemory};
ghost use Rattle.c0_source.specs.FaultNumbers.{memory_fault};
ghost use Rattle.c0_syntax.specs.Levels.{has_loops};
ghost use Rattle.c0_typed.specs.Trees as y;
ghost use Rattle.code_form.specs.Code.{Covered};
ghost use Rattle.code_form.specs.Form.{image_of};
ghost use Rattle.code_verification.specs.Verified.{IsVerified};
ghost use Rattle.scope_verifier_laws.specs.Faults.{fault_of};
ghost use Rattle.c0_front.specs.Texts.{IsRefusedText, IsTypedAs};
ghost use Rattle.c0_image.specs.Compiled.{IsCompiled};
ghost use Rattle.c0_image.specs.Correct.{Behaves};

use c0_front::check_text;
use c0_rules::elaborated;
use c0_source::fault::Fault;
use c0_syntax::level::Level;
use c0_well_formed::{images_are_accepted, images_are_consistent};
use cells::Piece;
use code_form::Image;
use codegen::{generate, generated_keeps_the_meaning};
use guard_hoisting::{hoist, hoisted_is_scoped, hoisted_means_the_same};
use lower::lower;
use prefetch_pass::{prefetch, prefetched_means_the_same};
use scope_placement::{place, placed_is_scoped, placed_means_the_same};
use scope_verifier::{Verified, verify};
use scope_verifier_laws::VerifyFault;
use std::alloc::{AllocError, Global};

/// An image without a fault, verified.
fn verified(alloc: Global, image: Image) -> Result<Verified, AllocError>
    requires { fault_of (image_of image) ≡ None }
    ensures same { IfOk result (λ v. v.image ≡ image) }
    ensures verified { OnOk result (IsVerified (image_of image)) }
    ensures covered { OnOk result (Covered (image_of image)) }
{
    match verify(alloc, image) {
        Ok(verified) => Ok(verified),
        Err(VerifyFault::OutOfMemory) => Err(AllocError),
        Err(_) => unreachable!(),
    }
}

/// The image of the program that a text is the text of, verified. `checks` tells whether contracts are checked, and `level` which statements are
/// in the language; `piece` is the unit that moves between memory and the store. The fault is of the first stage that refuses the text: 10 or 22 of its bytes, 11 or 12 of its tokens, 20 to 22 of what
/// they read as, 22 and 30 to 48 of the static rules; or 50, where memory runs out.
pub fn compile(
    alloc: Global,
    text: &[u8],
    checks: bool,
    level: Level,
    piece: Piece,
) -> Result<Verified, Fault>
    ensures compiled { IfOk result (λ v. IsCompiled (has_loops level) text.now checks (cells_in piece) (image_of v.image)) }
    ensures refused { IfErr result (λ f. (f.kind ≡ OutOfMemory) ⊎ IsRefusedText (has_loops level) text.now f) }
    // Want of memory is told with an empty span, at the beginning of the text.
    ensures place { IfErr result (λ f. f.kind ≡ OutOfMemory → f ≡ memory_fault) }
    // A text of a well-typed program is compiled to code that does what it means, unless memory runs out.
    ensures every { (p : y.Program) → IsTypedAs (has_loops level) text.now p → MatchResult result (λ v. Behaves p checks (image_of v.image)) (λ f. f.kind ≡ OutOfMemory) }
{
    elaborated();
    placed_is_scoped();
    placed_means_the_same();
    hoisted_is_scoped();
    hoisted_means_the_same();
    prefetched_means_the_same();
    generated_keeps_the_meaning();
    images_are_consistent();
    images_are_accepted();
    let typed = check_text(alloc, text, level)?;
    let middle = lower(alloc, &typed, checks)?;
    let placed = place(alloc, middle)?;
    let hoisted = hoist(alloc, placed)?;
    let scoped = prefetch(alloc, hoisted, piece)?;
    let image = generate(alloc, &scoped, piece)?;
    Ok(verified(alloc, image)?)
}
