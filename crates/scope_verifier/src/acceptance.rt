//! Accepted images.
ghost use Rattle.code_form.specs.Code.{Covered, most_scopes};
ghost use Rattle.code_form.specs.Form.{function_of, image_of};
ghost use Rattle.code_verification.specs.Verified.{IsVerified};
ghost use Rattle.scope_verifier_laws.specs.Faults.{fault_of};
ghost use Rattle.scope_verifier_laws.specs.declared.fault.VerifyFault.TheVariants.{OutOfMemory};
ghost use Rattle.std.specs.Prelude.{◌≡◌, ◌≤◌, ◌⊎◌, IfErr, IfOk, None, OnOk, Some, map};

use crate::facts::kinds_and_facts;
use crate::numbers::numbers;
use code_form::{Function, Image};
use scope_verifier_laws::{VerifyFault, accepted_is_verified};
use std::alloc::Global;

/// An image that `verify` accepted: it has no fault.
#[derive(Debug, Drop)]
pub struct Verified {
    image: Image,
    pub ghost no_fault: { fault_of (image_of image) ≡ None },
}

/// The greatest number of scopes of these functions.
fn most(functions: &[Function]) -> u8
    ensures { result ≡ most_scopes (map function_of functions.now) }
{
    let mut scopes = 0;
    for function in functions {
        scopes = scopes.max(function.scopes);
    }
    scopes
}

impl Verified {
    /// The greatest number of scopes of a function, which is how many the image may have open at a time.
    pub fn scopes(&self) -> u32
        ensures most { result ≡ most_scopes (image_of self.now.image).functions }
        ensures few { result ≤ 4 }
    {
        accepted_is_verified();
        u32::from(most(&self.image.functions))
    }

    /// The image.
    pub fn image(&self) -> &Image
        ensures same { result.now ≡ self.now.image }
        ensures accepted { fault_of (image_of result.now) ≡ None }
    {
        &self.image
    }

    /// The image, for good.
    pub fn into_image(self) -> Image
        ensures same { result ≡ self.image }
        ensures accepted { fault_of (image_of result) ≡ None }
    {
        self.image
    }
}

/// Accepts an image that has no fault, or tells its first one. No run of an accepted image is stuck, and none has more scopes open than the function with
/// the most has.
pub fn verify(alloc: Global, image: Image) -> Result<Verified, VerifyFault>
    ensures same { IfOk result (λ v. v.image ≡ image) }
    ensures accepted { OnOk result (fault_of (image_of image) ≡ None) }
    ensures verified { OnOk result (IsVerified (image_of image)) }
    ensures covered { OnOk result (Covered (image_of image)) }
    ensures refused { IfErr result (λ f. (f ≡ OutOfMemory) ⊎ (fault_of (image_of image) ≡ Some f)) }
{
    numbers(&image)?;
    kinds_and_facts(alloc, &image)?;
    accepted_is_verified();
    Ok(Verified { image })
}
