//! How often calls failed.
ghost use Rattle.std.specs.Prelude.{◌≡◌, ◌+◌, ◌%◌};

use remote_store::{Cause, Failed};

/// How many calls failed, modulo 2^64.
#[derive(Clone, Copy)]
pub(crate) struct Failures {
    pub(crate) count: u64,
}

impl Failures {
    /// None failed yet.
    pub(crate) fn none() -> Failures
        ensures { result.count ≡ 0 }
    {
        Failures { count: 0 }
    }

    /// One more failed, for this cause.
    pub(crate) fn failed(&mut self, cause: Cause) -> Failed
        ensures count { self.new.count ≡ (self.old.count + 1) % 18446744073709551616 }
        ensures cause { result.cause ≡ cause }
    {
        self.count = self.count.wrapping_add(1);
        Failed { cause }
    }
}
