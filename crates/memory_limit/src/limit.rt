//! A limit of what a program takes, by what takes it.
ghost use Rattle.memory_limit.specs.Limits.{bytes_of, use_word};
ghost use Rattle.std.specs.Prelude.{◌≡◌, ◌<◌, ◌≤◌, MatchBool, None, Some};

use std::fmt;

/// What takes memory for a program, beside its objects in frames and in the store.
#[derive(Clone, Copy, Debug, PartialEq, Eq)]
pub enum MemoryUse {
    /// The calls that are under way: what each holds, and what it has still to do.
    Calls,
    /// What was printed.
    Output,
    /// What was allocated, where it stands in no object.
    Heap,
}

impl fmt::Display for MemoryUse {
    ghost output = { λ used. Some (use_word used) };

    fn fmt<W: fmt::Write>(&self, f: &mut fmt::Formatter<W>) -> fmt::Result {
        match self {
            MemoryUse::Calls => write!(f, "calls"),
            MemoryUse::Output => write!(f, "output"),
            MemoryUse::Heap => write!(f, "heap"),
        }
    }
}

/// How many bytes each use of memory may come to, and the one that was last found to have come to more.
#[derive(Clone, Copy, Debug, PartialEq, Eq)]
pub struct MemoryLimit {
    pub bytes: u64,
    pub passed: Option<MemoryUse>,
}

impl MemoryLimit {
    /// A limit of so many MiB; of all that numbers of 64 bits tell where it is 0.
    pub fn of_mebibytes(count: u32) -> MemoryLimit
        ensures { result ≡ record { bytes = bytes_of count; passed = None } }
    {
        let bytes = match count {
            0 => u64::MAX,
            count => u64::from(count) * 1_048_576,
        };
        MemoryLimit {
            bytes,
            passed: None,
        }
    }

    /// Whether a use of memory that comes to so many bytes is within the limit. One that is not is kept.
    #[inline(always)]
    pub fn allows(&mut self, used: MemoryUse, bytes: u64) -> bool
        ensures { MatchBool result
            ((bytes ≤ self.old.bytes) × (self.new ≡ self.old))
            ((self.old.bytes < bytes) × (self.new ≡ record { bytes = self.old.bytes; passed = Some used })) }
    {
        if bytes <= self.bytes {
            return true;
        }
        self.passed = Some(used);
        false
    }
}
