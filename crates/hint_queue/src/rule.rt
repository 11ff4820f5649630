//! The rule of the queue of hints.
use crossbeam_queue::protocol::{Lesson, Outcome, Protocol, Split};

/// What a pass knows: below which number the objects of the admitted programs are. No value of it is made.
pub struct KnowsObjects {
    pub objects: Option<u64>,
}

/// Each hint is below the number that all passes know.
pub struct Named;

impl Protocol<usize, KnowsObjects> for Named {
    ghost use Rattle.hint_queue.specs.Named.{AllNamed, unknown};

    ghost holds = { AllNamed };

    ghost first = { unknown };
}

/// The first pass puts the last object of all, and from then on knows the number.
pub struct Founds;

impl Outcome<usize, KnowsObjects> for Founds {
    ghost use Rattle.std.specs.Prelude.{◌≡◌, suc};
    ghost use Rattle.hint_queue.specs.Named.{knows};

    ghost then = { λ v x w. w ≡ knows (suc x) };
}

/// A hint is put. The pass knows the same.
pub struct Puts;

impl Outcome<usize, KnowsObjects> for Puts {
    ghost use Rattle.std.specs.Prelude.{◌≡◌};

    ghost then = { λ v x w. w ≡ v };
}

impl Lesson<usize, KnowsObjects> for Puts {
    ghost use Rattle.std.specs.Prelude.{⊤};

    ghost fact = { λ v items. ⊤ };
}

/// A hint is taken. It is below the number.
pub struct Takes;

impl Outcome<usize, KnowsObjects> for Takes {
    ghost use Rattle.std.specs.Prelude.{◌≡◌, ◌<◌};
    ghost use Rattle.hint_queue.specs.Named.{number};

    ghost then = { λ v x w. (w ≡ v) × (x < number v) };
}

impl Lesson<usize, KnowsObjects> for Takes {
    ghost use Rattle.std.specs.Prelude.{⊤};

    ghost fact = { λ v items. ⊤ };
}

/// A new pass knows the same.
pub struct Same;

impl Split<KnowsObjects> for Same {
    ghost use Rattle.hint_queue.specs.Named.{knows, number};

    ghost left = { λ v. knows (number v) };

    ghost right = { λ v. knows (number v) };
}
