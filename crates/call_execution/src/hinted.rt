//! The cells of which hints were given last.
ghost use Rattle.call_execution.specs.Hinting.{has_cell, has_one, is_hinted};
ghost use Rattle.std.specs.Prelude.{◌≡◌, ◌∷◌, ℕ, not, take};

/// How many stretches are kept in mind that came last: a loop may come to a few arrays by turns.
const RECENT: usize = 8;

/// Cells of an allocation one behind the other, from number `first` on, before number `end`.
#[derive(Clone, Copy)]
pub struct Stretch {
    pub reference: u64,
    pub first: u64,
    pub end: u64,
}

/// The stretches of which hints were given last, the newest first, and whether anybody listens to hints.
#[derive(Clone, Copy)]
pub struct Hinted {
    listens: bool,
    stretches: [Stretch; RECENT],
}

impl Stretch {
    /// Whether the cell is in it.
    #[inline(always)]
    fn has(&self, reference: u64, index: u64) -> bool
        ensures { result ≡ has_cell self.now reference index }
    {
        self.reference == reference && self.first <= index && index < self.end
    }
}

/// Whether the cell is in one of these.
#[inline(always)]
fn have(stretches: &[Stretch], reference: u64, index: u64) -> bool
    ensures { result ≡ has_one stretches.now reference index }
{
    for stretch in stretches {
        if stretch.has(reference, index) {
            return true;
        }
    }
    false
}

impl Hinted {
    /// No hint was given yet.
    pub fn new(listens: bool) -> Hinted
        ensures { (r i : ℕ) → is_hinted result r i ≡ not listens }
    {
        Hinted {
            listens,
            stretches: [Stretch {
                reference: 0,
                first: 0,
                end: 0,
            }; RECENT],
        }
    }

    /// Whether a hint of this cell tells nothing new, or nobody listens.
    #[inline(always)]
    pub fn has(&self, reference: u64, index: u64) -> bool
        ensures { result ≡ is_hinted self.now reference index }
    {
        !self.listens || have(&self.stretches, reference, index)
    }

    /// Keeps in mind that a hint was given of a stretch, and forgets the oldest. The newest is looked at first: a loop comes to its cells again and again.
    pub fn add(&mut self, stretch: Stretch)
        ensures listens { self.new.listens ≡ self.old.listens }
        ensures kept { self.new.stretches ≡ stretch ∷ take 7 self.old.stretches }
    {
        self.stretches.rotate_right(1);
        self.stretches[0] = stretch;
    }
}
