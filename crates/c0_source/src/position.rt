//! Lines and columns of a text.

ghost use Rattle.std.specs.Prelude.{◌≡◌, ℕ, ◌+◌, ◌-◌, ◌==◌, count_by, length, min, take};
ghost use Rattle.c0_source.specs.Lines.{BeginsLine};

/// A place in a text as people count it: lines and columns from 1, one column a byte.
#[derive(Clone, Copy, Debug, PartialEq, Eq)]
pub struct Position {
    pub line: usize,
    pub column: usize,
}

/// The line and the column of the byte at `at`; a place past the end counts as the end. A line ends at byte 10 alone.
pub fn line_column(bytes: &[u8], at: usize) -> Position
    // One more than there are newlines before the place.
    ensures line { result.line ≡ count_by (λ b. b == 10) (take at bytes.now) + 1 }
    // One more than there are bytes between the line's start and the place.
    ensures column { let place = min at (length bytes.now) in
        (start : ℕ) × BeginsLine bytes.now place start × (result.column ≡ place - start + 1) }
{
    let place = at.min(bytes.len());
    let newlines = bytes[..place].iter().filter(|b| **b == b'\n').count();
    let mut start = place;
    while start > 0 && bytes[start - 1] != b'\n' {
        start -= 1;
    }
    Position {
        line: newlines + 1,
        column: place - start + 1,
    }
}
