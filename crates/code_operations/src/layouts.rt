//! The sizes of layouts.
ghost use Rattle.code_operations.specs.Layouts.{are_small as are_small_in};
ghost use Rattle.std.specs.Prelude.{◌≡◌, map};

use code_form::Kind;

/// Whether each layout has fewer than 2^32 cells.
pub fn are_small(layouts: &[Vec<Kind>]) -> bool
    ensures { result ≡ are_small_in (map (λ l. l.items) layouts.now) }
{
    for layout in layouts {
        if layout.len() >= 1 << 32 {
            return false;
        }
    }
    true
}
