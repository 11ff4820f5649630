//! What is promised of every program in whose loops hints are set: functions that do nothing, and whose contracts hold.
ghost use Rattle.prefetch_pass.specs.Laws.{AsksTheSame, HasTheSameScopes, KeepsTheMeaning, KeepsThePlaces, MeansTheSame, StaysGuarded, StaysScoped, StaysWellFormed};
ghost use Rattle.prefetch_pass.specs.Worked.{by_register, far, far_hinted, lowered, lowered_by_sum, outer, outer_hinted, raised_inside, raised_inside_hinted, scan, scan_hinted, set_inside, set_too, setting, setting_hinted, with_hints};
ghost use Rattle.std.specs.Prelude.{◌≡◌};

use scoped_laws::scoped_means_the_same;

/// Without its scopes it means what it did, within every number of turns, also where it is stuck.
pub fn prefetched_keeps_the_meaning()
    ensures { KeepsTheMeaning }
{}

/// It keeps the discipline of scopes where it did.
pub fn prefetched_is_scoped()
    ensures { StaysScoped }
{}

/// With its scopes it means what it did, where it kept the discipline, within every number of turns, also where it is stuck.
pub fn prefetched_means_the_same()
    ensures { MeansTheSame }
{
    scoped_means_the_same();
}

/// Without its scopes it is well formed exactly where it was.
pub fn prefetched_is_well_formed()
    ensures { StaysWellFormed }
{}

/// Without its scopes it checks each place before it is used exactly where it did, and it asks for the same checks.
pub fn prefetched_is_guarded()
    ensures guarded { StaysGuarded }
    ensures asked { AsksTheSame }
{}

/// Each place that it loads, stores or aims at is one that it loaded, stored or aimed at before.
pub fn prefetched_keeps_the_places()
    ensures { KeepsThePlaces }
{}

/// Each function has as many scopes as it had.
pub fn prefetched_has_the_same_scopes()
    ensures { HasTheSameScopes }
{}

/// What comes in place of ten loops. A scan has its hint, a piece further on whatever the size of pieces, and so has a store at an index that is raised by 3;
/// of two displacements the one that a piece more keeps within 32 bits. An index that is lowered, by a difference or by a number below 0, set otherwise, or
/// raised by what a register holds has none. One that the loop round it raises has it, unless the inner loop sets it; and the inner loop alone decides of one
/// that it raises.
pub fn computed()
    ensures scan { with_hints 64 scan ≡ scan_hinted 64 }
    ensures least { with_hints 16 scan ≡ scan_hinted 16 }
    ensures most { with_hints 256 scan ≡ scan_hinted 256 }
    ensures setting { with_hints 64 setting ≡ setting_hinted }
    ensures far { with_hints 64 far ≡ far_hinted }
    ensures lowered { with_hints 64 lowered ≡ lowered }
    ensures sum { with_hints 64 lowered_by_sum ≡ lowered_by_sum }
    ensures set { with_hints 64 set_too ≡ set_too }
    ensures register { with_hints 64 by_register ≡ by_register }
    ensures outer { with_hints 64 outer ≡ outer_hinted }
    ensures set_inside { with_hints 64 set_inside ≡ set_inside }
    ensures raised_inside { with_hints 64 raised_inside ≡ raised_inside_hinted }
{}
