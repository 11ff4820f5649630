//! What is promised of every program in which scopes are placed: functions that do nothing, and whose contracts hold.
ghost use Rattle.scope_placement.specs.Laws.{AsksTheSame, IsAlwaysScoped, KeepsTheMeaning, MeansTheSame, StaysGuarded, StaysWellFormed};
ghost use Rattle.scope_placement.specs.Placed.{most_open, whole};
ghost use Rattle.scope_placement.specs.Worked.{calling, calling_placed, many, many_placed, returning, returning_placed, shared, shared_placed};
ghost use Rattle.std.specs.Prelude.{◌≡◌, []};

use scoped_laws::scoped_means_the_same;

/// Without its scopes it means what it did, within every number of turns, also where it is stuck.
pub fn placed_keeps_the_meaning()
    ensures { KeepsTheMeaning }
{}

/// It keeps the discipline of scopes.
pub fn placed_is_scoped()
    ensures { IsAlwaysScoped }
{}

/// With its scopes it means what it did without any, within every number of turns, also where it is stuck.
pub fn placed_means_the_same()
    ensures { MeansTheSame }
{
    scoped_means_the_same();
}

/// Without its scopes it is well formed exactly where it was.
pub fn placed_is_well_formed()
    ensures { StaysWellFormed }
{}

/// Without its scopes it checks each place before it is used exactly where it did, and it asks for the same checks.
pub fn placed_is_guarded()
    ensures guarded { StaysGuarded }
    ensures asked { AsksTheSame }
{}

/// What comes in place of four programs' code, and how many scopes are open at once: two loads through one register share a scope; a register that comes
/// again has its scope still; the fourth scope serves the fifth register too; and a call ends a run.
pub fn computed()
    ensures shared { whole shared ≡ shared_placed }
    ensures returning { whole returning ≡ returning_placed }
    ensures many { whole many ≡ many_placed }
    ensures calling { whole calling ≡ calling_placed }
    ensures shared_most { most_open shared [] ≡ 1 }
    ensures returning_most { most_open returning [] ≡ 2 }
    ensures many_most { most_open many [] ≡ 4 }
    ensures calling_most { most_open calling [] ≡ 1 }
{}
