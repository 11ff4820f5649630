//! What is promised of every program out of whose loops guards are taken: functions that do nothing, and whose contracts hold.
ghost use Rattle.guard_hoisting.specs.Laws.{AsksTheSame, HasFewScopes, KeepsTheMeaning, KeepsThePlaces, MeansTheSame, StaysGuarded, StaysScoped, StaysWellFormed};

use scoped_laws::scoped_means_the_same;

/// Without its scopes it means what it did, within every number of turns, also where it is stuck.
pub fn hoisted_keeps_the_meaning()
    ensures { KeepsTheMeaning }
{}

/// It keeps the discipline of scopes where it did.
pub fn hoisted_is_scoped()
    ensures { StaysScoped }
{}

/// With its scopes it means what it did, where it kept the discipline, within every number of turns, also where it is stuck.
pub fn hoisted_means_the_same()
    ensures { MeansTheSame }
{
    scoped_means_the_same();
}

/// Without its scopes it is well formed exactly where it was.
pub fn hoisted_is_well_formed()
    ensures { StaysWellFormed }
{}

/// Without its scopes it checks each place before it is used exactly where it did, and it asks for the same checks.
pub fn hoisted_is_guarded()
    ensures guarded { StaysGuarded }
    ensures asked { AsksTheSame }
{}

/// Each place that it loads, stores or aims at is one that it loaded, stored or aimed at before.
pub fn hoisted_keeps_the_places()
    ensures { KeepsThePlaces }
{}

/// Each function has at most four scopes, where it had no more.
pub fn hoisted_has_few_scopes()
    ensures { HasFewScopes }
{}
