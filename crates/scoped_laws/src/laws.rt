//! What is promised of all scoped code: functions that do nothing, and whose contracts hold.
ghost use Rattle.scoped_laws.specs.Laws.{MeansTheSame};

/// Scoped code that keeps the discipline means what it means without its scopes, for every number of turns: it prints the same, ends the same way, and is
/// stuck where that is.
pub fn scoped_means_the_same()
    ensures { MeansTheSame }
{}
