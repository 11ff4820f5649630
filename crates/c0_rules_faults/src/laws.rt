//! What holds of the static rules and of the causes of faults: functions that compute nothing, and whose contracts are the laws.

ghost use Rattle.c0_rules_faults.specs.Exits.{ExitsStandInLoops};
ghost use Rattle.c0_rules_faults.specs.Laws.{CausesRefuse, RefusalsAreCaused, WorkedAreCaused};
ghost use Rattle.c0_rules_faults.specs.Turns.{ThirdPartSees};

/// A program in which a fault has its cause breaks a static rule.
pub fn causes_refuse()
    ensures { CausesRefuse }
{}

/// In a program that breaks a static rule some fault has its cause.
pub fn refusals_are_caused()
    ensures { RefusalsAreCaused }
{}

/// The refused program of each worked pair has in it the cause of the fault whose number the pair has.
pub fn worked_are_caused()
    ensures { WorkedAreCaused }
{}

/// The third part of a `for` lacks just those locals that the body's end lacks, or a `continue` that ends a turn.
pub fn third_part_sees()
    ensures { ThirdPartSees }
{}

/// In a program that keeps the static rules each `break` and `continue` stands in a loop of its function.
pub fn exits_stand_in_loops()
    ensures { ExitsStandInLoops }
{}
