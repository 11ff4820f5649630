//! What holds of the static rules: each function computes nothing, and its contract is the law.

ghost use Rattle.c0_rules.specs.Laws.{ElaboratedFits};
ghost use Rattle.c0_rules.specs.WorkedPairs.{AreAccepted, AreRefused, AreTold};

/// The typed tree of a program is well typed.
pub fn elaborated()
    ensures { ElaboratedFits }
{}

/// For each fault of the static rules, two small programs or more that are refused for it.
pub fn refused_texts()
    ensures refused { AreRefused }
    ensures told { AreTold }
{}

/// Beside each of these, a program that differs little and is accepted.
pub fn accepted_texts()
    ensures { AreAccepted }
{}
