//! The laws of lowering: functions that do nothing, and whose contracts hold.
ghost use Rattle.lower.specs.Laws.{LoweredMeansTheSame, SameProgramSameCode};

/// The structured code of a well-typed program means what the program does, for every number of turns, with contracts checked
/// or not.
pub fn lowered_means_the_same()
    ensures { LoweredMeansTheSame }
{}

/// The structured code of a program is one, whichever typed tree it is made of: trees may number the texts of their constants otherwise.
pub fn same_program_same_code()
    ensures { SameProgramSameCode }
{}
