//! Laws of the table: functions that do nothing, and whose contracts hold.
ghost use Rattle.instruction_table.specs.Laws.{EachIsFound, EachIsMade, FoundHasCode, MadeOfThese, NoOtherCode};

/// Each instruction has one name and one list of operands, which no other has.
pub fn every_instruction()
    ensures made { EachIsMade }
    ensures coded { MadeOfThese }
{}

/// Each name has one code, which no other has.
pub fn every_name()
    ensures found { EachIsFound }
    ensures code { FoundHasCode }
    ensures none { NoOtherCode }
{}
