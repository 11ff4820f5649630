//! What holds of all texts, and what small texts are: each function computes nothing, and its contract is the law.

ghost use Rattle.c0_source.specs.Laws.{OneSpelling, FaultExcludes, OneFault, EachTextIsTold, TokensRise, BlankEnds};
ghost use Rattle.c0_source.specs.WorkedTexts.{WorkedSpellings, WorkedFaults};

/// No text spells two lists of tokens.
pub fn one_spelling()
    ensures { OneSpelling }
{}

/// A text with a fault spells no tokens.
pub fn fault_excludes()
    ensures { FaultExcludes }
{}

/// No text has two faults.
pub fn one_fault()
    ensures { OneFault }
{}

/// Each text spells tokens or has a fault.
pub fn each_text_is_told()
    ensures { EachTextIsTold }
{}

/// The tokens of a text are parts of it, one behind the other.
pub fn tokens_rise()
    ensures { TokensRise }
{}

/// A blank ends each token.
pub fn blank_ends()
    ensures { BlankEnds }
{}

/// Small texts spell these tokens.
pub fn worked_spellings()
    ensures { WorkedSpellings }
{}

/// Small texts have these faults.
pub fn worked_faults()
    ensures { WorkedFaults }
{}
