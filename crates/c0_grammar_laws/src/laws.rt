//! What holds of all tokens: each function computes nothing, and its contract is the law.

ghost use Rattle.c0_grammar_laws.specs.Laws.{FaultsAreCaused, FaultsAreFirst, LexedAreTokens, LimitsAreThese, NamesAreTooMany, NoneIsShallow, OneProgram, ReadsExactly, SyntaxExcludes};
ghost use Rattle.c0_grammar_laws.specs.WorkedTokens.{ConditionOnLastLevel, IfOnLastLevel, StatementBelow};

/// No tokens read as two programs.
pub fn one_program()
    ensures { OneProgram }
{}

/// What reading from left to right gives is what the tokens read as, and where it meets a fault they read as nothing.
pub fn reads_exactly()
    ensures { ReadsExactly }
{}

/// The tokens that the lexer gives of a text are what the parser takes.
pub fn lexed_are_tokens()
    ensures { LexedAreTokens }
{}

/// Where reading meets a fault at a token, no program begins with the tokens up to and with that one. One name too many may be told
/// of a name that stands before the token which tells so.
pub fn faults_are_caused()
    ensures { FaultsAreCaused }
{}

/// The limits within which tokens read as a program: 200 nodes on a path, 1024 locals with parameters in a function, 4096 functions.
pub fn limits_are_these()
    ensures { LimitsAreThese }
{}

/// Where reading meets fault 20 or 21, the tokens before that place begin a program, of at most one level or one local more than the
/// limits: no earlier token is at fault.
pub fn faults_are_first()
    ensures { FaultsAreFirst }
{}

/// Where reading meets fault 20 or 21 at a token, each program that begins with the tokens up to and with that one is too deep,
/// however many names it declares.
pub fn none_is_shallow()
    ensures { NoneIsShallow }
{}

/// Where reading meets fault 20 at a token, no program begins with the tokens up to and with that one, whatever limits it has.
pub fn syntax_excludes()
    ensures { SyntaxExcludes }
{}

/// Where reading meets fault 22, it is told of a name, the first too many in its function or the first function too many.
pub fn names_are_too_many()
    ensures { NamesAreTooMany }
{}

/// Where reading stops on the last level that there is, and below it.
pub fn last_levels()
    ensures token { IfOnLastLevel }
    ensures condition { ConditionOnLastLevel }
    ensures statement { StatementBelow }
{}
