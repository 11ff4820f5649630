//! What is told of a text.

use crate::questions::tables::{numbered, pointer};
use crate::questions::trees::{shapes, tree};
use c0_front::{check_text, read_text};
use c0_lexer::lex::lex;
use c0_source::fault::Fault;
use c0_source::position::line_column;
use c0_source::source::Source;
use c0_syntax::level::Level;
use c0_syntax::print::print;
use std::alloc::{AllocError, Global};

/// What is asked of a text.
#[derive(Clone, Copy, Debug, PartialEq, Eq)]
pub(crate) enum Question {
    /// Its tokens, a line for each.
    Tokens,
    /// What its tokens are, a line for each.
    Kinds,
    /// How many tokens it has.
    Count,
    /// Whether it reads as a program.
    Read,
    /// The same, where loops may be left by `break` and `continue`.
    ReadLoops,
    /// What is printed of the program that it reads as, where loops may be left so.
    Print,
    /// Whether what is printed so is printed of itself.
    PrintAgain,
    /// The tree that it reads as, with the places of its parts.
    Tree,
    /// Of the expressions that it returns, which operand has an operator of its own.
    Shapes,
    /// Whether it is a well-typed program.
    Check,
    /// The same, where loops may be left so.
    CheckLoops,
    /// Its typed tree.
    Typed,
    /// Of a line of names, and a line of names that are looked for: the number of each of these.
    Numbers,
    /// Of a line with the name of a type, which stands for `int`, and a line with a name: the type of pointers to what that one stands for.
    Pointer,
}

impl Question {
    /// What this word asks.
    pub(crate) fn of(word: &str) -> Option<Question> {
        match word {
            "tokens" => Some(Question::Tokens),
            "kinds" => Some(Question::Kinds),
            "count" => Some(Question::Count),
            "read" => Some(Question::Read),
            "read-loops" => Some(Question::ReadLoops),
            "print" => Some(Question::Print),
            "print-again" => Some(Question::PrintAgain),
            "tree" => Some(Question::Tree),
            "shapes" => Some(Question::Shapes),
            "check" => Some(Question::Check),
            "check-loops" => Some(Question::CheckLoops),
            "typed" => Some(Question::Typed),
            "numbers" => Some(Question::Numbers),
            "pointer" => Some(Question::Pointer),
            _ => None,
        }
    }
}

/// A line for each token: what it is, and where that is asked for too, where it begins and its bytes.
fn shown_tokens(alloc: Global, text: &[u8], whole: bool) -> Result<Vec<u8>, Fault> {
    let source = Source::new(alloc, text)?;
    let tokens = lex(alloc, &source)?;
    let mut shown = Vec::new(alloc);
    for token in &tokens {
        if !shown.is_empty() {
            shown.push(b'\n')?;
        }
        let kind = token.kind;
        shown.extend_from_slice(format!(in alloc; "{kind:?}")?.as_bytes())?;
        if whole {
            let start = token.start;
            shown.extend_from_slice(format!(in alloc; " {start} ")?.as_bytes())?;
            shown.extend_from_slice(token.text)?;
        }
    }
    Ok(shown)
}

/// How many tokens the text has.
fn counted(alloc: Global, text: &[u8]) -> Result<Vec<u8>, Fault> {
    let source = Source::new(alloc, text)?;
    let count = lex(alloc, &source)?.len();
    Ok(format!(in alloc; "{count}")?.into_bytes())
}

/// What is printed of the program that a text reads as.
fn printed(alloc: Global, text: &[u8]) -> Result<Vec<u8>, Fault> {
    let program = read_text(alloc, text, Level::Loops)?;
    Ok(print(alloc, &program)?.into_bytes())
}

/// Whether what is printed of the program of a text is printed of itself.
fn printed_again(alloc: Global, text: &[u8]) -> Result<Vec<u8>, Fault> {
    let once = printed(alloc, text)?;
    let twice = printed(alloc, &once)?;
    if once == twice {
        accepted(alloc)
    } else {
        Ok(b"otherwise".to_vec(alloc)?)
    }
}

/// The typed tree of a text.
fn typed(alloc: Global, text: &[u8]) -> Result<Vec<u8>, Fault> {
    let program = check_text(alloc, text, Level::C0)?;
    Ok(format!(in alloc; "{program:?}")?.into_bytes())
}

/// What is told of a text that is accepted.
fn accepted(alloc: Global) -> Result<Vec<u8>, Fault> {
    Ok(b"ok".to_vec(alloc)?)
}

/// The answer, or the fault with which the text is refused.
fn answer(alloc: Global, question: Question, text: &[u8]) -> Result<Vec<u8>, Fault> {
    match question {
        Question::Tokens => shown_tokens(alloc, text, true),
        Question::Kinds => shown_tokens(alloc, text, false),
        Question::Count => counted(alloc, text),
        Question::Read => {
            read_text(alloc, text, Level::C0)?;
            accepted(alloc)
        }
        Question::ReadLoops => {
            read_text(alloc, text, Level::Loops)?;
            accepted(alloc)
        }
        Question::Print => printed(alloc, text),
        Question::PrintAgain => printed_again(alloc, text),
        Question::Tree => tree(alloc, text),
        Question::Shapes => shapes(alloc, text),
        Question::Check => {
            check_text(alloc, text, Level::C0)?;
            accepted(alloc)
        }
        Question::CheckLoops => {
            check_text(alloc, text, Level::Loops)?;
            accepted(alloc)
        }
        Question::Typed => typed(alloc, text),
        Question::Numbers => numbered(alloc, text),
        Question::Pointer => pointer(alloc, text),
    }
}

/// The answer to what is asked of the text, or the line of the fault with which it is refused.
pub(crate) fn tell(alloc: Global, question: Question, text: &[u8]) -> Result<Vec<u8>, AllocError> {
    match answer(alloc, question, text) {
        Ok(told) => Ok(told),
        Err(fault) => {
            let place = line_column(text, fault.span.start);
            let line = place.line;
            let column = place.column;
            Ok(format!(in alloc; "{line}:{column}: {fault}")?.into_bytes())
        }
    }
}
