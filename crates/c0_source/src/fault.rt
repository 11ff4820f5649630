//! What can be wrong with a program, and where.

ghost use Rattle.std.specs.Prelude.{◌≡◌, ◌<◌, Some};
ghost use Rattle.c0_source.specs.FaultLines.{fault_line, name_of_kind};
ghost use Rattle.c0_source.specs.FaultNumbers.{byte_fault, fault_number, memory_fault};

use std::alloc::{AllocError, AllocFailed};
use std::fmt;
use thiserror::Error;

/// A part of a text: from the byte at `start` to before the byte at `end`.
#[derive(Clone, Copy, Debug, PartialEq, Eq)]
pub struct Span {
    pub start: usize,
    pub end: usize,
}

/// What is wrong. Each kind has a number, by which it is shown and tested.
#[derive(Clone, Copy, Debug, PartialEq, Eq)]
pub enum FaultKind {
    /// A byte over 127.
    BadByte = 10,
    /// Bytes that are no token, a number out of range among them.
    BadToken = 11,
    /// A comment or an annotation that is not closed.
    OpenComment = 12,
    /// Tokens that are no program.
    Syntax = 20,
    /// A tree with more than 200 nodes on a path.
    TooDeep = 21,
    /// A text, a function, a program or a struct beyond its limit.
    TooLarge = 22,
    /// A name that is not declared.
    UnknownName = 30,
    /// A field that its struct does not have.
    UnknownField = 31,
    /// A name that is declared twice.
    DuplicateName = 32,
    /// A type where another one is needed.
    TypeMismatch = 33,
    /// A struct or an array where a value of one cell is needed.
    NotSmall = 34,
    /// `void` where a value is needed.
    VoidUse = 35,
    /// A call with too many or too few arguments.
    ArgumentCount = 36,
    /// An assignment to what is no destination.
    NotDestination = 37,
    /// A local that is read where it may have no value.
    NotAssigned = 38,
    /// A function that may run off its end.
    NoReturn = 39,
    /// A function that is called and not defined.
    NotDefined = 40,
    /// A `main` that is missing or has the wrong type.
    BadMain = 41,
    /// A struct whose fields are not known yet.
    StructNotComplete = 42,
    /// `NULL` where a cell is read or written.
    NullDereference = 43,
    /// A contract in the wrong place.
    BadContract = 44,
    /// A declaration that differs from an earlier one.
    DeclMismatch = 45,
    /// A declaration as the third part of a `for`.
    StepDeclares = 46,
    /// A library that is not known.
    BadUse = 47,
    /// `break` or `continue` outside of the loops of its function.
    NotInLoop = 48,
    /// Memory ran out.
    OutOfMemory = 50,
}

impl FaultKind {
    /// The number of the kind.
    pub fn number(self) -> u8
        ensures { result ≡ fault_number self }
    {
        self as u8
    }

    /// The name of the kind, by which it is shown.
    pub fn name(self) -> &'static str
        ensures { result.now ≡ name_of_kind self }
    {
        match self {
            FaultKind::BadByte => "BadByte",
            FaultKind::BadToken => "BadToken",
            FaultKind::OpenComment => "OpenComment",
            FaultKind::Syntax => "Syntax",
            FaultKind::TooDeep => "TooDeep",
            FaultKind::TooLarge => "TooLarge",
            FaultKind::UnknownName => "UnknownName",
            FaultKind::UnknownField => "UnknownField",
            FaultKind::DuplicateName => "DuplicateName",
            FaultKind::TypeMismatch => "TypeMismatch",
            FaultKind::NotSmall => "NotSmall",
            FaultKind::VoidUse => "VoidUse",
            FaultKind::ArgumentCount => "ArgumentCount",
            FaultKind::NotDestination => "NotDestination",
            FaultKind::NotAssigned => "NotAssigned",
            FaultKind::NoReturn => "NoReturn",
            FaultKind::NotDefined => "NotDefined",
            FaultKind::BadMain => "BadMain",
            FaultKind::StructNotComplete => "StructNotComplete",
            FaultKind::NullDereference => "NullDereference",
            FaultKind::BadContract => "BadContract",
            FaultKind::DeclMismatch => "DeclMismatch",
            FaultKind::StepDeclares => "StepDeclares",
            FaultKind::BadUse => "BadUse",
            FaultKind::NotInLoop => "NotInLoop",
            FaultKind::OutOfMemory => "OutOfMemory",
        }
    }
}

/// What is wrong with a program, and where. It is shown as `fault NUMBER NAME`.
#[derive(Clone, Copy, Debug, PartialEq, Eq, Error)]
pub struct Fault {
    pub kind: FaultKind,
    pub span: Span,
}

impl Fault {
    /// A fault at one byte, or at the text's end.
    pub fn at(kind: FaultKind, start: usize) -> Fault
        requires { start < usize.MAX }
        ensures { result ≡ byte_fault kind start }
    {
        Fault {
            kind,
            span: Span {
                start,
                end: start + 1,
            },
        }
    }

    /// Want of memory, which has no place: its span is empty, at the text's start.
    pub fn out_of_memory() -> Fault
        ensures { result ≡ memory_fault }
    {
        Fault {
            kind: FaultKind::OutOfMemory,
            span: Span { start: 0, end: 0 },
        }
    }
}

// By hand: a `Display` that the derive of `Error` writes does not state its text. With no message it writes none.
impl fmt::Display for Fault {
    ghost output = { λ fault. Some (fault_line fault) };

    fn fmt<W: fmt::Write>(&self, f: &mut fmt::Formatter<W>) -> fmt::Result {
        write!(f, "fault {} {}", self.kind.number(), self.kind.name())
    }
}

impl From<AllocError> for Fault {
    ghost use Rattle.c0_source.specs.FaultNumbers.{memory_fault};

    ghost from_gives = { λ _ f. f ≡ memory_fault };

    fn from(_: AllocError) -> Fault {
        Fault::out_of_memory()
    }
}

impl<T: Drop> From<AllocFailed<T>> for Fault {
    ghost use Rattle.c0_source.specs.FaultNumbers.{memory_fault};

    ghost from_gives = { λ _ f. f ≡ memory_fault };

    fn from(_: AllocFailed<T>) -> Fault {
        Fault::out_of_memory()
    }
}
