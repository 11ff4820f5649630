//! What is printed of a fault.
ghost use Rattle.c0_source.specs.FaultLines.{fault_line};
ghost use Rattle.std.specs.Io.KnownBytes.{Appends};
ghost use Rattle.std.specs.Prelude.{◌≡◌, ◌++◌, IfOk, OnOk, codes, string_bytes};

use c0_source::fault::{Fault, FaultKind};
use std::alloc::{AllocError, AllocFailed, Global};
use std::fmt::Write as FmtWrite;
use std::io;
use std::io::Write;

const KINDS: [FaultKind; 26] = [
    FaultKind::BadByte,
    FaultKind::BadToken,
    FaultKind::OpenComment,
    FaultKind::Syntax,
    FaultKind::TooDeep,
    FaultKind::TooLarge,
    FaultKind::UnknownName,
    FaultKind::UnknownField,
    FaultKind::DuplicateName,
    FaultKind::TypeMismatch,
    FaultKind::NotSmall,
    FaultKind::VoidUse,
    FaultKind::ArgumentCount,
    FaultKind::NotDestination,
    FaultKind::NotAssigned,
    FaultKind::NoReturn,
    FaultKind::NotDefined,
    FaultKind::BadMain,
    FaultKind::StructNotComplete,
    FaultKind::NullDereference,
    FaultKind::BadContract,
    FaultKind::DeclMismatch,
    FaultKind::StepDeclares,
    FaultKind::BadUse,
    FaultKind::NotInLoop,
    FaultKind::OutOfMemory,
];

/// What a caller knows of the text of a fault.
fn text_of(alloc: Global, fault: &Fault) -> Result<String, AllocError>
    ensures { IfOk result (λ text. string_bytes text ≡ fault_line fault.now) }
{
    format!(in alloc; "{fault}")
}

/// What a caller knows of a line that it writes.
fn say<O: Write>(out: &mut O, fault: Fault) -> io::Result<()>
    ensures { OnOk result (Appends (O.contents out.old) (O.contents out.new) (fault_line fault ++ codes "\n")) }
{
    writeln!(out, "{fault}")
}

/// The kind of this number.
fn kind(number: u8) -> Option<FaultKind> {
    for kind in KINDS {
        if kind.number() == number {
            return Some(kind);
        }
    }
    None
}

/// The fault of these words.
fn fault(words: &[&str]) -> Option<Fault> {
    match words {
        ["memory"] => Some(Fault::out_of_memory()),
        ["refused"] => Some(Fault::from(AllocError)),
        ["refused", value] => {
            let value: u32 = value.parse().ok()?;
            Some(Fault::from(AllocFailed { value }))
        }
        [number, start] => {
            let start: u16 = start.parse().ok()?;
            Some(Fault::at(kind(number.parse().ok()?)?, usize::from(start)))
        }
        _ => None,
    }
}

/// What is shown of the fault of these words, where the same is written of it; its kind, and where it is.
pub(crate) fn put_fault(alloc: Global, words: &[&str], told: &mut String) -> io::Result<()> {
    let Some(fault) = fault(words) else {
        return Ok(told.push_str("no fault")?);
    };
    let mut written = Vec::new(alloc);
    say(&mut written, fault)?;
    let text = text_of(alloc, &fault)?;
    told.push_str(text.as_str())?;
    if written.strip_suffix(b"\n") != Some(text.as_bytes()) {
        told.push_str(", and otherwise as a line")?;
    }
    let kind = fault.kind;
    let start = fault.span.start;
    let end = fault.span.end;
    Ok(write!(told, ": {kind:?} from {start} to {end}")?)
}
