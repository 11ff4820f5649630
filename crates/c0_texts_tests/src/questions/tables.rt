//! What no program shows of the tables of names: a struct that is named twice, and the name of a type that is not declared.

use c0_source::fault::{Fault, Span};
use c0_syntax::name::Name;
use c0_syntax::value_type::{TypeKind, ValueType};
use c0_types_tables::names::Names;
use c0_types_tables::resolved::{ResolvedTarget, ResolvedType};
use c0_types_tables::typedefs::Typedefs;
use std::alloc::{AllocError, Global};
use std::fmt::Write;
use std::str::from_utf8;

/// The two lines of a text.
fn two_lines(text: &[u8]) -> (&str, &str) {
    let text = from_utf8(text).unwrap_or("");
    text.split_once('\n').unwrap_or((text, ""))
}

/// These names, in their order.
fn names_of(alloc: Global, line: &str) -> Result<Names, AllocError> {
    let mut names = Names::new(alloc);
    for word in line.split(' ') {
        names.push(String::from_str(alloc, word)?)?;
    }
    Ok(names)
}

/// The number of each name of the second line among those of the first, and where it is not there, the number that it would have.
pub(crate) fn numbered(alloc: Global, text: &[u8]) -> Result<Vec<u8>, Fault> {
    let (line, asked) = two_lines(text);
    let names = names_of(alloc, line)?;
    let mut told = String::new(alloc);
    for word in asked.split(' ') {
        let number = names.number(word);
        let found = names.get(word);
        writeln!(told, "{word} {number} {found:?}")?;
    }
    Ok(told.into_bytes())
}

/// This name, which begins there.
fn name(alloc: Global, text: &str, start: usize) -> Result<Name, AllocError> {
    Ok(Name {
        text: String::from_str(alloc, text)?,
        span: Span { start, end: start },
    })
}

/// The type of pointers to what this name stands for, as it is written at the beginning of a text.
fn written(alloc: Global, name: Name) -> Result<ValueType, AllocError> {
    let span = Span { start: 0, end: 0 };
    let kind = TypeKind::Named(name);
    let target = Box::new(alloc, ValueType { kind, span })?;
    let kind = TypeKind::Pointer(target);
    Ok(ValueType { kind, span })
}

/// Where the name of the first line stands for `int`: the type of pointers to what the name of the second stands for, and whether those point to an `int`.
pub(crate) fn pointer(alloc: Global, text: &[u8]) -> Result<Vec<u8>, Fault> {
    let (known, asked) = two_lines(text);
    let mut typedefs = Typedefs::new(alloc);
    typedefs.insert(&name(alloc, known, 0)?, ResolvedType::INT)?;
    let written = written(alloc, name(alloc, asked, known.len().saturating_add(1))?)?;
    let resolved = typedefs.resolve(alloc, &written)?;
    let number = ResolvedType::INT;
    let same = resolved == ResolvedType::Pointer(ResolvedTarget::of(alloc, number)?);
    Ok(format!(in alloc; "{resolved:?} {same}")?.into_bytes())
}
