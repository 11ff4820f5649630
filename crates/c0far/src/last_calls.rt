//! Which function was called last where calls passed the limit of memory.
ghost use Rattle.std.specs.Prelude.{◌≡◌, ℕ, string_bytes};
ghost use Rattle.command_messages.specs.Shown.{StandsAt, call_line};
ghost use Rattle.streams.specs.Streams.{IsWritten, writes};

use c0_front::read_text;
use c0_source::position::{Position, line_column};
use c0_syntax::level::Level;
use c0_syntax::name::Name;
use c0_syntax::program::{DeclarationKind, Program};
use std::alloc::Global;
use streams::{Failed, Stream};

/// The name of the function of this number, counted from 0 in the order of their definitions.
fn defined(program: &Program, number: usize) -> Option<&Name> {
    let mut left = number;
    for declaration in &program.declarations {
        if let DeclarationKind::DefineFunction(header, _) = &declaration.kind {
            if left == 0 {
                return Some(&header.name);
            }
            left -= 1;
        }
    }
    None
}

/// The name of the function of a text that has this number, if it has one, and the text can be read.
pub(crate) fn called(
    alloc: Global,
    text: &[u8],
    level: Level,
    call: Option<usize>,
) -> Option<Name> {
    let Some(number) = call else {
        return None;
    };
    let Ok(program) = read_text(alloc, text, level) else {
        return None;
    };
    let Some(name) = defined(&program, number) else {
        return None;
    };
    match name.text.clone() {
        Ok(text) => Some(Name {
            text,
            span: name.span,
        }),
        Err(_refused) => None,
    }
}

/// Writes that a function of this name was called last, which stands at a place of a file's text.
fn write_name<E: Stream>(
    err: &mut E,
    file: &str,
    position: Position,
    name: &str,
) -> Result<(), Failed>
    ensures { IsWritten (writes E.contents E.failures err.old err.new) (call_line file.now position.line position.column name.now) result }
{
    let line = position.line;
    let column = position.column;
    writeln!(err, "{file}:{line}:{column}: the last call was of {name}")
}

/// Writes that the function of this name was called last, of a text that stands in this file.
pub(crate) fn write_call<E: Stream>(
    err: &mut E,
    file: &str,
    text: &[u8],
    name: &Name,
) -> Result<(), Failed>
    ensures { (line : ℕ) × (column : ℕ) × StandsAt text.now name.now.span.start line column
        × IsWritten (writes E.contents E.failures err.old err.new) (call_line file.now line column (string_bytes name.now.text)) result }
{
    let position = line_column(text, name.span.start);
    write_name(err, file, position, &name.text)
}
