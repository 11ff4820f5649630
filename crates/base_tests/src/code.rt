//! Code with scopes, and the blocks that it becomes.

use cells::Piece;
use code_form::{Kind, Operation, Relation};
use codegen::generate;
use middle_form::{Scoped, ScopedCode, ScopedFunction};
use std::alloc::{AllocError, Global};
use std::fmt::Write;

/// The simple instruction of these words.
fn simple(words: &[&str]) -> Option<Operation> {
    match words {
        ["const", to, value] => Some(Operation::Const {
            to: to.parse().ok()?,
            value: value.parse().ok()?,
        }),
        ["less", to, left, right] => Some(Operation::Compare {
            relation: Relation::Less,
            to: to.parse().ok()?,
            left: left.parse().ok()?,
            right: right.parse().ok()?,
        }),
        ["check-null", register] => Some(Operation::CheckNull {
            register: register.parse().ok()?,
        }),
        ["printint", from] => Some(Operation::Printint {
            from: from.parse().ok()?,
        }),
        _ => None,
    }
}

/// The code of these words, where no other code is a part of it.
fn single(words: &[&str]) -> Option<ScopedCode> {
    match words {
        ["aim", scope, register] => Some(ScopedCode::Aim {
            scope: scope.parse().ok()?,
            register: register.parse().ok()?,
            offset: None,
            displacement: 0,
        }),
        ["load", to, scope, register] => Some(ScopedCode::Load {
            to: to.parse().ok()?,
            scope: scope.parse().ok()?,
            register: register.parse().ok()?,
            offset: None,
            displacement: 0,
        }),
        ["load-by", to, scope, register] => Some(ScopedCode::LoadBy {
            to: to.parse().ok()?,
            scope: scope.parse().ok()?,
            register: register.parse().ok()?,
            offset: None,
            displacement: 0,
        }),
        ["leave", scope] => Some(ScopedCode::Leave(scope.parse().ok()?)),
        ["exit", depth] => Some(ScopedCode::Exit(depth.parse().ok()?)),
        ["fail", text] => Some(ScopedCode::Fail {
            text: text.parse().ok()?,
        }),
        _ => simple(words).map(ScopedCode::Do),
    }
}

/// A loop of the last two parts, which are its test and its body.
fn put_loop(
    alloc: Global,
    parts: &mut Vec<ScopedCode>,
    condition: u32,
) -> Result<bool, AllocError> {
    let Some(body) = parts.pop() else {
        return Ok(false);
    };
    let Some(test) = parts.pop() else {
        return Ok(false);
    };
    let test = Box::new(alloc, test)?;
    let body = Box::new(alloc, body)?;
    parts.push(ScopedCode::Loop {
        test,
        condition,
        body,
    })?;
    Ok(true)
}

/// A sequence of the last parts, so many of them.
fn put_sequence(parts: &mut Vec<ScopedCode>, count: usize) -> Result<bool, AllocError> {
    let Some(others) = parts.len().checked_sub(count) else {
        return Ok(false);
    };
    let sequence = parts.split_off(others)?;
    parts.push(ScopedCode::Sequence(sequence))?;
    Ok(true)
}

/// The code of a line more. Whether there is some.
fn put_code(
    alloc: Global,
    parts: &mut Vec<ScopedCode>,
    words: &[&str],
) -> Result<bool, AllocError> {
    match words {
        ["loop", condition] => match condition.parse() {
            Ok(condition) => put_loop(alloc, parts, condition),
            Err(_) => Ok(false),
        },
        ["sequence", count] => match count.parse() {
            Ok(count) => put_sequence(parts, count),
            Err(_) => Ok(false),
        },
        _ => match single(words) {
            Some(code) => {
                parts.push(code)?;
                Ok(true)
            }
            None => Ok(false),
        },
    }
}

/// The code of these lines, if each has some and the last has all.
fn code(alloc: Global, text: &str) -> Result<Option<ScopedCode>, AllocError> {
    let mut parts = Vec::new(alloc);
    for line in text.split('\n') {
        let words: Vec<&str> = line.split(' ').collect(alloc)?;
        if !put_code(alloc, &mut parts, &words)? {
            return Ok(None);
        }
    }
    Ok(parts.pop())
}

/// The only text of a program.
fn texts(alloc: Global) -> Result<Vec<String>, AllocError> {
    let mut texts = Vec::with_capacity(alloc, 1)?;
    texts.push_reserved(String::from_str(alloc, "no")?);
    Ok(texts)
}

/// The only layout of a program, of one number.
fn layouts(alloc: Global) -> Result<Vec<Vec<Kind>>, AllocError> {
    let mut layouts = Vec::with_capacity(alloc, 1)?;
    layouts.push_reserved(vec![in alloc; Kind::Int]?);
    Ok(layouts)
}

/// `main` alone, with so many scopes and this code: register 0 is its result, 1 is a truth, 2 a number, and 3 a pointer to a number.
fn functions(
    alloc: Global,
    scopes: u8,
    body: ScopedCode,
) -> Result<Vec<ScopedFunction>, AllocError> {
    let kinds = vec![in alloc; Kind::Int, Kind::Bool, Kind::Int, Kind::Ptr(0)]?;
    let mut functions = Vec::with_capacity(alloc, 1)?;
    functions.push_reserved(ScopedFunction {
        result: Some(Kind::Int),
        parameters: 0,
        kinds,
        scopes,
        body,
        value: 0,
    });
    Ok(functions)
}

/// A program of `main` alone, with so many scopes and this code.
fn program(alloc: Global, scopes: u8, body: ScopedCode) -> Result<Scoped, AllocError> {
    let functions = functions(alloc, scopes, body)?;
    let texts = texts(alloc)?;
    Ok(Scoped {
        texts,
        layouts: layouts(alloc)?,
        functions,
    })
}

/// The blocks of a function with so many scopes and this code, a line for each.
fn put_image(
    alloc: Global,
    scopes: u8,
    body: ScopedCode,
    told: &mut String,
) -> Result<(), AllocError> {
    let image = generate(alloc, &program(alloc, scopes, body)?, Piece::Cells64)?;
    let Some(main) = image.functions.first() else {
        return Ok(());
    };
    for block in &main.blocks {
        if !told.is_empty() {
            told.push('\n')?;
        }
        write!(told, "{block:?}")?;
    }
    Ok(())
}

/// The number of scopes, and the code that stands behind it.
fn parts_of(text: &str) -> Option<(u8, &str)> {
    let (scopes, lines) = text.split_once('\n')?;
    Some((scopes.parse().ok()?, lines))
}

/// The blocks of the function that this text has.
pub(crate) fn put_blocks(alloc: Global, text: &str, told: &mut String) -> Result<(), AllocError> {
    let Some((scopes, lines)) = parts_of(text) else {
        return told.push_str("no scopes");
    };
    match code(alloc, lines)? {
        Some(body) => put_image(alloc, scopes, body, told),
        None => told.push_str("no code"),
    }
}
