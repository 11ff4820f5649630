//! A compiler for C0, and a runtime whose heap may be larger than local memory.
#![tactic(auto)]

use c0far::drive::{drive, say_help};
use c0far::files::FolderFiles;
use c0far::say::say_memory;
use c0far::stream::CountedWriter;
use std::alloc::{AllocError, Global};
use std::process::ExitCode;
use std::sync::Wait;
use std::thread::{self, Builder, Threads};
use std::time::Clock;
use std::{env, io};

/// How many bytes the thread has for its calls on which a command is done, and how many where the system has no room for so many. A type may have
/// as many levels as its text has bytes, and a call a level, of some 200 bytes, compares it or lets it go. A plain run makes a struct by what it holds, and structs
/// may hold one another as deeply as a text tells: some 40,000 of them, by a call of at most 1 KiB each. What is not used takes no memory.
const STACKS: [usize; 2] = [0x2000_0000, 0x400_0000];

/// The words as slices.
fn slices<'a>(alloc: Global, words: &'a [String]) -> Result<Vec<&'a str>, AllocError> {
    let mut slices = Vec::new(alloc);
    for word in words {
        slices.push(word.as_str())?;
    }
    Ok(slices)
}

/// Does the command that the program's words name, in the process of `host`, and gives the exit status.
fn command<R: Wait + Threads + Clock + Sync>(host: &HostRuntime, rt: &R) -> u8 {
    let alloc = host.alloc();
    let mut err = CountedWriter::new(host.stderr());
    let words: Vec<String> = match env::args(host) {
        Ok(words) => match words.collect(alloc) {
            Ok(words) => words,
            Err(_refused) => return say_memory(&mut err),
        },
        Err(error) if error.kind() == io::ErrorKind::OutOfMemory => return say_memory(&mut err),
        Err(_unread) => return say_help(&mut err, &[]),
    };
    let Ok(names) = slices(alloc, &words) else {
        return say_memory(&mut err);
    };
    let mut out = CountedWriter::new(io::writer(host));
    let mut files = FolderFiles::new(host);
    drive(alloc, rt, &names, &mut files, &mut out, &mut err)
}

/// The same on a thread with room for so many bytes of calls; nothing is done where no such thread can be made.
fn command_on<R: Wait + Threads + Clock + Sync>(
    host: &HostRuntime,
    rt: &R,
    stack: usize,
) -> Option<u8> {
    thread::scope(thread::scope_env(), rt, |scope| {
        match Builder::new()
            .stack_size(stack)
            .spawn_scoped(scope, || command(host, rt))
        {
            Ok(thread) => Some(thread.join(rt)),
            Err(_refused) => None,
        }
    })
}

fn main(rt: HostRuntime) -> io::Result<ExitCode> {
    for stack in STACKS {
        if let Some(status) = command_on(&rt, &rt, stack) {
            return Ok(ExitCode::from(status));
        }
    }
    Ok(ExitCode::from(command(&rt, &rt)))
}
