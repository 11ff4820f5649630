//! The options of the commands, and what each wants behind it.
ghost use Rattle.std.specs.Prelude.{◌≡◌, option_map};
ghost use Rattle.command_line.specs.Options.{accepts as accepted, attached_value, begins as begins_so, has_choice, is_level_text, is_out_word, is_piece_text, is_run_name, is_single as is_single_name, name_part as front_of, name_text, named as choice_named, required_in, takes_value as takes, value_part as back_of, wanted_text, word_name};
ghost use Rattle.std.specs.List.{starts_with};

use crate::line::{number, short_number};
use cells::Piece;

/// An option.
#[derive(Clone, Copy, Debug, PartialEq, Eq)]
pub enum Choice {
    Checks,
    Level,
    Piece,
    Out,
    Turns,
    Frames,
    Objects,
    Store,
    FailFrom,
    Evacuators,
    Fetchers,
    Workers,
    Quantum,
    Schedule,
    Live,
    Stats,
    Where,
    Memory,
}

/// The option of this name.
pub(crate) fn named(name: &str) -> Option<Choice>
    ensures { result ≡ choice_named name.now }
{
    match name {
        "-d" => Some(Choice::Checks),
        "--level" => Some(Choice::Level),
        "--piece" => Some(Choice::Piece),
        "-o" => Some(Choice::Out),
        "--turns" => Some(Choice::Turns),
        "--frames" => Some(Choice::Frames),
        "--objects" => Some(Choice::Objects),
        "--store" => Some(Choice::Store),
        "--fail-from" => Some(Choice::FailFrom),
        "--evacuators" => Some(Choice::Evacuators),
        "--fetchers" => Some(Choice::Fetchers),
        "--workers" => Some(Choice::Workers),
        "--quantum" => Some(Choice::Quantum),
        "--schedule" => Some(Choice::Schedule),
        "--live" => Some(Choice::Live),
        "--stats" => Some(Choice::Stats),
        "--where" => Some(Choice::Where),
        "--memory" => Some(Choice::Memory),
        _ => None,
    }
}

/// The name of an option.
pub(crate) fn name_of(choice: Choice) -> &'static str
    ensures { result.now ≡ name_text choice }
{
    match choice {
        Choice::Checks => "-d",
        Choice::Level => "--level",
        Choice::Piece => "--piece",
        Choice::Out => "-o",
        Choice::Turns => "--turns",
        Choice::Frames => "--frames",
        Choice::Objects => "--objects",
        Choice::Store => "--store",
        Choice::FailFrom => "--fail-from",
        Choice::Evacuators => "--evacuators",
        Choice::Fetchers => "--fetchers",
        Choice::Workers => "--workers",
        Choice::Quantum => "--quantum",
        Choice::Schedule => "--schedule",
        Choice::Live => "--live",
        Choice::Stats => "--stats",
        Choice::Where => "--where",
        Choice::Memory => "--memory",
    }
}

/// What an option wants behind it, in words.
pub(crate) fn wanted(choice: Choice) -> &'static str
    ensures { result.now ≡ wanted_text choice }
{
    match choice {
        Choice::Checks | Choice::Live | Choice::Stats | Choice::Where => "no value",
        Choice::Level => "0 or 1",
        Choice::Piece => "16, 32, 64, 128 or 256",
        Choice::Out | Choice::Schedule => "a file",
        Choice::Store => "a folder",
        Choice::Turns | Choice::FailFrom => "a number below 18,446,744,073,709,551,616",
        Choice::Frames
        | Choice::Objects
        | Choice::Evacuators
        | Choice::Fetchers
        | Choice::Workers
        | Choice::Quantum
        | Choice::Memory => "a number below 4,294,967,296",
    }
}

/// Whether an option has a value.
pub(crate) fn takes_value(choice: Choice) -> bool
    ensures { result ≡ takes choice }
{
    !matches!(
        choice,
        Choice::Checks | Choice::Live | Choice::Stats | Choice::Where
    )
}

/// Whether the text tells a level of the language.
fn is_level(text: &str) -> bool
    ensures { result ≡ is_level_text text.now }
{
    match short_number(text) {
        Some(number) => number == 0 || number == 1,
        None => false,
    }
}

/// Whether the text tells a size of pieces.
fn is_piece(text: &str) -> bool
    ensures { result ≡ is_piece_text text.now }
{
    match short_number(text) {
        Some(number) => Piece::new(number).is_some(),
        None => false,
    }
}

/// Whether the text is a value of the option.
pub(crate) fn accepts(choice: Choice, text: &str) -> bool
    ensures { result ≡ accepted choice text.now }
{
    match choice {
        Choice::Checks | Choice::Live | Choice::Stats | Choice::Where => false,
        Choice::Level => is_level(text),
        Choice::Piece => is_piece(text),
        Choice::Out | Choice::Schedule | Choice::Store => true,
        Choice::Turns | Choice::FailFrom => number(text).is_some(),
        Choice::Frames
        | Choice::Objects
        | Choice::Evacuators
        | Choice::Fetchers
        | Choice::Workers
        | Choice::Quantum
        | Choice::Memory => short_number(text).is_some(),
    }
}

/// Whether the command of this name takes the options of a run, and several files.
fn is_of_run(name: &str) -> bool
    ensures { result ≡ is_run_name name.now }
{
    name == "run" || name == "replay"
}

/// Whether the command of this name takes one file.
pub(crate) fn is_single(name: &str) -> bool
    ensures { result ≡ is_single_name name.now }
{
    !is_of_run(name)
}

/// Whether the command of this name has the option.
pub(crate) fn has(name: &str, choice: Choice) -> bool
    ensures { result ≡ has_choice name.now choice }
{
    match choice {
        Choice::Level => true,
        Choice::Checks => name != "check" && name != "list",
        Choice::Piece => name != "check" && name != "mean",
        Choice::Out => name == "build",
        Choice::Turns => name == "mean",
        Choice::Schedule => name == "replay",
        Choice::Live | Choice::Stats => name == "run",
        Choice::Where | Choice::Memory => name == "run" || name == "mean",
        Choice::Frames
        | Choice::Objects
        | Choice::Store
        | Choice::FailFrom
        | Choice::Evacuators
        | Choice::Fetchers
        | Choice::Workers
        | Choice::Quantum => is_of_run(name),
    }
}

/// The option without which the command of this name does nothing.
pub(crate) fn required(name: &str) -> Option<Choice>
    ensures { result ≡ required_in name.now }
{
    match name {
        "build" => Some(Choice::Out),
        "mean" => Some(Choice::Turns),
        "replay" => Some(Choice::Schedule),
        _ => None,
    }
}

/// Whether the word begins so.
pub(crate) fn begins(word: &str, start: &str) -> bool
    ensures { result ≡ begins_so word.now start.now }
{
    word.starts_with(start)
}

/// What stands in front of the first `=` of the word, or the whole of it.
fn front<'a>(word: &'a str) -> &'a str
    ensures { result.now ≡ front_of word.now }
{
    match word.split_once('=') {
        Some((front, _back)) => front,
        None => word,
    }
}

/// What stands behind the first `=` of the word.
fn back<'a>(word: &'a str) -> Option<&'a str>
    ensures { option_map (λ v. v.now) result ≡ back_of word.now }
{
    match word.split_once('=') {
        Some((_front, back)) => Some(back),
        None => None,
    }
}

/// Whether the word begins with `-o`, or with `-do`, which is `-d -o`.
fn is_out(word: &str) -> bool
    ensures { result ≡ is_out_word word.now }
{
    begins(word, "-o") || begins(word, "-do")
}

/// The name of the option in the word, of which the value may be a part.
pub(crate) fn name_in<'a>(word: &'a str) -> &'a str
    ensures { result.now ≡ word_name word.now }
{
    if is_out(word) { "-o" } else { front(word) }
}

/// The value that is a part of the word with its option.
pub(crate) fn value_in<'a>(word: &'a str) -> Option<&'a str>
    ensures { option_map (λ v. v.now) result ≡ attached_value word.now }
{
    if !is_out(word) {
        return back(word);
    }
    if word == "-o" || word == "-do" {
        None
    } else {
        Some(word)
    }
}
