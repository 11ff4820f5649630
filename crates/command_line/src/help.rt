//! What is told of words that are no command line: what is refused, and a page of help; or the number of this version.
ghost use Rattle.std.specs.Prelude.{◌≡◌, ◌==◌, List, map};
ghost use Rattle.std.specs.Str.{bytes_eq};
ghost use Rattle.help_pages.specs.Topics.{page_of};
ghost use Rattle.command_line.specs.Complaints.{complaint_text};
ghost use Rattle.command_line.specs.Help.{asks_version as asked_version, behind, complaint_of, complaint_on};

use crate::complaint::Complaint;
use crate::mistakes::mistake;
use help_pages::topics::{ask, asks, is_name, is_topic, page_behind};

/// What `--version` prints.
pub const VERSION: &str = "c0far 0.2.0";

/// The words behind the program's name.
fn words_behind<'a, 'b>(words: &'b [&'a str]) -> &'b [&'a str]
    ensures { map (λ w. w.now) result.now ≡ behind (map (λ w. w.now) words.entry.now) }
{
    match words {
        [] => words,
        [_, rest @ ..] => rest,
    }
}

/// What is wrong with the words behind one that asks for help.
fn asked_wrongly<'a>(words: &[&'a str]) -> Complaint<'a>
    ensures { complaint_text result ≡ complaint_on (map (λ w. w.now) words.now) }
{
    match words {
        [] => Complaint::Help,
        [word, ..] => {
            if is_topic(word) {
                Complaint::Help
            } else {
                Complaint::NoHelp(word)
            }
        }
    }
}

/// What is wrong with the words behind the program's name.
fn complaint_behind<'a>(words: &[&'a str]) -> Complaint<'a>
    ensures { complaint_text result ≡ complaint_of (map (λ w. w.now) words.now) }
{
    match words {
        [] => Complaint::NoCommand,
        [name, rest @ ..] => {
            if asks(name) {
                return asked_wrongly(rest);
            }
            if ask(rest) {
                return Complaint::Help;
            }
            if is_name(name) {
                mistake(name, rest)
            } else {
                Complaint::NoSuchCommand(name)
            }
        }
    }
}

/// What is wrong with words that are no command line, of which the first is the program's name.
pub fn complaint<'a>(words: &[&'a str]) -> Complaint<'a>
    ensures { complaint_text result ≡ complaint_of (behind (map (λ w. w.now) words.now)) }
{
    complaint_behind(words_behind(words))
}

/// The page of help for words that are no command line: that on what they ask for, that of the first command that they name, or else that of all.
pub fn page(words: &[&str]) -> &'static str
    ensures { result.now ≡ page_of (behind (map (λ w. w.now) words.now)) }
{
    page_behind(words_behind(words))
}

/// Whether the words ask for the number of this version: `--version` is the only one behind the program's name.
pub fn asks_version(words: &[&str]) -> bool
    ensures { result ≡ asked_version (behind (map (λ w. w.now) words.now)) }
{
    match words_behind(words) {
        [word] => *word == "--version",
        _ => false,
    }
}
