//! Which words ask for help, and which page is shown of the words of a command line.
ghost use Rattle.std.specs.Prelude.{◌≡◌, ◌==◌, List, map, option_map};
ghost use Rattle.std.specs.Str.{bytes_eq};
ghost use Rattle.help_pages.specs.Topics.{ask_flag, asks_help, fault_page as page_of_fault, first_fault, help_page, is_command, is_help_flag, is_topic as is_known_topic, page_named, page_of, page_on, topic};

use crate::faults::FAULTS;
use crate::pages::{
    BUILD_PAGE, CHECK_PAGE, FAULTS_PAGE, IMAGES_PAGE, LIST_PAGE, MEAN_PAGE, PAGE, REPLAY_PAGE,
    RUN_PAGE, STOPS_PAGE,
};

/// Whether the word asks for help wherever it stands.
fn is_flag(word: &str) -> bool
    ensures { result ≡ is_help_flag word.now }
{
    word == "--help" || word == "-h"
}

/// Whether the word asks for help where it is the first.
pub fn asks(word: &str) -> bool
    ensures { result ≡ asks_help word.now }
{
    word == "help" || is_flag(word)
}

/// Whether one of the words asks for help wherever it stands.
pub fn ask(words: &[&str]) -> bool
    ensures { result ≡ ask_flag (map (λ w. w.now) words.now) }
{
    let mut rest = words;
    while let [word, behind @ ..] = rest {
        if is_flag(word) {
            return true;
        }
        rest = behind;
    }
    false
}

/// Whether the word names a command.
pub fn is_name(word: &str) -> bool
    ensures { result ≡ is_command word.now }
{
    word == "build"
        || word == "check"
        || word == "list"
        || word == "mean"
        || word == "replay"
        || word == "run"
}

/// The first of the words that names a command. None is the empty text.
fn topic_of<'a>(words: &[&'a str]) -> &'a str
    ensures { result.now ≡ topic (map (λ w. w.now) words.now) }
{
    let mut rest = words;
    while let [word, behind @ ..] = rest {
        if is_name(word) {
            return word;
        }
        rest = behind;
    }
    ""
}

/// The page of the command of this name, of faults, images or stops, or else that of all commands.
fn named_page(name: &str) -> &'static str
    ensures { result.now ≡ page_named name.now }
{
    match name {
        "build" => BUILD_PAGE,
        "check" => CHECK_PAGE,
        "faults" => FAULTS_PAGE,
        "images" => IMAGES_PAGE,
        "list" => LIST_PAGE,
        "mean" => MEAN_PAGE,
        "replay" => REPLAY_PAGE,
        "run" => RUN_PAGE,
        "stops" => STOPS_PAGE,
        _ => PAGE,
    }
}

/// Of these pages on faults the first of this number or name.
fn first_page(
    faults: &[(&'static str, &'static str, &'static str)],
    word: &str,
) -> Option<&'static str>
    ensures { option_map (λ p. p.now) result ≡ first_fault (map (λ t. (t.0.now, t.1.now, t.2.now)) faults.now) word.now }
{
    for fault in faults {
        let (number, name, page) = *fault;
        if number == word || name == word {
            return Some(page);
        }
    }
    None
}

/// The page on the fault of this number or name.
fn fault_page(word: &str) -> Option<&'static str>
    ensures { option_map (λ p. p.now) result ≡ page_of_fault word.now }
{
    first_page(&FAULTS, word)
}

/// The page on what this word names, or else that of all commands.
fn topic_page(word: &str) -> &'static str
    ensures { result.now ≡ page_on word.now }
{
    match fault_page(word) {
        Some(page) => page,
        None => named_page(word),
    }
}

/// The page for the words behind one that asks for help.
fn asked_page(words: &[&str]) -> &'static str
    ensures { result.now ≡ help_page (map (λ w. w.now) words.now) }
{
    match words {
        [] => PAGE,
        [word, ..] => topic_page(word),
    }
}

/// Whether there is help on what the word names.
pub fn is_topic(word: &str) -> bool
    ensures { result ≡ is_known_topic word.now }
{
    is_name(word)
        || word == "help"
        || word == "faults"
        || word == "images"
        || word == "stops"
        || fault_page(word).is_some()
}

/// The page for the words behind the program's name.
pub fn page_behind(words: &[&str]) -> &'static str
    ensures { result.now ≡ page_of (map (λ w. w.now) words.now) }
{
    match words {
        [] => PAGE,
        [name, rest @ ..] => {
            if asks(name) {
                asked_page(rest)
            } else {
                named_page(topic_of(words))
            }
        }
    }
}
