//! What is wrong with the words behind a command's name: the first thing from the left.
ghost use Rattle.std.specs.Prelude.{◌≡◌, map, option_map};
ghost use Rattle.command_line.specs.Complaints.{complaint_text};
ghost use Rattle.command_line.specs.Mistakes.{attached_step, ending as ended, file_step, flagged as flagged_place, is_among, is_option_word, known_step, missing as missed, mistake as mistaken, option_step, plain_step, refused_value, start, step_of, unfiled as unfiled_text, value_step, word_step};

use crate::complaint::Complaint;
use crate::options::{
    Choice, accepts, begins, has, is_single, name_in, name_of, named, required, takes_value,
    value_in,
};

/// Where one is among the words: the option that waits for its value, whether a file was named, and more than one, whether `--live` was, and whether all further
/// words are files.
#[derive(Clone, Copy, Debug, PartialEq, Eq)]
pub struct WordPlace {
    pub waiting: Option<Choice>,
    pub has_file: bool,
    pub has_more: bool,
    pub is_live: bool,
    pub is_trailing: bool,
}

/// What a word comes to.
#[derive(Clone, Copy)]
pub enum WordStep<'a> {
    /// It is wrong.
    Tells(Complaint<'a>),
    /// It is right, and one is there behind it.
    Goes(WordPlace),
}

/// Whether the word is an option, with or without its value.
fn is_option(word: &str) -> bool
    ensures { result ≡ is_option_word word.now }
{
    begins(word, "-") && word != "-"
}

/// Whether the option is among the words, in front of the end of options.
fn has_option(choice: Choice, words: &[&str]) -> bool
    ensures { result ≡ is_among choice (map (λ w. w.now) words.now) }
{
    let mut rest = words;
    while let [word, behind @ ..] = rest {
        if *word == "--" {
            return false;
        }
        if name_in(word) == name_of(choice) {
            return true;
        }
        rest = behind;
    }
    false
}

/// A word that is a file.
fn file<'a>(name: &'a str, place: WordPlace, word: &'a str) -> WordStep<'a>
    ensures { step_of result ≡ file_step name.now place word.now }
{
    if place.has_file && is_single(name) {
        return WordStep::Tells(Complaint::OneMore(name, word));
    }
    WordStep::Goes(WordPlace {
        has_file: true,
        has_more: place.has_file,
        ..place
    })
}

/// What is told of an option with a value that it does not take.
fn refused<'a>(choice: Choice, text: &'a str) -> Complaint<'a>
    ensures { complaint_text result ≡ refused_value choice text.now }
{
    if text.is_empty() {
        Complaint::NoValue(choice)
    } else {
        Complaint::OtherValue(choice, text)
    }
}

/// A word behind an option that waits for its value.
fn value<'a>(place: WordPlace, choice: Choice, word: &'a str) -> WordStep<'a>
    ensures { step_of result ≡ value_step place choice word.now }
{
    if !is_option(word) && accepts(choice, word) {
        return WordStep::Goes(WordPlace {
            waiting: None,
            ..place
        });
    }
    WordStep::Tells(refused(choice, word))
}

/// Where one is behind an option that has no value.
fn flagged(place: WordPlace, choice: Choice) -> WordPlace
    ensures { result ≡ flagged_place place choice }
{
    if matches!(choice, Choice::Live) {
        WordPlace {
            is_live: true,
            ..place
        }
    } else {
        place
    }
}

/// An option with this value in its word.
fn attached<'a>(place: WordPlace, choice: Choice, value: Option<&'a str>) -> WordStep<'a>
    ensures { step_of result ≡ attached_step place choice (option_map (λ v. v.now) value.entry) }
{
    match value {
        Some(text) => {
            if accepts(choice, text) {
                WordStep::Goes(place)
            } else {
                WordStep::Tells(refused(choice, text))
            }
        }
        None => {
            if takes_value(choice) {
                WordStep::Goes(WordPlace {
                    waiting: Some(choice),
                    ..place
                })
            } else {
                WordStep::Goes(flagged(place, choice))
            }
        }
    }
}

/// A word that is an option of the command, with the words behind it.
fn known<'a>(place: WordPlace, choice: Choice, word: &'a str, behind: &[&str]) -> WordStep<'a>
    ensures { step_of result ≡ known_step place choice word.now (map (λ w. w.now) behind.now) }
{
    if has_option(choice, behind) {
        return WordStep::Tells(Complaint::Twice(choice));
    }
    attached(place, choice, value_in(word))
}

/// A word that is an option, with the words behind it.
fn option<'a>(name: &str, place: WordPlace, word: &'a str, behind: &[&str]) -> WordStep<'a>
    ensures { step_of result ≡ option_step name.now place word.now (map (λ w. w.now) behind.now) }
{
    match named(name_in(word)) {
        Some(choice) => {
            if has(name, choice) {
                known(place, choice, word, behind)
            } else {
                WordStep::Tells(Complaint::NoSuchOption(word))
            }
        }
        None => WordStep::Tells(Complaint::NoSuchOption(word)),
    }
}

/// A word for which no option waits, with the words behind it.
fn plain<'a>(name: &'a str, place: WordPlace, word: &'a str, behind: &[&str]) -> WordStep<'a>
    ensures { step_of result ≡ plain_step name.now place word.now (map (λ w. w.now) behind.now) }
{
    if place.is_trailing {
        return file(name, place, word);
    }
    if word == "--" {
        return WordStep::Goes(WordPlace {
            is_trailing: true,
            ..place
        });
    }
    if is_option(word) {
        option(name, place, word, behind)
    } else {
        file(name, place, word)
    }
}

/// A word, with those behind it.
fn read<'a>(name: &'a str, place: WordPlace, word: &'a str, behind: &[&str]) -> WordStep<'a>
    ensures { step_of result ≡ word_step name.now place word.now (map (λ w. w.now) behind.now) }
{
    match place.waiting {
        Some(choice) => value(place, choice, word),
        None => plain(name, place, word, behind),
    }
}

/// What is wrong with the files behind a command's name, or else with words of which it is not known.
fn unfiled<'a>(name: &'a str, place: WordPlace) -> Complaint<'a>
    ensures { complaint_text result ≡ unfiled_text name.now place }
{
    if !place.has_file {
        return Complaint::NoFile(name);
    }
    if place.is_live && place.has_more {
        Complaint::OneLive
    } else {
        Complaint::OtherWords(name)
    }
}

/// What is missing behind a command's name, where no word is wrong.
fn missing<'a>(name: &'a str, words: &[&str], place: WordPlace) -> Complaint<'a>
    ensures { complaint_text result ≡ missed name.now (map (λ w. w.now) words.now) place }
{
    if let Some(choice) = required(name) {
        if !has_option(choice, words) {
            return Complaint::Lacks(name, choice);
        }
    }
    unfiled(name, place)
}

/// What is wrong where no word is.
fn ending<'a>(name: &'a str, words: &[&str], place: WordPlace) -> Complaint<'a>
    ensures { complaint_text result ≡ ended name.now (map (λ w. w.now) words.now) place }
{
    match place.waiting {
        Some(choice) => Complaint::NoValue(choice),
        None => missing(name, words, place),
    }
}

/// What is wrong with these words behind the name of a command.
pub(crate) fn mistake<'a>(name: &'a str, words: &[&'a str]) -> Complaint<'a>
    ensures { complaint_text result ≡ mistaken name.now (map (λ w. w.now) words.now) (map (λ w. w.now) words.now) start }
{
    let mut rest = words;
    let mut place = WordPlace {
        waiting: None,
        has_file: false,
        has_more: false,
        is_live: false,
        is_trailing: false,
    };
    while let [word, behind @ ..] = rest {
        match read(name, place, word, behind) {
            WordStep::Tells(complaint) => return complaint,
            WordStep::Goes(next) => place = next,
        }
        rest = behind;
    }
    ending(name, words, place)
}
