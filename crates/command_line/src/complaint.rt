//! What is wrong with words that are no command line.
use crate::options::{Choice, name_of, wanted};
use std::fmt;

/// Why words are no command line.
#[derive(Clone, Copy)]
pub enum Complaint<'a> {
    /// They ask for help.
    Help,
    /// They ask for help on this, on which there is none.
    NoHelp(&'a str),
    /// There is none behind the program's name.
    NoCommand,
    /// The first is no command's name.
    NoSuchCommand(&'a str),
    /// The command has no such option.
    NoSuchOption(&'a str),
    /// An option is given twice.
    Twice(Choice),
    /// An option has no value.
    NoValue(Choice),
    /// An option has this value, and wants another.
    OtherValue(Choice, &'a str),
    /// The command of this name takes one file, and this is one more.
    OneMore(&'a str, &'a str),
    /// The command of this name wants this option.
    Lacks(&'a str, Choice),
    /// The command of this name wants a file.
    NoFile(&'a str),
    /// The command of this name wants other words.
    OtherWords(&'a str),
    /// A run whose output is written as it comes takes one file, and there are more.
    OneLive,
}

impl fmt::Display for Complaint<'_> {
    ghost use Rattle.std.specs.Prelude.{Some};
    ghost use Rattle.command_line.specs.Complaints.{complaint_text};

    ghost output = { λ complaint. Some (complaint_text complaint) };

    fn fmt<W: fmt::Write>(&self, f: &mut fmt::Formatter<W>) -> fmt::Result {
        match self {
            Complaint::Help => Ok(()),
            Complaint::NoHelp(word) => {
                writeln!(
                    f,
                    "c0far: there is no help on {word}; there is on a command, a fault's number or name, `faults`, `images` and `stops`"
                )
            }
            Complaint::NoCommand => writeln!(f, "c0far: a command is wanted"),
            Complaint::NoSuchCommand(word) => writeln!(f, "c0far: there is no command {word}"),
            Complaint::NoSuchOption(word) => writeln!(f, "c0far: there is no option {word}"),
            Complaint::Twice(choice) => {
                let option = name_of(*choice);
                writeln!(f, "c0far: {option} is given twice")
            }
            Complaint::NoValue(choice) => {
                let option = name_of(*choice);
                let value = wanted(*choice);
                writeln!(f, "c0far: {option} wants {value}")
            }
            Complaint::OtherValue(choice, word) => {
                let option = name_of(*choice);
                let value = wanted(*choice);
                writeln!(f, "c0far: {option} wants {value}, not {word}")
            }
            Complaint::OneMore(name, word) => {
                writeln!(f, "c0far: {name} takes one FILE, and {word} is one more")
            }
            Complaint::Lacks(name, choice) => {
                let option = name_of(*choice);
                let value = wanted(*choice);
                writeln!(f, "c0far: {name} wants {option} with {value}")
            }
            Complaint::NoFile(name) => writeln!(f, "c0far: {name} wants a FILE"),
            Complaint::OtherWords(name) => {
                writeln!(f, "c0far: other words are wanted behind {name}")
            },
            Complaint::OneLive => writeln!(f, "c0far: --live takes one FILE"),
        }
    }
}
