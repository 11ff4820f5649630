//! What the words before the name of a text ask for.
use crate::questions::Question;
use c0_syntax::level::Level;

/// How a text is run.
#[derive(Clone, Copy, Debug, PartialEq, Eq)]
pub(crate) enum Way {
    Means,
    Prints,
    Fails,
    Hints,
    Opens,
    Meets,
    Waits,
    Counts,
    Joins,
    Does,
    Asks(Question),
}

/// What is asked: how the text is run, at which level of the language it is read, whether its contracts are checked, and a number, which is that of its turns,
/// or of the holds that it may open.
#[derive(Clone, Copy, Debug, PartialEq, Eq)]
pub(crate) struct Asked {
    pub(crate) way: Way,
    pub(crate) level: Level,
    pub(crate) checks: bool,
    pub(crate) number: u64,
}

impl Asked {
    /// What is asked where nothing else is said.
    pub(crate) fn plainly() -> Asked {
        Asked {
            way: Way::Means,
            level: Level::C0,
            checks: false,
            number: 5000,
        }
    }

    /// The same, run in this way.
    fn by(self, way: Way) -> Option<Asked> {
        Some(Asked { way, ..self })
    }

    /// The same, with this number. None where the word is none.
    fn numbered(self, word: &str) -> Option<Asked> {
        match word.parse() {
            Ok(number) => Some(Asked { number, ..self }),
            Err(_) => None,
        }
    }

    /// The same, with what this word asks for. None where it is the name of a text.
    pub(crate) fn with(self, word: &str) -> Option<Asked> {
        match word {
            "-p" => self.by(Way::Prints),
            "-f" => self.by(Way::Fails),
            "-h" => self.by(Way::Hints),
            "-o" => self.by(Way::Opens),
            "-m" => self.by(Way::Meets),
            "-w" => self.by(Way::Waits),
            "-c" => self.by(Way::Counts),
            "-t" => self.by(Way::Joins),
            "-x" => self.by(Way::Does),
            "-d" => Some(Asked {
                checks: true,
                ..self
            }),
            "-l" => Some(Asked {
                level: Level::Loops,
                ..self
            }),
            _ => match Question::of(word) {
                Some(question) => self.by(Way::Asks(question)),
                None => self.numbered(word),
            },
        }
    }
}
