//! What a command line asks for.
use c0_syntax::level::Level;
use cells::Piece;
use thiserror::Error;

/// How texts are taken: at which level of the language, and with contracts checked or not. Images are taken as they are.
#[derive(Clone, Copy, Debug, PartialEq, Eq)]
pub struct Texts {
    pub level: Level,
    pub checks: bool,
}

/// How code is made of texts: they are taken so, and pieces, which are what moves at once, have so many cells. Images are taken as they are.
#[derive(Clone, Copy, Debug, PartialEq, Eq)]
pub struct Compiling {
    pub texts: Texts,
    pub piece: Piece,
}

/// What programs run over: frames of local memory, and objects, which stand in a store where they are in no frame. The store is in memory, or in
/// files of the folder `store`. Of its calls, counted from 1 over all of a system, those from the number `fail_from` on fail; none does where it is 0.
#[derive(Clone, Copy, Debug, PartialEq, Eq)]
pub struct Memory<'a> {
    pub frames: u32,
    pub objects: u32,
    pub store: Option<&'a str>,
    pub fail_from: u64,
}

/// On how many threads programs share, and how many instructions of one are run at once.
#[derive(Clone, Copy, Debug, PartialEq, Eq)]
pub struct Work {
    pub workers: u32,
    pub quantum: u32,
}

/// How a text is taken that is run plainly, and for how many turns. `explains` says whether it is told, on the standard error, where the program stopped. What its
/// calls, its output and its heap hold may come to `limit` MiB each; there is no limit where it is 0.
#[derive(Clone, Copy, Debug, PartialEq, Eq)]
pub struct Bound {
    pub texts: Texts,
    pub turns: u64,
    pub explains: bool,
    pub limit: u32,
}

/// How programs are run: with code that is made so, over this memory, beside so many evacuators and fetchers, by turns of workers. `stats` says whether it is told
/// what was counted. `explains` says whether it is told, on the standard error, where each program stopped and what it wanted. What the calls and the output of each
/// hold may come to `limit` MiB each; there is no limit where it is 0.
#[derive(Clone, Copy, Debug, PartialEq, Eq)]
pub struct RunOptions<'a> {
    pub compiling: Compiling,
    pub memory: Memory<'a>,
    pub evacuators: u32,
    pub fetchers: u32,
    pub work: Work,
    pub stats: bool,
    pub explains: bool,
    pub limit: u32,
}

/// How programs are replayed: with code that is made so, over this memory, with so many evacuators and fetchers, by the schedule of this file. The
/// work only has to be within its limits.
#[derive(Clone, Copy, Debug, PartialEq, Eq)]
pub struct ReplayOptions<'a> {
    pub compiling: Compiling,
    pub memory: Memory<'a>,
    pub evacuators: u32,
    pub fetchers: u32,
    pub work: Work,
    pub schedule: &'a str,
}

/// A command, with its files and options.
#[derive(Debug, Drop)]
pub enum Line<'a> {
    /// Writes the image that is made so of a text, or an image, into the file `out`.
    Build {
        compiling: Compiling,
        out: &'a str,
        file: &'a str,
    },
    /// Tells whether a text keeps the static rules of this level, or an image may be run.
    Check {
        level: Level,
        file: &'a str,
    },
    /// Lists the instructions of an image, or of a text's of this level, for pieces of this size.
    List {
        level: Level,
        piece: Piece,
        file: &'a str,
    },
    /// The plain run of a text: what its program means within so many turns.
    Mean {
        asked: Bound,
        file: &'a str,
    },
    /// Replays a schedule of the programs of these files, each an image or a text.
    Replay {
        asked: ReplayOptions<'a>,
        files: Vec<&'a str>,
    },
    /// Runs the programs of these files, each an image or a text.
    Run {
        asked: RunOptions<'a>,
        files: Vec<&'a str>,
    },
    /// Runs the program of this file, an image or a text, and writes what it prints as it comes.
    Live {
        asked: RunOptions<'a>,
        file: &'a str,
    },
}

/// Why the words are no command.
#[derive(Clone, Copy, Debug, PartialEq, Eq, Error)]
pub enum Usage {
    /// They name no command, or help was asked for.
    #[error("the words are no command line")]
    Refused = 1,
    /// A growth was refused.
    #[error("out of memory")]
    OutOfMemory = 2,
}
