//! Reading a row.

use cells::Piece;
use remote_store::{FaultPlan, Lie};

/// What a test goes over.
#[derive(Clone, Copy)]
pub(crate) enum Over<'a> {
    /// Ports to a folder in memory that is there.
    PortsOfMemory,
    /// Ports to a folder in memory that is not there.
    PortsOfMissing,
    /// Ports to a folder on the disk, with an old file of this name.
    PortsOfDisk(&'a str),
    /// Stores in a folder whose reads give so many bytes.
    StoresOfForeign(usize),
    /// Stores, of which the call of this number fails.
    PlannedStores(u64),
    /// Ports to a store in memory that fails by this plan.
    PortsOfHeap(FaultPlan),
    /// Ports to a store in memory that tells this lie by this plan.
    PortsOfLying(Lie, FaultPlan),
    /// Stores in memory that fail by this plan.
    StoresOfHeap(FaultPlan),
    /// A folder in memory that is not there.
    MissingFolder,
    /// A folder on the disk, with an old file of this name.
    DiskFolder(&'a str),
}

/// The plan of these words.
fn plan(words: &[&str]) -> Option<FaultPlan> {
    match words {
        ["never"] => Some(FaultPlan::Never),
        ["at", number] => Some(FaultPlan::Only(number.parse().ok()?)),
        ["from", number] => Some(FaultPlan::From(number.parse().ok()?)),
        _ => None,
    }
}

/// The lie of this word.
fn lie(word: &str) -> Option<Lie> {
    match word {
        "older" => Some(Lie::OlderVersion),
        "other" => Some(Lie::OtherObject),
        "short" => Some(Lie::ShortCell),
        _ => None,
    }
}

/// The piece of as many cells as this word says.
fn piece(word: &str) -> Option<Piece> {
    Piece::new(word.parse().ok()?)
}

/// The size of the pieces of a test, which is of 64 cells where its words don't say another, and the words behind it.
pub(crate) fn sized<'w, 'a>(words: &'w [&'a str]) -> (Piece, &'w [&'a str]) {
    match words {
        ["cells", word, rest @ ..] => (piece(word).unwrap_or(Piece::Cells64), rest),
        _ => (Piece::Cells64, words),
    }
}

impl<'a> Over<'a> {
    /// What the row that begins a test says, behind its `=`.
    pub(crate) fn of(words: &[&'a str]) -> Option<Over<'a>> {
        match words {
            ["port", "memory"] => Some(Over::PortsOfMemory),
            ["port", "missing"] => Some(Over::PortsOfMissing),
            ["port", "disk", name] => Some(Over::PortsOfDisk(name)),
            ["store", "foreign", count] => Some(Over::StoresOfForeign(count.parse().ok()?)),
            ["store", "planned", number] => Some(Over::PlannedStores(number.parse().ok()?)),
            ["port", "heap", plan_words @ ..] => Some(Over::PortsOfHeap(plan(plan_words)?)),
            ["port", "lying", word, plan_words @ ..] => {
                Some(Over::PortsOfLying(lie(word)?, plan(plan_words)?))
            }
            ["store", "heap", plan_words @ ..] => Some(Over::StoresOfHeap(plan(plan_words)?)),
            ["folder", "missing"] => Some(Over::MissingFolder),
            ["folder", "disk", name] => Some(Over::DiskFolder(name)),
            _ => None,
        }
    }
}

/// What a row does.
#[derive(Clone, Copy)]
pub(crate) enum RowStep<'a> {
    /// Each of the words becomes this one.
    Fill(u64),
    /// The word there becomes this one.
    Set(usize, u64),
    /// The word there is told.
    Show(usize),
    /// The words are written, for this object.
    Put(usize),
    /// Words are read in place of the words, for this object.
    Get(usize),
    /// What the way has counted is told.
    Counts,
    /// The other way is taken.
    Other,
    /// A file of this name gets so many bytes, each of them the last number.
    File(&'a str, usize, u8),
    /// The byte there in the file of this name is told.
    Byte(&'a str, usize),
    /// The folder on the disk is removed.
    Remove,
    /// Nothing.
    Nothing,
}

/// What the row of these words does, if it is one.
fn known<'a>(words: &[&'a str]) -> Option<RowStep<'a>> {
    match words {
        ["fill", word] => Some(RowStep::Fill(word.parse().ok()?)),
        ["set", at, word] => Some(RowStep::Set(at.parse().ok()?, word.parse().ok()?)),
        ["show", at] => Some(RowStep::Show(at.parse().ok()?)),
        ["put", object] => Some(RowStep::Put(object.parse().ok()?)),
        ["get", object] => Some(RowStep::Get(object.parse().ok()?)),
        ["counts"] => Some(RowStep::Counts),
        ["other"] => Some(RowStep::Other),
        ["file", name, count, byte] => {
            Some(RowStep::File(name, count.parse().ok()?, byte.parse().ok()?))
        }
        ["byte", name, at] => Some(RowStep::Byte(name, at.parse().ok()?)),
        ["remove"] => Some(RowStep::Remove),
        _ => None,
    }
}

impl<'a> RowStep<'a> {
    /// What the row of these words does.
    pub(crate) fn of(words: &[&'a str]) -> RowStep<'a> {
        known(words).unwrap_or(RowStep::Nothing)
    }
}
