//! How much of the language there is.

/// Which statements are in the language.
#[derive(Clone, Copy, Debug, PartialEq, Eq)]
pub enum Level {
    /// All but `break` and `continue`.
    C0,
    /// `break` and `continue`, too.
    Loops,
}
