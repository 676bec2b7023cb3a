//! The authorization of an operation: a triple of the user's own, or a release.

/// What lets a user execute an operation up to its amount.
#[derive(Clone, Copy, Debug, PartialEq, Eq)]
pub enum Authorization {
    /// A triple of the user's own.
    Triple,
    /// A release of this number that the user was given, which is used up by it.
    Release(u32),
}
