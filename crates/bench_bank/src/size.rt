//! How large a synthetic bank is.

/// How many rows of each kind a synthetic bank has.
#[derive(Clone, Copy, Debug, PartialEq, Eq)]
pub struct Size {
    /// How many branches it has, each with ten tellers and a hundred accounts.
    pub branches: u32,
    /// How many entries each branch has.
    pub entries: u32,
    /// How many triples its user has for posts, each on a set of its own.
    pub triples: u32,
    /// How many slips its user has.
    pub slips: u32,
}
