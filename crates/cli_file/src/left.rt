//! What an action over a file hands back of it.

use crate::file::FileConnection;
use sqlite::{FileStore, Files};
use sqlite_disk::Disk;

/// What an action leaves of an open file.
#[derive(Drop)]
pub enum FileLeft<D: Disk + Drop> {
    /// The connection: no bank was found or made there.
    Open(FileConnection<D>),
    /// The file and its log, closed.
    Closed(Files<D>),
    /// What could not be closed.
    Unclosed(FileStore<D>),
}

/// What an action that begins with a path leaves, where `O` opens files.
#[derive(Drop)]
pub enum PathLeft<O: Drop, L: Drop> {
    /// The opener, as it was given: no file was opened.
    Unopened(O),
    /// Nothing: the opener was used, and could not open the file.
    Refused,
    /// What is left of the open file.
    Opened(L),
}
