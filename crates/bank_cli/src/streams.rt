//! The streams of the program.

use cli_file::Progress;
use money::Tallied;
use std::io::Write;

/// Where the program reads, where it writes, and where it shows how far long work is.
#[derive(Drop)]
pub struct Streams<R, W, E, P: Write + Drop> {
    /// What it reads.
    pub input: Tallied<R>,
    /// Where its replies go, and what it says of its work.
    pub output: Tallied<W>,
    /// Where faults go.
    pub errors: Tallied<E>,
    /// Where steps of long work go.
    pub progress: Progress<P>,
}
