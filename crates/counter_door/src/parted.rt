//! The connections that were let go.

ghost use Rattle.std.specs.Prelude.{◌≡◌, [], ◌∷◌, ◌++◌};

use crate::log::Log;

/// The streams that were let go, one after another, which proofs alone read.
#[derive(Drop)]
pub struct Parted<T> {
    log: Log<T>,
}

impl<T: Drop> Parted<T> {
    /// None yet.
    pub fn new() -> Parted<T>
        ensures { result.log.items ≡ [] }
    {
        Parted { log: Log::new() }
    }

    /// Lets go of a stream.
    pub fn part(&mut self, stream: T)
        ensures { self.new.log.items ≡ self.old.log.items ++ stream ∷ [] }
    {
        self.log = self.log.and(&stream);
    }
}
