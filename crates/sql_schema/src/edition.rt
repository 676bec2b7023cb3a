//! The schema versions in which a bank's file may be, and their numbers.

ghost use Rattle.std.specs.Prelude.{◌≡◌, pos};
ghost use Rattle.sql_schema.specs.Cells.{edition_number};

/// How the tables of a bank's file are laid out.
#[derive(Clone, Copy, Debug, PartialEq, Eq)]
pub enum Edition {
    /// Triples without moments, in the table `triples`: each is valid from the first moment to the last that there is.
    First,
    /// Triples with their first and last moments, in the table `grants`.
    Second,
    /// Besides, the slips and how many each user has.
    Third,
}

impl Edition {
    /// The number by which the row of the bank names it.
    pub fn number(self) -> i64
        ensures named { result ≡ pos (edition_number self) }
    {
        match self {
            Edition::First => 1,
            Edition::Second => 2,
            Edition::Third => 3,
        }
    }
}
