//! How the rows that are limited in number are grouped: relations by procedure, triples by user.

use crate::rows::{Relation, Triple};
use keyed_rows::Grouped;

/// The relations of a procedure are a group.
impl Grouped for Relation {
    ghost use Rattle.bank_terms.specs.Procedure.{number_of};

    ghost group = { λ row. number_of row.procedure };

    fn group(&self) -> u32 {
        self.procedure.number() as u32
    }
}

/// The triples of a user are a group.
impl Grouped for Triple {
    ghost group = { λ row. row.user };

    fn group(&self) -> u32 {
        self.user
    }
}
