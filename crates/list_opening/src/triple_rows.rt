//! The list of triples, whose heading says whether its records state moments.

ghost use Rattle.std.specs.Prelude.{◌≡◌, map};
ghost use Rattle.list_records.specs.Records.{is_record};
ghost use Rattle.list_opening.specs.Triples.{timed_names, triple_after, triple_names};

use crate::rows::{timed_row, triple_row};
use bank_policy::Triple;
use list_records::{Gather, is_record};
use std::alloc::{AllocError, Global};
use std::marker::Model;

/// The triples of a list, in the order of its records.
#[derive(Drop)]
pub(crate) struct TripleRows {
    /// Whether the records state moments, as the heading says.
    timed: bool,
    rows: Vec<Triple>,
}

impl Model for TripleRows {
    ghost use Rattle.list_opening.specs.Triples.{TriplesRead};

    ghost Value = { TriplesRead };

    ghost view = { λ r. (r.timed, r.rows.items) };
}

impl TripleRows {
    ghost use Rattle.std.specs.Prelude.{◌≡◌};
    ghost use Rattle.list_opening.specs.Triples.{none_read};

    /// No triples.
    pub fn new(alloc: Global) -> TripleRows
        ensures { result ≡ none_read }
    {
        TripleRows {
            timed: false,
            rows: Vec::new(alloc),
        }
    }

    /// The triples alone.
    pub fn into_rows(self) -> Vec<Triple>
        ensures { result.items ≡ self.1 }
    {
        self.rows
    }
}

/// The triple that a record states under a heading with moments, or under one without.
fn triple_after(timed: bool, fields: &[&[u8]]) -> Option<Triple>
    ensures { result ≡ triple_after timed (map (λ f. f.now) fields.now) }
{
    if timed {
        timed_row(fields)
    } else {
        triple_row(fields)
    }
}

/// Whether these are the fields of the heading without moments.
fn is_untimed_heading(fields: &[&[u8]]) -> bool
    ensures { result ≡ is_record triple_names (map (λ f. f.now) fields.now) }
{
    is_record(&[b"user", b"procedure", b"set", b"limit"], fields)
}

/// Whether these are the fields of the heading with moments.
fn is_timed_heading(fields: &[&[u8]]) -> bool
    ensures { result ≡ is_record timed_names (map (λ f. f.now) fields.now) }
{
    is_record(
        &[b"user", b"procedure", b"set", b"limit", b"first", b"last"],
        fields,
    )
}

impl Gather for TripleRows {
    ghost use Rattle.list_opening.specs.Triples.{begun_triples, with_triple};

    ghost begun_by = { begun_triples };

    ghost with_record = { with_triple };

    fn begin(&mut self, _alloc: Global, fields: &[&[u8]]) -> Result<bool, AllocError> {
        self.timed = is_timed_heading(fields);
        Ok(self.timed || is_untimed_heading(fields))
    }

    fn add(&mut self, _alloc: Global, fields: &[&[u8]]) -> Result<bool, AllocError> {
        match triple_after(self.timed, fields) {
            Some(row) => {
                self.rows.push(row)?;
                Ok(true)
            }
            None => Ok(false),
        }
    }
}
