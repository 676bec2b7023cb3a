//! What makes a row one of a list, its heading and its fields, and the rows of a list as they are gathered.

ghost use Rattle.std.specs.Prelude.{◌≡◌, ℕ, List, Option, IfOk, map};
ghost use Rattle.list_records.specs.Records.{is_record};

use list_records::Gather;
use std::alloc::{AllocError, Global};
use std::marker::Model;

/// A row of a list.
pub(crate) trait ListRow {
    /// The row that the fields of a record state, or none where it is bad.
    ghost row_of: { List (List ℕ) → Option Self };

    /// The heading of the list.
    ghost heading: { List (List ℕ) };

    /// Whether these are the fields of the heading.
    fn is_heading(fields: &[&[u8]]) -> bool
        ensures { result ≡ is_record heading (map (λ f. f.now) fields.now) };

    /// Reads it. The error is that memory is refused.
    fn read(alloc: Global, fields: &[&[u8]]) -> Result<Option<Self>, AllocError>
        ensures { IfOk result (λ row. row ≡ row_of (map (λ f. f.now) fields.now)) };
}

/// The rows of a list, in the order of its records.
#[derive(Drop)]
pub(crate) struct Rows<T> {
    rows: Vec<T>,
}

impl<T> Model for Rows<T> {
    ghost use Rattle.std.specs.Prelude.{List};

    ghost Value = { List T };

    ghost view = { λ r. r.rows.items };
}

impl<T> Rows<T> {
    ghost use Rattle.std.specs.Prelude.{◌≡◌, []};

    /// No rows.
    pub fn new(alloc: Global) -> Rows<T>
        ensures { result ≡ [] }
    {
        Rows {
            rows: Vec::new(alloc),
        }
    }

    /// The rows alone.
    pub fn into_rows(self) -> Vec<T>
        ensures { result.items ≡ self }
    {
        self.rows
    }
}

impl<T: ListRow + Drop> Gather for Rows<T> {
    ghost use Rattle.list_opening.specs.Rows.{with_row};
    ghost use Rattle.list_records.specs.Records.{begun_after};

    ghost begun_by = { λ rows r. begun_after T.heading rows r };

    ghost with_record = { λ rows r. with_row T.row_of rows r };

    fn begin(&mut self, _alloc: Global, fields: &[&[u8]]) -> Result<bool, AllocError> {
        Ok(T::is_heading(fields))
    }

    fn add(&mut self, alloc: Global, fields: &[&[u8]]) -> Result<bool, AllocError> {
        match T::read(alloc, fields)? {
            Some(row) => {
                self.rows.push(row)?;
                Ok(true)
            }
            None => Ok(false),
        }
    }
}
