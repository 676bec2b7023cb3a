//! What gathers the records of a list: it takes the heading and adds each record, or says that one is bad.

ghost use Rattle.std.specs.Prelude.{◌≡◌, ℕ, List, Option, Some, None, IfOk, map, if◌then◌else◌};

use std::alloc::{AllocError, Global};

/// What the records of a list are gathered into. After an error it may hold anything.
pub trait Gather {
    /// What it is after this heading, by the heading's fields; or none where it is no heading of this list.
    ghost begun_by: { Self → List (List ℕ) → Option Self };

    /// What it is with one more record, by its fields; or none where the record is bad.
    ghost with_record: { Self → List (List ℕ) → Option Self };

    /// Takes the heading, or says that it is none of this list. The error is that memory is refused.
    fn begin(&mut self, alloc: Global, fields: &[&[u8]]) -> Result<bool, AllocError>
        ensures { IfOk result (λ good. begun_by self.old (map (λ f. f.now) fields.now) ≡ (if good then Some self.new else None)) };

    /// Adds a record, or says that it is bad. The error is that memory is refused.
    fn add(&mut self, alloc: Global, fields: &[&[u8]]) -> Result<bool, AllocError>
        ensures { IfOk result (λ good. with_record self.old (map (λ f. f.now) fields.now) ≡ (if good then Some self.new else None)) };
}
