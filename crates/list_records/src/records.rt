//! The records of a list gathered one by one, with the number of the first bad one.

ghost use Rattle.std.specs.Prelude.{◌≡◌, ◌==◌, IfOk, Some, None, map, if◌then◌else◌};
ghost use Rattle.csv.specs.Records.{fields_of};
ghost use Rattle.list_records.specs.Records.{IsReported, gathered, is_record, records_of, taken};

use crate::fault::RecordFault;
use crate::gathering::Gather;
use csv::{ByteRecord, ReaderBuilder};
use std::alloc::{AllocError, Global};

/// The fields of a record. The error is that memory is refused.
fn fields_of<'r>(alloc: Global, row: &'r ByteRecord) -> Result<Vec<&'r [u8]>, AllocError>
    ensures { IfOk result (λ fields. map (λ f. f.now) fields.items ≡ fields_of row.now) }
{
    let mut fields = Vec::new(alloc);
    for field in row {
        fields.push(field)?;
    }
    Ok(fields)
}

/// Whether a record has exactly these fields, byte for byte.
pub fn is_record(names: &[&[u8]], fields: &[&[u8]]) -> bool
    ensures { result ≡ is_record (map (λ n. n.now) names.now) (map (λ f. f.now) fields.now) }
{
    names == fields
}

/// Takes the record of this number: the first is the heading, and the others are added. Says whether it is good. The error
/// is that memory is refused.
fn take_record<G: Gather>(
    alloc: Global,
    number: u64,
    row: &ByteRecord,
    gathered: &mut G,
) -> Result<bool, AllocError>
    ensures { IfOk result (λ good. taken G.begun_by G.with_record number gathered.old (fields_of row.now) ≡ (if good then Some gathered.new else None)) }
{
    let fields = fields_of(alloc, row)?;
    if number == 1 {
        gathered.begin(alloc, &fields)
    } else {
        gathered.add(alloc, &fields)
    }
}

/// Gathers the records of a list, its heading first and then the others, one by one. The fault is the first
/// record that is bad, or that memory was refused, which may come at any record. The heading is record 1, and a text
/// without records is bad at it.
pub fn gather<G: Gather + Drop>(alloc: Global, text: &[u8], begun: G) -> Result<G, RecordFault>
    ensures { IsReported (gathered G.begun_by G.with_record begun (records_of text.now)) result }
{
    let mut reader = ReaderBuilder::new()
        .has_headers(false)
        .flexible(true)
        .from_reader(alloc, text);
    let mut row = ByteRecord::new(alloc);
    let mut gathered = begun;
    let mut number: u64 = 0;
    while reader.read_byte_record(&mut row)? {
        number += 1;
        if !take_record(alloc, number, &row, &mut gathered)? {
            return Err(RecordFault::Bad(number));
        }
    }
    if number == 0 {
        return Err(RecordFault::Bad(1));
    }
    Ok(gathered)
}
