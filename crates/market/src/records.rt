//! The records of an input.

ghost use Rattle.std.specs.Prelude.{◌≡◌, List, ℕ, IfOk, map};
ghost use Rattle.csv.specs.Records.{fields_of};
ghost use Rattle.market.specs.Records.{records_of, Reads, ReadsOne};

use csv::{ByteRecord, Error, Reader, ReaderBuilder};
use std::alloc::{AllocError, Global};

// A reader of records of any length, with no header row.
pub fn open_records(alloc: Global, text: &[u8]) -> Reader<&[u8]>
    ensures { Reads result (records_of text.now) }
{
    ReaderBuilder::new()
        .has_headers(false)
        .flexible(true)
        .from_reader(alloc, text)
}

// Reads the next record, if there is one.
pub fn next_record(reader: &mut Reader<&[u8]>, row: &mut ByteRecord) -> Result<bool, Error>
    ensures { IfOk result (λ found. (rest : List (List (List ℕ))) → Reads reader.old rest
        → ReadsOne rest found (fields_of row.new) reader.new) }
{
    let found = reader.read_byte_record(row)?;
    Ok(found)
}

// The fields of a record.
pub fn fields(alloc: Global, row: &ByteRecord) -> Result<Vec<Vec<u8>>, AllocError>
    ensures { IfOk result (λ fields. map (λ field. field.items) fields.items ≡ fields_of row.now) }
{
    let mut fields = Vec::new(alloc);
    for field in row {
        fields.push(Vec::from_slice(alloc, field)?)?;
    }
    Ok(fields)
}
