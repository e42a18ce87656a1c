// Texts of records, by the library.
ghost use Rattle.std.specs.Prelude.{◌≡◌, ◌<◌, ◌∷◌, [], IfOk, OnOk, Some, length, map, option_map};
ghost use Rattle.std.specs.Prelude.{slice_get};
ghost use Rattle.csv.specs.Records.{fields_of};
ghost use Rattle.row_files.specs.Records.{AreRecordsOf, WritesOn};

use csv::{Error, ReaderBuilder, StringRecord, Writer};
use fx_base::Memory;
use std::alloc::Global;

/// The records of a text. Records of different lengths are read too: that is a rule of batches.
// The text is UTF-8, so that each field is, and a slice of bytes can be read: no error but want of
// memory comes.
pub fn read_records(alloc: Global, text: &str) -> Result<Vec<StringRecord>, Memory>
    ensures { IfOk result (λ rs. AreRecordsOf text.now (map fields_of rs.items)) }
{
    match read_bytes(alloc, text.as_bytes()) {
        Ok(records) => Ok(records),
        Err(_) => Err(Memory),
    }
}

// The records of bytes, whatever their lengths.
fn read_bytes(alloc: Global, bytes: &[u8]) -> Result<Vec<StringRecord>, Error>
    ensures { IfOk result (λ rs. AreRecordsOf bytes.now (map fields_of rs.items)) }
{
    let reader = ReaderBuilder::new()
        .has_headers(false)
        .flexible(true)
        .from_reader(alloc, bytes);
    let mut records = Vec::new(alloc);
    for line in reader.into_records() {
        if records.push(line?).is_err() {
            return Err(Error::out_of_memory());
        }
    }
    Ok(records)
}

/// The field at a place, counted from 0.
pub fn field_at(line: &StringRecord, place: usize) -> Option<&str>
    ensures { option_map (λ s. s.now) result ≡ slice_get (fields_of line.now) place }
{
    line.get(place)
}

/// The field at a place that has one, counted from 0.
pub fn text_at(line: &StringRecord, place: usize) -> &str
    requires { place < length (fields_of line.now) }
    ensures { slice_get (fields_of line.now) place ≡ Some result.now }
{
    match field_at(line, place) {
        Some(text) => text,
        None => unreachable!(),
    }
}

/// Writes a record behind those that are written.
pub fn write_record(writer: &mut Writer<Vec<u8>>, line: &StringRecord) -> Result<(), Memory>
    ensures { OnOk result (WritesOn (λ v. Some v.items) writer.old writer.new
        (fields_of line.now ∷ [])) }
{
    if writer.write_byte_record(line.as_byte_record()).is_err() {
        return Err(Memory);
    }
    Ok(())
}
