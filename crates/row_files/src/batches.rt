// Batches of lines.
ghost use Rattle.std.specs.Prelude.{◌≡◌, ◌<◌, ◌^◌, ◌==◌, ◌∷◌, IfSome, length, map, not};
ghost use Rattle.std.specs.List.{position};
ghost use Rattle.csv.specs.Records.{fields_of};
ghost use Rattle.row_files.specs.Batches.{GivesBatch, batch_of as batch_of_records};
ghost use Rattle.row_files.specs.Batches.{batch_in as batch_in_columns, count_refusal};
ghost use Rattle.row_files.specs.Batches.{length_refusal};
ghost use Rattle.row_files.specs.Ends.{Gives, Passes};

use crate::ends::{BatchEnd, ImportRule, refusal_of_record};
use crate::headers::read_header;
use crate::lines::read_lines;
use crate::records::read_records;
use csv::StringRecord;
use fx_base::InOrder;
use fx_core::{Column, TableShape};
use row_queries::Cells;
use std::alloc::Global;

/// Lines for a table.
#[derive(Drop)]
pub struct Batch {
    /// The columns that the header names, each by its number from 1.
    pub columns: InOrder<u16>,
    /// The values of each line, one for each of these columns.
    pub lines: InOrder<Cells>,
}

/// The most records behind a header.
const MOST_LINES: usize = 1_000;

/// The batch of a text of records, for the key that is the unique column of this number, which
/// `key_column` gives.
/// The first record names columns, and each later one is a line. It is refused for the first of
/// these that breaks: each record has as many fields as the header; there is a header, its names
/// are columns', each once and the key among them; there are at most 1,000 lines; and, line after
/// line, each field spells a value of its column's type, and the key is neither blank nor that of a
/// line before.
///
/// A text has one answer; want of memory may stand in its place.
pub fn read_batch(
    alloc: Global,
    shape: &TableShape,
    key: u16,
    text: &str,
) -> Result<Batch, BatchEnd>
    requires { length shape.now.columns < 2 ^ 16 }
    ensures { GivesBatch shape.now.columns key text.now result }
{
    let records = read_records(alloc, text)?;
    let columns = shape.columns.as_slice();
    batch_of(alloc, columns, key, records.as_slice())
}

// The batch of records.
fn batch_of(
    alloc: Global,
    columns: &[Column],
    key: u16,
    records: &[StringRecord],
) -> Result<Batch, BatchEnd>
    requires { length columns.now < 2 ^ 16 }
    ensures { Gives (batch_of_records columns.now key (map fields_of records.now)) result }
{
    match records.split_first() {
        Some((header, lines)) => batch_behind(alloc, columns, key, header, lines),
        None => Err(refusal_of_record(alloc, 0, ImportRule::Header)),
    }
}

// The batch of a header and the records behind it.
fn batch_behind(
    alloc: Global,
    columns: &[Column],
    key: u16,
    header: &StringRecord,
    lines: &[StringRecord],
) -> Result<Batch, BatchEnd>
    requires { length columns.now < 2 ^ 16 }
    ensures { Gives (batch_of_records columns.now key
        (fields_of header.now ∷ map fields_of lines.now)) result }
{
    check_lengths(alloc, header, lines)?;
    let numbers = read_header(alloc, columns, key, header)?;
    batch_in(alloc, columns, key, numbers, lines)
}

// The batch of records in the columns of these numbers.
fn batch_in(
    alloc: Global,
    columns: &[Column],
    key: u16,
    numbers: InOrder<u16>,
    records: &[StringRecord],
) -> Result<Batch, BatchEnd>
    ensures { Gives (batch_in_columns columns.now key (map fields_of records.now) numbers) result }
{
    check_count(alloc, records.len())?;
    let lines = read_lines(alloc, columns, key, numbers.as_slice(), records)?;
    Ok(Batch {
        columns: numbers,
        lines,
    })
}

// The place of the first record that hasn't so many fields.
fn odd_place(width: usize, records: &[StringRecord]) -> Option<usize>
    ensures place { result ≡ position (λ r. not (length (fields_of r) == width)) records.now }
    ensures within { IfSome result (λ i. i < length records.now) }
{
    records.iter().position(|line| line.len() != width)
}

// Checks that records have as many fields as a header.
fn check_lengths(
    alloc: Global,
    header: &StringRecord,
    records: &[StringRecord],
) -> Result<(), BatchEnd>
    ensures { Passes (length_refusal (length (fields_of header.now)) (map fields_of records.now))
        result }
{
    match odd_place(header.len(), records) {
        Some(place) => Err(refusal_of_record(alloc, place + 1, ImportRule::Csv)),
        None => Ok(()),
    }
}

// Checks that there are few records.
fn check_count(alloc: Global, count: usize) -> Result<(), BatchEnd>
    ensures { Passes (count_refusal count) result }
{
    if count > MOST_LINES {
        return Err(refusal_of_record(alloc, MOST_LINES + 1, ImportRule::Long));
    }
    Ok(())
}
