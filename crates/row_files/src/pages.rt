// Rows as a text of records.
ghost use Rattle.std.specs.Prelude.{◌≡◌, ℕ, List, ◌∷◌, [], IfOk, OnOk, Some, map, string_bytes};
ghost use Rattle.csv.specs.Records.{fields_of};
ghost use Rattle.fx_types.specs.ValueView.{view};
ghost use Rattle.field_texts.specs.Fields.{field_of};
ghost use Rattle.row_files.specs.Pages.{names_of, page_text, row_fields};
ghost use Rattle.row_files.specs.Records.{HasText, WritesOn};

use crate::records::write_record;
use csv::{StringRecord, Writer, WriterBuilder};
use field_texts::field_text;
use fx_base::Memory;
use fx_core::{Column, TableShape};
use fx_types::Value;
use row_queries::Row;
use std::alloc::Global;

/// A page of rows, as a text: a record of the columns' names, and then a record for each row, with
/// a field for each cell. Each record ends in a line feed, and a field stands between quotes where
/// it holds a comma, a quote or the end of a line.
pub fn write_page(alloc: Global, shape: &TableShape, rows: &[Row]) -> Result<String, Memory>
    ensures { IfOk result (λ s. string_bytes s ≡ page_text shape.now.columns rows.now) }
{
    let mut writer = new_writer(alloc);
    write_names(alloc, &mut writer, shape.columns.as_slice())?;
    write_rows(alloc, &mut writer, rows)?;
    finish(writer)
}

// A writer before all records.
fn new_writer(alloc: Global) -> Writer<Vec<u8>>
    ensures { HasText (λ v. Some v.items) result [] }
{
    WriterBuilder::new().from_writer(Vec::new(alloc))
}

// The text that was written. Its bytes are those of texts and of characters below 128, so they are
// UTF-8.
fn finish(writer: Writer<Vec<u8>>) -> Result<String, Memory>
    ensures { (bytes : List ℕ) → HasText (λ v. Some v.items) writer bytes
        → IfOk result (λ s. string_bytes s ≡ bytes) }
{
    match writer.into_inner() {
        Ok(bytes) => text_of(bytes),
        Err(_) => Err(Memory),
    }
}

// The text of bytes that are one.
fn text_of(bytes: Vec<u8>) -> Result<String, Memory>
    ensures { IfOk result (λ s. string_bytes s ≡ bytes.items) }
{
    match String::from_utf8(bytes) {
        Ok(text) => Ok(text),
        Err(_) => Err(Memory),
    }
}

// Writes the record of the columns' names.
fn write_names(
    alloc: Global,
    writer: &mut Writer<Vec<u8>>,
    columns: &[Column],
) -> Result<(), Memory>
    ensures { OnOk result (WritesOn (λ v. Some v.items) writer.old writer.new
        (names_of columns.now ∷ [])) }
{
    let names = record_of_names(alloc, columns)?;
    write_record(writer, &names)
}

// Writes a record for each row.
fn write_rows(alloc: Global, writer: &mut Writer<Vec<u8>>, rows: &[Row]) -> Result<(), Memory>
    ensures { OnOk result (WritesOn (λ v. Some v.items) writer.old writer.new
        (map row_fields rows.now)) }
{
    for row in rows {
        let line = record_of_cells(alloc, row.cells.as_slice())?;
        write_record(writer, &line)?;
    }
    Ok(())
}

// The record of the columns' names.
fn record_of_names(alloc: Global, columns: &[Column]) -> Result<StringRecord, Memory>
    ensures { IfOk result (λ r. fields_of r ≡ names_of columns.now) }
{
    let mut line = StringRecord::new(alloc);
    for column in columns {
        line.push_field(column.name.as_str())?;
    }
    Ok(line)
}

// The record of a row's cells.
fn record_of_cells(alloc: Global, cells: &[Value]) -> Result<StringRecord, Memory>
    ensures { IfOk result (λ r. fields_of r ≡ map field_of (map view cells.now)) }
{
    let mut line = StringRecord::new(alloc);
    for cell in cells {
        let field = field_text(alloc, cell)?;
        line.push_field(field.as_str())?;
    }
    Ok(line)
}
