// The headers of batches.
ghost use Rattle.std.specs.Prelude.{◌≡◌, ◌<◌, ◌^◌, [], IfOk, IfSome, bytes_eq, length, map};
ghost use Rattle.std.specs.Prelude.{option_map};
ghost use Rattle.std.specs.List.{position};
ghost use Rattle.csv.specs.Records.{fields_of};
ghost use Rattle.fx_core.specs.declared.schema.Column.{Column};
ghost use Rattle.fx_types.specs.Words.{scalars_of};
ghost use Rattle.row_files.specs.Batches.{bad_name as bad_name_in, column_at, header_of};
ghost use Rattle.row_files.specs.Batches.{is_among as is_among_of, key_named, lacking_key, name_at};
ghost use Rattle.row_files.specs.Batches.{number_of, numbers_of as numbers_in, refused_name};
ghost use Rattle.row_files.specs.Ends.{Gives, IfRefused, Passes};

use crate::ends::{BatchEnd, ImportRule, refusal, refusal_of_record};
use crate::records::text_at;
use csv::StringRecord;
use fx_base::{InOrder, Memory};
use fx_core::{Column, TableShape};
use fx_types::Words;
use std::alloc::Global;

/// The column of a number, counted from 1.
pub fn column_of(columns: &[Column], number: u16) -> Option<&Column>
    ensures { option_map (λ c. c.now) result ≡ column_at columns.now number }
{
    columns.get(usize::from(number).saturating_sub(1))
}

/// The refusal of a record by its number, for the column of a number.
pub fn refusal_at(
    alloc: Global,
    columns: &[Column],
    number: u16,
    at: usize,
    rule: ImportRule,
) -> BatchEnd
    ensures { IfRefused result (λ e. e ≡ BatchEnd.Refused at (name_at columns.now number) rule) }
{
    match column_of(columns, number) {
        Some(column) => refusal(alloc, at, &column.name, rule),
        None => refusal_of_record(alloc, at, rule),
    }
}

// The place of the column of a name.
fn column_place(columns: &[Column], name: &Words) -> Option<usize>
    ensures place { result ≡ position (λ (c : Column). bytes_eq c.name name.now) columns.now }
    ensures within { IfSome result (λ i. i < length columns.now) }
{
    columns.iter().position(|column| column.name.is(name))
}

// The number of the column of a name, from 1.
fn column_number(columns: &[Column], name: &Words) -> Option<u16>
    requires { length columns.now < 2 ^ 16 }
    ensures { result ≡ number_of name.now columns.now }
{
    match column_place(columns, name) {
        Some(place) => Some(place as u16 + 1),
        None => None,
    }
}

/// The number of the unique column of a name, from 1. None where no column has the name, as none
/// has `ID`, or where the one that has it isn't unique.
pub fn key_column(shape: &TableShape, name: &Words) -> Option<u16>
    requires { length shape.now.columns < 2 ^ 16 }
    ensures { result ≡ key_named name.now shape.now.columns }
{
    let columns = shape.columns.as_slice();
    let number = column_number(columns, name)?;
    match column_of(columns, number) {
        Some(column) if column.unique => Some(number),
        _ => None,
    }
}

// Whether a name is one of several.
fn is_among(name: &Words, names: &[Words]) -> bool
    ensures { result ≡ is_among_of name.now names.now }
{
    names.iter().any(|other| other.is(name))
}

// The first name that no column has, or that stands before.
fn bad_name<'a>(columns: &[Column], names: &'a [Words]) -> Option<&'a Words>
    requires { length columns.now < 2 ^ 16 }
    ensures { option_map (λ n. n.now) result ≡ bad_name_in columns.now [] names.now }
{
    for (place, name) in names.iter().enumerate() {
        if column_number(columns, name).is_none() || is_among(name, &names[..place]) {
            return Some(name);
        }
    }
    None
}

// Checks that each name of a header is a column's and stands once.
fn check_names(alloc: Global, columns: &[Column], names: &[Words]) -> Result<(), BatchEnd>
    requires { length columns.now < 2 ^ 16 }
    ensures { Passes (refused_name (bad_name_in columns.now [] names.now)) result }
{
    match bad_name(columns, names) {
        Some(name) => Err(refusal(alloc, 0, name, ImportRule::Header)),
        None => Ok(()),
    }
}

// Checks that the key is among the names of a header.
fn check_key(alloc: Global, columns: &[Column], key: u16, names: &[Words]) -> Result<(), BatchEnd>
    ensures { Passes (refused_name (lacking_key (column_at columns.now key) names.now)) result }
{
    match column_of(columns, key) {
        None => Err(refusal_of_record(alloc, 0, ImportRule::Header)),
        Some(column) => {
            if is_among(&column.name, names) {
                return Ok(());
            }
            Err(refusal(alloc, 0, &column.name, ImportRule::Header))
        }
    }
}

// The numbers of the columns of names.
fn numbers_of(alloc: Global, columns: &[Column], names: &[Words]) -> Result<InOrder<u16>, Memory>
    requires { length columns.now < 2 ^ 16 }
    ensures { IfOk result (λ ks. ks ≡ numbers_in columns.now names.now) }
{
    let mut numbers = InOrder::new(alloc);
    for name in names {
        numbers.push(column_number(columns, name).unwrap_or(0))?;
    }
    Ok(numbers)
}

// The texts of a record's fields.
fn names_of(alloc: Global, header: &StringRecord) -> Result<InOrder<Words>, Memory>
    ensures { IfOk result (λ ns. ns ≡ map scalars_of (fields_of header.now)) }
{
    let mut names = InOrder::new(alloc);
    for place in 0..header.len() {
        let name = Words::of(alloc, text_at(header, place))?;
        names.push(name)?;
    }
    Ok(names)
}

/// The numbers of the columns that a header names, from 1, for the key that is the column of a
/// number.
pub fn read_header(
    alloc: Global,
    columns: &[Column],
    key: u16,
    header: &StringRecord,
) -> Result<InOrder<u16>, BatchEnd>
    requires { length columns.now < 2 ^ 16 }
    ensures { Gives (header_of columns.now key (map scalars_of (fields_of header.now))) result }
{
    let names = names_of(alloc, header)?;
    check_names(alloc, columns, names.as_slice())?;
    check_key(alloc, columns, key, names.as_slice())?;
    Ok(numbers_of(alloc, columns, names.as_slice())?)
}
