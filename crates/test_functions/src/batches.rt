//! Batches of lines, read from texts of records, and pages of rows, written as such texts.
ghost use Rattle.std.specs.Prelude.{◌<◌, ◌^◌, length};

use crate::page::Page;
use crate::parts::{Scalar, value_of};
use fx_base::{InOrder, Memory};
use fx_core::{Column, Scalar as ScalarType, TableShape};
use fx_types::Words;
use row_files::{Batch, BatchEnd, ImportRule, key_column, read_batch, write_page};
use row_queries::{Cells, Row};
use std::alloc::Global;
use view_text::plain;

/// The columns of a table, each with whether it is unique.
type Columns = &'static [(&'static str, ScalarType, bool)];

const STOCK: Columns = &[
    ("Name", ScalarType::Text, true),
    ("Qty", ScalarType::Number, false),
];

const PARTS: Columns = &[
    ("K", ScalarType::Number, true),
    ("U", ScalarType::Text, true),
    ("B", ScalarType::Boolean, false),
    ("D", ScalarType::Date, false),
    ("R", ScalarType::Text, false),
];

/// Texts for the first table, whose key is `Name`.
const STOCK_TEXTS: [&str; 25] = [
    "Name,Qty\nNut,2.5\nBolt,\n",
    "Nam\nx,y\n",
    "Nam\nx\n",
    "",
    "\n\r\n\n",
    "\u{feff}",
    "Name,\na,b\n",
    "Qty\n1\n",
    "Qty,Qty\n1,2\n",
    "ID,Name\n1,a\n",
    "Qty,Name,Name\n1,a,b\n",
    "Name,Qty\n,x\n",
    "Name,Qty\n,1\n",
    "Name,Qty\nNut,1\nBolt\n",
    "Name,Qty\nNut,1\nNut,x\n",
    "Name,Qty\nNut,1\nNut,2\nBolt,x\n",
    "Name,Qty\nNut,x\n",
    "Name\nNut\nNut\n",
    "Name,Qty\na,1.\n",
    "Name,Qty\na, \n",
    "Name,Qty\na,1e3\n",
    "Name,Qty\na,922337203685477.5808\n",
    "Name\n\"\"\n",
    "Name\n",
    "\u{feff}Qty,Name\r\n +1 ,\"a,\"\"b\"\"\"\r\n\r\n-0,\"x\ny\"\r0.00005, z \n1,\"q\"r",
];

/// Texts for the second table, whose key is `K`.
const PARTS_TEXTS: [&str; 7] = [
    "K,U,B,D,R\n1,a,true,2024-02-29,r\n2,b,false,,r\n",
    "K,U\n1,c\n2,a\n1.0,d\n",
    "K,U\n1.0,c\n02,a\n",
    "K,B\n1,TRUE\n",
    "K,D\n1,2023-02-29\n",
    "K\n",
    "K,R\n1,\n",
];

/// The rows of pages, by the columns of their tables.
const STOCK_PAGE: [[Scalar; 2]; 4] = [
    [Scalar::Text("a,\"b\""), Scalar::Number(10_000)],
    [Scalar::Text("x\ny"), Scalar::Number(0)],
    [Scalar::Text(" z "), Scalar::Number(1)],
    [Scalar::Text("qr"), Scalar::Blank],
];

const PARTS_PAGE: [[Scalar; 5]; 2] = [
    [
        Scalar::Number(10_000),
        Scalar::Text("c"),
        Scalar::Boolean(true),
        Scalar::Date(19_782),
        Scalar::Text("r"),
    ],
    [
        Scalar::Number(20_000),
        Scalar::Text("a"),
        Scalar::Boolean(false),
        Scalar::Blank,
        Scalar::Text("r"),
    ],
];

pub fn write(page: &mut Page) -> Result<(), Memory> {
    page.add("# Batches");
    let stock = table(page.alloc, STOCK)?;
    for text in STOCK_TEXTS {
        add_batch(page, &stock, "Name", text)?;
    }
    let parts = table(page.alloc, PARTS)?;
    for text in PARTS_TEXTS {
        add_batch(page, &parts, "K", text)?;
    }
    add_batch(page, &stock, "Qty", "Name\n")?;
    add_batch(page, &stock, "ID", "Name\n")?;
    page.add("# Batches of many lines");
    add_long(page, &stock, 1_000, "")?;
    add_long(page, &stock, 1_001, "")?;
    add_long(page, &stock, 1_001, "n1\n")?;
    add_long(page, &stock, 1_001, "a,b\n")?;
    page.add("# Pages");
    add_pages(page, &stock, &parts)
}

fn table(alloc: Global, columns: Columns) -> Result<TableShape, Memory> {
    let mut list = InOrder::new(alloc);
    for (name, ty, unique) in columns {
        list.push(Column {
            name: Words::of(alloc, name)?,
            ty: ty.ty(),
            required: false,
            unique: *unique,
            indexed: *unique,
        })?;
    }
    Ok(TableShape {
        name: Words::of(alloc, "T")?,
        columns: list,
    })
}

// What a text says for a table.
fn add_batch(page: &mut Page, shape: &TableShape, key: &str, text: &str) -> Result<(), Memory> {
    if shape.columns.len() >= 65_536 {
        page.add("too many columns");
        return Ok(());
    }
    let name = Words::of(page.alloc, key)?;
    match key_column(shape, &name) {
        Some(key) => match read_batch(page.alloc, shape, key, text) {
            Ok(batch) => list_batch(page, &batch),
            Err(end) => add_end(page, end),
        },
        None => page.add("no key"),
    }
    Ok(())
}

fn list_batch(page: &mut Page, batch: &Batch) {
    page.put("columns");
    for number in batch.columns.as_slice() {
        page.put_made(format!(in page.alloc; " {number}"));
    }
    if batch.lines.len() > 4 {
        return page.add_made(format!(in page.alloc; "; {} lines", batch.lines.len()));
    }
    for line in batch.lines.as_slice() {
        page.put(";");
        list_cells(page, line);
    }
    page.add("");
}

fn list_cells(page: &mut Page, cells: &Cells) {
    for cell in cells.as_slice() {
        page.put(" ");
        page.put_made(plain(page.alloc, cell));
    }
}

fn add_end(page: &mut Page, end: BatchEnd) {
    match end {
        BatchEnd::Refused(at, column, rule) => {
            let rule = rule_name(rule);
            page.add_made(format!(in page.alloc; "{rule} at {at}, {:?}", column.as_str()));
        }
        BatchEnd::Memory => page.miss(),
    }
}

fn rule_name(rule: ImportRule) -> &'static str {
    match rule {
        ImportRule::Csv => "csv",
        ImportRule::Header => "header",
        ImportRule::Long => "long",
        ImportRule::Kind => "type",
        ImportRule::Blank => "blank",
        ImportRule::Twice => "twice",
    }
}

// A batch of so many names, and a last record.
fn add_long(page: &mut Page, shape: &TableShape, count: u32, last: &str) -> Result<(), Memory> {
    let mut text = String::from_str(page.alloc, "Name\n")?;
    for number in 0..count {
        let line = format!(in page.alloc; "n{number}\n")?;
        text.push_str(line.as_str())?;
    }
    text.push_str(last)?;
    add_batch(page, shape, "Name", text.as_str())
}

fn add_pages(page: &mut Page, stock: &TableShape, parts: &TableShape) -> Result<(), Memory> {
    let alloc = page.alloc;
    let mut rows = Vec::new(alloc);
    for (place, cells) in STOCK_PAGE.iter().enumerate() {
        rows.push(row(alloc, place as u32 + 1, cells)?)?;
    }
    page.put_made(write_page(alloc, stock, &rows));
    let mut rows = Vec::new(alloc);
    for (place, cells) in PARTS_PAGE.iter().enumerate() {
        rows.push(row(alloc, place as u32 + 1, cells)?)?;
    }
    page.put_made(write_page(alloc, parts, &rows));
    add_narrow(page)
}

// Pages of a table without columns, and of one column.
fn add_narrow(page: &mut Page) -> Result<(), Memory> {
    let alloc = page.alloc;
    let none = table(alloc, &[])?;
    page.put_made(write_page(alloc, &none, &[]));
    page.put_made(write_page(alloc, &none, &[row(alloc, 1, &[])?]));
    let one = table(alloc, &[("a,b", ScalarType::Text, true)])?;
    let blank = row(alloc, 1, &[Scalar::Blank])?;
    let empty = row(alloc, 2, &[Scalar::Text("")])?;
    page.put_made(write_page(alloc, &one, &[blank, empty]));
    Ok(())
}

fn row(alloc: Global, id: u32, scalars: &[Scalar]) -> Result<Row, Memory> {
    let mut cells = Cells::new(alloc);
    for scalar in scalars {
        cells.push(value_of(alloc, *scalar)?)?;
    }
    Ok(Row { id, cells })
}
