// Calls of keepers, as lines say them.

use fx_base::Memory;
use fx_number::{Num, read};
use std::alloc::Global;

/// What a line says.
#[derive(Clone, Copy)]
pub enum Call<'l> {
    /// New keepers are taken; in memory the calls of the numbers in the text fail.
    New(&'l str),
    /// The table of a text, or the one of most cases, is to be kept.
    Shape(&'l str),
    /// One of other columns is to be kept.
    Other,
    Begin,
    Commit,
    Back,
    /// The numbers up to this one are passed over.
    Skip(u32),
    /// A row of a name and a quantity is put, anew or over that of a number.
    Put(Option<u32>, &'l str, Option<Num>),
    Remove(u32),
    /// The table moves to that of a text.
    Reshape(&'l str, Sources),
    Ask(Ask),
    /// How many rows were visited.
    Seen,
    /// The file is opened again.
    Reopen,
    /// A statement is run over the file, which is opened again then.
    Sql(&'l str),
    /// One more keeper is attached to the file of a name.
    Attach(&'l str),
    Nothing,
}

/// A table of a text and an indexed number: its name, and those of its columns. Behind the name of
/// a column and a `:` stands which rules it has: `required`, `unique`, or `key` for both.
#[derive(Clone, Copy)]
pub struct Form<'l> {
    pub table: &'l str,
    pub name: &'l str,
    pub quantity: &'l str,
}

/// The table of most cases.
const STOCK: Form = Form {
    table: "Stock",
    name: "Name:key",
    quantity: "Qty",
};

/// What a table that has moved has of the old one: its rows, and in them names and quantities.
#[derive(Clone, Copy)]
pub struct Sources {
    pub rows: bool,
    pub names: bool,
    pub quantities: bool,
}

/// What is asked, of the rows of at least a quantity or, for a page, a number; at most so many.
#[derive(Clone, Copy)]
pub struct Ask {
    pub of: Asked,
    pub least: Option<Num>,
    pub most: Option<u32>,
}

/// What is asked.
#[derive(Clone, Copy)]
pub enum Asked {
    Rows,
    Count,
    Total,
    Page,
    /// The rows of a page that have no quantity.
    Blanks,
}

impl<'l> Call<'l> {
    /// The call that a line says.
    pub fn of(line: &'l str) -> Call<'l> {
        let (call, rest) = line.split_once(' ').unwrap_or((line, ""));
        match call {
            "new" => Call::New(rest),
            "shape" => Call::Shape(rest),
            "other" => Call::Other,
            "begin" => Call::Begin,
            "commit" => Call::Commit,
            "back" => Call::Back,
            "skip" => Call::Skip(number(rest)),
            "insert" => insert(rest),
            "replace" => replace(rest),
            "remove" => Call::Remove(number(rest)),
            "reshape" => reshape(rest),
            "rows" => Call::Ask(question(Asked::Rows, rest)),
            "count" => Call::Ask(question(Asked::Count, rest)),
            "total" => Call::Ask(question(Asked::Total, rest)),
            "page" => Call::Ask(question(Asked::Page, rest)),
            "blanks" => Call::Ask(question(Asked::Blanks, rest)),
            "seen" => Call::Seen,
            "reopen" => Call::Reopen,
            "sql" => Call::Sql(rest),
            "attach" => Call::Attach(rest),
            _ => Call::Nothing,
        }
    }
}

fn insert(rest: &str) -> Call {
    let (first, second) = rest.split_once(' ').unwrap_or((rest, ""));
    Call::Put(None, name(first), read(second))
}

fn replace(rest: &str) -> Call {
    let (first, rest) = rest.split_once(' ').unwrap_or((rest, ""));
    let (second, third) = rest.split_once(' ').unwrap_or((rest, ""));
    Call::Put(Some(number(first)), name(second), read(third))
}

/// The table that a text names, or the one of most cases.
pub fn form_of(text: &str) -> Form {
    if text.is_empty() {
        return STOCK;
    }
    let mut words = text.split(' ');
    Form {
        table: words.next().unwrap_or(""),
        name: words.next().unwrap_or(""),
        quantity: words.next().unwrap_or(""),
    }
}

/// Behind the table stand the columns that its columns come from, if any rows do: 1 or `-`, and 2
/// or `-`.
fn reshape(rest: &str) -> Call {
    let mut words = rest.split(' ').skip(3);
    let names = words.next();
    let quantities = words.next();
    let sources = Sources {
        rows: names.is_some(),
        names: names.unwrap_or("") == "1",
        quantities: quantities.unwrap_or("") == "2",
    };
    Call::Reshape(rest, sources)
}

fn question(of: Asked, rest: &str) -> Ask {
    let (least, most) = rest.split_once(' ').unwrap_or((rest, ""));
    Ask {
        of,
        least: read(least),
        most: most.parse::<u32>().ok(),
    }
}

/// A name; `-` is the empty one.
fn name(text: &str) -> &str {
    if text == "-" { "" } else { text }
}

/// A row's number; 0 has no row.
fn number(text: &str) -> u32 {
    text.parse::<u32>().unwrap_or(0)
}

/// Numbers in a text.
pub fn numbers(alloc: Global, text: &str) -> Result<Vec<u64>, Memory> {
    let mut numbers = Vec::new(alloc);
    for part in text.split(' ') {
        if let Ok(number) = part.parse::<u64>() {
            numbers.push(number)?;
        }
    }
    Ok(numbers)
}
