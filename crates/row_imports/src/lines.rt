// One line of an import.
ghost use Rattle.std.specs.Prelude.{◌≡◌, true, IfOk, Some, None};
ghost use Rattle.row_queries.specs.TableRows.{AreCellsOf};
ghost use Rattle.row_keeper.specs.Over.{Becomes, BeganStays, HasCause};
ghost use Rattle.row_keeper.specs.Tables.{shapes_of};
ghost use Rattle.row_imports.specs.Imports.{act_line};
ghost use Rattle.row_imports.specs.Lines.{AddsLine, ChangesLine, IsActed, IsHeading, IsLineOf};
ghost use Rattle.row_imports.specs.Lines.{LineComesTo, acted as acted_of};

use crate::cells::{key_of, new_cells, with_given};
use crate::finding::find_keyed;
use fx_base::InOrder;
use fx_core::TableShape;
use row_keeper::{Keeper, KeeperEnd, Put, RowRefusal};
use row_queries::{Cells, Row};
use std::alloc::Global;

/// Where lines go: into which table, by which key, and into which of its columns.
#[derive(Drop)]
pub struct Heading {
    /// The table, by its place.
    pub table: u16,
    /// The number of the unique column by whose value a row is found. `ID` is column 0.
    pub key: u16,
    /// The numbers of the columns for which a line gives values, in the order of its values.
    pub columns: InOrder<u16>,
}

/// What became of a line.
#[derive(Clone, Copy, Debug, PartialEq, Eq)]
pub(crate) enum Acted {
    Added,
    Changed,
    Broken(RowRefusal),
}

// What becomes of a line that is to act so, by what the keeper answers.
fn outcome_of(put: Put, done: Acted) -> Acted
    ensures { result ≡ acted_of put done }
{
    match put {
        Put::Refused(refusal) => Acted::Broken(refusal),
        Put::Id(_) | Put::NoRow => done,
    }
}

// Puts a line into a row.
fn change_row<K: Keeper>(
    alloc: Global,
    keeper: &mut K,
    shape: &TableShape,
    heading: &Heading,
    line: &Cells,
    row: &Row,
) -> Result<Acted, KeeperEnd>
    requires begun { K.in_transaction keeper.old ≡ true }
    requires heading { IsHeading (shapes_of (K.shaped keeper.old).now) shape.now heading.now }
    requires line { IsLineOf shape.now.columns heading.now line.now }
    requires row { AreCellsOf shape.now.columns row.now.cells }
    ensures done { IfOk result (λ c. Becomes K.Keeper keeper.old keeper.new
        (ChangesLine shape.now.columns heading.now line.now row.now c)) }
    ensures may { IfOk result (IsActed shape.now.columns) }
    ensures began { BeganStays K.Keeper keeper.old keeper.new }
    ensures cause { HasCause K.Keeper keeper.old keeper.new result }
    ensures open { K.in_transaction keeper.new ≡ true }
    ensures shaped { K.shaped keeper.new ≡ K.shaped keeper.old }
    ensures loan { K.loan keeper.new ≡ K.loan keeper.old }
{
    let cells = with_given(alloc, heading, line, row.cells.as_slice())?;
    let put = keeper.replace(heading.table, row.id, &cells)?;
    Ok(outcome_of(put, Acted::Changed))
}

// Puts a line into a new row.
fn add_row<K: Keeper>(
    alloc: Global,
    keeper: &mut K,
    shape: &TableShape,
    heading: &Heading,
    line: &Cells,
) -> Result<Acted, KeeperEnd>
    requires begun { K.in_transaction keeper.old ≡ true }
    requires heading { IsHeading (shapes_of (K.shaped keeper.old).now) shape.now heading.now }
    requires line { IsLineOf shape.now.columns heading.now line.now }
    ensures done { IfOk result (λ c. Becomes K.Keeper keeper.old keeper.new
        (AddsLine shape.now.columns heading.now line.now c)) }
    ensures may { IfOk result (IsActed shape.now.columns) }
    ensures began { BeganStays K.Keeper keeper.old keeper.new }
    ensures cause { HasCause K.Keeper keeper.old keeper.new result }
    ensures open { K.in_transaction keeper.new ≡ true }
    ensures shaped { K.shaped keeper.new ≡ K.shaped keeper.old }
    ensures loan { K.loan keeper.new ≡ K.loan keeper.old }
{
    let cells = new_cells(alloc, shape.columns.as_slice(), heading, line)?;
    let put = keeper.insert(heading.table, &cells)?;
    Ok(outcome_of(put, Acted::Added))
}

/// Puts a line into its table: into the row of its key, or into a new one.
pub(crate) fn put_line<K: Keeper>(
    alloc: Global,
    keeper: &mut K,
    shape: &TableShape,
    heading: &Heading,
    line: &Cells,
) -> Result<Acted, KeeperEnd>
    requires begun { K.in_transaction keeper.old ≡ true }
    requires heading { IsHeading (shapes_of (K.shaped keeper.old).now) shape.now heading.now }
    requires line { IsLineOf shape.now.columns heading.now line.now }
    ensures done { IfOk result (λ c. Becomes K.Keeper keeper.old keeper.new
        (λ a b. LineComesTo (act_line shape.now.columns heading.now.table heading.now.key
        heading.now.columns line.now a) c a b)) }
    ensures may { IfOk result (IsActed shape.now.columns) }
    ensures began { BeganStays K.Keeper keeper.old keeper.new }
    ensures cause { HasCause K.Keeper keeper.old keeper.new result }
    ensures open { K.in_transaction keeper.new ≡ true }
    ensures shaped { K.shaped keeper.new ≡ K.shaped keeper.old }
    ensures loan { K.loan keeper.new ≡ K.loan keeper.old }
{
    let found = find_keyed(
        alloc,
        keeper,
        heading.table,
        heading.key,
        key_of(heading, line),
    )?;
    match found {
        Some(row) => change_row(alloc, keeper, shape, heading, line, &row),
        None => add_row(alloc, keeper, shape, heading, line),
    }
}
