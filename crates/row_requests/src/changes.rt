// Changes of rows, inside a transaction.
ghost use Rattle.std.specs.Prelude.{◌≡◌, ◌<◌, true, IfOk, IfSome, length, Some};
ghost use Rattle.std.specs.List.{list_any};
ghost use Rattle.fx_core.specs.Lawful.{IsLawfulSchema};
ghost use Rattle.row_keeper.specs.Over.{Becomes, BeganStays, HasCause};
ghost use Rattle.row_keeper.specs.Tables.{columns_at, has_id, state_at};
ghost use Rattle.row_keeper.specs.Shaped.{by};
ghost use Rattle.row_requests.specs.AnyKeeper.{MayAdd, MayChange, MayChangeIn, MayRemove};
ghost use Rattle.row_requests.specs.AnyKeeper.{MayReplace};
ghost use Rattle.row_requests.specs.Changes.{add_row, change_in_table, change_row};
ghost use Rattle.row_requests.specs.Changes.{table_index as place_of_name, remove_row, row_with_id};
ghost use Rattle.numbered_requests.specs.Replies.{plain};
ghost use Rattle.row_requests.specs.Sound.{AreSound};
ghost use Rattle.row_requests.specs.Steps.{ChangesOne, ChangeComesTo, came as came_of, said_of};

use crate::bodies::{Change, Given};
use crate::cells::{cells_with, new_cells};
use crate::finding::find_row;
use crate::judging::{judge, kept_refusal};
use fx_base::Memory;
use fx_core::{Column, Schema, TableShape};
use fx_types::Words;
use row_keeper::{Keeper, KeeperEnd, Put};
use std::alloc::Global;
use view_text::{Detail, Refusal};

/// What became of a change.
#[derive(Drop)]
pub(crate) enum Changed {
    /// It acted on the row of this number.
    Id(u32),
    Refused(Refusal),
}

/// That a change is refused, without a detail.
fn refuse(code: u8) -> Changed
    ensures { result ≡ Changed.Refused (plain code) }
{
    Changed::Refused(Refusal {
        code,
        detail: Detail::None,
    })
}

/// The columns of the table at a place.
pub(crate) fn columns_of(schema: &Schema, table: u16) -> &[Column]
    requires { table < length schema.now.tables }
    ensures { result.now ≡ columns_at schema.now.tables table }
{
    schema.tables.as_slice()[usize::from(table)]
        .columns
        .as_slice()
}

/// What becomes of a change, by what the keeper answers.
fn came(alloc: Global, at: u32, columns: &[Column], put: Put) -> Result<Changed, Memory>
    ensures { IfOk result (λ c. c ≡ came_of at columns.now put) }
{
    match put {
        Put::Id(id) => Ok(Changed::Id(id)),
        Put::NoRow => Ok(refuse(22)),
        Put::Refused(rule) => Ok(Changed::Refused(kept_refusal(alloc, at, columns, rule)?)),
    }
}

/// Adds a row.
fn insert_row<K: Keeper>(
    alloc: Global,
    keeper: &mut K,
    schema: &Schema,
    at: u32,
    table: u16,
    given: &Given,
) -> Result<Changed, KeeperEnd>
    requires begun { K.in_transaction keeper.old ≡ true }
    requires shaped { K.shaped keeper.old ≡ by schema.now }
    requires lawful { IsLawfulSchema schema.now }
    requires table { table < length schema.now.tables }
    requires sound { AreSound schema.now (K.told keeper.old) }
    ensures done { IfOk result (λ c. Becomes K.Keeper keeper.old keeper.new
        (λ a b. ChangeComesTo (add_row at (columns_at schema.now.tables table) table given.now a) c
        a b)) }
    ensures sound { IfOk result (λ c. AreSound schema.now (K.told keeper.new)) }
    ensures may { IfOk result (λ c. MayAdd at (columns_at schema.now.tables table) given.now
        (said_of c)) }
    ensures began { BeganStays K.Keeper keeper.old keeper.new }
    ensures cause { HasCause K.Keeper keeper.old keeper.new result }
    ensures open { K.in_transaction keeper.new ≡ true }
    ensures shaped { K.shaped keeper.new ≡ K.shaped keeper.old }
    ensures loan { K.loan keeper.new ≡ K.loan keeper.old }
{
    let columns = columns_of(schema, table);
    let judged = judge(alloc, at, columns, given)?;
    match judged {
        Some(refusal) => return Ok(Changed::Refused(refusal)),
        None => {}
    }
    let cells = new_cells(alloc, given, columns)?;
    let put = keeper.insert(table, &cells)?;
    let changed = came(alloc, at, columns, put)?;
    Ok(changed)
}

/// Changes a row, where it is there.
fn replace_row<K: Keeper>(
    alloc: Global,
    keeper: &mut K,
    schema: &Schema,
    at: u32,
    table: u16,
    id: u32,
    given: &Given,
) -> Result<Changed, KeeperEnd>
    requires begun { K.in_transaction keeper.old ≡ true }
    requires shaped { K.shaped keeper.old ≡ by schema.now }
    requires lawful { IsLawfulSchema schema.now }
    requires table { table < length schema.now.tables }
    requires sound { AreSound schema.now (K.told keeper.old) }
    ensures done { IfOk result (λ c. Becomes K.Keeper keeper.old keeper.new
        (λ a b. ChangeComesTo (change_row at (columns_at schema.now.tables table) table id given.now
        a (row_with_id id (state_at a.states table).rows)) c a b)) }
    ensures sound { IfOk result (λ c. AreSound schema.now (K.told keeper.new)) }
    ensures may { IfOk result (λ c. MayReplace at (columns_at schema.now.tables table) id given.now
        (said_of c)) }
    ensures began { BeganStays K.Keeper keeper.old keeper.new }
    ensures cause { HasCause K.Keeper keeper.old keeper.new result }
    ensures open { K.in_transaction keeper.new ≡ true }
    ensures shaped { K.shaped keeper.new ≡ K.shaped keeper.old }
    ensures loan { K.loan keeper.new ≡ K.loan keeper.old }
{
    let columns = columns_of(schema, table);
    let row = match find_row(alloc, keeper, table, id)? {
        Some(row) => row,
        None => return Ok(refuse(22)),
    };
    let judged = judge(alloc, at, columns, given)?;
    match judged {
        Some(refusal) => return Ok(Changed::Refused(refusal)),
        None => {}
    }
    let cells = cells_with(alloc, given, columns, row.cells.as_slice())?;
    let put = keeper.replace(table, id, &cells)?;
    let changed = came(alloc, at, columns, put)?;
    Ok(changed)
}

/// Takes a row out, where it is there.
fn remove_row<K: Keeper>(
    keeper: &mut K,
    schema: &Schema,
    table: u16,
    id: u32,
) -> Result<Changed, KeeperEnd>
    requires begun { K.in_transaction keeper.old ≡ true }
    requires shaped { K.shaped keeper.old ≡ by schema.now }
    requires table { table < length schema.now.tables }
    requires sound { AreSound schema.now (K.told keeper.old) }
    ensures done { IfOk result (λ c. Becomes K.Keeper keeper.old keeper.new
        (λ a b. ChangeComesTo (remove_row table id a
        (list_any (has_id id) (state_at a.states table).rows)) c a b)) }
    ensures sound { IfOk result (λ c. AreSound schema.now (K.told keeper.new)) }
    ensures may { IfOk result (λ c. MayRemove id (said_of c)) }
    ensures began { BeganStays K.Keeper keeper.old keeper.new }
    ensures cause { HasCause K.Keeper keeper.old keeper.new result }
    ensures open { K.in_transaction keeper.new ≡ true }
    ensures shaped { K.shaped keeper.new ≡ K.shaped keeper.old }
    ensures loan { K.loan keeper.new ≡ K.loan keeper.old }
{
    match keeper.remove(table, id) {
        Ok(true) => Ok(Changed::Id(id)),
        Ok(false) => Ok(refuse(22)),
        Err(end) => Err(end),
    }
}

/// Where the table of a name stands among others.
fn place_of(tables: &[TableShape], name: &Words) -> Option<usize>
    ensures place { result ≡ place_of_name name.now tables.now }
    ensures within { IfSome result (λ k. k < length tables.now) }
{
    tables.iter().position(|table| table.name.is(name))
}

/// The number of the table of a name.
pub(crate) fn table_place(schema: &Schema, name: &Words) -> Option<u16>
    requires { IsLawfulSchema schema.now }
    ensures place { result ≡ place_of_name name.now schema.now.tables }
    ensures within { IfSome result (λ k. k < length schema.now.tables) }
{
    match place_of(schema.tables.as_slice(), name) {
        Some(place) => Some(place as u16),
        None => None,
    }
}

/// Makes one change of the table of a number.
fn change_table<K: Keeper>(
    alloc: Global,
    keeper: &mut K,
    schema: &Schema,
    at: u32,
    table: u16,
    change: &Change,
) -> Result<Changed, KeeperEnd>
    requires begun { K.in_transaction keeper.old ≡ true }
    requires shaped { K.shaped keeper.old ≡ by schema.now }
    requires lawful { IsLawfulSchema schema.now }
    requires table { table < length schema.now.tables }
    requires sound { AreSound schema.now (K.told keeper.old) }
    ensures done { IfOk result (λ c. Becomes K.Keeper keeper.old keeper.new
        (λ a b. ChangeComesTo (change_in_table schema.now.tables at change.now a (Some table)) c a
        b)) }
    ensures sound { IfOk result (λ c. AreSound schema.now (K.told keeper.new)) }
    ensures may { IfOk result (λ c. MayChangeIn schema.now.tables at change.now (Some table)
        (said_of c)) }
    ensures began { BeganStays K.Keeper keeper.old keeper.new }
    ensures cause { HasCause K.Keeper keeper.old keeper.new result }
    ensures open { K.in_transaction keeper.new ≡ true }
    ensures shaped { K.shaped keeper.new ≡ K.shaped keeper.old }
    ensures loan { K.loan keeper.new ≡ K.loan keeper.old }
{
    match change {
        Change::Add(_, given) => insert_row(alloc, keeper, schema, at, table, given),
        Change::Replace(_, id, given) => {
            replace_row(alloc, keeper, schema, at, table, *id, given)
        }
        Change::Remove(_, id) => remove_row(keeper, schema, table, *id),
    }
}

/// Makes one change.
pub(crate) fn change_one<K: Keeper>(
    alloc: Global,
    keeper: &mut K,
    schema: &Schema,
    at: u32,
    change: &Change,
) -> Result<Changed, KeeperEnd>
    requires begun { K.in_transaction keeper.old ≡ true }
    requires shaped { K.shaped keeper.old ≡ by schema.now }
    requires lawful { IsLawfulSchema schema.now }
    requires sound { AreSound schema.now (K.told keeper.old) }
    ensures done { IfOk result (λ c. Becomes K.Keeper keeper.old keeper.new
        (ChangesOne schema.now.tables at change.now c)) }
    ensures sound { IfOk result (λ c. AreSound schema.now (K.told keeper.new)) }
    ensures may { IfOk result (λ c. MayChange schema.now.tables at change.now (said_of c)) }
    ensures began { BeganStays K.Keeper keeper.old keeper.new }
    ensures cause { HasCause K.Keeper keeper.old keeper.new result }
    ensures open { K.in_transaction keeper.new ≡ true }
    ensures shaped { K.shaped keeper.new ≡ K.shaped keeper.old }
    ensures loan { K.loan keeper.new ≡ K.loan keeper.old }
{
    match table_place(schema, change.table()) {
        Some(table) => change_table(alloc, keeper, schema, at, table, change),
        None => Ok(refuse(21)),
    }
}
