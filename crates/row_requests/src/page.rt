//! Rows shown.
ghost use Rattle.std.specs.Prelude.{◌≡◌, ◌∷◌, [], false, Err, IfOk, IsErrOf, IsSomeAnd, OnErr};
ghost use Rattle.std.specs.Prelude.{Some, codes, length, map, nat_lt, slice_get, take};
ghost use Rattle.std.specs.List.{All};
ghost use Rattle.serde_json.specs.Data.{member, no_members};
ghost use Rattle.serde_json.specs.View.{members_view, view as json_view};
ghost use Rattle.fx_base.specs.Silence.{SilenceCause};
ghost use Rattle.fx_base.specs.Telling.{Stays};
ghost use Rattle.fx_core.specs.Lawful.{IsLawfulSchema};
ghost use Rattle.row_queries.specs.TableRows.{AreCellsOf};
ghost use Rattle.row_keeper.specs.Over.{Becomes, HasCause};
ghost use Rattle.row_keeper.specs.declared.keeper.KeeperEnd.TheVariants.{Failed};
ghost use Rattle.row_keeper.specs.Shaped.{by};
ghost use Rattle.row_requests.specs.Page.{ReachesPage, ShowsPage, VisitsPage, page_data};
ghost use Rattle.row_requests.specs.Page.{page_reply as page_bytes, row_shown, with_values};
ghost use Rattle.row_requests.specs.PageRows.{AreShown};
ghost use Rattle.numbered_requests.specs.Replies.{IsReply, plain, refusal_reply, said};
ghost use Rattle.row_requests.specs.Sound.{AreSound};

use crate::changes::{columns_of, table_place};
use crate::finding::find_rows;
use fx_base::Memory;
use fx_core::{Column, Schema};
use fx_types::{Value, Words};
use numbered_requests::Reply;
use row_keeper::{Keeper, KeeperEnd};
use row_queries::Row;
use serde_json::{Map, Value as Json, json};
use std::alloc::Global;
use view_text::{Detail, Refusal, value_json};

/// The most rows of a page.
pub const MOST_ROWS: usize = 100;

/// A row as JSON, with its number under `ID`.
fn row_json(alloc: Global, columns: &[Column], row: &Row) -> Result<Json, Memory>
    requires { length row.now.cells ≡ length columns.now }
    ensures { IfOk result (λ v. json_view v ≡ row_shown columns.now row.now) }
{
    let mut members = Map::new(alloc);
    serde_json::put(&mut members, alloc, "ID", Json::from(row.id))?;
    let cells = row.cells.as_slice();
    for (place, column) in columns.iter().enumerate() {
        let value = value_json(alloc, &cells[place])?;
        serde_json::put(&mut members, alloc, column.name.as_str(), value)?;
    }
    Ok(Json::from(members))
}

/// Rows as JSON.
fn rows_json(alloc: Global, columns: &[Column], rows: &[Row]) -> Result<Vec<Json>, Memory>
    requires { AreShown columns.now rows.now }
    ensures { IfOk result (λ v. map json_view v.items ≡ map (row_shown columns.now) rows.now) }
{
    let mut all = Vec::new(alloc);
    for row in rows {
        serde_json::push(&mut all, row_json(alloc, columns, row)?)?;
    }
    Ok(all)
}

fn page_json(alloc: Global, columns: &[Column], rows: &[Row], more: bool) -> Result<Json, Memory>
    requires { AreShown columns.now rows.now }
    ensures { IfOk result (λ v. json_view v ≡ page_data columns.now rows.now more) }
{
    Ok(json!(in alloc; {"more": more, "rows": rows_json(alloc, columns, rows)?})?)
}

/// The rows of a page.
fn first_rows(rows: &[Row]) -> &[Row]
    ensures { result.now ≡ take 100 rows.now }
{
    &rows[..rows.len().min(MOST_ROWS)]
}

/// The reply that shows rows, as many as a page has at most.
fn page_reply(alloc: Global, columns: &[Column], rows: &[Row]) -> Result<Reply, Memory>
    requires { AreShown columns.now rows.now }
    ensures said { IfOk result (λ r. said r ≡ page_bytes columns.now rows.now) }
    ensures whole { IfOk result IsReply }
{
    let shown = first_rows(rows);
    let json = page_json(alloc, columns, shown, rows.len() > MOST_ROWS)?;
    let body = json.to_string(alloc)?;
    Reply::accept(alloc, &body)
}

/// Shows the rows of a table whose numbers are greater than one: up to 100, and whether there are
/// more. Where there is no such table it is a refusal (21). One call of the keeper, and no
/// transaction.
pub fn show_page<K: Keeper>(
    alloc: Global,
    keeper: &mut K,
    schema: &Schema,
    table: &Words,
    after: u32,
) -> Result<Reply, KeeperEnd>
    requires idle { K.in_transaction keeper.old ≡ false }
    requires shaped { K.shaped keeper.old ≡ by schema.now }
    requires lawful { IsLawfulSchema schema.now }
    requires sound { AreSound schema.now (K.told keeper.old) }
    ensures done { IfOk result (λ r. ShowsPage
        (SilenceCause (K.marks keeper.old) (K.marks keeper.new)) schema.now.tables table.now after
        (K.told keeper.old) (said r) (K.told keeper.new)) }
    ensures whole { IfOk result IsReply }
    ensures still { Becomes K.Keeper keeper.old keeper.new Stays }
    ensures visits { VisitsPage schema.now.tables table.now after (K.told keeper.new)
        (K.visited keeper.old) (K.visited keeper.new) }
    ensures reached { IsErrOf result Failed → ReachesPage schema.now.tables table.now }
    ensures cause { HasCause K.Keeper keeper.old keeper.new result }
    ensures idle { K.in_transaction keeper.new ≡ false }
    ensures shaped { K.shaped keeper.new ≡ K.shaped keeper.old }
    ensures loan { K.loan keeper.new ≡ K.loan keeper.old }
    ensures sound { AreSound schema.now (K.told keeper.new) }
{
    let Some(place) = table_place(schema, table) else {
        return refuse_table(alloc);
    };
    match find_rows(alloc, keeper, place, after) {
        Ok(rows) => {
            let reply = page_reply(alloc, columns_of(schema, place), &rows)?;
            Ok(reply)
        }
        Err(end) => Err(end),
    }
}

/// That there is no such table.
fn refuse_table(alloc: Global) -> Result<Reply, KeeperEnd>
    ensures said { IfOk result (λ r. said r ≡ refusal_reply (plain 21)) }
    ensures whole { IfOk result IsReply }
    ensures memory { OnErr result (result ≡ Err KeeperEnd.Memory) }
{
    let detail = Detail::None;
    match Reply::refuse(alloc, &Refusal { code: 21, detail }) {
        Ok(reply) => Ok(reply),
        Err(Memory) => Err(KeeperEnd::Memory),
    }
}
