//! What is said of rows as texts of records, and of imports that were accepted.
ghost use Rattle.std.specs.Prelude.{◌≡◌, IfOk, take};
ghost use Rattle.serde_json.specs.View.{view as json_view};
ghost use Rattle.numbered_requests.specs.Replies.{IsReply, said};
ghost use Rattle.csv_requests.specs.Replies.{counts_data, counts_reply as counts_bytes};
ghost use Rattle.csv_requests.specs.Replies.{last_shown as last_of, page_data};
ghost use Rattle.csv_requests.specs.Replies.{page_reply as page_bytes};

use fx_base::Memory;
use fx_core::TableShape;
use numbered_requests::Reply;
use row_files::write_page;
use row_imports::Counts;
use row_queries::Row;
use serde_json::{Value as Json, json};
use std::alloc::Global;

/// The most rows of a page.
pub const MOST_ROWS: usize = 1_000;

// The number of the last of these rows, or the one after which they were asked for.
fn last_shown(after: u32, rows: &[Row]) -> u32
    ensures { result ≡ last_of after rows.now }
{
    match rows.last() {
        Some(row) => row.id,
        None => after,
    }
}

// The rows of a page.
fn first_rows(rows: &[Row]) -> &[Row]
    ensures { result.now ≡ take 1000 rows.now }
{
    &rows[..rows.len().min(MOST_ROWS)]
}

fn page_json(
    alloc: Global,
    shape: &TableShape,
    after: u32,
    rows: &[Row],
    more: bool,
) -> Result<Json, Memory>
    ensures { IfOk result (λ v. json_view v ≡ page_data shape.now.columns after rows.now more) }
{
    let csv = write_page(alloc, shape, rows)?;
    let last = last_shown(after, rows);
    Ok(json!(in alloc; {"csv": csv, "last": last, "more": more})?)
}

/// The reply that shows rows of a table, those of numbers greater than `after`: at most 1,000 of
/// them as a text of records, the number of the last one shown, or `after` where there is none, and
/// whether there are more.
pub fn page_reply(
    alloc: Global,
    shape: &TableShape,
    after: u32,
    rows: &[Row],
) -> Result<Reply, Memory>
    ensures said { IfOk result (λ r. said r ≡ page_bytes shape.now.columns after rows.now) }
    ensures whole { IfOk result IsReply }
{
    let shown = first_rows(rows);
    let json = page_json(alloc, shape, after, shown, rows.len() > MOST_ROWS)?;
    let body = json.to_string(alloc)?;
    Reply::accept(alloc, &body)
}

fn counts_json(alloc: Global, seq: u32, counts: Counts) -> Result<Json, Memory>
    ensures { IfOk result (λ v. json_view v ≡ counts_data seq counts) }
{
    let Counts { added, changed } = counts;
    Ok(json!(in alloc; {"added": added, "changed": changed, "seq": seq})?)
}

/// The reply to an import that was accepted under a number: how many rows it added and changed.
pub fn counts_reply(alloc: Global, seq: u32, counts: Counts) -> Result<Reply, Memory>
    ensures said { IfOk result (λ r. said r ≡ counts_bytes seq counts) }
    ensures whole { IfOk result IsReply }
{
    let json = counts_json(alloc, seq, counts)?;
    let body = json.to_string(alloc)?;
    Reply::accept(alloc, &body)
}
