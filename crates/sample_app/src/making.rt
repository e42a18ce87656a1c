//! The requests of the load.
ghost use Rattle.std.specs.Prelude.{◌≡◌, ◌+◌, ◌-◌, ◌*◌, ◌<◌, ◌≤◌, ◌∷◌, [], ◌++◌, IfOk, OnOk, codes};
ghost use Rattle.std.specs.Prelude.{flat_map, map, string_bytes};
ghost use Rattle.std.specs.List.{range_with_len};
ghost use Rattle.app_wire.specs.Framing.{asked};
ghost use Rattle.sample_app.specs.Sample.{adds as adds_of, bodiless as bare_of};
ghost use Rattle.sample_app.specs.Sample.{changes as changes_of, change_request as checks_of};
ghost use Rattle.sample_app.specs.Sample.{more_rows as more_rows_of, open_request as opens_of};
ghost use Rattle.sample_app.specs.Sample.{page as page_of, posts as posts_of};
ghost use Rattle.sample_app.specs.Sample.{requests as requests_of, row_text as row_text_of};
ghost use Rattle.sample_app.specs.Sample.{session_path as session_path_of};
ghost use Rattle.sample_app.specs.Sample.{event_request as takes_of, view_request as views_of};
ghost use Rattle.sample_app.specs.Sample.{works as works_of};

use app_wire::{Method, Request};
use fx_base::Memory;
use std::alloc::Global;

/// How many rows one request adds.
const ROWS_AT_ONCE: u32 = 1_000;

/// How many requests add rows.
const ADDS: u32 = 20;

/// How many sessions there are.
const SESSIONS: u32 = 40;

/// How many events they send in all.
const EVENTS: u32 = 2_000;

/// All requests. Their rows depend on a number of at most 1,000,000.
pub fn requests(alloc: Global, n: u32) -> Result<Vec<Request>, Memory>
    requires few { n ≤ 1000000 }
    ensures { IfOk result (λ all. map asked all.items ≡ requests_of n) }
{
    let mut all = Vec::new(alloc);
    push_adds(alloc, &mut all, n)?;
    push_opens(alloc, &mut all)?;
    push_works(alloc, &mut all)?;
    push_views(alloc, &mut all)?;
    let request = bare(alloc, Method::Get, "/rows/Stock/0")?;
    push(&mut all, request)?;
    Ok(all)
}

/// The requests that add rows.
fn push_adds(alloc: Global, all: &mut Vec<Request>, n: u32) -> Result<(), Memory>
    requires few { n ≤ 1000000 }
    ensures { OnOk result (map asked all.new.items
        ≡ map asked all.old.items ++ map (adds_of n) (range_with_len 1 20)) }
{
    for before in 0..ADDS {
        push_add(alloc, all, n, before + 1)?;
    }
    Ok(())
}

/// The k-th of them.
fn push_add(alloc: Global, all: &mut Vec<Request>, n: u32, k: u32) -> Result<(), Memory>
    requires few { n ≤ 1000000 }
    requires place { (1 ≤ k) × (k ≤ 20) }
    ensures { OnOk result (map asked all.new.items ≡ map asked all.old.items ++ adds_of n k ∷ []) }
{
    let request = adds(alloc, n, k)?;
    push(all, request)
}

/// The requests that open sessions.
fn push_opens(alloc: Global, all: &mut Vec<Request>) -> Result<(), Memory>
    ensures { OnOk result (map asked all.new.items
        ≡ map asked all.old.items ++ map opens_of (range_with_len 1 40)) }
{
    for before in 0..SESSIONS {
        push_open(alloc, all, before + 1)?;
    }
    Ok(())
}

/// The k-th of them.
fn push_open(alloc: Global, all: &mut Vec<Request>, k: u32) -> Result<(), Memory>
    ensures { OnOk result (map asked all.new.items ≡ map asked all.old.items ++ opens_of k ∷ []) }
{
    let path = session_path(alloc, k)?;
    let request = bare(alloc, Method::Put, path.as_str())?;
    push(all, request)
}

/// The events, and the changes of names between them.
fn push_works(alloc: Global, all: &mut Vec<Request>) -> Result<(), Memory>
    ensures { OnOk result (map asked all.new.items
        ≡ map asked all.old.items ++ flat_map works_of (range_with_len 1 2000)) }
{
    for before in 0..EVENTS {
        push_work(alloc, all, before + 1)?;
    }
    Ok(())
}

/// An event, and a change of a name behind each tenth one.
fn push_work(alloc: Global, all: &mut Vec<Request>, event: u32) -> Result<(), Memory>
    requires event { (1 ≤ event) × (event ≤ 2000) }
    ensures { OnOk result (map asked all.new.items ≡ map asked all.old.items ++ works_of event) }
{
    let request = takes(alloc, event)?;
    push(all, request)?;
    if event % 10 != 0 {
        return Ok(());
    }
    let request = checks(alloc, event / 10)?;
    push(all, request)
}

/// The requests for views.
fn push_views(alloc: Global, all: &mut Vec<Request>) -> Result<(), Memory>
    ensures { OnOk result (map asked all.new.items
        ≡ map asked all.old.items ++ map views_of (range_with_len 1 40)) }
{
    for before in 0..SESSIONS {
        push_view(alloc, all, before + 1)?;
    }
    Ok(())
}

/// The k-th of them.
fn push_view(alloc: Global, all: &mut Vec<Request>, k: u32) -> Result<(), Memory>
    ensures { OnOk result (map asked all.new.items ≡ map asked all.old.items ++ views_of k ∷ []) }
{
    let path = format!(in alloc; "/s/s{k}/view")?;
    let request = bare(alloc, Method::Get, path.as_str())?;
    push(all, request)
}

/// One request more.
fn push(all: &mut Vec<Request>, request: Request) -> Result<(), Memory>
    ensures { OnOk result (map asked all.new.items ≡ map asked all.old.items ++ asked request ∷ []) }
{
    all.push(request)?;
    Ok(())
}

/// A request without a body.
fn bare(alloc: Global, method: Method, path: &str) -> Result<Request, Memory>
    ensures { IfOk result (λ r. asked r ≡ bare_of method path.now) }
{
    let path = Vec::from_slice(alloc, path.as_bytes())?;
    let body = Vec::new(alloc);
    Ok(Request { method, path, body })
}

/// A request that posts a body.
fn posts(alloc: Global, path: &str, body: String) -> Result<Request, Memory>
    ensures { IfOk result (λ r. asked r ≡ posts_of path.now (string_bytes body)) }
{
    let path = Vec::from_slice(alloc, path.as_bytes())?;
    Ok(Request {
        method: Method::Post,
        path,
        body: body.into_bytes(),
    })
}

/// The path of a session.
fn session_path(alloc: Global, session: u32) -> Result<String, Memory>
    ensures { IfOk result (λ s. string_bytes s ≡ session_path_of session) }
{
    Ok(format!(in alloc; "/s/s{session}")?)
}

/// A request of the desk, with the text of its changes.
fn changes(alloc: Global, seq: u32, list: &str) -> Result<Request, Memory>
    ensures { IfOk result (λ r. asked r ≡ changes_of seq list.now) }
{
    let body = format!(in alloc; "{{\"seq\":{seq},\"changes\":[{list}]}}")?;
    posts(alloc, "/desk/d/rows", body)
}

/// The k-th request that adds rows.
fn adds(alloc: Global, n: u32, k: u32) -> Result<Request, Memory>
    requires few { n ≤ 1000000 }
    requires place { (1 ≤ k) × (k ≤ 20) }
    ensures { IfOk result (λ r. asked r ≡ adds_of n k) }
{
    let first = ROWS_AT_ONCE * k - (ROWS_AT_ONCE - 1);
    let mut list = row_text(alloc, n, first)?;
    push_rows(alloc, &mut list, n, first + 1)?;
    changes(alloc, k, list.as_str())
}

/// The text of the change that adds a row.
fn row_text(alloc: Global, n: u32, row: u32) -> Result<String, Memory>
    requires few { n ≤ 1000000 }
    requires row { row ≤ 20000 }
    ensures { IfOk result (λ s. string_bytes s ≡ row_text_of n row) }
{
    let quantity = (7 * row + n) % 100;
    Ok(format!(in alloc;
        "{{\"op\":\"add\",\"table\":\"Stock\",\"row\":{{\"Name\":\"Item {row}\",\"Qty\":{quantity}}}}}"
    )?)
}

/// The texts of the other rows of a request, with a comma before each.
fn push_rows(alloc: Global, list: &mut String, n: u32, from: u32) -> Result<(), Memory>
    requires few { n ≤ 1000000 }
    requires rows { from + 998 ≤ 20000 }
    ensures { OnOk result (string_bytes list.new ≡ string_bytes list.old ++ more_rows_of n from 999) }
{
    for before in 0..ROWS_AT_ONCE - 1 {
        push_row(alloc, list, n, from + before)?;
    }
    Ok(())
}

/// A comma, and the text of a row.
fn push_row(alloc: Global, list: &mut String, n: u32, row: u32) -> Result<(), Memory>
    requires few { n ≤ 1000000 }
    requires row { row ≤ 20000 }
    ensures { OnOk result (string_bytes list.new
        ≡ string_bytes list.old ++ (codes "," ++ row_text_of n row)) }
{
    let text = row_text(alloc, n, row)?;
    list.push_str(",")?;
    list.push_str(text.as_str())?;
    Ok(())
}

/// An event: the sessions press the button in turn, each under its own numbers.
fn takes(alloc: Global, event: u32) -> Result<Request, Memory>
    requires event { (1 ≤ event) × (event ≤ 2000) }
    ensures { IfOk result (λ r. asked r ≡ takes_of event) }
{
    let session = (event - 1) % SESSIONS + 1;
    let seq = (event - 1) / SESSIONS + 1;
    let path = format!(in alloc; "/s/s{session}/event")?;
    let body = format!(in alloc; "{{\"seq\":{seq},\"control\":\"Take\",\"event\":\"OnSelect\"}}")?;
    posts(alloc, path.as_str(), body)
}

/// The k-th change of a name.
fn checks(alloc: Global, k: u32) -> Result<Request, Memory>
    requires place { k ≤ 200 }
    ensures { IfOk result (λ r. asked r ≡ checks_of k) }
{
    let row = 10 * k;
    let list = format!(in alloc;
        "{{\"op\":\"change\",\"table\":\"Stock\",\"id\":{row},\"row\":{{\"Name\":\"Checked {k}\"}}}}"
    )?;
    changes(alloc, ADDS + k, list.as_str())
}
