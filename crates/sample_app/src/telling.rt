//! What is told of the load.
ghost use Rattle.std.specs.Prelude.{◌≡◌, IfOk, Some, length, map, option_map, slice_get};
ghost use Rattle.std.specs.Prelude.{string_bytes};
ghost use Rattle.std.specs.List.{All};
ghost use Rattle.serde_json.specs.Find.{pointer};
ghost use Rattle.serde_json.specs.View.{view as json_view};
ghost use Rattle.numbered_requests.specs.Bodies.{json_of};
ghost use Rattle.numbered_requests.specs.Replies.{IsReply, said};
ghost use Rattle.sample_app.specs.Summary.{reply_body as body_in, summary_counts as counts_of};
ghost use Rattle.sample_app.specs.Summary.{refused as refused_in, results as results_of};
ghost use Rattle.sample_app.specs.Summary.{summary as summary_of, words_at as words_in};
ghost use Rattle.sample_app.specs.Summary.{words_of as words_of_json};

use fx_base::Memory;
use numbered_requests::Reply;
use serde_json::Value as Json;
use std::alloc::Global;

/// The place of the first request for a view.
const FIRST_VIEW: usize = 2_260;

/// The place of the request for a page of rows.
const PAGE: usize = 2_300;

/// What is told, of the replies to all requests: how many rows are kept and how many sessions live,
/// how many requests there were and how many were refused, what the first control shows in the
/// first view, and the quantity of the first row.
pub fn summary(
    alloc: Global,
    rows: u32,
    sessions: usize,
    replies: &[Reply],
) -> Result<String, Memory>
    requires { All IsReply replies.now }
    ensures { IfOk result (λ s. string_bytes s ≡ summary_of rows sessions (map said replies.now)) }
{
    let mut text = counts(alloc, rows, sessions, replies.len())?;
    let total = words_at(alloc, "/controls/0/values/Text", replies, FIRST_VIEW)?;
    let first = words_at(alloc, "/rows/0/Qty", replies, PAGE)?;
    let results = results(
        alloc,
        count_refused(replies),
        total.as_str(),
        first.as_str(),
    )?;
    text.push_str(results.as_str())?;
    Ok(text)
}

/// The lines of what there was.
fn counts(alloc: Global, rows: u32, sessions: usize, requests: usize) -> Result<String, Memory>
    ensures { IfOk result (λ s. string_bytes s ≡ counts_of rows sessions requests) }
{
    Ok(format!(in alloc; "rows {rows}\nsessions {sessions}\nrequests {requests}\n")?)
}

/// The lines of what came of it.
fn results(alloc: Global, refused: usize, total: &str, first: &str) -> Result<String, Memory>
    ensures { IfOk result (λ s. string_bytes s ≡ results_of refused total.now first.now) }
{
    Ok(format!(in alloc; "refused {refused}\ntotal {total}\nfirst {first}\n")?)
}

/// How many have another status than 200.
fn count_refused(replies: &[Reply]) -> usize
    requires { All IsReply replies.now }
    ensures { result ≡ refused_in (map said replies.now) }
{
    let mut refused = 0;
    for reply in replies {
        if !reply.whole().starts_with(b"HTTP/1.1 200 ") {
            refused += 1;
        }
    }
    refused
}

/// The words at a path in the JSON of the reply at a place, if there are some.
fn words_at(alloc: Global, path: &str, replies: &[Reply], place: usize) -> Result<String, Memory>
    requires { All IsReply replies.now }
    ensures { IfOk result (λ s. string_bytes s
        ≡ words_in path.now (slice_get (map said replies.now) place)) }
{
    if replies.len() <= place {
        return Ok(String::new(alloc));
    }
    words_in_reply(alloc, path, &replies[place])
}

/// The words at a path in the JSON of a reply, if there are some.
fn words_in_reply(alloc: Global, path: &str, reply: &Reply) -> Result<String, Memory>
    requires { IsReply reply.now }
    ensures { IfOk result (λ s. string_bytes s ≡ words_in path.now (Some (said reply.now))) }
{
    match json_in(alloc, body_of(reply.whole()))? {
        Some(json) => words_of(alloc, json.pointer(path)),
        None => Ok(String::new(alloc)),
    }
}

/// What stands behind the first empty line.
fn body_of(reply: &[u8]) -> &[u8]
    ensures { result.now ≡ body_in reply.now }
{
    for at in 0..reply.len() {
        if reply[at..].starts_with(b"\r\n\r\n") {
            return &reply[at + 4..];
        }
    }
    &reply[reply.len()..]
}

/// The JSON that a body is, if it is one.
fn json_in(alloc: Global, body: &[u8]) -> Result<Option<Json>, Memory>
    ensures { IfOk result (λ j. option_map json_view j ≡ json_of body.now) }
{
    let Ok(text) = std::str::from_utf8(body) else {
        return Ok(None);
    };
    match Json::from_str(alloc, text) {
        Ok(json) => Ok(Some(json)),
        Err(error) if error.is_memory() => Err(Memory),
        Err(_) => Ok(None),
    }
}

/// The words that JSON is, if it is a text or a whole number.
fn words_of(alloc: Global, json: Option<&Json>) -> Result<String, Memory>
    ensures { IfOk result (λ s. string_bytes s
        ≡ words_of_json (option_map (λ j. json_view j.now) json.entry)) }
{
    let Some(json) = json else {
        return Ok(String::new(alloc));
    };
    if let Some(text) = json.as_str() {
        return Ok(String::from_str(alloc, text)?);
    }
    match json.as_u64() {
        Some(number) => Ok(format!(in alloc; "{number}")?),
        None => Ok(String::new(alloc)),
    }
}
