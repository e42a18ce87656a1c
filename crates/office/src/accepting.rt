//! What is said of an edit or a replacement, and what an accepted one leaves of its desk.
ghost use Rattle.std.specs.Prelude.{◌≡◌, ◌<◌, IfOk, OnErr, vec_capacity, vec_len};
ghost use Rattle.office.specs.DeskEdits as editing;
ghost use Rattle.numbered_requests.specs.Directory.{put_named as put_into};
ghost use Rattle.numbered_requests.specs.Replies.{IsReply, refusal_reply, said};
ghost use Rattle.serde_json.specs.View.{view as json_view};

use fx_base::{InOrder, Memory};
use fx_core::{Broken, line};
use fx_types::Words;
use numbered_requests::{Named, Reply, put};
use serde_json::{Value as Json, json};
use session_state::Desk;
use std::alloc::Global;
use view_text::{Detail, Lines, Refusal};

/// The number of a refused app.
const APP_REFUSED: u8 = 24;

/// What is accepted: its reply, with a copy of it, of the body and of the desk's name to keep.
#[derive(Drop)]
pub(crate) struct Accepted {
    pub(crate) reply: Reply,
    kept: Vec<u8>,
    body: Vec<u8>,
    name: Words,
}

/// `{"seq":1}`.
fn seq_json(alloc: Global, seq: u32) -> Result<Json, Memory>
    ensures { IfOk result (λ v. json_view v ≡ editing.seq_data seq) }
{
    Ok(json!(in alloc; {"seq": seq})?)
}

/// The reply to what is accepted.
fn accepted_reply(alloc: Global, seq: u32) -> Result<Reply, Memory>
    ensures said { IfOk result (λ r. said r ≡ editing.accepted_edit_reply seq) }
    ensures whole { IfOk result IsReply }
{
    let json = seq_json(alloc, seq)?;
    let body = json.to_string(alloc)?;
    Reply::accept(alloc, &body)
}

/// Takes all memory that what is accepted needs beside the app, before anything changes.
pub(crate) fn accept(alloc: Global, name: &Words, seq: u32, body: &[u8]) -> Result<Accepted, Memory>
    ensures reply { IfOk result (λ a. said a.reply ≡ editing.accepted_edit_reply seq) }
    ensures whole { IfOk result (λ a. IsReply a.reply) }
    ensures kept { IfOk result (λ a. a.kept.items ≡ editing.accepted_edit_reply seq) }
    ensures body { IfOk result (λ a. a.body.items ≡ body.now) }
    ensures name { IfOk result (λ a. a.name ≡ name.now) }
{
    let reply = accepted_reply(alloc, seq)?;
    let kept = Vec::from_slice(alloc, reply.whole())?;
    let body = Vec::from_slice(alloc, body)?;
    let name = name.copy(alloc)?;
    Ok(Accepted {
        reply,
        kept,
        body,
        name,
    })
}

/// Keeps what is left of its desk, and gives the reply. It takes no memory.
pub(crate) fn keep(
    alloc: Global,
    desks: &mut Vec<Named<Desk>>,
    seq: u32,
    accepted: Accepted,
) -> Reply
    requires room { vec_len desks.old < vec_capacity desks.old }
    ensures reply { result ≡ accepted.reply }
    ensures kept { desks.new.items ≡ put_into accepted.name
        (record { last = seq; body = accepted.body.items; reply = accepted.kept.items })
        desks.old.items }
{
    let Accepted {
        reply,
        kept,
        body,
        name,
    } = accepted;
    let mut desk = Desk::new(alloc);
    desk.keep(seq, body, kept);
    put(desks, name, desk);
    reply
}

/// The lines of breaks.
fn lines_of(alloc: Global, breaks: &[Broken]) -> Result<Lines, Memory>
    ensures { IfOk result (λ l. l ≡ editing.lines_of breaks.now) }
{
    let mut lines = InOrder::new(alloc);
    for broken in breaks {
        let text = line(alloc, broken)?;
        lines.push(Words::of(alloc, text.as_str())?)?;
    }
    Ok(lines)
}

/// The refusal of an app for what is broken.
pub(crate) fn refuse(alloc: Global, breaks: &[Broken]) -> Result<Reply, Memory>
    ensures said { IfOk result (λ r. said r ≡ refusal_reply (editing.refusal_of breaks.now)) }
    ensures whole { IfOk result IsReply }
{
    let detail = Detail::Lines(lines_of(alloc, breaks)?);
    Reply::refuse(
        alloc,
        &Refusal {
            code: APP_REFUSED,
            detail,
        },
    )
}
