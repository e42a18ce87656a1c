//! The checks before a numbered request acts.
ghost use Rattle.std.specs.Prelude.{◌≡◌, ◌≤◌, Err, IfOk, IfSome, IsTrue, Some, option_map};
ghost use Rattle.serde_json.specs.View.{view as json_view};
ghost use Rattle.view_text.specs.RefusalText.{Fits};
ghost use Rattle.numbered_requests.specs.Checked.{IsChecked, IsSoundCheck, KeepsReply};
ghost use Rattle.numbered_requests.specs.Checked.{SessionsKeepReplies};
ghost use Rattle.numbered_requests.specs.Bodies.{json_of as json_in_body};
ghost use Rattle.numbered_requests.specs.Checks.{checks, desk_of, is_directory_full as is_full_of};
ghost use Rattle.numbered_requests.specs.Checks.{kept_of, number_reply as number_reply_of};
ghost use Rattle.numbered_requests.specs.Checks.{number_checked, session_of, shaped};
ghost use Rattle.numbered_requests.specs.Checks.{turn_reply as turn_reply_of};
ghost use Rattle.numbered_requests.specs.Checks.{unless_said as unless_said_of, worded};
ghost use Rattle.numbered_requests.specs.Replies.{IsAcceptedReply, IsReply, KeepReplies};
ghost use Rattle.numbered_requests.specs.Replies.{is_plain_refusal, plain, refusal_reply, said};

use crate::body::{Body, json_of};
use crate::directory::{Named, is_among, place_of};
use crate::reply::Reply;
use fx_base::Memory;
use fx_types::Words;
use serde_json::Value as Json;
use session_state::{Desk, Session, Turn};
use std::alloc::Global;
use view_text::{Detail, Refusal};

/// The most desks that there are.
pub const MOST_DESKS: usize = 64;

/// What the checks say.
#[derive(Drop)]
pub enum Checked<B> {
    /// They are passed.
    Acts(B),
    /// This is the reply.
    Says(Reply),
}

/// The reply of a refusal with the detail of its code.
fn refusal(alloc: Global, code: u8, detail: Detail) -> Result<Reply, Memory>
    requires { Fits code detail }
    ensures said { IfOk result (λ r. said r ≡ refusal_reply
        (record { code = code; detail = detail })) }
    ensures whole { IfOk result IsReply }
{
    Reply::refuse(alloc, &Refusal { code, detail })
}

/// A refusal without a detail, as what the checks say.
fn refuse<B: Body>(alloc: Global, code: u8) -> Result<Checked<B>, Memory>
    requires { IsTrue (is_plain_refusal code) }
    ensures is { IfOk result (IsChecked (Err (refusal_reply (plain code)))) }
    ensures sound { IfOk result (IsSoundCheck B.sound) }
{
    Ok(Checked::Says(refusal(alloc, code, Detail::None)?))
}

/// Whether a desk of this name would be one too many.
fn is_full(desks: &[Named<Desk>], name: &Words) -> bool
    ensures { result ≡ is_full_of name.now desks.now }
{
    if is_among(desks, name) {
        false
    } else {
        desks.len() >= MOST_DESKS
    }
}

/// The reply that a number calls for, where it isn't new.
fn turn_reply(alloc: Global, turn: Turn, kept: &[u8]) -> Result<Option<Reply>, Memory>
    requires { turn ≡ Turn.Again → IsAcceptedReply kept.now }
    ensures said { IfOk result (λ r. option_map said r ≡ turn_reply_of turn kept.now) }
    ensures whole { IfOk result (λ r. IfSome r IsReply) }
{
    match turn {
        Turn::New => Ok(None),
        Turn::Again => Ok(Some(Reply::repeat(alloc, kept)?)),
        Turn::Reused => Ok(Some(refusal(alloc, 14, Detail::None)?)),
        Turn::OutOfStep(last) => Ok(Some(refusal(alloc, 13, Detail::Number(last))?)),
    }
}

/// The reply to a desk's request whose number isn't new.
fn desk_reply(
    alloc: Global,
    desks: &[Named<Desk>],
    name: &Words,
    seq: u32,
    body: &[u8],
) -> Result<Option<Reply>, Memory>
    requires number { 1 ≤ seq }
    requires kept { KeepReplies desks.now }
    ensures said { IfOk result (λ r. option_map said r
        ≡ number_reply_of (kept_of name.now desks.now) seq body.now) }
    ensures whole { IfOk result (λ r. IfSome r IsReply) }
{
    match place_of(desks, name) {
        Some(place) => {
            let desk = &desks[place].it;
            turn_reply(alloc, desk.turn(seq, body), desk.kept())
        }
        None => {
            let desk = Desk::new(alloc);
            turn_reply(alloc, desk.turn(seq, body), desk.kept())
        }
    }
}

/// The reply to a session's request whose number isn't new.
fn session_reply(
    alloc: Global,
    session: &Session,
    seq: u32,
    body: &[u8],
) -> Result<Option<Reply>, Memory>
    requires number { 1 ≤ seq }
    requires kept { KeepsReply session.now.kept }
    ensures said { IfOk result (λ r. option_map said r
        ≡ number_reply_of session.now.kept seq body.now) }
    ensures whole { IfOk result (λ r. IfSome r IsReply) }
{
    turn_reply(alloc, session.turn(seq, body), session.kept())
}

/// Goes on, unless there is a reply already.
fn unless_said<B: Body>(reply: Option<Reply>, asked: B) -> Checked<B>
    requires sound { B.sound asked }
    requires whole { IfSome reply IsReply }
    ensures is { IsChecked (unless_said_of (option_map said reply) asked) result }
    ensures sound { IsSoundCheck B.sound result }
{
    match reply {
        Some(reply) => Checked::Says(reply),
        None => Checked::Acts(asked),
    }
}

/// Checks the caller and the number of a desk's request.
fn check_desk_number<B: Body>(
    alloc: Global,
    desks: &[Named<Desk>],
    name: &Words,
    body: &[u8],
    asked: B,
) -> Result<Checked<B>, Memory>
    requires sound { B.sound asked }
    requires kept { KeepReplies desks.now }
    ensures is { IfOk result (IsChecked (number_checked B.number (desk_of name.now desks.now)
        body.now asked)) }
    ensures sound { IfOk result (IsSoundCheck B.sound) }
{
    if is_full(desks, name) {
        return refuse(alloc, 12);
    }
    let reply = desk_reply(alloc, desks, name, asked.seq(), body)?;
    Ok(unless_said(reply, asked))
}

/// Checks the caller and the number of a session's request.
fn check_session_number<B: Body>(
    alloc: Global,
    sessions: &[Named<Session>],
    name: &Words,
    body: &[u8],
    asked: B,
) -> Result<Checked<B>, Memory>
    requires sound { B.sound asked }
    requires kept { SessionsKeepReplies sessions.now }
    ensures is { IfOk result (IsChecked (number_checked B.number (session_of name.now sessions.now)
        body.now asked)) }
    ensures sound { IfOk result (IsSoundCheck B.sound) }
{
    match place_of(sessions, name) {
        Some(place) => {
            let reply = session_reply(alloc, &sessions[place].it, asked.seq(), body)?;
            Ok(unless_said(reply, asked))
        }
        None => refuse(alloc, 11),
    }
}

/// Checks the shape of JSON.
fn check_shape<B: Body>(alloc: Global, json: &Json) -> Result<Checked<B>, Memory>
    ensures is { IfOk result (IsChecked (shaped (B.asked (json_view json.now)))) }
    ensures sound { IfOk result (IsSoundCheck B.sound) }
{
    match B::read(alloc, json)? {
        Some(asked) => Ok(Checked::Acts(asked)),
        None => refuse(alloc, 10),
    }
}

/// Checks what the JSON of a body asks for, where it is some.
fn check_json<B: Body>(alloc: Global, json: Option<&Json>) -> Result<Checked<B>, Memory>
    ensures is { IfOk result (IsChecked (worded B.asked
        (option_map (λ j. json_view j.now) json.entry))) }
    ensures sound { IfOk result (IsSoundCheck B.sound) }
{
    match json {
        Some(json) => check_shape(alloc, json),
        None => refuse(alloc, 9),
    }
}

/// Checks what a body asks for.
fn check_body<B: Body>(alloc: Global, body: &[u8]) -> Result<Checked<B>, Memory>
    ensures is { IfOk result (IsChecked (worded B.asked (json_in_body body.now))) }
    ensures sound { IfOk result (IsSoundCheck B.sound) }
{
    let json = json_of(alloc, body)?;
    check_json(alloc, json.as_ref())
}

/// Checks a desk's request as `check_desk` does, where the JSON of its body is read already, if it
/// is some.
pub fn check_desk_json<B: Body>(
    alloc: Global,
    desks: &[Named<Desk>],
    name: &Words,
    body: &[u8],
    json: Option<&Json>,
) -> Result<Checked<B>, Memory>
    requires kept { KeepReplies desks.now }
    requires read { option_map (λ j. json_view j.now) json ≡ json_in_body body.now }
    ensures is { IfOk result (IsChecked (checks B.asked B.number (desk_of name.now desks.now)
        body.now)) }
    ensures sound { IfOk result (IsSoundCheck B.sound) }
{
    match check_json(alloc, json)? {
        Checked::Acts(asked) => check_desk_number(alloc, desks, name, body, asked),
        Checked::Says(reply) => Ok(Checked::Says(reply)),
    }
}

/// Checks a desk's request: its body is JSON (9) and has the shape (10), the desk isn't one too
/// many (12), and the number is new (13, 14, or the kept reply).
pub fn check_desk<B: Body>(
    alloc: Global,
    desks: &[Named<Desk>],
    name: &Words,
    body: &[u8],
) -> Result<Checked<B>, Memory>
    requires { KeepReplies desks.now }
    ensures is { IfOk result (IsChecked (checks B.asked B.number (desk_of name.now desks.now)
        body.now)) }
    ensures sound { IfOk result (IsSoundCheck B.sound) }
{
    let json = json_of(alloc, body)?;
    check_desk_json(alloc, desks, name, body, json.as_ref())
}

/// Checks a session's request: its body is JSON (9) and has the shape (10), the session is live
/// (11), and the number is new (13, 14, or the kept reply).
pub fn check_session<B: Body>(
    alloc: Global,
    sessions: &[Named<Session>],
    name: &Words,
    body: &[u8],
) -> Result<Checked<B>, Memory>
    requires { SessionsKeepReplies sessions.now }
    ensures is { IfOk result (IsChecked (checks B.asked B.number (session_of name.now sessions.now)
        body.now)) }
    ensures sound { IfOk result (IsSoundCheck B.sound) }
{
    match check_body(alloc, body)? {
        Checked::Acts(asked) => check_session_number(alloc, sessions, name, body, asked),
        Checked::Says(reply) => Ok(Checked::Says(reply)),
    }
}
