// Posted changes in one transaction.
ghost use Rattle.std.specs.Prelude.{◌≡◌, ◌≤◌, true, false, IfOk, OnErr, length, string_bytes, map};
ghost use Rattle.std.specs.Prelude.{Some};
ghost use Rattle.serde_json.specs.View.{items_view, view as json_view};
ghost use Rattle.fx_base.specs.Telling.{Stays};
ghost use Rattle.fx_core.specs.Lawful.{IsLawfulSchema};
ghost use Rattle.row_requests.specs.AnyKeeper.{MayEnd};
ghost use Rattle.row_requests.specs.DeskRows.{DeskTransaction, accepted_data};
ghost use Rattle.row_requests.specs.DeskRows.{accepted_rows_reply as accepted_bytes, ids_data};
ghost use Rattle.row_requests.specs.DeskRows.{outcome_reply};
ghost use Rattle.row_requests.specs.Prepared.{IsMade, IsPrepared};
ghost use Rattle.numbered_requests.specs.Replies.{IsReply, said};
ghost use Rattle.row_requests.specs.Sound.{AreSound};
ghost use Rattle.row_requests.specs.Steps.{AppliesChanges, HaveDetail};
ghost use Rattle.row_keeper.specs.Over.{Becomes, BeganStays, HasCause};
ghost use Rattle.row_keeper.specs.Shaped.{by};

use crate::bodies::{Change, Posted};
use crate::changes::{Changed, change_one};
use crate::outcome::settle;
use fx_base::{InOrder, Memory};
use fx_core::Schema;
use numbered_requests::Reply;
use row_keeper::{Keeper, KeeperEnd};
use serde_json::{Value as Json, json};
use std::alloc::Global;
use view_text::Refusal;

/// What becomes of changes: the numbers of their rows, or why the first that is refused is.
pub(crate) type Outcome = Result<InOrder<u32>, Refusal>;

/// What became of posted changes, with its reply and a copy of it to keep.
#[derive(Drop)]
pub(crate) struct Prepared {
    pub(crate) outcome: Outcome,
    pub(crate) reply: Reply,
    pub(crate) kept: Vec<u8>,
}

/// Makes changes one after another, up to the first that is refused.
fn change_rows<K: Keeper>(
    alloc: Global,
    keeper: &mut K,
    schema: &Schema,
    changes: &[Change],
) -> Result<Outcome, KeeperEnd>
    requires begun { K.in_transaction keeper.old ≡ true }
    requires shaped { K.shaped keeper.old ≡ by schema.now }
    requires lawful { IsLawfulSchema schema.now }
    requires sound { AreSound schema.now (K.told keeper.old) }
    requires few { length changes.now ≤ 1000 }
    ensures done { IfOk result (λ o. Becomes K.Keeper keeper.old keeper.new
        (AppliesChanges schema.now.tables changes.now o)) }
    ensures sound { IfOk result (λ o. AreSound schema.now (K.told keeper.new)) }
    ensures may { IfOk result (MayEnd schema.now.tables 0 changes.now) }
    ensures began { BeganStays K.Keeper keeper.old keeper.new }
    ensures cause { HasCause K.Keeper keeper.old keeper.new result }
    ensures open { K.in_transaction keeper.new ≡ true }
    ensures shaped { K.shaped keeper.new ≡ K.shaped keeper.old }
    ensures loan { K.loan keeper.new ≡ K.loan keeper.old }
{
    let mut ids = InOrder::new(alloc);
    let mut at = 0;
    for change in changes {
        match change_one(alloc, keeper, schema, at, change) {
            Ok(Changed::Id(id)) => match ids.push(id) {
                Ok(()) => {}
                Err(Memory) => return Err(KeeperEnd::Memory),
            },
            Ok(Changed::Refused(refusal)) => return Ok(Err(refusal)),
            Err(end) => return Err(end),
        }
        at += 1;
    }
    Ok(Ok(ids))
}

fn ids_json(alloc: Global, ids: &[u32]) -> Result<Vec<Json>, Memory>
    ensures { IfOk result (λ v. map json_view v.items ≡ map ids_data ids.now) }
{
    let mut all = Vec::new(alloc);
    for id in ids {
        serde_json::push(&mut all, Json::from(*id))?;
    }
    Ok(all)
}

fn accepted_json(alloc: Global, seq: u32, ids: &[u32]) -> Result<Json, Memory>
    ensures { IfOk result (λ v. json_view v ≡ accepted_data seq ids.now) }
{
    Ok(json!(in alloc; {"ids": ids_json(alloc, ids)?, "seq": seq})?)
}

/// The reply to accepted changes.
fn accepted_reply(alloc: Global, seq: u32, ids: &[u32]) -> Result<Reply, Memory>
    ensures said { IfOk result (λ r. said r ≡ accepted_bytes seq ids.now) }
    ensures whole { IfOk result IsReply }
{
    let json = accepted_json(alloc, seq, ids)?;
    let body = json.to_string(alloc)?;
    Reply::accept(alloc, &body)
}

fn outcome_reply(alloc: Global, seq: u32, outcome: &Outcome) -> Result<Reply, Memory>
    requires { HaveDetail outcome.now }
    ensures said { IfOk result (λ r. said r ≡ outcome_reply seq outcome.now) }
    ensures whole { IfOk result IsReply }
{
    match outcome {
        Ok(ids) => accepted_reply(alloc, seq, ids.as_slice()),
        Err(refusal) => Reply::refuse(alloc, refusal),
    }
}

/// The reply to an outcome, and a copy of it to keep.
fn prepare_reply(alloc: Global, seq: u32, outcome: Outcome) -> Result<Prepared, Memory>
    requires { HaveDetail outcome }
    ensures is { IfOk result (λ p. p.outcome ≡ outcome) }
    ensures prepared { IfOk result (IsPrepared seq) }
{
    let reply = outcome_reply(alloc, seq, &outcome)?;
    let kept = Vec::from_slice(alloc, reply.whole())?;
    Ok(Prepared {
        outcome,
        reply,
        kept,
    })
}

/// Makes the changes, the reply, and the copy of it that is to be kept, before anything is settled.
fn prepare_rows<K: Keeper>(
    alloc: Global,
    keeper: &mut K,
    schema: &Schema,
    posted: &Posted,
) -> Result<Prepared, KeeperEnd>
    requires begun { K.in_transaction keeper.old ≡ true }
    requires shaped { K.shaped keeper.old ≡ by schema.now }
    requires lawful { IsLawfulSchema schema.now }
    requires sound { AreSound schema.now (K.told keeper.old) }
    requires few { length posted.now.changes ≤ 1000 }
    ensures done { IfOk result (λ p. Becomes K.Keeper keeper.old keeper.new
        (AppliesChanges schema.now.tables posted.now.changes p.outcome)) }
    ensures sound { IfOk result (λ p. AreSound schema.now (K.told keeper.new)) }
    ensures made { IfOk result (IsMade schema.now.tables posted.now) }
    ensures began { BeganStays K.Keeper keeper.old keeper.new }
    ensures cause { HasCause K.Keeper keeper.old keeper.new result }
    ensures open { K.in_transaction keeper.new ≡ true }
    ensures shaped { K.shaped keeper.new ≡ K.shaped keeper.old }
    ensures loan { K.loan keeper.new ≡ K.loan keeper.old }
{
    match change_rows(alloc, keeper, schema, posted.changes.as_slice()) {
        Ok(outcome) => match prepare_reply(alloc, posted.seq, outcome) {
            Ok(prepared) => Ok(prepared),
            Err(Memory) => Err(KeeperEnd::Memory),
        },
        Err(end) => Err(end),
    }
}

/// Makes posted changes in one transaction. What is refused, and what stops, leaves the tables.
pub(crate) fn act_rows<K: Keeper>(
    alloc: Global,
    keeper: &mut K,
    schema: &Schema,
    posted: &Posted,
) -> Result<Prepared, KeeperEnd>
    requires idle { K.in_transaction keeper.old ≡ false }
    requires shaped { K.shaped keeper.old ≡ by schema.now }
    requires lawful { IsLawfulSchema schema.now }
    requires sound { AreSound schema.now (K.told keeper.old) }
    requires few { length posted.now.changes ≤ 1000 }
    ensures done { IfOk result (λ p. Becomes K.Keeper keeper.old keeper.new
        (DeskTransaction schema.now.tables posted.now.changes p.outcome)) }
    ensures made { IfOk result (IsMade schema.now.tables posted.now) }
    ensures stopped { OnErr result (Becomes K.Keeper keeper.old keeper.new Stays) }
    ensures cause { HasCause K.Keeper keeper.old keeper.new result }
    ensures idle { K.in_transaction keeper.new ≡ false }
    ensures shaped { K.shaped keeper.new ≡ K.shaped keeper.old }
    ensures loan { K.loan keeper.new ≡ K.loan keeper.old }
    ensures sound { AreSound schema.now (K.told keeper.new) }
{
    match keeper.begin() {
        Ok(()) => {}
        Err(end) => return Err(end),
    }
    match prepare_rows(alloc, keeper, schema, posted) {
        Ok(prepared) => match settle(keeper, prepared.outcome.is_ok()) {
            Ok(()) => Ok(prepared),
            Err(end) => Err(end),
        },
        Err(end) => {
            keeper.back();
            Err(end)
        }
    }
}
