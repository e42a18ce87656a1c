//! An import in one transaction.
ghost use Rattle.std.specs.Prelude.{◌≡◌, ◌-◌, ◌<◌, ◌^◌, true, false, IfOk, OnErr, length};
ghost use Rattle.std.specs.List.{All};
ghost use Rattle.fx_base.specs.Telling.{Stays};
ghost use Rattle.row_keeper.specs.Over.{Becomes, BeganStays, HasCause};
ghost use Rattle.row_keeper.specs.Tables.{shapes_of};
ghost use Rattle.row_imports.specs.Lines.{ImportsLines, IsHeading, IsLineOf};
ghost use Rattle.numbered_requests.specs.Replies.{IsReply, said};
ghost use Rattle.csv_requests.specs.Prepared.{IsMade, IsPrepared};
ghost use Rattle.csv_requests.specs.Transactions.{ImportsWhole, IsShapedFor};
ghost use Rattle.csv_requests.specs.Transactions.{outcome_reply as outcome_bytes};

use crate::refusals::refuse_line;
use crate::replies::counts_reply;
use fx_base::Memory;
use fx_core::{Column, TableShape};
use numbered_requests::Reply;
use row_imports::{BrokenLine, Counts, Heading, import_lines};
use row_keeper::{Keeper, KeeperEnd};
use row_queries::Cells;
use row_requests::settle;
use std::alloc::Global;

/// What becomes of an import: how many rows it added and changed, or the line whose row broke a
/// rule.
pub type Outcome = Result<Counts, BrokenLine>;

/// What became of an import, with its reply and a copy of it to keep.
#[derive(Drop)]
pub struct Prepared {
    pub outcome: Outcome,
    pub reply: Reply,
    pub kept: Vec<u8>,
}

// What is said of an outcome.
fn outcome_reply(
    alloc: Global,
    seq: u32,
    columns: &[Column],
    outcome: Outcome,
) -> Result<Reply, Memory>
    ensures said { IfOk result (λ r. said r ≡ outcome_bytes seq columns.now outcome) }
    ensures whole { IfOk result IsReply }
{
    match outcome {
        Ok(counts) => counts_reply(alloc, seq, counts),
        Err(broken) => refuse_line(alloc, columns, broken),
    }
}

// The reply to an outcome, and a copy of it to keep.
fn prepare_reply(
    alloc: Global,
    seq: u32,
    columns: &[Column],
    outcome: Outcome,
) -> Result<Prepared, Memory>
    ensures is { IfOk result (λ p. p.outcome ≡ outcome) }
    ensures prepared { IfOk result (IsPrepared seq columns.now) }
{
    let reply = outcome_reply(alloc, seq, columns, outcome)?;
    let kept = Vec::from_slice(alloc, reply.whole())?;
    Ok(Prepared {
        outcome,
        reply,
        kept,
    })
}

// Puts the lines in, and makes the reply, and the copy of it that is to be kept, before anything is
// settled.
fn prepare_import<K: Keeper>(
    alloc: Global,
    keeper: &mut K,
    shape: &TableShape,
    heading: &Heading,
    lines: &[Cells],
    seq: u32,
) -> Result<Prepared, KeeperEnd>
    requires begun { K.in_transaction keeper.old ≡ true }
    requires heading { IsHeading (shapes_of (K.shaped keeper.old).now) shape.now heading.now }
    requires lines { All (IsLineOf shape.now.columns heading.now) lines.now }
    requires few { length lines.now < 2 ^ 32 - 1 }
    ensures done { IfOk result (λ p. Becomes K.Keeper keeper.old keeper.new
        (ImportsLines shape.now.columns heading.now lines.now p.outcome)) }
    ensures made { IfOk result (IsMade seq shape.now.columns (length lines.now)) }
    ensures began { BeganStays K.Keeper keeper.old keeper.new }
    ensures cause { HasCause K.Keeper keeper.old keeper.new result }
    ensures open { K.in_transaction keeper.new ≡ true }
    ensures shaped { K.shaped keeper.new ≡ K.shaped keeper.old }
    ensures loan { K.loan keeper.new ≡ K.loan keeper.old }
{
    match import_lines(alloc, keeper, shape, heading, lines) {
        Ok(outcome) => match prepare_reply(alloc, seq, shape.columns.as_slice(), outcome) {
            Ok(prepared) => Ok(prepared),
            Err(Memory) => Err(KeeperEnd::Memory),
        },
        Err(end) => Err(end),
    }
}

/// Imports lines in one transaction, under the number of a request. Where a line's row breaks a
/// rule, and where memory runs out or the keeper fails, the tables are left as they were.
pub fn act_import<K: Keeper>(
    alloc: Global,
    keeper: &mut K,
    shape: &TableShape,
    heading: &Heading,
    lines: &[Cells],
    seq: u32,
) -> Result<Prepared, KeeperEnd>
    requires idle { K.in_transaction keeper.old ≡ false }
    requires shaped { IsShapedFor (K.shaped keeper.old) shape.now heading.now }
    requires lines { All (IsLineOf shape.now.columns heading.now) lines.now }
    requires few { length lines.now < 2 ^ 32 - 1 }
    ensures done { IfOk result (λ p. Becomes K.Keeper keeper.old keeper.new
        (ImportsWhole shape.now.columns heading.now lines.now p.outcome)) }
    ensures made { IfOk result (IsMade seq shape.now.columns (length lines.now)) }
    ensures stopped { OnErr result (Becomes K.Keeper keeper.old keeper.new Stays) }
    ensures cause { HasCause K.Keeper keeper.old keeper.new result }
    ensures idle { K.in_transaction keeper.new ≡ false }
    ensures shaped { K.shaped keeper.new ≡ K.shaped keeper.old }
    ensures loan { K.loan keeper.new ≡ K.loan keeper.old }
{
    match keeper.begin() {
        Ok(()) => {}
        Err(end) => return Err(end),
    }
    match prepare_import(alloc, keeper, shape, heading, lines, seq) {
        Ok(prepared) => match settle(keeper, prepared.outcome.is_ok()) {
            Ok(()) => Ok(prepared),
            Err(end) => Err(end),
        },
        Err(end) => {
            keeper.back();
            Err(end)
        }
    }
}
