//! A desk posts changes of rows.
ghost use Rattle.std.specs.Option.{option_to_list};
ghost use Rattle.std.specs.Prelude.{◌≡◌, ◌<◌, ◌++◌, [], false, IfOk, IsErrOf, OnErr, OnOk, Some};
ghost use Rattle.std.specs.Prelude.{vec_capacity, vec_len};
ghost use Rattle.fx_base.specs.Silence.{SilenceCause};
ghost use Rattle.fx_base.specs.Telling.{Stays};
ghost use Rattle.fx_core.specs.Lawful.{IsLawfulSchema};
ghost use Rattle.row_keeper.specs.Over.{Becomes, HasCause};
ghost use Rattle.row_keeper.specs.declared.keeper.KeeperEnd.TheVariants.{Failed};
ghost use Rattle.row_keeper.specs.Shaped.{by};
ghost use Rattle.row_requests.specs.Bodies.{IsSoundPost};
ghost use Rattle.row_requests.specs.DeskRows.{KeepsRows, PostsRows, ReachesRows};
ghost use Rattle.numbered_requests.specs.Replies.{IsReply, KeepReplies, said};
ghost use Rattle.row_requests.specs.Sound.{AreSound};
ghost use Rattle.row_requests.specs.Written.{SameTablesExcept, IsNamedBy};
ghost use Rattle.row_requests.specs.Written.{changed_table as table_of_change};
ghost use Rattle.row_requests.specs.Written.{tables_named as tables_of_changes};
ghost use Rattle.fx_core.specs.Reads.{IsAmong};
ghost use Rattle.fx_core.specs.declared.sources.Source.{Source as Src};

use crate::bodies::{Change, Posted};
use crate::changes::table_place;
use crate::transaction::{Prepared, act_rows};
use fx_base::Memory;
use fx_core::{Schema, Source};
use fx_types::Words;
use numbered_requests::{Checked, Named, Reply, check_desk, put};
use row_keeper::{Keeper, KeeperEnd};
use session_state::Desk;
use std::alloc::Global;

/// A desk posts changes of rows, under a number. All of them act in one transaction, and the reply
/// is kept; or nothing changes and the reply is a refusal: no JSON (9), another shape (10), a desk
/// too many (12), another number (13, 14), no table (21), no row (22), or a rule that breaks (23).
/// The last request once more gets the kept reply. Nothing but the rows and this desk's record can
/// change. `wrote` is empty, and gets the tables that were written.
pub fn post_rows<K: Keeper>(
    alloc: Global,
    keeper: &mut K,
    desks: &mut Vec<Named<Desk>>,
    schema: &Schema,
    name: &Words,
    body: &[u8],
    wrote: &mut Vec<Source>,
) -> Result<Reply, KeeperEnd>
    requires idle { K.in_transaction keeper.old ≡ false }
    requires shaped { K.shaped keeper.old ≡ by schema.now }
    requires lawful { IsLawfulSchema schema.now }
    requires sound { AreSound schema.now (K.told keeper.old) }
    requires kept { KeepReplies desks.old.items }
    requires none { wrote.old.items ≡ [] }
    ensures done { IfOk result (λ r. PostsRows
        (SilenceCause (K.marks keeper.old) (K.marks keeper.new)) schema.now.tables name.now body.now
        (K.told keeper.old) desks.old.items (said r) (K.told keeper.new) desks.new.items) }
    ensures whole { IfOk result IsReply }
    ensures stopped { OnErr result (Becomes K.Keeper keeper.old keeper.new Stays) }
    ensures same { OnErr result (desks.new.items ≡ desks.old.items) }
    ensures wrote { IfOk result (λ r. Becomes K.Keeper keeper.old keeper.new
        (SameTablesExcept wrote.new.items)) }
    ensures named { (s : Src) → IsAmong s wrote.new.items
        → IsNamedBy schema.now.tables desks.old.items name.now body.now s }
    ensures reached { IsErrOf result Failed → ReachesRows name.now body.now desks.old.items }
    ensures cause { HasCause K.Keeper keeper.old keeper.new result }
    ensures idle { K.in_transaction keeper.new ≡ false }
    ensures shaped { K.shaped keeper.new ≡ K.shaped keeper.old }
    ensures loan { K.loan keeper.new ≡ K.loan keeper.old }
    ensures sound { AreSound schema.now (K.told keeper.new) }
    ensures kept { KeepReplies desks.new.items }
{
    match check_desk(alloc, desks, name, body) {
        Ok(Checked::Says(reply)) => Ok(reply),
        Ok(Checked::Acts(posted)) => keep_rows(
            alloc, keeper, desks, schema, name, body, &posted, wrote,
        ),
        Err(Memory) => Err(KeeperEnd::Memory),
    }
}

/// Room for one more, and copies of its name and its body.
fn make_room(
    alloc: Global,
    desks: &mut Vec<Named<Desk>>,
    name: &Words,
    body: &[u8],
) -> Result<(Words, Vec<u8>), Memory>
    ensures name { IfOk result (λ c. c.0 ≡ name.now) }
    ensures body { IfOk result (λ c. c.1.items ≡ body.now) }
    ensures room { OnOk result (vec_len desks.new < vec_capacity desks.new) }
    ensures same { desks.new.items ≡ desks.old.items }
{
    desks.reserve(1)?;
    let name = name.copy(alloc)?;
    let body = Vec::from_slice(alloc, body)?;
    Ok((name, body))
}

/// The table that a change names, if there is one of this name.
fn table_named(schema: &Schema, change: &Change) -> Option<Source>
    requires { IsLawfulSchema schema.now }
    ensures { result ≡ table_of_change schema.now.tables change.now }
{
    match table_place(schema, change.table()) {
        Some(table) => Some(Source::Table(table)),
        None => None,
    }
}

/// Adds a source, if there is one.
fn add(sources: &mut Vec<Source>, source: Option<Source>) -> Result<(), Memory>
    ensures { OnOk result (sources.new.items ≡ sources.old.items ++ option_to_list source) }
{
    match source {
        Some(source) => Ok(sources.push(source)?),
        None => Ok(()),
    }
}

/// The tables that changes name.
fn tables_named(alloc: Global, schema: &Schema, changes: &[Change]) -> Result<Vec<Source>, Memory>
    requires { IsLawfulSchema schema.now }
    ensures { IfOk result (λ v. v.items ≡ tables_of_changes schema.now.tables changes.now) }
{
    let mut tables = Vec::new(alloc);
    for change in changes {
        add(&mut tables, table_named(schema, change))?;
    }
    Ok(tables)
}

/// Changes rows, and keeps what an accepted request leaves of its desk.
fn keep_rows<K: Keeper>(
    alloc: Global,
    keeper: &mut K,
    desks: &mut Vec<Named<Desk>>,
    schema: &Schema,
    name: &Words,
    body: &[u8],
    posted: &Posted,
    wrote: &mut Vec<Source>,
) -> Result<Reply, KeeperEnd>
    requires idle { K.in_transaction keeper.old ≡ false }
    requires shaped { K.shaped keeper.old ≡ by schema.now }
    requires lawful { IsLawfulSchema schema.now }
    requires sound { AreSound schema.now (K.told keeper.old) }
    requires kept { KeepReplies desks.old.items }
    requires posted { IsSoundPost posted.now }
    requires none { wrote.old.items ≡ [] }
    ensures done { IfOk result (λ r. KeepsRows
        (SilenceCause (K.marks keeper.old) (K.marks keeper.new)) schema.now.tables name.now body.now
        posted.now (K.told keeper.old) desks.old.items (said r) (K.told keeper.new) desks.new.items) }
    ensures whole { IfOk result IsReply }
    ensures stopped { OnErr result (Becomes K.Keeper keeper.old keeper.new Stays) }
    ensures same { OnErr result (desks.new.items ≡ desks.old.items) }
    ensures wrote { IfOk result (λ r. Becomes K.Keeper keeper.old keeper.new
        (SameTablesExcept wrote.new.items)) }
    ensures named { (s : Src) → IsAmong s wrote.new.items
        → IsAmong s (tables_of_changes schema.now.tables posted.now.changes) }
    ensures cause { HasCause K.Keeper keeper.old keeper.new result }
    ensures idle { K.in_transaction keeper.new ≡ false }
    ensures shaped { K.shaped keeper.new ≡ K.shaped keeper.old }
    ensures loan { K.loan keeper.new ≡ K.loan keeper.old }
    ensures sound { AreSound schema.now (K.told keeper.new) }
    ensures kept { KeepReplies desks.new.items }
{
    let (copied_name, copied_body) = match make_room(alloc, desks, name, body) {
        Ok(copies) => copies,
        Err(Memory) => return Err(KeeperEnd::Memory),
    };
    let tables = match tables_named(alloc, schema, posted.changes.as_slice()) {
        Ok(tables) => tables,
        Err(Memory) => return Err(KeeperEnd::Memory),
    };
    match act_rows(alloc, keeper, schema, posted) {
        Ok(prepared) => {
            if prepared.outcome.is_ok() {
                let Prepared { reply, kept, .. } = prepared;
                let mut desk = Desk::new(alloc);
                desk.keep(posted.seq, copied_body, kept);
                put(desks, copied_name, desk);
                *wrote = tables;
                return Ok(reply);
            }
            Ok(prepared.reply)
        }
        Err(end) => Err(end),
    }
}
