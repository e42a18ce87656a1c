//! The bodies of requests that change rows.
ghost use Rattle.std.specs.Prelude.{◌≡◌, IfOk, IfSome, codes, option_and_then, option_map};
ghost use Rattle.serde_json.specs.View.{items_view, members_view, view as json_view};
ghost use Rattle.fx_types.specs.ValueView.{view};
ghost use Rattle.row_requests.specs.Bodies.{added_in as added, change_by as by_operation};
ghost use Rattle.row_requests.specs.Bodies.{change_in as one_change, changes_in as all_changes};
ghost use Rattle.row_requests.specs.Bodies.{if_few as few_of, IsSoundPost, posted_in as posted};
ghost use Rattle.row_requests.specs.Bodies.{removed_in as removed, replaced_in as replaced};
ghost use Rattle.row_requests.specs.Changes.{given_at, table_changed};
ghost use Rattle.row_requests.specs.GivenRows.{AreScalars, given_in as given_of_members};
ghost use Rattle.row_requests.specs.GivenRows.{given_view};
ghost use Rattle.numbered_requests.specs.GivenValues.{members_at as members_at_key};

use fx_base::{InOrder, Memory};
use fx_types::{Value, Words};
use numbered_requests::Body;
use numbered_requests::values::{items_at, member_count, members_at, number_at, text_at, value_in};
use serde_json::{Map, Value as Json};
use std::alloc::Global;
use std::marker::Model;

/// The most changes of one request.
const MOST_CHANGES: usize = 1000;

/// What is given for a row: names by their order, each with its value. None stands for JSON that is
/// no value.
#[derive(Drop)]
pub struct Given {
    items: Vec<(Words, Option<Value>)>,
}

impl Model for Given {
    ghost use Rattle.std.specs.Prelude.{ℕ, List, Option};
    ghost use Rattle.std.specs.Coded.{codes};
    ghost use Rattle.fx_types.specs.ValueCode.{data_code};
    ghost use Rattle.fx_types.specs.Values.{Data};
    ghost use Rattle.row_requests.specs.GivenRows.{AreScalars, given_view};

    ghost Value = { List (List ℕ × Option Data) };

    ghost coded = { Prim.hlevel (codes, data_code) };

    ghost view = { λ g. given_view g.items.items };

    ghost invariant = { λ g. AreScalars (given_view g.items.items) };
}

/// A change of a row.
pub enum Change {
    /// A row more in the table of a name.
    Add(Words, Given),
    /// Other values in the row of a number.
    Replace(Words, u32, Given),
    /// The row of a number is taken out.
    Remove(Words, u32),
}

// By hand, so that it is called: what is derived is opened wherever a value may end, which costs
// proofs seconds each time.
impl Drop for Change {
    fn drop(self) {
        match self {
            Change::Add(_, _) => {}
            Change::Replace(_, _, _) => {}
            Change::Remove(_, _) => {}
        }
    }
}

/// Changes in their order.
pub type ChangeList = InOrder<Change>;

/// Posted changes under their number.
#[derive(Drop)]
pub struct Posted {
    pub seq: u32,
    pub changes: ChangeList,
}

impl Change {
    /// The name of the table.
    pub fn table(&self) -> &Words
        ensures { result.now ≡ table_changed self.now }
    {
        match self {
            Change::Add(table, _) | Change::Replace(table, _, _) | Change::Remove(table, _) =>
                table,
        }
    }
}

impl Given {
    /// The names and their values.
    pub fn as_slice(&self) -> &[(Words, Option<Value>)]
        ensures given { given_view result.now ≡ self.now }
        ensures scalars { AreScalars self.now }
    {
        self.items.as_slice()
    }

    /// The value of a name.
    pub fn value(&self, name: &Words) -> Option<&Value>
        ensures { option_map (λ v. view v.now) result ≡ given_at name.now self.now }
    {
        for (other, value) in &self.items {
            if other.is(name) {
                return match value {
                    Some(value) => Some(value),
                    None => None,
                };
            }
        }
        None
    }
}

/// What the members of an object give.
fn given_in(alloc: Global, members: &Map<String, Json>) -> Result<Given, Memory>
    ensures { IfOk result (λ g. g ≡ given_of_members (members_view members.now.entries)) }
{
    let mut items = Vec::new(alloc);
    for (key, json) in members.iter() {
        items.push((Words::of(alloc, key.as_str())?, value_in(alloc, json)?))?;
    }
    Ok(Given { items })
}

/// What a member that is an object gives.
fn row_at(alloc: Global, json: &Json) -> Result<Option<Given>, Memory>
    ensures { IfOk result (λ g. g ≡ option_map given_of_members
        (members_at_key (codes "row") (json_view json.now))) }
{
    match members_at(json, "row") {
        Some(members) => Ok(Some(given_in(alloc, members)?)),
        None => Ok(None),
    }
}

fn added_in(alloc: Global, json: &Json) -> Result<Option<Change>, Memory>
    ensures { IfOk result (λ c. c ≡ added (json_view json.now)) }
{
    if member_count(json) != 3 {
        return Ok(None);
    }
    let (Some(table), Some(given)) = (text_at(alloc, json, "table")?, row_at(alloc, json)?) else {
        return Ok(None);
    };
    Ok(Some(Change::Add(table, given)))
}

fn replaced_in(alloc: Global, json: &Json) -> Result<Option<Change>, Memory>
    ensures { IfOk result (λ c. c ≡ replaced (json_view json.now)) }
{
    if member_count(json) != 4 {
        return Ok(None);
    }
    let Some(id) = number_at(json, "id") else {
        return Ok(None);
    };
    let (Some(table), Some(given)) = (text_at(alloc, json, "table")?, row_at(alloc, json)?) else {
        return Ok(None);
    };
    Ok(Some(Change::Replace(table, id, given)))
}

fn removed_in(alloc: Global, json: &Json) -> Result<Option<Change>, Memory>
    ensures { IfOk result (λ c. c ≡ removed (json_view json.now)) }
{
    if member_count(json) != 3 {
        return Ok(None);
    }
    let Some(id) = number_at(json, "id") else {
        return Ok(None);
    };
    match text_at(alloc, json, "table")? {
        Some(table) => Ok(Some(Change::Remove(table, id))),
        None => Ok(None),
    }
}

/// The change of an operation.
fn change_by(alloc: Global, op: &str, json: &Json) -> Result<Option<Change>, Memory>
    ensures { IfOk result (λ c. c ≡ by_operation op.now (json_view json.now)) }
{
    match op {
        "add" => added_in(alloc, json),
        "change" => replaced_in(alloc, json),
        "remove" => removed_in(alloc, json),
        _ => Ok(None),
    }
}

/// The change that JSON is, if it is one.
fn change_in(alloc: Global, json: &Json) -> Result<Option<Change>, Memory>
    ensures { IfOk result (λ c. c ≡ one_change (json_view json.now)) }
{
    match json.get("op").and_then(Json::as_str) {
        Some(op) => change_by(alloc, op, json),
        None => Ok(None),
    }
}

/// The changes that a list is, if each of its elements is one.
fn changes_in(alloc: Global, items: &[Json]) -> Result<Option<ChangeList>, Memory>
    ensures { IfOk result (λ cs. cs ≡ all_changes (items_view items.now)) }
{
    let mut changes = ChangeList::new(alloc);
    for json in items {
        match change_in(alloc, json)? {
            Some(change) => changes.push(change)?,
            None => return Ok(None),
        }
    }
    Ok(Some(changes))
}

/// The changes, where there are as many as may be posted.
fn if_few(changes: Option<ChangeList>) -> Option<ChangeList>
    ensures { result ≡ option_and_then few_of changes }
{
    match changes {
        Some(changes) if 1 <= changes.len() && changes.len() <= MOST_CHANGES => Some(changes),
        _ => None,
    }
}

impl Body for Posted {
    ghost asked = { posted };

    ghost number = { λ p. p.seq };

    ghost sound = { IsSoundPost };

    fn read(alloc: Global, json: &Json) -> Result<Option<Posted>, Memory> {
        if member_count(json) != 2 {
            return Ok(None);
        }
        let Some(seq) = number_at(json, "seq") else {
            return Ok(None);
        };
        let Some(items) = items_at(json, "changes") else {
            return Ok(None);
        };
        match if_few(changes_in(alloc, items)?) {
            Some(changes) => Ok(Some(Posted { seq, changes })),
            None => Ok(None),
        }
    }

    fn seq(&self) -> u32 {
        self.seq
    }

    ghost counted = { λ p h. h.number };
}
