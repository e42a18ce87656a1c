//! Rows that are named for a change, and what changes in them.
ghost use Rattle.std.specs.Prelude.{◌≡◌, ◌&&◌, IfOk, Ok, Result, codes, map, ℕ};
ghost use Rattle.fx_types.specs.TypeView.{shape};
ghost use Rattle.fx_types.specs.Types.{Shape, column, column_list, no_columns, numbers, records};
ghost use Rattle.fx_typing.specs.Deeds as deeds;
ghost use Rattle.fx_core.specs.Rules.{rule_number};
ghost use Rattle.fx_core.specs.Term.{Term};
ghost use Rattle.fx_core.specs.ColumnLists.{field_in};
ghost use Rattle.fx_typing.specs.Local as local;
ghost use Rattle.fx_typing.specs.Ways.{way};
ghost use Rattle.fx_typing.specs.Answers.{IsAnswerOf};
ghost use Rattle.fx_typing.specs.TypedView.{typed};
ghost use Rattle.fx_call_typing.specs.Changes.{unless_broken};

use fx_base::Memory;
use fx_core::deeds::Target;
use fx_core::{Core, Rule, make_core};
use fx_node_typing::first_break::keep;
use fx_node_typing::given::{alone, joins_to};
use fx_node_typing::lists::come_to;
use fx_types::types::{Columns, Ty};
use fx_types::words::Words;
use fx_typing::columns::{field_in, without};
use fx_typing::typed::Typed;
use fx_typing::ways::coerce;
use fx_typing::wrong::Wrong;
use std::alloc::Global;

/// Rows that change, with their columns.
#[derive(Drop)]
pub struct Changing {
    pub target: Target,
    pub columns: Columns,
}

// Whether the fields that are columns join to their types.
fn fields_join(alloc: Global, columns: &Columns, fields: &Columns) -> Result<bool, Memory>
    ensures { IfOk result (λ b. b ≡ deeds.fields_join (column_list columns.now)
        (column_list fields.now)) }
{
    for (name, ty) in fields.as_slice() {
        if let Some(column) = field_in(name, columns)
            && !joins_to(alloc, column, ty)?
        {
            return Ok(false);
        }
    }
    Ok(true)
}

// The rule that fields break which are not some of the columns: `UnknownColumn` or `WrongType`.
fn misfit(alloc: Global, columns: &Columns, fields: &Columns) -> Result<Rule, Memory>
    ensures { IfOk result (λ r. rule_number r
        ≡ deeds.misfit (column_list columns.now) (column_list fields.now)) }
{
    if fields_join(alloc, columns, fields)? {
        return Ok(Rule::UnknownColumn);
    }
    Ok(Rule::WrongType)
}

// Whether fields are some of the columns.
fn are_columns(alloc: Global, columns: &Columns, fields: &Columns) -> Result<bool, Memory>
    ensures { IfOk result (λ b. b ≡ deeds.joins_to (records (column_list columns.now))
        (records (column_list fields.now))) }
{
    let row = Ty::Rec(columns.copy(alloc)?);
    let own = Ty::Rec(fields.copy(alloc)?);
    joins_to(alloc, &row, &own)
}

// The rule that fields break, if they are not some of the columns.
fn break_by_fields(
    alloc: Global,
    columns: &Columns,
    fields: &Columns,
) -> Result<Option<Rule>, Memory>
    ensures { IfOk result (λ o. (r : Result (Term × Shape) ℕ)
        → deeds.when_columns (column_list columns.now) (column_list fields.now) r
        ≡ unless_broken o r) }
{
    if are_columns(alloc, columns, fields)? {
        return Ok(None);
    }
    Ok(Some(misfit(alloc, columns, fields)?))
}

// The name of the column that numbers the rows of a table.
fn id_name(alloc: Global) -> Result<Words, Memory>
    ensures { IfOk result (λ w. w ≡ codes "ID") }
{
    Ok(Words::of(alloc, "ID")?)
}

// The column that numbers the rows of a table.
fn id_columns(alloc: Global) -> Result<Columns, Memory>
    ensures { IfOk result (λ cs. column_list cs ≡ column (codes "ID") numbers no_columns) }
{
    let mut columns = Columns::new(alloc);
    columns.push((id_name(alloc)?, Ty::Number))?;
    Ok(columns)
}

// The rule that fields break which have no number `ID`: `UnknownColumn` or `WrongType`.
fn break_by_id(alloc: Global, fields: &Columns) -> Result<Option<Rule>, Memory>
    ensures { IfOk result (λ o. (c : Term) → deeds.by_id c (column_list fields.now)
        (field_in (codes "ID") (column_list fields.now))
        ≡ unless_broken o (Ok (c, records (column_list fields.now)))) }
{
    let id = id_name(alloc)?;
    match field_in(&id, fields) {
        Some(Ty::Number | Ty::Blank) => Ok(None),
        Some(_) => Ok(Some(Rule::WrongType)),
        None => Ok(Some(Rule::UnknownColumn)),
    }
}

// A record with a field `ID`, which is a number.
fn by_id(alloc: Global, core: Core, fields: Columns) -> Result<Typed, Wrong>
    ensures { IsAnswerOf typed (deeds.by_id core (column_list fields)
        (field_in (codes "ID") (column_list fields))) result }
{
    let broken = break_by_id(alloc, &fields)?;
    match broken {
        Some(rule) => Err(Wrong::Refused(rule)),
        None => Ok(Typed {
            core,
            ty: Ty::Rec(fields),
        }),
    }
}

// A value of type Blank as a record of these columns.
fn blank_of(alloc: Global, core: Core, columns: Columns) -> Result<Typed, Memory>
    ensures { IfOk result (λ t. typed t ≡ (
      local.coerced core (records (column_list columns)),
      records (column_list columns),
    )) }
{
    let ty = Ty::Rec(columns);
    Ok(Typed {
        core: coerce(alloc, core, &ty)?,
        ty,
    })
}

// A record as one of these columns.
fn come_whole(alloc: Global, columns: &Columns, core: Core, fields: Columns) -> Result<Typed, Wrong>
    ensures { IsAnswerOf typed (local.by_way (way (records (column_list fields))
        (records (column_list columns.now)))
        core (records (column_list columns.now))) result }
{
    let whole = columns.copy(alloc)?;
    let own = Typed {
        core,
        ty: Ty::Rec(fields),
    };
    come_to(alloc, own, &Ty::Rec(whole))
}

// A record of some of the columns, as one of all.
fn whole_row(alloc: Global, columns: &Columns, core: Core, fields: Columns) -> Result<Typed, Wrong>
    ensures { IsAnswerOf typed (deeds.when_columns (column_list columns.now) (column_list fields)
        (local.by_way (way (records (column_list fields)) (records (column_list columns.now))) core
        (records (column_list columns.now)))) result }
{
    let broken = break_by_fields(alloc, columns, &fields)?;
    match broken {
        Some(rule) => Err(Wrong::Refused(rule)),
        None => come_whole(alloc, columns, core, fields),
    }
}

/// A row that is named for a change: in a table by its `ID`, in a collection by all that it has.
/// One of type Blank is a blank record. The rule is `WrongType` or `UnknownColumn`.
pub fn identify_row(alloc: Global, rows: &Changing, named: Typed) -> Result<Typed, Wrong>
    ensures { IsAnswerOf typed (deeds.row_typed rows.now.target (column_list rows.now.columns)
        (typed named)) result }
{
    let Typed { core, ty } = named;
    match rows.target {
        Target::Table(_) => match ty {
            Ty::Rec(fields) => by_id(alloc, core, fields),
            Ty::Blank => Ok(blank_of(alloc, core, id_columns(alloc)?)?),
            _ => Err(Wrong::Refused(Rule::WrongType)),
        },
        Target::Gathered(_) => match ty {
            Ty::Rec(fields) => whole_row(alloc, &rows.columns, core, fields),
            Ty::Blank => Ok(blank_of(alloc, core, rows.columns.copy(alloc)?)?),
            _ => Err(Wrong::Refused(Rule::WrongType)),
        },
    }
}

/// Rows that are named for a change, in turn, or the lowest rule that one of them breaks.
pub fn identify_rows(alloc: Global, rows: &Changing, named: Vec<Typed>) -> Result<Vec<Typed>, Wrong>
    ensures { IsAnswerOf (λ xs. map typed xs.items)
        (deeds.rows_named_by rows.now.target (column_list rows.now.columns) (map typed named.items))
        result }
{
    let mut found = Ok(Vec::new(alloc));
    for one in named {
        found = keep(found, identify_row(alloc, rows, one));
    }
    found
}

// Whether fields leave the number of a table's row as it is.
fn leaves_id(alloc: Global, target: Target, fields: &Columns) -> Result<bool, Memory>
    ensures { IfOk result (λ b. b ≡ deeds.leaves_id target (column_list fields.now)) }
{
    match target {
        Target::Table(_) => {
            let id = id_name(alloc)?;
            Ok(field_in(&id, fields).is_none())
        }
        Target::Gathered(_) => Ok(true),
    }
}

// A record as a table of one row.
fn row_of_one(alloc: Global, core: Core, fields: Columns) -> Result<Typed, Memory>
    ensures { IfOk result (λ t. typed t ≡ deeds.row_of_one core (column_list fields)) }
{
    let row = Ty::Rec(fields.copy(alloc)?);
    Ok(Typed {
        core: make_core::list(row, alone(alloc, core)?),
        ty: Ty::Tab(fields),
    })
}

/// The columns that a change may set: of a table all but `ID`.
pub fn settable(alloc: Global, rows: &Changing) -> Result<Columns, Memory>
    ensures { IfOk result (λ cs. column_list cs
        ≡ deeds.settable rows.now.target (column_list rows.now.columns)) }
{
    let columns = rows.columns.copy(alloc)?;
    match rows.target {
        Target::Table(_) => {
            let id = id_name(alloc)?;
            Ok(without(&id, columns))
        }
        Target::Gathered(_) => Ok(columns),
    }
}

// Whether a change of these fields is one of the rows.
fn is_change(alloc: Global, rows: &Changing, fields: &Columns) -> Result<bool, Memory>
    ensures { IfOk result (λ b. b ≡ (deeds.joins_to (records (column_list rows.now.columns))
        (records (column_list fields.now))
        && deeds.leaves_id rows.now.target (column_list fields.now))) }
{
    Ok(are_columns(alloc, &rows.columns, fields)? && leaves_id(alloc, rows.target, fields)?)
}

// The rule that a change of these fields breaks, if it breaks one: `UnknownColumn` or `WrongType`.
fn break_by_change(alloc: Global, rows: &Changing, fields: &Columns) -> Result<Option<Rule>, Memory>
    ensures { IfOk result (λ o. (c : Term)
        → deeds.change_of rows.now.target (column_list rows.now.columns)
        (c, records (column_list fields.now))
        ≡ unless_broken o (Ok (deeds.row_of_one c (column_list fields.now)))) }
{
    if is_change(alloc, rows, fields)? {
        return Ok(None);
    }
    let columns = settable(alloc, rows)?;
    Ok(Some(misfit(alloc, &columns, fields)?))
}

// A record of some of the columns, as a change.
fn change_by(alloc: Global, rows: &Changing, core: Core, fields: Columns) -> Result<Typed, Wrong>
    ensures { IsAnswerOf typed (deeds.change_of rows.now.target (column_list rows.now.columns)
        (core, records (column_list fields))) result }
{
    let broken = break_by_change(alloc, rows, &fields)?;
    match broken {
        Some(rule) => Err(Wrong::Refused(rule)),
        None => Ok(row_of_one(alloc, core, fields)?),
    }
}

// A change without fields.
fn no_change(alloc: Global, core: Core) -> Result<Typed, Memory>
    ensures { IfOk result (λ t. typed t ≡ deeds.row_of_one (local.coerced core (records no_columns))
        no_columns) }
{
    let none = Ty::Rec(Columns::new(alloc));
    let core = coerce(alloc, core, &none)?;
    row_of_one(alloc, core, Columns::new(alloc))
}

/// What changes in a row: a record of some of the columns, `ID` aside in a table, as a table of one
/// row. One of type Blank has no fields. The rule is `WrongType` or `UnknownColumn`.
pub fn change_of(alloc: Global, rows: &Changing, change: Typed) -> Result<Typed, Wrong>
    ensures { IsAnswerOf typed (deeds.change_of rows.now.target (column_list rows.now.columns)
        (typed change)) result }
{
    let Typed { core, ty } = change;
    match ty {
        Ty::Rec(fields) => change_by(alloc, rows, core, fields),
        Ty::Blank => Ok(no_change(alloc, core)?),
        _ => Err(Wrong::Refused(Rule::WrongType)),
    }
}

/// What changes in a row, in turn, or the lowest rule that one of the changes breaks.
pub fn changes_of(alloc: Global, rows: &Changing, changes: Vec<Typed>) -> Result<Vec<Typed>, Wrong>
    ensures { IsAnswerOf (λ xs. map typed xs.items)
        (deeds.changes_of rows.now.target (column_list rows.now.columns) (map typed changes.items))
        result }
{
    let mut found = Ok(Vec::new(alloc));
    for one in changes {
        found = keep(found, change_of(alloc, rows, one));
    }
    found
}
