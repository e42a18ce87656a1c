//! Rows that are filtered for a change. Each function looks at one thing and calls the next, so
//! that no proof has many ways to follow.
ghost use Rattle.std.specs.Prelude.{◌≡◌, ◌∷◌, [], IfOk, map};
ghost use Rattle.fx_types.specs.Types.{column_list, tables};
ghost use Rattle.fx_typing.specs.Deeds as deeds;
ghost use Rattle.fx_typing.specs.Parts as parts;
ghost use Rattle.fx_core.specs.Lawful.{IsLawful};
ghost use Rattle.fx_core.specs.Term as term;
ghost use Rattle.fx_typing.specs.WellTyped.{target_source};
ghost use Rattle.fx_typing.specs.Answers.{IsAnswerOf};
ghost use Rattle.fx_typing.specs.TypedView.{typed};
ghost use Rattle.fx_resolve.specs.PartView.{judged_part};
ghost use Rattle.fx_call_typing.specs.Changes.{changing_view, removed_from};

use crate::changing::{Changing, change_of};
use crate::rows::{find_rows, settle};
use crate::values::{pieces_behind, values};
use fx_base::Memory;
use fx_core::deeds::{Deed, Target};
use fx_core::functions::Fun;
use fx_core::names::Names;
use fx_core::sources::Source;
use fx_core::{Rule, make_core};
use fx_node_typing::arity::{first, one};
use fx_node_typing::given::{alone, perform};
use fx_node_typing::node_rule::make;
use fx_resolve::Part;
use fx_types::types::Ty;
use fx_types::words::Words;
use fx_typing::typed::{Piece, Typed};
use fx_typing::wrong::Wrong;
use std::alloc::Global;

fn target_source(target: Target) -> Source
    ensures { result ≡ target_source target }
{
    match target {
        Target::Table(number) => Source::Table(number),
        Target::Gathered(number) => Source::Gathered(number),
    }
}

// All rows that may change.
fn all_rows(alloc: Global, rows: &Changing) -> Result<Typed, Memory>
    ensures { IfOk result (λ t. typed t
        ≡ (
          term.of (term.read (target_source rows.now.target)) term.nil,
          tables
              (column_list rows.now.columns),
        )) }
{
    Ok(Typed {
        core: make_core::read(target_source(rows.target)),
        ty: Ty::Tab(rows.columns.copy(alloc)?),
    })
}

// The rows that are filtered for a change, under a name if they have one.
fn filter_of(
    alloc: Global,
    rows: &Changing,
    alias: Option<Words>,
    conditions: Vec<Part>,
) -> Result<Typed, Wrong>
    ensures { IsAnswerOf typed (deeds.filter_of (changing_view rows.now) alias
        (map judged_part conditions.entry.items)) result }
{
    let table = all_rows(alloc, rows)?;
    let pieces = pieces_behind(alloc, Piece::Value(alias, table), conditions)?;
    make(alloc, Fun::Filter, pieces)
}

// `RemoveIf` of these rows.
fn remove_from(
    alloc: Global,
    rows: &Changing,
    alias: Option<Words>,
    conditions: Vec<Part>,
) -> Result<Typed, Wrong>
    ensures { IsAnswerOf typed (removed_from (changing_view rows.now) alias
        (map judged_part conditions.entry.items)) result }
{
    let filtered = filter_of(alloc, rows, alias, conditions)?;
    let cores = alone(alloc, filtered.core)?;
    Ok(perform(Deed::RemoveIf(rows.target), cores))
}

// `RemoveIf` of the rows of this name.
fn remove_named(
    alloc: Global,
    names: &Names,
    alias: Option<Words>,
    name: &Words,
    conditions: Vec<Part>,
) -> Result<Typed, Wrong>
    requires { IsLawful names.now }
    ensures { IsAnswerOf typed
        (deeds.remove_if names.now (parts.target alias name.now
        ∷ map judged_part conditions.entry.items)) result }
{
    let (rows, is_blank) = find_rows(alloc, names, name)?;
    settle(
        alloc,
        is_blank,
        remove_from(alloc, &rows, alias, conditions),
    )
}

// `RemoveIf` of what has a name.
fn remove_on(
    alloc: Global,
    names: &Names,
    target: Part,
    conditions: Vec<Part>,
) -> Result<Typed, Wrong>
    requires { IsLawful names.now }
    ensures { IsAnswerOf typed
        (deeds.remove_if names.now (judged_part target.entry
        ∷ map judged_part conditions.entry.items)) result }
{
    match target {
        Part::Target(alias, name) => remove_named(alloc, names, alias, &name, conditions),
        _ => Err(Wrong::Refused(Rule::NotAVariable)),
    }
}

/// `RemoveIf`: rows, which may have a name, and conditions.
pub fn remove_if(alloc: Global, names: &Names, parts: Vec<Part>) -> Result<Typed, Wrong>
    requires { IsLawful names.now }
    ensures { IsAnswerOf typed (deeds.remove_if names.now (map judged_part parts.entry.items))
        result }
{
    match first(parts) {
        Some((target, conditions)) => remove_on(alloc, names, target, conditions),
        None => Err(Wrong::Refused(Rule::NotAVariable)),
    }
}

// A part alone.
fn only(alloc: Global, one: Part) -> Result<Vec<Part>, Memory>
    ensures { IfOk result (λ ps. map judged_part ps.items ≡ judged_part one.entry ∷ []) }
{
    let mut all = Vec::new(alloc);
    all.push(one)?;
    Ok(all)
}

// `UpdateIf` of these rows: a condition, and what changes.
fn update_by(
    alloc: Global,
    rows: &Changing,
    alias: Option<Words>,
    condition: Part,
    change: Typed,
) -> Result<Typed, Wrong>
    ensures { IsAnswerOf typed
        (deeds.update_to (changing_view rows.now) alias (judged_part condition.entry)
        (typed change ∷ [])) result }
{
    let conditions = only(alloc, condition)?;
    let filtered = filter_of(alloc, rows, alias, conditions)?;
    let change = change_of(alloc, rows, change)?;
    let mut cores = alone(alloc, filtered.core)?;
    cores.push(change.core)?;
    Ok(perform(Deed::UpdateIf(rows.target), cores))
}

// `UpdateIf` of these rows: a condition, and what changes.
fn update_to(
    alloc: Global,
    rows: &Changing,
    alias: Option<Words>,
    condition: Part,
    changes: Vec<Typed>,
) -> Result<Typed, Wrong>
    ensures { IsAnswerOf typed
        (deeds.update_to (changing_view rows.now) alias (judged_part condition.entry)
        (map typed changes.items)) result }
{
    match one(changes) {
        Some(change) => update_by(alloc, rows, alias, condition, change),
        None => Err(Wrong::Refused(Rule::WrongCount)),
    }
}

// `UpdateIf` of the rows of this name.
fn update_named(
    alloc: Global,
    names: &Names,
    alias: Option<Words>,
    name: &Words,
    condition: Part,
    changes: Vec<Part>,
) -> Result<Typed, Wrong>
    requires { IsLawful names.now }
    ensures { IsAnswerOf typed (deeds.update_if names.now
        (parts.target alias name.now ∷ judged_part condition.entry
        ∷ map judged_part changes.entry.items)) result }
{
    let changes = values(alloc, changes)?;
    let (rows, is_blank) = find_rows(alloc, names, name)?;
    let updated = update_to(alloc, &rows, alias, condition, changes);
    settle(alloc, is_blank, updated)
}

// `UpdateIf` of what has a name.
fn update_on(
    alloc: Global,
    names: &Names,
    target: Part,
    condition: Part,
    changes: Vec<Part>,
) -> Result<Typed, Wrong>
    requires { IsLawful names.now }
    ensures { IsAnswerOf typed (deeds.update_if names.now
        (judged_part target.entry ∷ judged_part condition.entry
        ∷ map judged_part changes.entry.items)) result }
{
    match target {
        Part::Target(alias, name) => update_named(alloc, names, alias, &name, condition, changes),
        _ => Err(Wrong::Refused(Rule::NotAVariable)),
    }
}

/// `UpdateIf`: rows, which may have a name, a condition, and what changes.
pub fn update_if(alloc: Global, names: &Names, parts: Vec<Part>) -> Result<Typed, Wrong>
    requires { IsLawful names.now }
    ensures { IsAnswerOf typed (deeds.update_if names.now (map judged_part parts.entry.items))
        result }
{
    let Some((target, rest)) = first(parts) else {
        return Err(Wrong::Refused(Rule::NotAVariable));
    };
    match first(rest) {
        Some((condition, changes)) => update_on(alloc, names, target, condition, changes),
        None => Err(Wrong::Refused(Rule::NotAVariable)),
    }
}
