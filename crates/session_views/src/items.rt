//! The items of galleries.
ghost use Rattle.std.specs.Prelude.{◌≡◌, ◌<◌, ◌≤◌, ◌+◌, ◌*◌, ◌^◌, ℕ, [], IfOk, IfSome, OnOk, Some};
ghost use Rattle.std.specs.Prelude.{drop, length, slice_get, take};
ghost use Rattle.recalc.specs.AskingOver.{HasRead};
ghost use Rattle.recalc.specs.app_semantics.Holding.{HoldsFitting};
ghost use Rattle.recalc.specs.app_semantics.Present.{present};
ghost use Rattle.recalc.specs.app_semantics.Sound.{IsSoundApp};
ghost use Rattle.session_views.specs.Bounds.{AreMade, AreSteps, formulas_for, items_steps};
ghost use Rattle.session_views.specs.Looking.{is_it};
ghost use Rattle.session_views.specs.Galleries.{gallery_named as named_gallery};
ghost use Rattle.session_views.specs.Galleries.{is_gallery as is_gallery_kind};
ghost use Rattle.session_views.specs.Galleries.{is_gallery_named as is_named_gallery};
ghost use Rattle.session_views.specs.Ready.{CanShow, IsGalleryOf, IsItemOf};
ghost use Rattle.session_views.specs.Views.{AreFreshItems, AreEachGiven, AreItemsFrom, AreRowItems};
ghost use Rattle.session_views.specs.Views.{AreSeenItems, IsItemAt, fault_in as fault_of};
ghost use Rattle.session_views.specs.Views.{is_seen_at as is_seen_by_number};
ghost use Rattle.session_views.specs.Visits.{AreRowsVisited, AreVisited, GivenItemsVisit};
ghost use Rattle.session_views.specs.Visits.{ItemAtVisits, ItemsVisit, RowItemsVisit};
ghost use Rattle.fx_types.specs.ValueView.{view};
ghost use Rattle.fx_scalar.specs.ScalarFunctions.{IsToday};
ghost use Rattle.recalc.specs.fx_semantics.Rows.{rows_in as rows_of_value};
ghost use Rattle.fx_value.specs.Columns.{Row};
ghost use Rattle.recalc.specs.Asking.{IsHeardOf, ToldRows};
ghost use Rattle.recalc.specs.Values.{value_of};
ghost use Rattle.recalc.specs.Visits.{WhereTold};
ghost use Rattle.recalc.specs.fx_eval.Visits.{AtMost};
ghost use Rattle.recalc.specs.Changes.{StaysCleanExcept};
ghost use Rattle.recalc.specs.Kept.{HasNumbersLeft, IsInOrder};
ghost use Rattle.recalc.specs.Outcomes.{IsRightOver};
ghost use Rattle.recalc.specs.Steps.{KeepsClean};
ghost use Rattle.row_keeper.specs.Over.{HasCause};
ghost use Rattle.row_keeper.specs.Shaped.{by};

use crate::app_cells::App;
use crate::displaying::is_seen;
use crate::roots::{Part, roots_of};
use crate::templates::item_controls;
use fx_base::{InOrder, Memory};
use fx_core::Names;
use fx_core::names::ControlName;
use fx_types::{Control, Fault, Fields, Value, Words};
use recalc::{Cache, Steps, Valued, id_name, item_id};
use row_keeper::{Keeper, KeeperEnd};
use session_state::Session;
use std::alloc::Global;
use std::sync::ledger::Ledger;
use view_text::{ItemList, ItemView, Items};

/// The most items that are shown at once.
const MOST_ITEMS: usize = 100;

// The item at a position.
#[tactic(auto, using(recalc::proofs::Asked::read_none, recalc::proofs::Asked::read_on))]
fn item_view<K: Keeper, L: Ledger>(
    alloc: Global,
    app: &App,
    session: &Session,
    keeper: &mut K,
    valued: &Valued,
    gallery: u32,
    at: u64,
    row: &Fields,
    steps: &mut Steps<L>,
) -> Result<ItemView, KeeperEnd>
    requires ready { CanShow app.now session.now valued.now }
    requires row { IsItemOf app.now.names gallery row.now }
    requires shaped { K.shaped keeper.old ≡ by app.now.names.schema }
    ensures shows { IfOk result (λ i. (moment : ℕ) (tables : ToldRows)
        → IsToday moment valued.now.day → IsHeardOf (K.told keeper.new) tables
        → IsItemAt (present app.now session.now tables moment) (value_of valued.now) gallery at
        row.now (Some i)) }
    ensures ticks { IfOk result (λ i. steps.new ≤ steps.old
        + formulas_for app.now.names (is_it gallery)) }
    ensures visits { IfOk result (λ i. (moment : ℕ) → IsToday moment valued.now.day
        → WhereTold (K.told keeper.new) (λ told.
        AtMost (ItemAtVisits app.now session.now told moment (value_of valued.now) gallery at
        row.now (Some i)) (K.visited keeper.old) (K.visited keeper.new))) }
    ensures read { HasRead K.Keeper keeper.old keeper.new }
    ensures cause { HasCause K.Keeper keeper.old keeper.new result }
{
    let name = id_name(alloc)?;
    let id = item_id(row, &name);
    let shown = item_controls(alloc, app, session, keeper, valued, gallery, row, steps)?;
    Ok(ItemView { at, id, shown })
}

// The items of these rows, of which the first has this position.
#[tactic(auto, using(recalc::proofs::Asked::read_none, recalc::proofs::Asked::read_on))]
fn item_views<K: Keeper, L: Ledger>(
    alloc: Global,
    app: &App,
    session: &Session,
    keeper: &mut K,
    valued: &Valued,
    gallery: u32,
    first: u64,
    rows: &[Fields],
    steps: &mut Steps<L>,
) -> Result<ItemList, KeeperEnd>
    requires ready { CanShow app.now session.now valued.now }
    requires rows { (i : ℕ) (r : Row) → slice_get rows.now i ≡ Some r
        → IsItemOf app.now.names gallery r }
    requires few { first + length rows.now < 2 ^ 64 }
    requires shaped { K.shaped keeper.old ≡ by app.now.names.schema }
    ensures shows { IfOk result (λ l. (moment : ℕ) (tables : ToldRows)
        → IsToday moment valued.now.day → IsHeardOf (K.told keeper.new) tables
        → AreEachGiven (IsItemAt (present app.now session.now tables moment) (value_of valued.now)
        gallery) first rows.now l) }
    ensures ticks { IfOk result (λ l. steps.new ≤ steps.old
        + length l * formulas_for app.now.names (is_it gallery)) }
    ensures visits { IfOk result (λ l. (moment : ℕ) → IsToday moment valued.now.day
        → WhereTold (K.told keeper.new) (λ told.
        AtMost (AreVisited (ItemAtVisits app.now session.now told moment (value_of valued.now)
        gallery) first rows.now l) (K.visited keeper.old) (K.visited keeper.new))) }
    ensures read { HasRead K.Keeper keeper.old keeper.new }
    ensures cause { HasCause K.Keeper keeper.old keeper.new result }
{
    let mut list = InOrder::new(alloc);
    let mut at = first;
    for row in rows {
        let item = item_view(alloc, app, session, keeper, valued, gallery, at, row, steps)?;
        list.push(item)?;
        at += 1;
    }
    Ok(list)
}

// A hundred of these rows at most, behind so many.
fn page(rows: &[Fields], behind: usize) -> &[Fields]
    ensures { result.now ≡ take 100 (drop behind rows.now) }
{
    let start = behind.min(rows.len());
    let rest = &rows[start..];
    let end = rest.len().min(MOST_ITEMS);
    &rest[..end]
}

// The items of a table.
#[tactic(auto, using(recalc::proofs::Asked::read_none, recalc::proofs::Asked::read_on))]
fn table_items<K: Keeper, L: Ledger>(
    alloc: Global,
    app: &App,
    session: &Session,
    keeper: &mut K,
    valued: &Valued,
    gallery: u32,
    from: u32,
    rows: &[Fields],
    steps: &mut Steps<L>,
) -> Result<Items, KeeperEnd>
    requires ready { CanShow app.now session.now valued.now }
    requires rows { (i : ℕ) (r : Row) → slice_get rows.now i ≡ Some r
        → IsItemOf app.now.names gallery r }
    requires shaped { K.shaped keeper.old ≡ by app.now.names.schema }
    ensures shows { IfOk result (λ i. (moment : ℕ) (tables : ToldRows)
        → IsToday moment valued.now.day → IsHeardOf (K.told keeper.new) tables
        → AreRowItems (present app.now session.now tables moment) (value_of valued.now) gallery from
        rows.now i) }
    ensures ticks { IfOk result (λ i. steps.new ≤ steps.old
        + length i.list * formulas_for app.now.names (is_it gallery)) }
    ensures visits { IfOk result (λ i. (moment : ℕ) → IsToday moment valued.now.day
        → WhereTold (K.told keeper.new) (λ told.
        AtMost (RowItemsVisit app.now session.now told moment (value_of valued.now) gallery from
        rows.now i) (K.visited keeper.old) (K.visited keeper.new))) }
    ensures read { HasRead K.Keeper keeper.old keeper.new }
    ensures cause { HasCause K.Keeper keeper.old keeper.new result }
{
    let first = from.max(1);
    let shown = page(rows, (first - 1) as usize);
    let list = item_views(
        alloc,
        app,
        session,
        keeper,
        valued,
        gallery,
        u64::from(first),
        shown,
        steps,
    )?;
    Ok(Items {
        total: rows.len() as u64,
        fault: None,
        list,
    })
}

/// The items of a gallery from a position on, of which 0 counts as 1: a hundred at most, and how
/// many the gallery has; or the error that stands in their place.
#[tactic(auto, using(recalc::proofs::Asked::read_none, recalc::proofs::Asked::read_on))]
pub(crate) fn items_from<K: Keeper, L: Ledger>(
    alloc: Global,
    app: &App,
    session: &Session,
    keeper: &mut K,
    valued: &Valued,
    gallery: u32,
    from: u32,
    steps: &mut Steps<L>,
) -> Result<Items, KeeperEnd>
    requires ready { CanShow app.now session.now valued.now }
    requires gallery { IsGalleryOf app.now.names gallery }
    requires shaped { K.shaped keeper.old ≡ by app.now.names.schema }
    ensures shows { IfOk result (λ i. (moment : ℕ) (tables : ToldRows)
        → IsToday moment valued.now.day → IsHeardOf (K.told keeper.new) tables
        → AreItemsFrom (present app.now session.now tables moment) (value_of valued.now) gallery
        from i) }
    ensures ticks { IfOk result (λ i. steps.new ≤ steps.old
        + length i.list * formulas_for app.now.names (is_it gallery)) }
    ensures visits { IfOk result (λ i. (moment : ℕ) → IsToday moment valued.now.day
        → WhereTold (K.told keeper.new) (λ told.
        AtMost (ItemsVisit app.now session.now told moment (value_of valued.now) gallery from i)
        (K.visited keeper.old) (K.visited keeper.new))) }
    ensures read { HasRead K.Keeper keeper.old keeper.new }
    ensures cause { HasCause K.Keeper keeper.old keeper.new result }
{
    let items = valued.items(alloc, &app.names, gallery)?;
    let error = fault_in(alloc, &items)?;
    match error {
        Some(fault) => Ok(items_with(alloc, fault)),
        None => {
            let rows = rows_in(&items);
            table_items(
                alloc, app, session, keeper, valued, gallery, from, rows, steps,
            )
        }
    }
}

// The error that a value is, if it is one.
fn fault_in(alloc: Global, value: &Value) -> Result<Option<Fault>, Memory>
    ensures { IfOk result (λ o. o ≡ fault_of (view value.now)) }
{
    match value {
        Value::Fault(fault) => Ok(Some(fault.copy(alloc)?)),
        _ => Ok(None),
    }
}

// The rows in a value; what is no table has none.
fn rows_in(value: &Value) -> &[Fields]
    ensures { result.now ≡ rows_of_value (view value.now) }
{
    match value {
        Value::Tab(rows) => rows.as_slice(),
        _ => &[],
    }
}

// No items: an error stands in their place.
fn items_with(alloc: Global, fault: Fault) -> Items
    ensures { result ≡ record { total = 0; fault = Some fault; list = [] } }
{
    let list = InOrder::new(alloc);
    Items {
        total: 0,
        fault: Some(fault),
        list,
    }
}

// Whether the control of this number stands on the current screen, and is visible.
fn is_seen_at(names: &Names, session: &Session, valued: &Valued, number: u32) -> bool
    ensures { result ≡ is_seen_by_number names.now session.now (value_of valued.now) number }
{
    match names.controls.get(number as usize) {
        Some(control) => is_seen(names, session, valued, number, control),
        None => false,
    }
}

/// The items of a gallery over a session at a moment, in seconds since 1970-01-01 UTC: those from a
/// position on, of which 0 counts as 1, a hundred at most, and how many the gallery has; or the
/// error that stands in their place. None where the gallery isn't on the current screen or isn't
/// visible. What was kept right stays so, also where it stops; the cells that are looked at are
/// clean afterwards, and what was clean stays so. `Failed` only where the keeper counted a fault.
#[tactic(auto, using(recalc::proofs::Asked::read_none, recalc::proofs::Asked::read_on, crate::proofs::Needing::leaves_none))]
pub fn items_of<K: Keeper, L: Ledger>(
    alloc: Global,
    app: &App,
    session: &Session,
    cache: &mut Cache,
    keeper: &mut K,
    moment: u64,
    gallery: u32,
    from: u32,
    steps: &mut Steps<L>,
) -> Result<Option<Items>, KeeperEnd>
    requires sound { IsSoundApp app.now }
    requires holds { HoldsFitting app.now.names session.now }
    requires gallery { IsGalleryOf app.now.names gallery }
    requires shaped { K.shaped keeper.old ≡ by app.now.names.schema }
    requires day { IsToday moment cache.old.values.day }
    requires order { IsInOrder app.now cache.old }
    ensures shows { IfOk result (λ o. IsRightOver app.now session.now (K.told keeper.old) moment
        cache.old → (tables : ToldRows) → IsHeardOf (K.told keeper.new) tables
        → AreFreshItems (present app.now session.now tables moment) gallery from o) }
    ensures order { IsInOrder app.now cache.new }
    ensures right { IsRightOver app.now session.now (K.told keeper.old) moment cache.old
        → IsRightOver app.now session.now (K.told keeper.new) moment cache.new }
    ensures day { cache.new.values.day ≡ cache.old.values.day }
    ensures left { HasNumbersLeft cache.old.last → KeepsClean app.now cache.old cache.new }
    ensures but { StaysCleanExcept app.now [] cache.old cache.new }
    ensures made { OnOk result (AreMade app.now (is_it gallery) cache.new) }
    ensures ticks { IfOk result (λ o. HasNumbersLeft cache.old.last
        → AreSteps app.now (is_it gallery) cache.old cache.new (items_steps app.now.names gallery o)
        steps.old steps.new) }
    ensures visits { IfOk result (λ o. IsRightOver app.now session.now (K.told keeper.old) moment
        cache.old → HasNumbersLeft cache.old.last → WhereTold (K.told keeper.new) (λ told.
        AreRowsVisited app.now session.now told moment (is_it gallery) cache.old cache.new
        (λ values. GivenItemsVisit app.now session.now told moment values gallery from o) steps.old
        (K.visited keeper.old) (K.visited keeper.new))) }
    ensures read { HasRead K.Keeper keeper.old keeper.new }
    ensures cause { HasCause K.Keeper keeper.old keeper.new result }
{
    let roots = roots_of(alloc, app, Part::Gallery(gallery))?;
    cache.refresh(alloc, app, session, keeper, moment, &roots, steps)?;
    items_by(
        alloc,
        app,
        session,
        keeper,
        cache.values(),
        gallery,
        from,
        steps,
    )
}

// The same, by the values of cells.
#[tactic(auto, using(recalc::proofs::Asked::read_none, recalc::proofs::Asked::read_on))]
fn items_by<K: Keeper, L: Ledger>(
    alloc: Global,
    app: &App,
    session: &Session,
    keeper: &mut K,
    valued: &Valued,
    gallery: u32,
    from: u32,
    steps: &mut Steps<L>,
) -> Result<Option<Items>, KeeperEnd>
    requires ready { CanShow app.now session.now valued.now }
    requires gallery { IsGalleryOf app.now.names gallery }
    requires shaped { K.shaped keeper.old ≡ by app.now.names.schema }
    ensures shows { IfOk result (λ o. (moment : ℕ) (tables : ToldRows)
        → IsToday moment valued.now.day → IsHeardOf (K.told keeper.new) tables
        → AreSeenItems (present app.now session.now tables moment) (value_of valued.now) gallery
        from o) }
    ensures ticks { IfOk result (λ o. steps.new ≤ steps.old + items_steps app.now.names gallery o) }
    ensures visits { IfOk result (λ o. (moment : ℕ) → IsToday moment valued.now.day
        → WhereTold (K.told keeper.new) (λ told.
        AtMost (GivenItemsVisit app.now session.now told moment (value_of valued.now) gallery from
        o) (K.visited keeper.old) (K.visited keeper.new))) }
    ensures read { HasRead K.Keeper keeper.old keeper.new }
    ensures cause { HasCause K.Keeper keeper.old keeper.new result }
{
    if is_seen_at(&app.names, session, valued, gallery) {
        let items = items_from(alloc, app, session, keeper, valued, gallery, from, steps)?;
        Ok(Some(items))
    } else {
        Ok(None)
    }
}

/// Whether this kind of control is a gallery.
pub(crate) fn is_gallery(kind: Control) -> bool
    ensures { result ≡ is_gallery_kind kind }
{
    kind == Control::Gallery
}

// Whether a control is the gallery of this name.
fn is_gallery_named(control: &ControlName, name: &Words) -> bool
    ensures { result ≡ is_named_gallery name.now control.now }
{
    is_gallery(control.kind) && control.name.is(name)
}

// The place of the gallery of a name.
fn place_named(names: &Names, name: &Words) -> Option<usize>
    ensures place { result ≡ named_gallery name.now names.now }
    ensures within { IfSome result (λ k. k < length names.now.controls) }
{
    names
        .controls
        .as_slice()
        .iter()
        .position(|control| is_gallery_named(control, name))
}

/// The number of the gallery of a name.
pub fn gallery_named(names: &Names, name: &Words) -> Option<u32>
    requires { length names.now.controls < 2 ^ 32 }
    ensures place { result ≡ named_gallery name.now names.now }
    ensures gallery { IfSome result (λ g. IsGalleryOf names.now g) }
{
    match place_named(names, name) {
        Some(place) => Some(place as u32),
        None => None,
    }
}
