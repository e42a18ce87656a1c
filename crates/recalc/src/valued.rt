//! The values of an app's formulas.
ghost use Rattle.std.specs.Prelude.{◌≡◌, ◌≢◌, ◌+◌, ◌<◌, ◌≤◌, ℕ, false, true, IfOk, IsErrOf, OnOk};
ghost use Rattle.std.specs.Prelude.{Option, Some, if◌then◌else◌, length, map, replicate, slice_get};
ghost use Rattle.std.specs.List.{count_by};
ghost use Rattle.app_semantics.specs.app_cells.declared.app.CellInfo.{CellInfo as Info};
ghost use Rattle.app_semantics.specs.Fresh.{IsCellValue, IsFresh, IsValueOf};
ghost use Rattle.app_semantics.specs.Holding.{HoldsFitting};
ghost use Rattle.app_semantics.specs.Needed.{is_alone, stands_alone as is_by_itself};
ghost use Rattle.app_semantics.specs.Present.{present};
ghost use Rattle.app_semantics.specs.Sound.{IsSoundApp};
ghost use Rattle.fx_types.specs.ValueView.{view};
ghost use Rattle.fx_scalar.specs.ScalarFunctions.{IsToday};
ghost use Rattle.fx_types.specs.Values.{blank};
ghost use Rattle.recalc.specs.Asking.{CanAsk, IsHeardOf, ReadsNone, ToldRows};
ghost use Rattle.recalc.specs.AskingOver.{HasRead};
ghost use Rattle.recalc.specs.Reading.{cell_value};
ghost use Rattle.row_keeper.specs.Over.{HasCause};
ghost use Rattle.row_keeper.specs.declared.keeper.KeeperEnd.TheVariants.{Failed};
ghost use Rattle.row_keeper.specs.Shaped.{by};
ghost use Rattle.recalc.specs.Values.{CellsFit, value_of};

use crate::app_cells::{App, CellInfo};
use crate::evaluating::formula_value;
use crate::session_sources;
use fx_base::Memory;
use fx_core::Names;
use fx_env::Steps;
use fx_scalar::today;
use fx_types::values::Value;
use row_keeper::{Keeper, KeeperEnd};
use session_state::Session;
use std::alloc::Global;
use std::marker::Model;
use std::mem;
use std::sync::ledger::Ledger;

/// The value of each cell of an app, by its number, and the day. Of a formula that acts, or that
/// sees an item, it is blank.
#[derive(Drop)]
pub struct Valued {
    values: Vec<Value>,
    day: Value,
}

impl Model for Valued {
    ghost use Rattle.std.specs.Prelude.{map};
    ghost use Rattle.std.specs.Coded.{codes};
    ghost use Rattle.fx_types.specs.ValueCode.{data_code};
    ghost use Rattle.fx_types.specs.ValueView.{view as value_view};
    ghost use Rattle.recalc.specs.Values.{CellValues};

    ghost Value = { CellValues };

    ghost coded = { Prim.hlevel (codes, data_code) };

    ghost view = { λ v. record { cells = map value_view v.values.items; day = value_view v.day } };
}

impl Valued {
    ghost use Rattle.std.specs.Prelude.{◌≡◌, ◌+◌, ◌<◌, ℕ, false, true, IfOk, IsErrOf, None, Some};
    ghost use Rattle.std.specs.Prelude.{length, map, replicate, slice_get, slice_set};
    ghost use Rattle.app_semantics.specs.Fresh.{IsCellValue, IsValueOf};
    ghost use Rattle.app_semantics.specs.Holding.{HoldsFitting};
    ghost use Rattle.app_semantics.specs.Needed.{stands_alone as is_by_itself};
    ghost use Rattle.app_semantics.specs.Present.{input_of, items_of, present};
    ghost use Rattle.app_semantics.specs.Sound.{IsSoundApp};
    ghost use Rattle.fx_types.specs.TypeView.{shape};
    ghost use Rattle.fx_types.specs.ValueView.{view};
    ghost use Rattle.fx_types.specs.Values.{blank};
    ghost use Rattle.fx_scalar.specs.ScalarFunctions.{IsToday};
    ghost use Rattle.fx_semantics.specs.Sound.{IsItemFit};
    ghost use Rattle.fx_core.specs.declared.sources.Source.TheVariants as source;
    ghost use Rattle.fx_typing.specs.Typing.{item_context};
    ghost use Rattle.fx_value.specs.Fits.{fits_in};
    ghost use Rattle.recalc.specs.Asking.{CanAsk, IsHeardOf, ReadsNone, ToldRows};
    ghost use Rattle.recalc.specs.AskingOver.{HasRead};
    ghost use Rattle.recalc.specs.Values.{CellsFit, value_of};
    ghost use Rattle.fx_eval.specs.Visits.{AtMost};
    ghost use Rattle.recalc.specs.Visits.{FormulaVisits, WhereTold};
    ghost use Rattle.row_keeper.specs.Over.{HasCause};
    ghost use Rattle.row_keeper.specs.declared.keeper.KeeperEnd.TheVariants.{Failed};
    ghost use Rattle.session_state.specs.Sessions.{Holds};

    /// Blank values of so many cells, on this day.
    pub fn blank(alloc: Global, count: usize, day: Value) -> Result<Valued, Memory>
        ensures cells { IfOk result (λ v. v.cells ≡ replicate count blank) }
        ensures day { IfOk result (λ v. v.day ≡ view day) }
    {
        let values = blanks(alloc, count)?;
        Ok(Valued { values, day })
    }

    /// Gives a cell a value.
    pub fn put(&mut self, cell: u32, value: Value)
        requires { cell < length self.old.cells }
        ensures { self.new ≡ record self.old { cells = slice_set self.old.cells cell (view value) } }
    {
        self.values[cell as usize] = value;
    }

    /// Takes the value of a cell out, and leaves a blank one.
    pub fn take(&mut self, cell: u32) -> Value
        requires { cell < length self.old.cells }
        ensures value { view result ≡ value_of self.old cell }
        ensures left { self.new ≡ record self.old { cells = slice_set self.old.cells cell blank } }
    {
        mem::replace(&mut self.values[cell as usize], Value::Blank)
    }

    /// The values come out, without the day, and these stand in their place.
    pub(crate) fn exchange(&mut self, values: Vec<Value>) -> Valued
        ensures out { result ≡ record { cells = self.old.cells; day = blank } }
        ensures new { self.new ≡ record self.old { cells = map view values.items } }
    {
        Valued {
            values: mem::replace(&mut self.values, values),
            day: Value::Blank,
        }
    }

    /// Another day begins.
    pub fn set_day(&mut self, day: Value)
        ensures { self.new ≡ record self.old { day = view day } }
    {
        self.day = day;
    }

    /// The value of each cell, by its number.
    pub fn as_slice(&self) -> &[Value]
        ensures { map view result.now ≡ self.now.cells }
    {
        self.values.as_slice()
    }

    /// The value of a cell, and blank for one that isn't there.
    pub fn value(&self, alloc: Global, cell: u32) -> Result<Value, Memory>
        ensures { IfOk result (λ v. view v ≡ value_of self.now cell) }
    {
        session_sources::value_of(alloc, self.values.as_slice(), cell)
    }

    /// The value of an input: the user's, else that of the formula of its default, else that of its
    /// kind.
    pub fn input(
        &self,
        alloc: Global,
        names: &Names,
        session: &Session,
        control: u32,
    ) -> Result<Value, Memory>
        requires { Holds session.now (source.Input control) }
        ensures { IfOk result (λ v. view v ≡ input_of names.now session.now (value_of self.now)
            control) }
    {
        session_sources::input(alloc, names, session, self.values.as_slice(), control)
    }

    /// The items of a gallery.
    pub fn items(&self, alloc: Global, names: &Names, gallery: u32) -> Result<Value, Memory>
        ensures { IfOk result (λ v. view v ≡ items_of names.now (value_of self.now) gallery) }
    {
        session_sources::items(alloc, names, self.values.as_slice(), gallery)
    }

    /// The value of a formula that has one by itself, over those of the cells on which it leans, in
    /// one step. `Failed` only where the keeper counted a fault.
    pub fn by_itself<K: Keeper, L: Ledger>(
        &self,
        alloc: Global,
        app: &App,
        session: &Session,
        keeper: &mut K,
        info: &CellInfo,
        steps: &mut Steps<L>,
    ) -> Result<Value, KeeperEnd>
        requires sound { IsSoundApp app.now }
        requires holds { HoldsFitting app.now.names session.now }
        requires fits { CellsFit app.now (value_of self.now) }
        requires day { (moment : ℕ) × IsToday moment self.now.day }
        requires cell { (k : ℕ) × (slice_get app.now.cells k ≡ Some info.now) }
        requires alone { is_by_itself info.now ≡ true }
        requires asks { CanAsk app.now (K.shaped keeper.old) }
        ensures value { IfOk result (λ v. (moment : ℕ) (tables : ToldRows)
            → IsToday moment self.now.day → IsHeardOf (K.told keeper.new) tables →
            IsCellValue (present app.now session.now tables moment) (value_of self.now) info.now
            (view v)) }
        ensures fits { IfOk result (λ v. fits_in (view v) (shape info.now.ty) ≡ true) }
        ensures steps { IfOk result (λ v. steps.new ≡ steps.old + 1) }
        ensures visits { IfOk result (λ _. (moment : ℕ) → IsToday moment self.now.day
            → WhereTold (K.told keeper.new) (λ rows.
            AtMost (FormulaVisits app.now session.now rows moment (value_of self.now) None info.now)
            (K.visited keeper.old) (K.visited keeper.new))) }
        ensures read { HasRead K.Keeper keeper.old keeper.new }
        ensures cause { HasCause K.Keeper keeper.old keeper.new result }
        ensures alone { ReadsNone app.now → keeper.new ≡ keeper.old }
        ensures reached { IsErrOf result Failed → ReadsNone app.now → ⊥ }
    {
        let values = self.values.as_slice();
        let day = &self.day;
        formula_value(alloc, app, session, keeper, values, day, info, None, steps)
    }

    /// The value of a formula of a template for an item of its gallery, in one step. `Failed` only
    /// where the keeper counted a fault.
    pub fn in_item<K: Keeper, L: Ledger>(
        &self,
        alloc: Global,
        app: &App,
        session: &Session,
        keeper: &mut K,
        info: &CellInfo,
        item: Value,
        steps: &mut Steps<L>,
    ) -> Result<Value, KeeperEnd>
        requires sound { IsSoundApp app.now }
        requires holds { HoldsFitting app.now.names session.now }
        requires fits { CellsFit app.now (value_of self.now) }
        requires day { (moment : ℕ) × IsToday moment self.now.day }
        requires cell { (k : ℕ) × (slice_get app.now.cells k ≡ Some info.now) }
        requires quiet { info.now.cell.acts ≡ false }
        requires item { IsItemFit (Some (view item)) (item_context app.now.names info.now.cell.item) }
        requires shaped { K.shaped keeper.old ≡ by app.now.names.schema }
        ensures value { IfOk result (λ v. (moment : ℕ) (tables : ToldRows)
            → IsToday moment self.now.day → IsHeardOf (K.told keeper.new) tables →
            IsValueOf (present app.now session.now tables moment) (value_of self.now)
            (Some (view item)) info.now (view v)) }
        ensures fits { IfOk result (λ v. fits_in (view v) (shape info.now.ty) ≡ true) }
        ensures steps { IfOk result (λ v. steps.new ≡ steps.old + 1) }
        ensures visits { IfOk result (λ _. (moment : ℕ) → IsToday moment self.now.day
            → WhereTold (K.told keeper.new) (λ rows.
            AtMost (FormulaVisits app.now session.now rows moment (value_of self.now)
            (Some (view item)) info.now) (K.visited keeper.old) (K.visited keeper.new))) }
        ensures read { HasRead K.Keeper keeper.old keeper.new }
        ensures cause { HasCause K.Keeper keeper.old keeper.new result }
    {
        let values = self.values.as_slice();
        formula_value(
            alloc,
            app,
            session,
            keeper,
            values,
            &self.day,
            info,
            Some(item),
            steps,
        )
    }
}

/// The fresh values of an app's formulas over a session and the rows of a keeper, at a moment in
/// seconds since 1970-01-01 UTC. Each formula that has a value by itself is evaluated once. Where
/// none reads a table, the keeper is left alone. `Failed` only where it counted a fault.
#[tactic(auto, using(crate::proofs::Asked::read_none, crate::proofs::Asked::read_on))]
pub fn evaluate<K: Keeper, L: Ledger>(
    alloc: Global,
    app: &App,
    session: &Session,
    keeper: &mut K,
    moment: u64,
    steps: &mut Steps<L>,
) -> Result<Valued, KeeperEnd>
    requires sound { IsSoundApp app.now }
    requires holds { HoldsFitting app.now.names session.now }
    requires asks { CanAsk app.now (K.shaped keeper.old) }
    ensures fresh { IfOk result (λ v. (tables : ToldRows) → IsHeardOf (K.told keeper.new) tables
        → IsFresh (present app.now session.now tables moment) (value_of v)) }
    ensures long { IfOk result (λ v. length v.cells ≡ length app.now.cells) }
    ensures fits { IfOk result (λ v. CellsFit app.now (value_of v)) }
    ensures day { IfOk result (λ v. IsToday moment v.day) }
    ensures steps { IfOk result (λ v. steps.new
        ≡ steps.old + count_by (is_alone app.now.cells) app.now.order) }
    ensures read { HasRead K.Keeper keeper.old keeper.new }
    ensures cause { HasCause K.Keeper keeper.old keeper.new result }
    ensures alone { ReadsNone app.now → keeper.new ≡ keeper.old }
    ensures reached { IsErrOf result Failed → ReadsNone app.now → ⊥ }
{
    let day = today(alloc, moment)?;
    let values = keep_values(alloc, app, session, keeper, &day, steps)?;
    Ok(Valued { values, day })
}

// The values of all cells on a day, one after another.
#[tactic(auto, using(crate::proofs::Asked::read_none, crate::proofs::Asked::read_on))]
fn keep_values<K: Keeper, L: Ledger>(
    alloc: Global,
    app: &App,
    session: &Session,
    keeper: &mut K,
    day: &Value,
    steps: &mut Steps<L>,
) -> Result<Vec<Value>, KeeperEnd>
    requires sound { IsSoundApp app.now }
    requires holds { HoldsFitting app.now.names session.now }
    requires day { (moment : ℕ) × IsToday moment (view day.now) }
    requires asks { CanAsk app.now (K.shaped keeper.old) }
    ensures fresh { IfOk result (λ v. (moment : ℕ) (tables : ToldRows)
        → IsToday moment (view day.now) → IsHeardOf (K.told keeper.new) tables →
        IsFresh (present app.now session.now tables moment) (cell_value (map view v.items))) }
    ensures long { IfOk result (λ v. length v.items ≡ length app.now.cells) }
    ensures fits { IfOk result (λ v. CellsFit app.now (cell_value (map view v.items))) }
    ensures steps { IfOk result (λ v. steps.new
        ≡ steps.old + count_by (is_alone app.now.cells) app.now.order) }
    ensures read { HasRead K.Keeper keeper.old keeper.new }
    ensures cause { HasCause K.Keeper keeper.old keeper.new result }
    ensures alone { ReadsNone app.now → keeper.new ≡ keeper.old }
    ensures reached { IsErrOf result Failed → ReadsNone app.now → ⊥ }
{
    let mut values = blanks(alloc, app.cells.len())?;
    let order = app.order.as_slice();
    for number in order {
        keep_value(
            alloc,
            app,
            session,
            keeper,
            &mut values,
            day,
            *number,
            steps,
        )?;
    }
    Ok(values)
}

/// So many blanks.
pub(crate) fn blanks(alloc: Global, count: usize) -> Result<Vec<Value>, Memory>
    ensures { IfOk result (λ v. map view v.items ≡ replicate count blank) }
{
    let mut all = Vec::with_capacity(alloc, count)?;
    for _ in 0..count {
        all.push(Value::Blank)?;
    }
    Ok(all)
}

/// The first of these values, so many, all made blank.
pub(crate) fn blank_first(mut values: Vec<Value>, count: usize) -> Vec<Value>
    requires { count ≤ length values.items }
    ensures long { length result.items ≡ count }
    ensures blank { (k : ℕ) → cell_value (map view result.items) k ≡ blank }
{
    values.truncate(count);
    make_blank(&mut values);
    values
}

// Makes all values blank.
fn make_blank(values: &mut [Value])
    ensures long { length values.new ≡ length values.old }
    ensures blank { (k : ℕ) → cell_value (map view values.new) k ≡ blank }
{
    for value in values.iter_mut() {
        *value = Value::Blank;
    }
}

/// Whether a formula has a value by itself.
pub fn stands_alone(info: &CellInfo) -> bool
    ensures { result ≡ is_by_itself info.now }
{
    !info.cell.acts && info.cell.item.is_none()
}

// Keeps the value of a cell whose value is still blank, where the cells on which it leans have
// theirs.
#[tactic(auto, using(crate::proofs::Asked::read_none, crate::proofs::Asked::read_on))]
fn keep_value<K: Keeper, L: Ledger>(
    alloc: Global,
    app: &App,
    session: &Session,
    keeper: &mut K,
    values: &mut Vec<Value>,
    day: &Value,
    number: u32,
    steps: &mut Steps<L>,
) -> Result<(), KeeperEnd>
    requires sound { IsSoundApp app.now }
    requires holds { HoldsFitting app.now.names session.now }
    requires day { (moment : ℕ) × IsToday moment (view day.now) }
    requires number { number < length app.now.cells }
    requires long { length values.old.items ≡ length app.now.cells }
    requires fits { CellsFit app.now (cell_value (map view values.old.items)) }
    requires blank { cell_value (map view values.old.items) number ≡ blank }
    requires asks { CanAsk app.now (K.shaped keeper.old) }
    ensures long { OnOk result (length values.new.items ≡ length app.now.cells) }
    ensures fits { OnOk result (CellsFit app.now (cell_value (map view values.new.items))) }
    ensures others { OnOk result ((k : ℕ) → k ≢ number
        → cell_value (map view values.new.items) k ≡ cell_value (map view values.old.items) k) }
    ensures value { OnOk result ((moment : ℕ) (tables : ToldRows) (c : Info)
        → IsToday moment (view day.now) → IsHeardOf (K.told keeper.new) tables
        → slice_get app.now.cells number ≡ Some c →
        IsCellValue (present app.now session.now tables moment)
        (cell_value (map view values.old.items)) c (cell_value (map view values.new.items) number)) }
    ensures steps { OnOk result (steps.new ≡ steps.old
        + (if is_alone app.now.cells number then 1 else 0)) }
    ensures read { HasRead K.Keeper keeper.old keeper.new }
    ensures cause { HasCause K.Keeper keeper.old keeper.new result }
    ensures alone { ReadsNone app.now → keeper.new ≡ keeper.old }
    ensures reached { IsErrOf result Failed → ReadsNone app.now → ⊥ }
{
    match app.cells.get(number as usize) {
        Some(info) => keep_formula(
            alloc, app, session, keeper, values, day, number, info, steps,
        ),
        None => unreachable!(),
    }
}

// The same, of the formula of this number.
#[tactic(auto, using(crate::proofs::Asked::read_none, crate::proofs::Asked::read_on))]
fn keep_formula<K: Keeper, L: Ledger>(
    alloc: Global,
    app: &App,
    session: &Session,
    keeper: &mut K,
    values: &mut Vec<Value>,
    day: &Value,
    number: u32,
    info: &CellInfo,
    steps: &mut Steps<L>,
) -> Result<(), KeeperEnd>
    requires sound { IsSoundApp app.now }
    requires holds { HoldsFitting app.now.names session.now }
    requires day { (moment : ℕ) × IsToday moment (view day.now) }
    requires there { slice_get app.now.cells number ≡ Some info.now }
    requires number { number < length values.old.items }
    requires long { length values.old.items ≡ length app.now.cells }
    requires fits { CellsFit app.now (cell_value (map view values.old.items)) }
    requires blank { cell_value (map view values.old.items) number ≡ blank }
    requires asks { CanAsk app.now (K.shaped keeper.old) }
    ensures long { OnOk result (length values.new.items ≡ length app.now.cells) }
    ensures fits { OnOk result (CellsFit app.now (cell_value (map view values.new.items))) }
    ensures others { OnOk result ((k : ℕ) → k ≢ number
        → cell_value (map view values.new.items) k ≡ cell_value (map view values.old.items) k) }
    ensures value { OnOk result ((moment : ℕ) (tables : ToldRows) → IsToday moment (view day.now)
        → IsHeardOf (K.told keeper.new) tables →
        IsCellValue (present app.now session.now tables moment)
        (cell_value (map view values.old.items)) info.now
        (cell_value (map view values.new.items) number)) }
    ensures steps { OnOk result (steps.new ≡ steps.old + (if is_by_itself info.now then 1 else 0)) }
    ensures read { HasRead K.Keeper keeper.old keeper.new }
    ensures cause { HasCause K.Keeper keeper.old keeper.new result }
    ensures alone { ReadsNone app.now → keeper.new ≡ keeper.old }
    ensures reached { IsErrOf result Failed → ReadsNone app.now → ⊥ }
{
    if !stands_alone(info) {
        return Ok(());
    }
    let slice = values.as_slice();
    let value = formula_value(alloc, app, session, keeper, slice, day, info, None, steps)?;
    values[number as usize] = value;
    Ok(())
}
