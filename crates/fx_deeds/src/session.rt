//! Deeds on a session.
ghost use Rattle.std.specs.Prelude.{◌≡◌, ◌++◌, ◌∷◌, [], false, true, None, IfOk, IsErrOf, IsSome};
ghost use Rattle.std.specs.Prelude.{MatchResult, map, OnErr, take};
ghost use Rattle.fx_base.specs.Faults.{Rose};
ghost use Rattle.fx_types.specs.Types.{ColumnList, booleans, tables};
ghost use Rattle.fx_types.specs.Values.{boolean, fault};
ghost use Rattle.fx_types.specs.ValueView.{view};
ghost use Rattle.fx_semantics.specs.Rows.{table_of};
ghost use Rattle.fx_tables.specs.Unions.{is_fault};
ghost use Rattle.fx_core.specs.declared.sources.Source.TheVariants as source;
ghost use Rattle.fx_value.specs.Fits.{fits_in};
ghost use Rattle.session_state.specs.declared.change.Change.TheVariants as change;
ghost use Rattle.fx_deeds.specs.Collections.{GathersRows, rows_held as rows_held_by};
ghost use Rattle.fx_deeds.specs.CutOff.{UpTo};
ghost use Rattle.fx_deeds.specs.Deeds.{UpdatesContext, ChangeGives, Makes, OrError, OrErrorAmong};
ghost use Rattle.fx_deeds.specs.Deeds.{text_or_none};
ghost use Rattle.fx_deeds.specs.Fitting.{CollectionCanTake, SourceCanTake, CanTakeAll, IsOfColumns};
ghost use Rattle.fx_deeds.specs.Fitting.{IsOfScreen};
ghost use Rattle.fx_deeds.specs.RowValues.{rows_among};
ghost use Rattle.fx_deeds.specs.StagesOver.{Attempt, Look, StateBecomes};
ghost use Rattle.fx_deeds.specs.Writable.{IsOneOf};

use crate::answers::{error, first_error};
use crate::changes::{change, make};
use crate::tables::{with_table, with_tables};
use crate::world::World;
use fx_base::Memory;
use fx_core::Source;
use fx_env::{Steps, Stop};
use fx_types::{Fault, Kind, Rows, Value, Words};
use session_state::Change;
use std::alloc::Global;
use std::sync::ledger::Ledger;

/// Sets a variable without a screen.
pub fn set<W: World>(
    alloc: Global,
    world: &mut W,
    variable: u32,
    value: Value,
) -> Result<Value, Stop>
    requires { SourceCanTake (W.fixed world.old).types (source.Global variable) (view value) }
    ensures attempt { Attempt W.Env W.World.own world.old world.new
        (IsOneOf (source.Global variable ∷ [])) }
    ensures keeper { IsErrOf result Stop.Keeper
        → Rose (W.marks world.old).faults (W.marks world.new).faults }
    ensures done { IfOk result (λ x. StateBecomes W.Env W.World.own world.old world.new
        (λ s t. ChangeGives (change.Global variable) (view value) (boolean true) s (view x) t)) }
    ensures cut { OnErr result (StateBecomes W.Env W.World.own world.old world.new
        (UpTo (λ s n x t. ChangeGives (change.Global variable) (view value) (boolean true) s x t))) }
    ensures fits { IfOk result (λ x. fits_in (view x) booleans ≡ true) }
{
    make(
        alloc,
        world,
        Change::Global(variable, value),
        Value::Boolean(true),
    )
}

/// Sets variables of a screen from left to right, up to the first that is refused.
pub fn set_all<W: World>(
    alloc: Global,
    world: &mut W,
    variables: &[Source],
    values: &[Value],
) -> Result<Value, Stop>
    requires { CanTakeAll (W.fixed world.old).types variables.now (map view values.now) }
    ensures attempt { Attempt W.Env W.World.own world.old world.new (IsOneOf variables.now) }
    ensures keeper { IsErrOf result Stop.Keeper
        → Rose (W.marks world.old).faults (W.marks world.new).faults }
    ensures done { IfOk result (λ x. StateBecomes W.Env W.World.own world.old world.new
        (λ s t. UpdatesContext variables.now (map view values.now) s (view x) t)) }
    ensures cut { OnErr result (StateBecomes W.Env W.World.own world.old world.new
        (UpTo (λ s n x t. UpdatesContext (take n variables.now) (take n (map view values.now)) s x
        t))) }
    ensures fits { IfOk result (λ x. fits_in (view x) booleans ≡ true) }
{
    let mut names = variables;
    let mut rest = values;
    while let Some((value, others)) = rest.split_first() {
        let (number, more) = first_variable(names);
        if !change(world, Change::Context(number, value.copy(alloc)?))? {
            return Ok(error(alloc, Kind::QuotaExceeded)?);
        }
        names = more;
        rest = others;
    }
    Ok(Value::Boolean(true))
}

/// The rows of a collection.
pub(crate) fn rows_held<W: World, L: Ledger>(
    alloc: Global,
    world: &mut W,
    collection: u32,
    steps: &mut Steps<L>,
) -> Result<Rows, Stop>
    requires { IsSome ((W.fixed world.old).types (source.Gathered collection)) }
    ensures look { Look W.Env W.World.own world.old world.new }
    ensures keeper { IsErrOf result Stop.Keeper
        → Rose (W.marks world.old).faults (W.marks world.new).faults }
    ensures held { IfOk result (λ rows. StateBecomes W.Env W.World.own world.old world.new
        (λ s t. (t ≡ s) × (rows ≡ rows_held_by collection s))) }
    ensures fits { IfOk result (λ rows. (cs : ColumnList)
        → IsOfColumns (W.fixed world.old).types collection cs
        → fits_in (table_of rows) (tables cs) ≡ true) }
{
    let value = world.read(Source::Gathered(collection), steps)?;
    Ok(with_table(alloc, Rows::new(alloc), &value)?)
}

/// Adds rows to a collection, unless there is an error among them.
pub fn collect<W: World, L: Ledger>(
    alloc: Global,
    world: &mut W,
    collection: u32,
    values: &[Value],
    steps: &mut Steps<L>,
) -> Result<Value, Stop>
    requires { CollectionCanTake (W.fixed world.old).types collection (map view values.now) }
    ensures attempt { Attempt W.Env W.World.own world.old world.new
        (IsOneOf (source.Gathered collection ∷ [])) }
    ensures keeper { IsErrOf result Stop.Keeper
        → Rose (W.marks world.old).faults (W.marks world.new).faults }
    ensures done { IfOk result (λ x. StateBecomes W.Env W.World.own world.old world.new
        (λ s t. OrErrorAmong (map view values.now)
        (GathersRows collection (rows_held_by collection s ++ rows_among (map view values.now))
        (boolean true) s (view x) t) s (view x) t)) }
    ensures cut { OnErr result (StateBecomes W.Env W.World.own world.old world.new
        (UpTo (λ s n x t. OrErrorAmong (map view values.now)
        (GathersRows collection (rows_held_by collection s ++ rows_among (map view values.now))
        (boolean true) s x t) s x t))) }
    ensures fits { IfOk result (λ x. fits_in (view x) booleans ≡ true) }
{
    if let Some(error) = first_error(alloc, values)? {
        return Ok(error);
    }
    let rows = rows_held(alloc, world, collection, steps)?;
    let rows = with_tables(alloc, rows, values)?;
    make(
        alloc,
        world,
        Change::Gather(collection, Value::Tab(rows)),
        Value::Boolean(true),
    )
}

/// Makes rows the only ones of a collection, unless there is an error among them.
pub fn clear_collect<W: World>(
    alloc: Global,
    world: &mut W,
    collection: u32,
    values: &[Value],
) -> Result<Value, Stop>
    requires { CollectionCanTake (W.fixed world.old).types collection (map view values.now) }
    ensures attempt { Attempt W.Env W.World.own world.old world.new
        (IsOneOf (source.Gathered collection ∷ [])) }
    ensures keeper { IsErrOf result Stop.Keeper
        → Rose (W.marks world.old).faults (W.marks world.new).faults }
    ensures done { IfOk result (λ x. StateBecomes W.Env W.World.own world.old world.new
        (λ s t. OrErrorAmong (map view values.now)
        (GathersRows collection (rows_among (map view values.now)) (boolean true) s (view x) t) s
        (view x) t)) }
    ensures cut { OnErr result (StateBecomes W.Env W.World.own world.old world.new
        (UpTo (λ s n x t. OrErrorAmong (map view values.now)
        (GathersRows collection (rows_among (map view values.now)) (boolean true) s x t) s x t))) }
    ensures fits { IfOk result (λ x. fits_in (view x) booleans ≡ true) }
{
    if let Some(error) = first_error(alloc, values)? {
        return Ok(error);
    }
    let rows = with_tables(alloc, Rows::new(alloc), values)?;
    make(
        alloc,
        world,
        Change::Gather(collection, Value::Tab(rows)),
        Value::Boolean(true),
    )
}

/// Empties a collection.
pub fn clear<W: World>(alloc: Global, world: &mut W, collection: u32) -> Result<Value, Stop>
    requires { (cs : ColumnList) × IsOfColumns (W.fixed world.old).types collection cs }
    ensures attempt { Attempt W.Env W.World.own world.old world.new
        (IsOneOf (source.Gathered collection ∷ [])) }
    ensures keeper { IsErrOf result Stop.Keeper
        → Rose (W.marks world.old).faults (W.marks world.new).faults }
    ensures done { IfOk result (λ x. StateBecomes W.Env W.World.own world.old world.new
        (λ s t. Makes (change.Empty collection) (boolean true) s (view x) t)) }
    ensures cut { OnErr result (StateBecomes W.Env W.World.own world.old world.new
        (UpTo (λ s n x t. Makes (change.Empty collection) (boolean true) s x t))) }
    ensures fits { IfOk result (λ x. fits_in (view x) booleans ≡ true) }
{
    make(
        alloc,
        world,
        Change::Empty(collection),
        Value::Boolean(true),
    )
}

/// Makes a screen the current one. The app has it; a world that was asked since may have forgotten
/// that, so it is tested.
pub fn navigate<W: World>(alloc: Global, world: &mut W, screen: u32) -> Result<Value, Stop>
    ensures attempt { Attempt W.Env W.World.own world.old world.new (IsOneOf []) }
    ensures keeper { IsErrOf result Stop.Keeper
        → Rose (W.marks world.old).faults (W.marks world.new).faults }
    ensures done { IfOk result (λ x. StateBecomes W.Env W.World.own world.old world.new
        (λ s t. Makes (change.Screen screen) (boolean true) s (view x) t)) }
    ensures cut { OnErr result (StateBecomes W.Env W.World.own world.old world.new
        (UpTo (λ s n x t. Makes (change.Screen screen) (boolean true) s x t))) }
    ensures fits { IfOk result (λ x. fits_in (view x) booleans ≡ true) }
{
    if screen as usize >= world.names().screens.len() {
        return Err(Stop::Memory);
    }
    make(alloc, world, Change::Screen(screen), Value::Boolean(true))
}

/// Tells the user a text, which a blank one has none of, unless it is an error.
pub fn notify<W: World>(alloc: Global, world: &mut W, text: Value) -> Result<Value, Stop>
    ensures attempt { Attempt W.Env W.World.own world.old world.new (IsOneOf []) }
    ensures keeper { IsErrOf result Stop.Keeper
        → Rose (W.marks world.old).faults (W.marks world.new).faults }
    ensures done { IfOk result (λ x. StateBecomes W.Env W.World.own world.old world.new
        (λ s t. OrError (view text) (Makes (change.Notice (text_or_none (view text))) (boolean true)
        s (view x) t) s (view x) t)) }
    ensures cut { OnErr result (StateBecomes W.Env W.World.own world.old world.new
        (UpTo (λ s n x t. OrError (view text)
        (Makes (change.Notice (text_or_none (view text))) (boolean true) s x t) s x t))) }
    ensures fits { IfOk result (λ x. fits_in (view x) booleans ≡ true) }
{
    match words_of(alloc, text)? {
        Ok(words) => tell(alloc, world, words),
        Err(fault) => Ok(Value::Fault(fault)),
    }
}

// The words of a text, of which a blank one has none, or the error in its place.
fn words_of(alloc: Global, text: Value) -> Result<Result<Words, Fault>, Memory>
    ensures { IfOk result (λ r. MatchResult r
        (λ w. (w ≡ text_or_none (view text)) × (is_fault (view text) ≡ false))
        (λ f. view text ≡ fault f.kind f.message)) }
{
    match text {
        Value::Text(words) => Ok(Ok(words)),
        Value::Fault(fault) => Ok(Err(fault)),
        _ => Ok(Ok(Words::of(alloc, "")?)),
    }
}

// Tells the user these words.
fn tell<W: World>(alloc: Global, world: &mut W, words: Words) -> Result<Value, Stop>
    ensures attempt { Attempt W.Env W.World.own world.old world.new (IsOneOf []) }
    ensures keeper { IsErrOf result Stop.Keeper
        → Rose (W.marks world.old).faults (W.marks world.new).faults }
    ensures done { IfOk result (λ x. StateBecomes W.Env W.World.own world.old world.new
        (λ s t. Makes (change.Notice words) (boolean true) s (view x) t)) }
    ensures cut { OnErr result (StateBecomes W.Env W.World.own world.old world.new
        (UpTo (λ s n x t. Makes (change.Notice words) (boolean true) s x t))) }
    ensures fits { IfOk result (λ x. fits_in (view x) booleans ≡ true) }
{
    make(alloc, world, Change::Notice(words), Value::Boolean(true))
}

/// Takes the user's input of a control away.
pub fn reset<W: World>(alloc: Global, world: &mut W, control: u32) -> Result<Value, Stop>
    requires { IsSome ((W.fixed world.old).types (source.Input control)) }
    ensures attempt { Attempt W.Env W.World.own world.old world.new
        (IsOneOf (source.Input control ∷ [])) }
    ensures keeper { IsErrOf result Stop.Keeper
        → Rose (W.marks world.old).faults (W.marks world.new).faults }
    ensures done { IfOk result (λ x. StateBecomes W.Env W.World.own world.old world.new
        (λ s t. Makes (change.Input control None) (boolean true) s (view x) t)) }
    ensures cut { OnErr result (StateBecomes W.Env W.World.own world.old world.new
        (UpTo (λ s n x t. Makes (change.Input control None) (boolean true) s x t))) }
    ensures fits { IfOk result (λ x. fits_in (view x) booleans ≡ true) }
{
    make(
        alloc,
        world,
        Change::Input(control, None),
        Value::Boolean(true),
    )
}

// The number of the first variable of a screen, and the other variables.
fn first_variable(variables: &[Source]) -> (u32, &[Source])
    requires { IsOfScreen variables.now }
    ensures { variables.now ≡ source.Context result.0 ∷ result.1.now }
{
    match variables.split_first() {
        Some((Source::Context(number), others)) => (*number, others),
        _ => unreachable!(),
    }
}
