//! Performing a behaviour formula of an app.
ghost use Rattle.std.specs.Prelude.{◌≡◌, IfOk, OnErr, drop, length, option_map, true};
ghost use Rattle.fx_types.specs.TypeView.{shape};
ghost use Rattle.fx_types.specs.ValueView.{view};
ghost use Rattle.fx_scalar.specs.ScalarFunctions.{IsToday};
ghost use Rattle.fx_semantics.specs.Sound.{IsItemFit};
ghost use Rattle.fx_typing.specs.Typing.{item_context};
ghost use Rattle.fx_value.specs.Fits.{fits_in};
ghost use Rattle.recalc.specs.app_semantics.Sound.{IsSoundApp};
ghost use Rattle.row_keeper.specs.Over.{Becomes, HasCause};
ghost use Rattle.session_requests.specs.Performing.{PerformsCell, IsActingCell, ChangesOnlyWritten};
ghost use Rattle.session_requests.specs.Transactions.{GoesOn, IsUnderWay};
ghost use Rattle.fx_behave.specs.Writable.{MayWrite};
ghost use Rattle.session_requests.specs.WrittenWhole.{FormulaWrites, IsInAll};
ghost use Rattle.session_requests.specs.Writable.{AllSources};

use crate::accepted::{Accepted, SoundApp};
use crate::acting_laws::one_source_value;
use crate::app_cells::{App, CellInfo};
use crate::session_world::SessionWorld;
use crate::start::Start;
use fx_behave::{act, cuts_go_on};
use fx_core::Source;
use fx_env::Steps;
use fx_eval::Scope;
use fx_scalar::today;
use fx_types::Value;
use recalc::{Cache, end_of};
use row_keeper::{Keeper, KeeperEnd};
use session_state::Session;
use std::alloc::Global;
use std::marker::{Brand, PhantomData};
use std::sync::ledger::Ledger;

/// Performs a behaviour formula of an app over a session and the tables of a keeper, at a moment in
/// seconds since 1970-01-01 UTC, and for an item where it sees one. `before` is the session as the
/// request found it, and `wrote` are the sources that were written since; the cache is told of each
/// at once. Where it gives no answer, a part of it may have been done.
pub fn perform<K: Keeper, L: Ledger>(
    alloc: Global,
    app: &App,
    before: &Session,
    session: &mut Session,
    cache: &mut Cache,
    keeper: &mut K,
    moment: u64,
    info: &CellInfo,
    item: Option<Value>,
    wrote: &mut Vec<Source>,
    steps: &mut Steps<L>,
) -> Result<Value, KeeperEnd>
    requires sound { IsSoundApp app.now }
    requires acting { IsActingCell app.now info.now }
    requires item { IsItemFit (option_map view item) (item_context app.now.names info.now.cell.item) }
    requires under_way { IsUnderWay K.Keeper app.now moment before.now session.old cache.old
        keeper.old wrote.old.items }
    ensures acted { IfOk result (λ v. Becomes K.Keeper keeper.old keeper.new
        (λ t u. PerformsCell app.now moment info.now (option_map view item) t session.old (view v) u
        session.new (drop (length wrote.old.items) wrote.new.items))) }
    ensures value { IfOk result (λ v. fits_in (view v) (shape info.now.ty) ≡ true) }
    ensures cut { OnErr result (Becomes K.Keeper keeper.old keeper.new
        (λ t u. AllSources (IsInAll (FormulaWrites app.now moment info.now (option_map view item) t
        session.old)) (drop (length wrote.old.items) wrote.new.items))) }
    ensures only { Becomes K.Keeper keeper.old keeper.new
        (λ t u. AllSources (MayWrite info.now.core) (drop (length wrote.old.items) wrote.new.items)) }
    ensures leaves { Becomes K.Keeper keeper.old keeper.new
        (λ t u. ChangesOnlyWritten app.now moment t session.old u session.new) }
    ensures under_way { IsUnderWay K.Keeper app.now moment before.now session.new cache.new
        keeper.new wrote.new.items }
    ensures goes_on { GoesOn K.Keeper app.now cache.old cache.new keeper.old keeper.new
        wrote.old.items wrote.new.items }
    ensures cause { HasCause K.Keeper keeper.old keeper.new result }
{
    let day = today(alloc, moment)?;
    let accepted = Accepted::new(app);
    let earlier = wrote.len();
    perform_over::<_, _, _, Brand>(
        alloc, &accepted, before, session, cache, keeper, moment, &day, info, item, wrote, earlier,
        steps,
    )
}

// The same on the day of the moment, where so many sources were written earlier. The world holds
// references alone, so that what it leaves of each is known.
fn perform_over<'a, A: SoundApp, K: Keeper, L: Ledger, S: Start>(
    alloc: Global,
    app: &'a A,
    before: &'a Session,
    session: &'a mut Session,
    cache: &'a mut Cache,
    keeper: &'a mut K,
    moment: u64,
    day: &'a Value,
    info: &CellInfo,
    item: Option<Value>,
    wrote: &'a mut Vec<Source>,
    earlier: usize,
    steps: &mut Steps<L>,
) -> Result<Value, KeeperEnd>
    requires day { IsToday moment (view day.now) }
    requires earlier { earlier ≡ length wrote.old.items }
    requires start { S.start ≡ cache.old }
    requires acting { IsActingCell (A.app app.now) info.now }
    requires item { IsItemFit (option_map view item)
        (item_context (A.app app.now).names info.now.cell.item) }
    requires under_way { IsUnderWay K.Keeper (A.app app.now) moment before.now session.old cache.old
        keeper.old wrote.old.items }
    ensures acted { IfOk result (λ v. Becomes K.Keeper keeper.old keeper.new
        (λ t u. PerformsCell (A.app app.now) moment info.now (option_map view item) t session.old
        (view v) u session.new (drop (length wrote.old.items) wrote.new.items))) }
    ensures value { IfOk result (λ v. fits_in (view v) (shape info.now.ty) ≡ true) }
    ensures cut { OnErr result (Becomes K.Keeper keeper.old keeper.new
        (λ t u. AllSources (IsInAll (FormulaWrites (A.app app.now) moment info.now
        (option_map view item) t session.old)) (drop (length wrote.old.items) wrote.new.items))) }
    ensures only { Becomes K.Keeper keeper.old keeper.new
        (λ t u. AllSources (MayWrite info.now.core) (drop (length wrote.old.items) wrote.new.items)) }
    ensures leaves { Becomes K.Keeper keeper.old keeper.new
        (λ t u. ChangesOnlyWritten (A.app app.now) moment t session.old u session.new) }
    ensures under_way { IsUnderWay K.Keeper (A.app app.now) moment before.now session.new cache.new
        keeper.new wrote.new.items }
    ensures goes_on { GoesOn K.Keeper (A.app app.now) cache.old cache.new keeper.old keeper.new
        wrote.old.items wrote.new.items }
    ensures cause { HasCause K.Keeper keeper.old keeper.new result }
{
    // Called for what they say: the app is sound, a source gives one value, and a whole performing
    // goes on from where one is cut off.
    app.is_sound();
    one_source_value();
    cuts_go_on::<SessionWorld<'_, A, K, S>>();
    let mut world: SessionWorld<'_, A, K, S> = SessionWorld {
        alloc,
        app,
        moment,
        day,
        before,
        session,
        cache,
        keeper,
        wrote,
        earlier,
        start: PhantomData,
    };
    let mut scope = Scope {
        rows: Vec::new(alloc),
        item,
        caught: None,
    };
    match act(alloc, &mut world, &mut scope, &info.core, steps) {
        Ok(value) => Ok(value),
        Err(stop) => Err(end_of(stop)),
    }
}
