//! The caches of sessions: each session has one, under its name.
ghost use Rattle.std.specs.Prelude.{◌≡◌, ◌<◌, ℕ, IfOk, OnErr, length, slice_get, Some};
ghost use Rattle.std.specs.Prelude.{vec_capacity};
ghost use Rattle.std.specs.List.{AllByRecursion};
ghost use Rattle.app_loader.specs.app_semantics.Sound.{IsSoundApp};
ghost use Rattle.fx_types.specs.ValueView.{view};
ghost use Rattle.fx_scalar.specs.ScalarFunctions.{IsToday};
ghost use Rattle.fx_core.specs.declared.sources.Source.TheVariants.{Today};
ghost use Rattle.recalc.specs.Carrying.{AreOldCells, IsBegunAnew, IsCarried, IsEditOf};
ghost use Rattle.recalc.specs.Kept.{IsInOrder, CacheState, source_index};
ghost use Rattle.numbered_requests.specs.declared.directory.Named.{Named as Under};
ghost use Rattle.session_requests.specs.Caching.{AreSources};
ghost use Rattle.office.specs.Caches.{EachCacheBecame, AreInOrder, CacheTouched, HaveRoomFor};
ghost use Rattle.office.specs.Caches.{IsButRoom, IsNew, IsToldAside, IsTurned};
ghost use Rattle.office.specs.Caches.{is_other_place as is_other_of, is_table as is_table_of};
ghost use Rattle.office.specs.Caches.{tables_in};

use app_cells::App;
use fx_base::Memory;
use fx_core::Source;
use fx_scalar::today;
use fx_types::Value;
use numbered_requests::Named;
use recalc::Cache;
use std::alloc::Global;

/// How many seconds a day has.
pub(crate) const DAY: u64 = 86_400;

/// A cache for a session of an app, on the day of a moment. Nothing is kept in it.
pub(crate) fn new_cache(alloc: Global, app: &App, moment: u64) -> Result<Cache, Memory>
    ensures { IfOk result (IsNew app.now moment) }
{
    let day = today(alloc, moment)?;
    Cache::new(alloc, app, day)
}

/// Makes room in each cache for what will be kept of an edited app, as far as there is memory. What
/// is kept stays.
pub(crate) fn make_rooms(caches: &mut Vec<Named<Cache>>, app: &App) -> Result<(), Memory>
    ensures rooms { EachCacheBecame (λ k. IsButRoom) caches.old.items caches.new.items }
    ensures made { IfOk result (λ _. HaveRoomFor app.now caches.new.items) }
{
    for at in 0..caches.len() {
        caches[at].it.make_room(app)?;
    }
    Ok(())
}

/// Each cache goes over to an edited app, in the room that was made. `cells` are the cells that the
/// edit left. It takes no memory.
pub(crate) fn carry_all(
    caches: &mut Vec<Named<Cache>>,
    old: &App,
    new: &App,
    cells: &[Option<usize>],
)
    requires was_sound { IsSoundApp old.now }
    requires sound { IsSoundApp new.now }
    requires edit { IsEditOf old.now new.now }
    requires cells { AreOldCells old.now new.now cells.now }
    requires order { AreInOrder old.now caches.old.items }
    requires rooms { HaveRoomFor new.now caches.old.items }
    ensures { EachCacheBecame (λ k. IsCarried old.now new.now) caches.old.items caches.new.items }
{
    for at in 0..caches.len() {
        caches[at].it.carry(old, new, cells);
    }
}

/// Each cache begins anew for an app that replaces the old one, in the room that was made. It takes
/// no memory.
pub(crate) fn begin_all_anew(caches: &mut Vec<Named<Cache>>, app: &App)
    requires { HaveRoomFor app.now caches.old.items }
    ensures { EachCacheBecame (λ k. IsBegunAnew app.now) caches.old.items caches.new.items }
{
    for at in 0..caches.len() {
        caches[at].it.begin_anew(app);
    }
}

/// So many times the day of a moment.
fn days_of(alloc: Global, moment: u64, count: usize) -> Result<Vec<Value>, Memory>
    ensures count { IfOk result (λ v. length v.items ≡ count) }
    ensures days { IfOk result (λ v. AllByRecursion (λ d. IsToday moment (view d)) v.items) }
{
    let mut days = Vec::new(alloc);
    for _ in 0..count {
        days.push(today(alloc, moment)?)?;
    }
    Ok(days)
}

/// Says to all caches that another day begins, which is that of a moment; or there is no memory,
/// and all is as before.
pub(crate) fn turn_all(
    alloc: Global,
    caches: &mut Vec<Named<Cache>>,
    moment: u64,
) -> Result<(), Memory>
    requires { (k : ℕ) (c : Under CacheState) → slice_get caches.old.items k ≡ Some c
        → source_index Today < length c.it.versions }
    ensures turned { IfOk result (λ _. EachCacheBecame (λ k. IsTurned moment) caches.old.items
        caches.new.items) }
    ensures stopped { OnErr result (caches.new.items ≡ caches.old.items) }
{
    let mut days = days_of(alloc, moment, caches.len())?;
    for at in 0..caches.len() {
        match days.pop() {
            Some(day) => caches[at].it.turn(day),
            None => unreachable!(),
        }
    }
    Ok(())
}

/// Whether a source is a table.
fn is_table(source: Source) -> bool
    ensures { result ≡ is_table_of source }
{
    matches!(source, Source::Table(_))
}

/// Says to a cache which tables were written, of what was.
fn touch(app: &App, cache: &mut Cache, wrote: &[Source])
    requires order { IsInOrder app.now cache.old }
    requires sources { AreSources app.now.names wrote.now }
    ensures { CacheTouched app.now (tables_in wrote.now) cache.old cache.new }
{
    for source in wrote {
        if is_table(*source) {
            cache.touched(app, *source);
        }
    }
}

/// Whether a place isn't this one.
fn is_other(place: Option<usize>, at: usize) -> bool
    ensures { result ≡ is_other_of place at }
{
    match place {
        Some(place) => place != at,
        None => true,
    }
}

/// Says to all caches but the one at a place which tables were written: that of the session that
/// wrote them knows.
pub(crate) fn touch_others(
    app: &App,
    caches: &mut Vec<Named<Cache>>,
    place: Option<usize>,
    wrote: &[Source],
)
    requires order { (k : ℕ) (c : Under CacheState) → slice_get caches.old.items k ≡ Some c
        → IsInOrder app.now c.it }
    requires sources { AreSources app.now.names wrote.now }
    ensures told { EachCacheBecame (IsToldAside app.now place (tables_in wrote.now))
        caches.old.items caches.new.items }
    ensures capacity { vec_capacity caches.new ≡ vec_capacity caches.old }
{
    for at in 0..caches.len() {
        if is_other(place, at) {
            touch(app, &mut caches[at].it, wrote);
        }
    }
}
