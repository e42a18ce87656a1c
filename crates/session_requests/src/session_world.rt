//! What the behaviour formulas of an app act on: a session of it, and the tables of a keeper.
ghost use Rattle.std.specs.Prelude.{◌≡◌, ◌≤◌, Some, drop, length, option_map, take, true};
ghost use Rattle.std.proofs.Common.{ap, refl};
ghost use Rattle.std.proofs.Math.Bool.{Bool-set};
ghost use Rattle.fx_types.specs.ValueView.{view};
ghost use Rattle.fx_deeds.specs.State.{WorldState};
ghost use Rattle.fx_scalar.specs.ScalarFunctions.{IsToday};
ghost use Rattle.fx_core.specs.Lawful.{IsLawfulSchema};
ghost use Rattle.recalc.specs.Schemas.{schema_prop, shaped_prop};
ghost use Rattle.recalc.specs.Changes.{StaysCleanExcept};
ghost use Rattle.recalc.specs.Kept.{IsInOrder};
ghost use Rattle.recalc.specs.Outcomes.{IsRightOver};
ghost use Rattle.row_requests.specs.Sound.{AreSound};
ghost use Rattle.session_state.specs.Changes.{FitsNames};
ghost use Rattle.session_requests.specs.WorldIdentity.{anchor};
ghost use Rattle.session_requests.specs.Caching.{SameSessionExcept, AreSources};
ghost use Rattle.session_requests.specs.Propositions.{cache_prop, left_prop, names_prop};
ghost use Rattle.session_requests.specs.Propositions.{sessions_prop, sound_prop, sources_prop};
ghost use Rattle.session_requests.specs.WorldContext.{WorldContext, source_gives, grounds};
ghost use Rattle.session_requests.specs.WorldLaws.{collections_told, rows_are, state_told};
ghost use Rattle.session_requests.specs.Worlds.{fixed_in, told_in};
ghost use Rattle.row_keeper.specs.Shaped.{by};

use crate::accepted::SoundApp;
use crate::refresh_inputs::refresh_behind;
use crate::start::Start;
use crate::writing::{note, source_of, when, written_by};
use fx_base::Memory;
use fx_core::{Core, Names, Schema, Source};
use fx_deeds::World;
use fx_env::{Env, Steps, Stop};
use fx_types::{Totals, Value};
use recalc::{Cache, given_value, stop_of, table_value};
use row_keeper::scan_values::scan;
use row_keeper::{Keeper, Put};
use row_queries::{Cells, Query, rows_fit};
use session_state::{Change, Session};
use std::alloc::Global;
use std::marker::PhantomData;
use std::sync::ledger::Ledger;

/// An app at a moment and on its day, a session of it whose values fit, with its cache, and a
/// keeper that is shaped by its schema and in a transaction. The cache is right at each moment, and
/// the session is as the request found it but for what was written.
#[derive(Drop)]
pub(crate) struct SessionWorld<'a, A: SoundApp, K: Keeper, S: Start> {
    pub(crate) alloc: Global,
    pub(crate) app: &'a A,
    pub(crate) moment: u64,
    pub(crate) day: &'a Value,
    /// The session as the request found it.
    pub(crate) before: &'a Session,
    pub(crate) session: &'a mut Session,
    pub(crate) cache: &'a mut Cache,
    pub(crate) keeper: &'a mut K,
    /// The sources that were written, one after another.
    pub(crate) wrote: &'a mut Vec<Source>,
    /// How many of them were written earlier.
    pub(crate) earlier: usize,
    pub(crate) start: PhantomData<S>,
    ghost today: { ∥ IsToday moment (view day.now) ∥₁ },
    ghost lawful: { IsLawfulSchema (A.app app.now).names.schema } by { schema_prop (A.app app.now).names.schema },
    ghost shaped: { K.shaped keeper.now ≡ by (A.app app.now).names.schema } by { shaped_prop (K.shaped keeper.now) (by (A.app app.now).names.schema) },
    ghost begun: { K.in_transaction keeper.now ≡ true } by { Bool-set (K.in_transaction keeper.now) true },
    ghost sound: { AreSound (A.app app.now).names.schema (K.told keeper.now) } by { sound_prop (A.app app.now).names.schema (K.told keeper.now) },
    ghost fits: { FitsNames (A.app app.now).names session.now } by { names_prop (A.app app.now).names session.now },
    ghost order: { IsInOrder (A.app app.now) cache.now } by { cache_prop (A.app app.now) cache.now },
    ghost right: { ∥ IsRightOver (A.app app.now) session.now (K.told keeper.now) moment cache.now ∥₁ },
    ghost dated: { ∥ IsToday moment cache.now.values.day ∥₁ },
    ghost listed: { AreSources (A.app app.now).names wrote.now.items } by { sources_prop (A.app app.now).names wrote.now.items },
    ghost but: { SameSessionExcept (A.app app.now).names wrote.now.items before.now session.now } by { sessions_prop (A.app app.now).names wrote.now.items before.now session.now },
    ghost counted: { earlier ≤ length wrote.now.items },
    ghost left: { StaysCleanExcept (A.app app.now) wrote.now.items S.start cache.now } by { left_prop (A.app app.now) wrote.now.items S.start cache.now },
}

impl<A: SoundApp, K: Keeper, S: Start> Env for SessionWorld<'_, A, K, S> {
    ghost Beside = { WorldState WorldContext };

    ghost fixed = { λ w. fixed_in (anchor (A.app w.app.now) w.moment w.before.now
        (take w.earlier w.wrote.now.items)) w.session.ghost_name w.cache.ghost_name
        w.keeper.ghost_name w.wrote.ghost_name (K.loan w.keeper.now) (K.in_transaction w.keeper.now) };

    ghost told = { λ w. option_map (told_in (view w.day.now)
        (grounds (A.app w.app.now) w.moment (K.began w.keeper.now)) w.session.now
        w.cache.now.values.cells (drop w.earlier w.wrote.now.items)) (K.told w.keeper.now) };

    ghost marks = { λ w. K.marks w.keeper.now };

    ghost ticked = { λ w. 0 };

    ghost visited = { λ w. K.visited w.keeper.now };

    fn read<L: Ledger>(&mut self, source: Source, _steps: &mut Steps<L>) -> Result<Value, Stop> {
        // Called for what they say: rows that fit a table are a value of its type, and the app is
        // sound.
        rows_fit();
        self.app.is_sound();
        let app = self.app.get();
        match source {
            Source::Table(table) => {
                match table_value(self.alloc, self.keeper, &app.names.schema, table) {
                    Ok(value) => Ok(value),
                    Err(end) => Err(stop_of(end)),
                }
            }
            _ => Ok(given_value(
                self.alloc,
                &app.names,
                self.session,
                self.cache.values().as_slice(),
                self.day,
                source,
            )?),
        }
    }

    fn schema(&self) -> &Schema {
        &self.app.get().names.schema
    }

    fn limit(&self) -> u32 {
        self.app.get().limit
    }

    fn tables(&self) -> Option<&Schema> {
        Some(&self.app.get().names.schema)
    }

    fn scan(&mut self, query: &Query) -> Result<Value, Stop> {
        match scan(self.alloc, self.keeper, &self.app.get().names.schema, query) {
            Ok(value) => Ok(value),
            Err(end) => Err(stop_of(end)),
        }
    }

    fn count(&mut self, query: &Query) -> Result<u32, Stop> {
        match self.keeper.count(query) {
            Ok(number) => Ok(number),
            Err(end) => Err(stop_of(end)),
        }
    }

    fn total(&mut self, query: &Query, column: u16) -> Result<Totals, Stop> {
        match self.keeper.total(query, column) {
            Ok(totals) => Ok(totals),
            Err(end) => Err(stop_of(end)),
        }
    }
}

impl<A: SoundApp, K: Keeper, S: Start> World for SessionWorld<'_, A, K, S> {
    ghost App = { WorldContext };

    ghost gives = { source_gives };

    ghost names = { λ w. (A.app w.app.now).names };

    ghost state = { λ w. state_told (option_map
        (told_in (view w.day.now) (grounds (A.app w.app.now) w.moment (K.began w.keeper.now))
        w.session.now w.cache.now.values.cells (drop w.earlier w.wrote.now.items))
        (K.told w.keeper.now)) };

    fn names(&self) -> &Names {
        &self.app.get().names
    }

    fn ready<L: Ledger>(&mut self, core: &Core, steps: &mut Steps<L>) -> Result<(), Stop> {
        // Called for what it says: the app is sound.
        self.app.is_sound();
        let app = self.app.get();
        match refresh_behind(
            self.alloc,
            app,
            self.session,
            self.cache,
            self.keeper,
            self.moment,
            core,
            steps,
        ) {
            Ok(()) => Ok(()),
            Err(end) => Err(stop_of(end)),
        }
    }

    fn change(&mut self, change: Change) -> Result<bool, Stop> {
        // Called for what it says: the app is sound.
        self.app.is_sound();
        let source = source_of(&change);
        self.wrote.reserve(1)?;
        match self.session.change(change) {
            Ok(done) => {
                note(self.app.get(), self.wrote, self.cache, when(done, source));
                Ok(done)
            }
            Err(Memory) => Err(Stop::Memory),
        }
    }

    fn insert(&mut self, table: u16, cells: &Cells) -> Result<Put, Stop> {
        // Called for what it says: the app is sound.
        self.app.is_sound();
        self.wrote.reserve(1)?;
        match self.keeper.insert(table, cells) {
            Ok(put) => {
                note(
                    self.app.get(),
                    self.wrote,
                    self.cache,
                    written_by(put, table),
                );
                Ok(put)
            }
            Err(end) => Err(stop_of(end)),
        }
    }

    fn replace(&mut self, table: u16, id: u32, cells: &Cells) -> Result<Put, Stop> {
        // Called for what it says: the app is sound.
        self.app.is_sound();
        self.wrote.reserve(1)?;
        match self.keeper.replace(table, id, cells) {
            Ok(put) => {
                note(
                    self.app.get(),
                    self.wrote,
                    self.cache,
                    written_by(put, table),
                );
                Ok(put)
            }
            Err(end) => Err(stop_of(end)),
        }
    }

    fn remove(&mut self, table: u16, id: u32) -> Result<bool, Stop> {
        // Called for what it says: the app is sound.
        self.app.is_sound();
        self.wrote.reserve(1)?;
        match self.keeper.remove(table, id) {
            Ok(was) => {
                note(
                    self.app.get(),
                    self.wrote,
                    self.cache,
                    when(was, Some(Source::Table(table))),
                );
                Ok(was)
            }
            Err(end) => Err(stop_of(end)),
        }
    }

    ghost keeps = { λ a b e. ap state_told e };

    ghost lost = { λ w e. ap state_told e };

    ghost collections = { λ w s e p q k. collections_told (view w.day.now)
        (grounds (A.app w.app.now) w.moment (K.began w.keeper.now)) w.session.now
        w.cache.now.values.cells (drop w.earlier w.wrote.now.items) (K.told w.keeper.now) s e p q k };

    ghost rows = { λ w s e p q. rows_are (view w.day.now)
        (grounds (A.app w.app.now) w.moment (K.began w.keeper.now)) w.session.now
        w.cache.now.values.cells (drop w.earlier w.wrote.now.items) (K.told w.keeper.now) s e p q };

    ghost typed = { λ w x. refl };

    ghost shaped = { λ w. refl };

    ghost lawful = { λ w. w.lawful };
}
