//! Query expressions, answered by queries.
ghost use Rattle.std.specs.Prelude.{◌≡◌, ◌≤◌, false, length, map, IfOk, IsErrOf, MatchOption, Some};
ghost use Rattle.std.specs.List.{list_any};
ghost use Rattle.fx_base.specs.Faults.{Rose};
ghost use Rattle.fx_base.specs.Silence.{MayFallSilent, IsLater, SilenceCause};
ghost use Rattle.fx_base.specs.Telling.{Stays};
ghost use Rattle.fx_types.specs.ValueView.{view};
ghost use Rattle.fx_eval.specs.Demands.{CanMeet, CanAddUp, IsAnswered, IsAskedFor, IsMet};
ghost use Rattle.fx_eval.specs.Demands.{most_rows_taken, settled_in};
ghost use Rattle.fx_eval.specs.Visits.{AtMost, InRanges, IsUnasked, asked_tables};
ghost use Rattle.fx_env.specs.Telling.{EnvState, tables_told};
ghost use Rattle.fx_plan.specs.Plans.{CanPlan, IsPlan, is_fault};
ghost use Rattle.row_queries.specs.Queries.{IsQuery};
ghost use Rattle.row_queries.specs.RowTests.{HasNoFaults};
ghost use Rattle.row_queries.specs.Visits.{VisitsTold};

use crate::demands::{Asked, Demand, asked_under, count_value, first_in, fold_value, settle};
use crate::scope::Scope;
use fx_base::Memory;
use fx_core::Core;
use fx_env::environment::{Env, Stop};
use fx_plan::plan;
use fx_types::Value;
use row_queries::Query;
use std::alloc::Global;

/// What a tree takes of a query expression where it stands, if the environment's tables are asked.
pub fn asked_here<E: Env>(
    alloc: Global,
    env: &E,
    scope: &Scope,
    core: &Core,
) -> Result<Option<Asked>, Memory>
    ensures { IfOk result (λ asked. MatchOption asked
        (IsUnasked (E.fixed env.now).schema.tables (length scope.now.rows) core.now)
        (λ a. IsAskedFor (E.fixed env.now) (E.told env.now) scope.now core.now a.demand a.sketch)) }
{
    match env.tables() {
        Some(schema) => match u32::try_from(scope.rows.len()) {
            Ok(depth) => asked_under(alloc, schema, env.limit(), core, depth),
            Err(_) => Err(Memory),
        },
        None => Ok(None),
    }
}

/// The tree where it stands, with these values in the places of the constants of its query
/// expression.
pub(crate) fn settled_here(
    alloc: Global,
    scope: &Scope,
    core: &Core,
    demand: Demand,
    constants: &[Value],
) -> Result<Core, Memory>
    ensures { IfOk result (λ t. t ≡ settled_in demand (length scope.now.rows)
        (map view constants.now) core.now) }
{
    match u32::try_from(scope.rows.len()) {
        Ok(depth) => settle(alloc, demand, core, depth, constants),
        Err(_) => Err(Memory),
    }
}

/// What is taken of a query expression with these constants, of which none is an error.
pub fn answer<E: Env>(
    alloc: Global,
    env: &mut E,
    asked: &Asked,
    constants: &[Value],
) -> Result<Value, Stop>
    requires plan { CanPlan (E.fixed env.old).schema.tables asked.now.sketch
        (map view constants.now) }
    requires take { CanAddUp (E.fixed env.old).schema.tables asked.now.demand asked.now.sketch }
    requires faultless { list_any is_fault (map view constants.now) ≡ false }
    ensures fixed { E.fixed env.new ≡ E.fixed env.old }
    ensures told { MayFallSilent (SilenceCause (E.marks env.old) (E.marks env.new)) Stays
        (E.told env.old) (E.told env.new) }
    ensures value { IfOk result (λ v. IsAnswered (E.fixed env.old).schema.tables
        (tables_told (E.told env.new)) asked.now.demand asked.now.sketch (map view constants.now)
        (view v)) }
    ensures marks { IsLater (E.marks env.old) (E.marks env.new) }
    ensures keeper { IsErrOf result Stop.Keeper
        → Rose (E.marks env.old).faults (E.marks env.new).faults }
    ensures ticked { E.ticked env.new ≡ E.ticked env.old }
    ensures visited { E.visited env.old ≤ E.visited env.new }
    ensures visits { IfOk result (λ _. (w : EnvState E.Beside) → E.told env.new ≡ Some w →
        AtMost (InRanges (asked_tables (E.fixed env.old) w) asked.now.sketch
        (map view constants.now)) (E.visited env.old) (E.visited env.new)) }
{
    let query = plan_query(alloc, env, asked, constants)?;
    by_query(alloc, env, asked.demand, &query)
}

// The query that answers it.
fn plan_query<E: Env>(
    alloc: Global,
    env: &E,
    asked: &Asked,
    constants: &[Value],
) -> Result<Query, Memory>
    requires plan { CanPlan (E.fixed env.now).schema.tables asked.now.sketch
        (map view constants.now) }
    ensures plan { IfOk result (λ q. IsPlan (E.fixed env.now).schema.tables asked.now.sketch
        (map view constants.now) (most_rows_taken asked.now.demand) q) }
    ensures query { IfOk result (λ q. IsQuery (E.fixed env.now).schema.tables q) }
{
    let most = asked.demand.most();
    plan(alloc, env.schema(), &asked.sketch, constants, most)
}

// What a query without errors as constants answers where this is taken.
fn by_query<E: Env>(
    alloc: Global,
    env: &mut E,
    demand: Demand,
    query: &Query,
) -> Result<Value, Stop>
    requires query { IsQuery (E.fixed env.old).schema.tables query.now }
    requires sound { HasNoFaults query.now.test }
    requires take { CanMeet (E.fixed env.old).schema.tables demand query.now }
    ensures fixed { E.fixed env.new ≡ E.fixed env.old }
    ensures told { MayFallSilent (SilenceCause (E.marks env.old) (E.marks env.new)) Stays
        (E.told env.old) (E.told env.new) }
    ensures value { IfOk result (λ v. IsMet (E.fixed env.old).schema.tables
        (tables_told (E.told env.new)) demand query.now (view v)) }
    ensures marks { IsLater (E.marks env.old) (E.marks env.new) }
    ensures keeper { IsErrOf result Stop.Keeper
        → Rose (E.marks env.old).faults (E.marks env.new).faults }
    ensures ticked { E.ticked env.new ≡ E.ticked env.old }
    ensures visited { E.visited env.old ≤ E.visited env.new }
    ensures most { VisitsTold (tables_told (E.told env.new)) query.now (E.visited env.old)
        (E.visited env.new) }
{
    match demand {
        Demand::Rows | Demand::FirstRows(_) => env.scan(query),
        Demand::Count => {
            let count = env.count(query)?;
            Ok(count_value(count))
        }
        Demand::First | Demand::Found | Demand::FoundIn => {
            let rows = env.scan(query)?;
            Ok(first_in(rows))
        }
        Demand::Total(fold, column) => {
            let totals = env.total(query, column)?;
            Ok(fold_value(alloc, fold, &totals)?)
        }
    }
}
