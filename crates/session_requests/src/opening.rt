//! Sessions are opened, each in one transaction.
ghost use Rattle.std.specs.Prelude.{◌≡◌, [], IfOk, OnErr, Some, false, true};
ghost use Rattle.fx_base.specs.Silence.{SilenceCause};
ghost use Rattle.fx_base.specs.Telling.{Stays};
ghost use Rattle.recalc.specs.app_semantics.Sound.{IsSoundApp};
ghost use Rattle.row_keeper.specs.Over.{Becomes, HasCause};
ghost use Rattle.row_keeper.specs.Shaped.{by};
ghost use Rattle.row_requests.specs.Sound.{AreSound};
ghost use Rattle.row_requests.specs.Written.{SameTablesExcept};
ghost use Rattle.session_state.specs.Sessions.{opened};
ghost use Rattle.session_requests.specs.Caching.{AreSources, IsCached};
ghost use Rattle.session_requests.specs.Opening.{CanOpen, OpensNew, OpensNewWriting};
ghost use Rattle.session_requests.specs.Transactions.{CanGoBack, GoesOn};

use crate::app_cells::App;
use crate::running::open;
use fx_core::Source;
use recalc::{Cache, Steps};
use row_keeper::{Keeper, KeeperEnd};
use row_requests::settle;
use session_state::Session;
use std::alloc::Global;
use std::sync::ledger::Ledger;

/// Opens a session in a transaction that is begun.
fn prepare_session<K: Keeper, L: Ledger>(
    alloc: Global,
    app: &App,
    cache: &mut Cache,
    keeper: &mut K,
    moment: u64,
    wrote: &mut Vec<Source>,
    steps: &mut Steps<L>,
) -> Result<Session, KeeperEnd>
    requires sound { IsSoundApp app.now }
    requires opens { CanOpen app.now.names }
    requires shaped { K.shaped keeper.old ≡ by app.now.names.schema }
    requires rows { AreSound app.now.names.schema (K.told keeper.old) }
    requires begun { K.in_transaction keeper.old ≡ true }
    requires cached { IsCached app.now (opened app.now.names) (K.told keeper.old) moment cache.old }
    requires began { K.began keeper.old ≡ K.told keeper.old }
    requires wrote { wrote.old.items ≡ [] }
    ensures wrote { IfOk result (λ s. OpensNewWriting
        (SilenceCause (K.marks keeper.old) (K.marks keeper.new)) app.now moment (K.told keeper.old)
        (K.told keeper.new) s wrote.new.items) }
    ensures cached { IfOk result (λ s. IsCached app.now s (K.told keeper.new) moment cache.new) }
    ensures undoable { CanGoBack K.Keeper app.now moment (opened app.now.names) cache.new keeper.new
        wrote.new.items }
    ensures goes_on { GoesOn K.Keeper app.now cache.old cache.new keeper.old keeper.new
        wrote.old.items wrote.new.items }
    ensures cause { HasCause K.Keeper keeper.old keeper.new result }
{
    let before = Session::new(alloc, &app.names)?;
    let mut session = Session::new(alloc, &app.names)?;
    open(
        alloc,
        app,
        &before,
        &mut session,
        cache,
        keeper,
        moment,
        wrote,
        steps,
    )?;
    session.take_notices();
    // No request was accepted yet, whatever the keeper tells.
    session.keep(0, Vec::new(alloc), Vec::new(alloc));
    Ok(session)
}

/// Opens a session, in one transaction: `App.OnStart` acts, and then the `OnVisible` of the screen
/// that is then current, once. Its cache stands for a session at first, and then for what it has
/// become. `wrote` is told the sources that were written. All memory is taken before the
/// transaction ends. What stops leaves the tables.
pub fn open_session<K: Keeper, L: Ledger>(
    alloc: Global,
    app: &App,
    cache: &mut Cache,
    keeper: &mut K,
    moment: u64,
    wrote: &mut Vec<Source>,
    steps: &mut Steps<L>,
) -> Result<Session, KeeperEnd>
    requires sound { IsSoundApp app.now }
    requires opens { CanOpen app.now.names }
    requires shaped { K.shaped keeper.old ≡ by app.now.names.schema }
    requires rows { AreSound app.now.names.schema (K.told keeper.old) }
    requires idle { K.in_transaction keeper.old ≡ false }
    requires cached { IsCached app.now (opened app.now.names) (K.told keeper.old) moment cache.old }
    requires wrote { wrote.old.items ≡ [] }
    ensures opens { IfOk result (λ s. OpensNew
        (SilenceCause (K.marks keeper.old) (K.marks keeper.new)) app.now moment (K.told keeper.old)
        (K.told keeper.new) s) }
    ensures wrote { IfOk result (λ s. OpensNewWriting
        (SilenceCause (K.marks keeper.old) (K.marks keeper.new)) app.now moment (K.told keeper.old)
        (K.told keeper.new) s wrote.new.items) }
    ensures stopped { OnErr result (Becomes K.Keeper keeper.old keeper.new Stays) }
    ensures rows { AreSound app.now.names.schema (K.told keeper.new) }
    ensures shaped { K.shaped keeper.new ≡ by app.now.names.schema }
    ensures idle { K.in_transaction keeper.new ≡ false }
    ensures cached { IfOk result (λ s. IsCached app.now s (K.told keeper.new) moment cache.new) }
    ensures tables { Becomes K.Keeper keeper.old keeper.new (SameTablesExcept wrote.new.items) }
    ensures sources { AreSources app.now.names wrote.new.items }
    ensures cause { HasCause K.Keeper keeper.old keeper.new result }
    ensures loan { K.loan keeper.new ≡ K.loan keeper.old }
{
    match keeper.begin() {
        Ok(()) => {}
        Err(end) => return Err(end),
    }
    match prepare_session(alloc, app, cache, keeper, moment, wrote, steps) {
        Ok(session) => match settle(keeper, true) {
            Ok(()) => Ok(session),
            Err(end) => Err(end),
        },
        Err(end) => {
            keeper.back();
            Err(end)
        }
    }
}
