//! The sources that are written.
ghost use Rattle.std.specs.Prelude.{◌≡◌, ◌<◌, ◌++◌, IfSome, Option, length};
ghost use Rattle.std.specs.Option.{option_to_list};
ghost use Rattle.std.specs.Vec.{vec_capacity, vec_len};
ghost use Rattle.session_requests.specs.Worlds.{source_if_done as when_done, written_by as by_put};
ghost use Rattle.fx_deeds.specs.Changed.{written as sources_of};
ghost use Rattle.recalc.specs.app_cells.declared.app.App.{App as AnApp};
ghost use Rattle.recalc.specs.Kept.{source_index};
ghost use Rattle.session_requests.specs.Caching.{IsTouchedIf};

use crate::app_cells::App;
use fx_core::Source;
use recalc::Cache;
use row_keeper::Put;
use session_state::Change;

/// The source that a change of a session writes, if it writes one.
pub(crate) fn source_of(change: &Change) -> Option<Source>
    ensures { option_to_list result ≡ sources_of change.now }
{
    match change {
        Change::Global(number, _) => Some(Source::Global(*number)),
        Change::Context(number, _) => Some(Source::Context(*number)),
        Change::Gather(number, _) | Change::Empty(number) => Some(Source::Gathered(*number)),
        Change::Input(number, _) => Some(Source::Input(*number)),
        Change::Choose(number, _, _) => Some(Source::Chosen(*number)),
        Change::Screen(_) | Change::Notice(_) => None,
    }
}

/// The table, where a row of it was written.
pub(crate) fn written_by(put: Put, table: u16) -> Option<Source>
    ensures { option_to_list result ≡ by_put put table }
{
    match put {
        Put::Id(_) => Some(Source::Table(table)),
        Put::NoRow | Put::Refused(_) => None,
    }
}

/// The source, where it was written.
pub(crate) fn when(done: bool, source: Option<Source>) -> Option<Source>
    ensures { result ≡ when_done done source }
{
    if done { source } else { None }
}

/// Notes a source that was written, if one was, for which there is room, and tells the cache of it.
pub(crate) fn note(app: &App, wrote: &mut Vec<Source>, cache: &mut Cache, source: Option<Source>)
    requires room { vec_len wrote.old < vec_capacity wrote.old }
    requires place { IfSome source (λ s. source_index s < length cache.old.versions) }
    ensures wrote { wrote.new.items ≡ wrote.old.items ++ option_to_list source }
    ensures touched { (a : AnApp) → IsTouchedIf a source cache.old cache.new }
{
    if let Some(source) = source {
        match wrote.push(source) {
            Ok(()) => {}
            Err(_) => unreachable!(),
        }
        cache.touched(app, source);
    }
}
