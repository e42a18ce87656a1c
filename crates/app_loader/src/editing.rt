//! From an app and an edit to the edited app.
ghost use Rattle.std.specs.Prelude.{◌≡◌, Err, IfErr, IfOk, Ok};
ghost use Rattle.app_texts.specs.Frames.{app_frame};
ghost use Rattle.app_loader.specs.Edits.{IsLoaded, IsOneEdit, IsOneEdited, IsOneEditRefusal};
ghost use Rattle.app_loader.specs.Edits.{JudgedEdit, LoadedApp, LoadedValue};
ghost use Rattle.app_semantics.specs.Sound.{IsSoundApp};
ghost use Rattle.app_loader.specs.JudgedFormulas.{ReportsBreaks};
ghost use Rattle.fx_types.specs.Words.{scalars_of};
ghost use Rattle.session_state.specs.Changes.{HoldsTables};

use crate::judging::only;
use crate::loading::load_formulas;
use app_cells::App;
use app_texts::{edit_cells, read_is_sound};
use fx_base::OrMemory;
use fx_core::AppEnd;
use fx_infer::no_deeper;
use fx_types::Words;
use std::alloc::Global;

/// The app in which one formula is replaced by a text: the one at this address, as `Total`,
/// `App.OnStart`, `Home.OnVisible` or `Count.Text`, whether one is written there or not. An empty
/// text takes it away where it has no name of its own. What the app has beside its formulas stays.
/// An edit that breaks a rule is refused with the breaks of the first stage that has any: that no
/// formula can stand at the address, the length of the text, its tokens and trees, and then all
/// that is judged of the formulas of a file.
pub fn edit(alloc: Global, app: &App, address: &str, text: &str) -> Result<App, AppEnd>
    requires { IsLoaded app.now }
    ensures app { IfOk result (λ a. JudgedEdit app.now (scalars_of address.now)
        (scalars_of text.now) (Ok a)) }
    ensures sound { IfOk result IsSoundApp }
    ensures loaded { IfOk result IsLoaded }
    ensures frame { IfOk result (λ a. app_frame a ≡ app_frame app.now) }
    ensures tables { IfOk result (λ a. HoldsTables a.names) }
    ensures refused { IfErr result (ReportsBreaks
        (λ bs. JudgedEdit app.now (scalars_of address.now) (scalars_of text.now) (Err bs))) }
{
    no_deeper();
    let address = Words::of(alloc, address)?;
    let text = Words::of(alloc, text)?;
    match edit_cells(alloc, app, &address, &text) {
        Ok((frame, cells)) => load_formulas(alloc, frame, cells),
        Err(OrMemory::Refused(broken)) => Err(only(alloc, broken)),
        Err(OrMemory::Memory) => Err(AppEnd::Memory),
    }
}

/// A law, and no work: no edit is both accepted and refused.
pub fn one_edit()
    ensures { IsOneEdit }
{}

/// A law, and no work: an edited app is one.
pub fn one_edited()
    ensures { IsOneEdited }
{}

/// A law, and no work: of a refused edit the same breaks are told.
pub fn one_edit_refusal()
    ensures { IsOneEditRefusal }
{}

/// A law, and no work: an app file that is accepted is loaded, so that it can be edited.
pub fn loaded_app()
    ensures { LoadedApp }
{
    read_is_sound();
    no_deeper();
}

/// A law, and no work: JSON that is accepted is a loaded app, so that it can be edited.
pub fn loaded_value()
    ensures { LoadedValue }
{
    no_deeper();
}
