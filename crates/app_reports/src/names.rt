// What sources are called.
ghost use Rattle.std.specs.Prelude.{◌≡◌, ◌++◌, IfOk, encode_utf8_all, string_bytes};
ghost use Rattle.app_reports.specs.Graph as graph;

use app_cells::App;
use fx_base::Memory;
use fx_core::{Names, Source};
use std::alloc::Global;

/// What a source is called: a formula by its address, a variable of a screen by both names, what a
/// control's user gave and the chosen row of a gallery by the control's name behind a word, and all
/// else by its name.
pub(crate) fn source_name(alloc: Global, app: &App, source: Source) -> Result<String, Memory>
    ensures { IfOk result (λ s. string_bytes s ≡ graph.source_name app.now source) }
{
    let names = &app.names;
    match source {
        Source::Cell(cell) => own(alloc, address(app, cell)),
        Source::Global(variable) => own(alloc, variable_name(names, variable)),
        Source::Context(variable) => context_name(alloc, names, variable),
        Source::Gathered(collection) => own(alloc, collection_name(names, collection)),
        Source::Input(control) => behind(alloc, "input ", control_name(names, control)),
        Source::Chosen(gallery) => behind(alloc, "chosen ", control_name(names, gallery)),
        Source::Table(table) => own(alloc, table_name(names, table)),
        Source::Today => own(alloc, "Today()"),
    }
}

fn own(alloc: Global, text: &str) -> Result<String, Memory>
    ensures { IfOk result (λ s. string_bytes s ≡ text.now) }
{
    Ok(String::from_str(alloc, text)?)
}

// A name behind a word.
fn behind(alloc: Global, word: &str, name: &str) -> Result<String, Memory>
    ensures { IfOk result (λ s. string_bytes s ≡ word.now ++ name.now) }
{
    Ok(format!(in alloc; "{word}{name}")?)
}

fn address(app: &App, cell: u32) -> &str
    ensures { result.now ≡ encode_utf8_all (graph.cell_address app.now cell) }
{
    match app.cells.get(cell as usize) {
        Some(info) => info.cell.name.as_str(),
        None => "",
    }
}

fn variable_name(names: &Names, variable: u32) -> &str
    ensures { result.now ≡ encode_utf8_all (graph.variable_name names.now variable) }
{
    match names.variables.get(variable as usize) {
        Some(variable) => variable.name.as_str(),
        None => "",
    }
}

fn screen_name(names: &Names, screen: Option<u32>) -> &str
    ensures { result.now ≡ encode_utf8_all (graph.screen_label names.now screen) }
{
    match screen {
        Some(screen) => name_of_screen(names, screen),
        None => "",
    }
}

fn name_of_screen(names: &Names, screen: u32) -> &str
    ensures { result.now ≡ encode_utf8_all (graph.name_of_screen names.now screen) }
{
    match names.screens.get(screen as usize) {
        Some(name) => name.as_str(),
        None => "",
    }
}

// The name of a variable of a screen, behind that of its screen.
fn context_name(alloc: Global, names: &Names, variable: u32) -> Result<String, Memory>
    ensures { IfOk result (λ s. string_bytes s ≡ graph.context_name names.now variable) }
{
    match names.variables.get(variable as usize) {
        Some(variable) => {
            let screen = screen_name(names, variable.screen);
            let name = variable.name.as_str();
            Ok(format!(in alloc; "{screen}.{name}")?)
        }
        None => own(alloc, ""),
    }
}

fn collection_name(names: &Names, collection: u32) -> &str
    ensures { result.now ≡ encode_utf8_all (graph.collection_name names.now collection) }
{
    match names.collections.get(collection as usize) {
        Some(collection) => collection.name.as_str(),
        None => "",
    }
}

fn control_name(names: &Names, control: u32) -> &str
    ensures { result.now ≡ encode_utf8_all (graph.control_label names.now control) }
{
    match names.controls.get(control as usize) {
        Some(control) => control.name.as_str(),
        None => "",
    }
}

fn table_name(names: &Names, table: u16) -> &str
    ensures { result.now ≡ encode_utf8_all (graph.table_label names.now table) }
{
    match names.schema.tables.get(table as usize) {
        Some(table) => table.name.as_str(),
        None => "",
    }
}
