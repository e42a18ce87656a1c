//! From the bytes of an app to the app.
ghost use Rattle.std.specs.Prelude.{◌≡◌, ◌<◌, ◌≤◌, ◌∷◌, [], All, Err, IfErr, IfOk, Ok, length};
ghost use Rattle.app_cells.specs.Spots.{IsFrame, IsPlaced};
ghost use Rattle.app_loader.specs.Judged.{HasSingles, Judged, JudgedApp, JudgedFile};
ghost use Rattle.app_loader.specs.Judged.{JudgedFormulas, JudgedText, JudgedValue};
ghost use Rattle.app_loader.specs.Judged.{most_source_bytes};
ghost use Rattle.serde_json.specs.View.{view};
ghost use Rattle.app_names.specs.NameRules as rules;
ghost use Rattle.app_semantics.specs.Sound.{IsSoundApp};
ghost use Rattle.app_loader.specs.Accepted.{HaveOneTemplate};
ghost use Rattle.app_texts.specs.Files as files;
ghost use Rattle.app_loader.specs.Cells.{AreShallow};
ghost use Rattle.app_loader.specs.JudgedFormulas.{ReportsBreaks};
ghost use Rattle.fx_types.specs.Words.{scalars_of};
ghost use Rattle.session_state.specs.Changes.{HoldsTables};

use crate::judging::{app_of, only};
use crate::laws::{accepted_holds_tables, accepted_is_sound};
use app_cells::{App, Cell, Frame};
use app_file::AppFile;
use app_names::{broken, name_breaks, names_of};
use app_texts::{read_is_sound, read_named, read_texts};
use fx_base::{Memory, OrMemory};
use fx_core::{AppEnd, Broken, Rule};
use fx_infer::no_deeper;
use fx_types::Words;
use serde_json::Value as Json;
use std::alloc::Global;

/// The most bytes of a text of named formulas.
const LONGEST: usize = 262_144;

/// The app of an app file. A file that breaks a rule is refused with the breaks of the first stage
/// that has any: its form and its own limits, the texts of its formulas, its names, the rounds of
/// its types, its formulas, and circles among them.
pub fn load(alloc: Global, bytes: &[u8]) -> Result<App, AppEnd>
    ensures app { IfOk result (λ a. JudgedApp bytes.now (Ok a)) }
    ensures sound { IfOk result IsSoundApp }
    ensures opens { IfOk result (λ a. 0 < length a.names.screens) }
    ensures tables { IfOk result (λ a. HoldsTables a.names) }
    ensures refused { IfErr result (ReportsBreaks (λ bs. JudgedApp bytes.now (Err bs))) }
{
    // The law is called for what it says of what is read of a file.
    read_is_sound();
    match app_file::read(alloc, bytes) {
        Ok(file) => load_file(alloc, file),
        Err(OrMemory::Refused(broken)) => {
            let broken = broken.into_broken(alloc)?;
            Err(only(alloc, broken))
        }
        Err(OrMemory::Memory) => Err(AppEnd::Memory),
    }
}

/// The app that JSON holds. What breaks a rule is refused as that of an app file is, but for the
/// length of a file, and that it is JSON.
pub fn load_value(alloc: Global, value: &Json) -> Result<App, AppEnd>
    ensures app { IfOk result (λ a. JudgedValue (view value.now) (Ok a)) }
    ensures sound { IfOk result IsSoundApp }
    ensures opens { IfOk result (λ a. 0 < length a.names.screens) }
    ensures tables { IfOk result (λ a. HoldsTables a.names) }
    ensures refused { IfErr result (ReportsBreaks (λ bs. JudgedValue (view value.now) (Err bs))) }
{
    match app_file::read_value(alloc, value) {
        Ok(file) => load_file(alloc, file),
        Err(OrMemory::Refused(broken)) => {
            let broken = broken.into_broken(alloc)?;
            Err(only(alloc, broken))
        }
        Err(OrMemory::Memory) => Err(AppEnd::Memory),
    }
}

// The app of what an app file holds.
fn load_file(alloc: Global, file: AppFile) -> Result<App, AppEnd>
    requires sound { files.IsSoundFile file }
    requires single { HasSingles file }
    ensures app { IfOk result (λ a. JudgedFile file (Ok a)) }
    ensures sound { IfOk result IsSoundApp }
    ensures screens { IfOk result (λ a. length a.names.screens ≡ length file.screens) }
    ensures tables { IfOk result (λ a. HoldsTables a.names) }
    ensures refused { IfErr result (ReportsBreaks (λ bs. JudgedFile file (Err bs))) }
{
    no_deeper();
    let (frame, cells) = read_texts(alloc, file)?;
    load_formulas(alloc, frame, cells)
}

/// The app of a text of named formulas, `A = 1; B = A + 1;`, which has no tables and no screens. A
/// text that breaks a rule is refused with the breaks of the first stage that has any: its length,
/// its bytes, its tokens and trees, its names, the rounds of its types, its formulas, and circles
/// among them.
pub fn load_named(alloc: Global, bytes: &[u8]) -> Result<App, AppEnd>
    ensures app { IfOk result (λ a. Judged bytes.now (Ok a)) }
    ensures sound { IfOk result IsSoundApp }
    ensures bare { IfOk result (λ a. a.names.schema.tables ≡ []) }
    ensures tables { IfOk result (λ a. HoldsTables a.names) }
    ensures refused { IfErr result (ReportsBreaks (λ bs. Judged bytes.now (Err bs))) }
{
    if bytes.len() > LONGEST {
        // This number is told however long the text is, since a run reads no more of a file.
        return Err(in_app(alloc, Rule::LimitPassed, "named 262145"));
    }
    match std::str::from_utf8(bytes) {
        Ok(text) => load_text(alloc, text),
        Err(_) => Err(in_app(alloc, Rule::BadShape, "utf-8")),
    }
}

// The app of a text that isn't too long.
fn load_text(alloc: Global, source: &str) -> Result<App, AppEnd>
    requires { length source.now ≤ most_source_bytes }
    ensures app { IfOk result (λ a. JudgedText source.now (Ok a)) }
    ensures sound { IfOk result IsSoundApp }
    ensures bare { IfOk result (λ a. a.names.schema.tables ≡ []) }
    ensures tables { IfOk result (λ a. HoldsTables a.names) }
    ensures refused { IfErr result (ReportsBreaks (λ bs. JudgedText source.now (Err bs))) }
{
    no_deeper();
    let (frame, cells) = read_named(alloc, source)?;
    load_formulas(alloc, frame, cells)
}

// The app of formulas beside a frame, by their names.
pub(crate) fn load_formulas(alloc: Global, frame: Frame, cells: Vec<Cell>) -> Result<App, AppEnd>
    requires frame { IsFrame frame }
    requires placed { All (IsPlaced frame) cells.items }
    requires shallow { AreShallow cells.items }
    requires single { HaveOneTemplate cells.items }
    ensures app { IfOk result (λ a. JudgedFormulas frame cells.items (Ok a)) }
    ensures sound { IfOk result IsSoundApp }
    ensures screens { IfOk result (λ a. a.names.screens ≡ frame.screens) }
    ensures schema { IfOk result (λ a. a.names.schema ≡ frame.schema) }
    ensures tables { IfOk result (λ a. HoldsTables a.names) }
    ensures refused { IfErr result (ReportsBreaks (λ bs. JudgedFormulas frame cells.items (Err bs))) }
{
    // The laws are called for what they say of the app.
    accepted_is_sound();
    accepted_holds_tables();
    let functions = fx_sig::all();
    let breaks = name_breaks(alloc, functions, &frame, &cells)?;
    if !breaks.is_empty() {
        return Err(AppEnd::Refused(breaks));
    }
    let limit = frame.limit;
    let names = names_of(alloc, functions, frame, &cells)?;
    app_of(alloc, names, limit, cells)
}

// A rule that the whole app breaks, alone.
fn in_app(alloc: Global, rule: Rule, detail: &str) -> AppEnd
    ensures { ReportsBreaks (λ bs. bs ≡ rules.in_app rule (scalars_of detail.now) ∷ []) result }
{
    match app_break(alloc, rule, detail) {
        Ok(broken) => only(alloc, broken),
        Err(Memory) => AppEnd::Memory,
    }
}

fn app_break(alloc: Global, rule: Rule, detail: &str) -> Result<Broken, Memory>
    ensures { IfOk result (λ b. b ≡ rules.in_app rule (scalars_of detail.now)) }
{
    let detail = Words::of(alloc, detail)?;
    broken::in_app(alloc, rule, detail)
}
