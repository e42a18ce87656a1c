//! App files from their bytes.
ghost use Rattle.std.specs.Prelude.{◌≡◌, Err, IfErr, IfOk, Ok};
ghost use Rattle.serde_json.specs.View.{view};
ghost use Rattle.app_file.specs.Contents.{app_of};
ghost use Rattle.app_file.specs.Files.{IsBadPartOf, IsRead, IsReadOf, TellsFileBreak};
ghost use Rattle.app_file.specs.FormOfApp.{app_form};
ghost use Rattle.app_file.specs.Forms.{BreaksForm, IsFine};
ghost use Rattle.app_file.specs.Readings.{TellsPath};

use crate::breaks::FileBreak;
use crate::file::AppFile;
use crate::keys::{Object, check_keys};
use crate::leaves::{Format, RowLimit};
use crate::limits::first_passed;
use crate::parts::{read_member, read_member_or};
use crate::paths::Unread;
use crate::screens::Screens;
use fx_base::{InOrder, Memory, OrMemory};
use fx_core::Schema;
use fx_types::words::Words;
use serde_json::Value as Json;
use std::alloc::Global;

/// The most bytes of an app file.
const MOST_BYTES: usize = 4_194_304;

/// The row limit of an app whose file gives none.
const ROW_LIMIT: RowLimit = RowLimit(500);

/// The app that a file holds, as it is written. A file is refused that is too long, is no JSON in
/// UTF-8, isn't of the form of app files, or passes a limit, and the first of these is told.
/// Nothing is said of names that stand twice, or of what the texts of formulas are.
pub fn read(alloc: Global, bytes: &[u8]) -> Result<AppFile, OrMemory<FileBreak>>
    ensures app { IfOk result (λ a. IsRead bytes.now (Ok a)) }
    ensures refused { IfErr result (TellsFileBreak (λ b. IsRead bytes.now (Err b))) }
{
    if bytes.len() > MOST_BYTES {
        return Err(OrMemory::Refused(FileBreak::TooLong));
    }
    let Ok(text) = std::str::from_utf8(bytes) else {
        return Err(OrMemory::Refused(FileBreak::NoJson));
    };
    match Json::from_str(alloc, text) {
        Ok(root) => read_value(alloc, &root),
        Err(error) if error.is_memory() => Err(OrMemory::Memory),
        Err(_) => Err(OrMemory::Refused(FileBreak::NoJson)),
    }
}

/// The app that JSON holds, as it is written. JSON is refused that isn't of the form of app files,
/// or passes a limit, and the first of these is told.
pub fn read_value(alloc: Global, root: &Json) -> Result<AppFile, OrMemory<FileBreak>>
    ensures app { IfOk result (λ a. IsReadOf (view root.now) (Ok a)) }
    ensures refused { IfErr result (TellsFileBreak (λ b. IsReadOf (view root.now) (Err b))) }
{
    let app = match read_app(alloc, root) {
        Ok(app) => app,
        Err(end) => return Err(bad_part(alloc, end)),
    };
    match first_passed(alloc, &app)? {
        Some((limit, count)) => Err(OrMemory::Refused(FileBreak::Passed(limit, count))),
        None => Ok(app),
    }
}

// That a part isn't of its form.
fn bad_part(alloc: Global, end: Unread) -> OrMemory<FileBreak>
    ensures { IsBadPartOf end result }
{
    match end {
        OrMemory::Refused(path) => match path.text(alloc) {
            Ok(text) => OrMemory::Refused(FileBreak::BadPart(text)),
            Err(Memory) => OrMemory::Memory,
        },
        OrMemory::Memory => OrMemory::Memory,
    }
}

// The app that JSON of the form is.
fn read_app(alloc: Global, root: &Json) -> Result<AppFile, Unread>
    ensures app { IfOk result (λ a. IsFine app_form (view root.now) × (a ≡ app_of (view root.now))) }
    ensures bad { IfErr result (TellsPath (BreaksForm app_form (view root.now))) }
{
    check_keys(alloc, root, Object::App)?;
    let _format: Format = read_member(alloc, root, "format")?;
    let limit = read_member_or(alloc, root, "rowLimit", ROW_LIMIT)?;
    let tables = read_member_or(alloc, root, "tables", InOrder::new(alloc))?;
    let empty = Words::of(alloc, "")?;
    let formulas = read_member_or(alloc, root, "formulas", empty)?;
    let empty = Words::of(alloc, "")?;
    let on_start = read_member_or(alloc, root, "onStart", empty)?;
    let screens: Screens = read_member(alloc, root, "screens")?;
    Ok(AppFile {
        schema: Schema { tables },
        row_limit: limit.0,
        formulas,
        on_start,
        screens: screens.0,
    })
}
