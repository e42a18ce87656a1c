//! The limits of what an app file itself holds.
ghost use Rattle.std.specs.Prelude.{◌≡◌, ◌++◌, [], ◌∷◌, IfOk, OnOk, length, map, nat_lt};
ghost use Rattle.std.specs.List.{find};
ghost use Rattle.app_file.specs.Limits as table;

use crate::file::{AppFile, ControlShape, ScreenShape};
use fx_base::Memory;
use fx_core::TableShape;
use fx_types::words::Words;
use std::alloc::Global;

/// What is counted in an app file.
#[derive(Clone, Copy)]
pub enum Limit {
    /// The bytes of a formula that stands by itself.
    Formula,
    /// The bytes of the text of named formulas.
    NamedFormulas,
    /// The characters of the name of a table, column, screen or control.
    Name,
    Screens,
    Controls,
    Tables,
    /// The columns of a table, `ID` aside.
    Columns,
}

/// The limits in the order in which they are tested.
static LIMITS: [Limit; 7] = [
    Limit::Formula,
    Limit::NamedFormulas,
    Limit::Name,
    Limit::Screens,
    Limit::Controls,
    Limit::Tables,
    Limit::Columns,
];

impl Limit {
    /// The most that there may be.
    pub fn most(self) -> usize
        ensures { result ≡ table.most_allowed self }
    {
        match self {
            Limit::Formula => 8_192,
            Limit::NamedFormulas => 262_144,
            Limit::Name => 64,
            Limit::Screens => 64,
            Limit::Controls => 500,
            Limit::Tables => 32,
            Limit::Columns => 63,
        }
    }
}

fn length_of(name: &Words) -> usize
    ensures { result ≡ length name.now }
{
    name.as_str().chars().count()
}

fn bytes_of(text: &Words) -> usize
    ensures { result ≡ table.utf8_length text.now }
{
    text.as_str().len()
}

fn put_control_texts(control: &ControlShape, counts: &mut Vec<usize>) -> Result<(), Memory>
    ensures { OnOk result (counts.new.items ≡ counts.old.items
        ++ map table.utf8_length (table.control_texts control.now)) }
{
    for property in control.properties.as_slice() {
        counts.push(bytes_of(&property.text))?;
    }
    Ok(())
}

fn put_screen_texts(screen: &ScreenShape, counts: &mut Vec<usize>) -> Result<(), Memory>
    ensures { OnOk result (counts.new.items ≡ counts.old.items
        ++ map table.utf8_length (table.screen_texts screen.now)) }
{
    counts.push(bytes_of(&screen.on_visible))?;
    for control in screen.controls.as_slice() {
        put_control_texts(control, counts)?;
    }
    Ok(())
}

// The bytes of the formulas that stand by themselves.
fn text_counts(alloc: Global, app: &AppFile) -> Result<Vec<usize>, Memory>
    ensures { IfOk result (λ v. v.items ≡ map table.utf8_length (table.texts_of app.now)) }
{
    let mut counts = Vec::new(alloc);
    counts.push(bytes_of(&app.on_start))?;
    for screen in app.screens.as_slice() {
        put_screen_texts(screen, &mut counts)?;
    }
    Ok(counts)
}

fn put_table_names(shape: &TableShape, counts: &mut Vec<usize>) -> Result<(), Memory>
    ensures { OnOk result (counts.new.items ≡ counts.old.items
        ++ map length (table.names_of_table shape.now)) }
{
    counts.push(length_of(&shape.name))?;
    for column in shape.columns.as_slice() {
        counts.push(length_of(&column.name))?;
    }
    Ok(())
}

fn put_control_names(screen: &ScreenShape, counts: &mut Vec<usize>) -> Result<(), Memory>
    ensures { OnOk result (counts.new.items ≡ counts.old.items
        ++ map length (table.names_of_controls screen.now)) }
{
    for control in screen.controls.as_slice() {
        counts.push(length_of(&control.name))?;
    }
    Ok(())
}

fn put_screen_names(screen: &ScreenShape, counts: &mut Vec<usize>) -> Result<(), Memory>
    ensures { OnOk result (counts.new.items ≡ counts.old.items
        ++ map length (table.names_of_screen screen.now)) }
{
    counts.push(length_of(&screen.name))?;
    put_control_names(screen, counts)
}

// The characters of all names.
fn name_counts(alloc: Global, app: &AppFile) -> Result<Vec<usize>, Memory>
    ensures { IfOk result (λ v. v.items ≡ map length (table.names_of_app app.now)) }
{
    let mut counts = Vec::new(alloc);
    for shape in app.schema.tables.as_slice() {
        put_table_names(shape, &mut counts)?;
    }
    for screen in app.screens.as_slice() {
        put_screen_names(screen, &mut counts)?;
    }
    Ok(counts)
}

fn control_count(alloc: Global, app: &AppFile) -> Result<usize, Memory>
    ensures { IfOk result (λ n. n ≡ length (table.controls_in app.now)) }
{
    // One entry a control: the length of a list needs no proof that a sum fits.
    let mut names = Vec::new(alloc);
    for screen in app.screens.as_slice() {
        put_control_names(screen, &mut names)?;
    }
    Ok(names.len())
}

fn column_counts(alloc: Global, app: &AppFile) -> Result<Vec<usize>, Memory>
    ensures { IfOk result (λ v. v.items ≡ map (λ t. length t.columns) app.now.schema.tables) }
{
    let mut counts = Vec::new(alloc);
    for shape in app.schema.tables.as_slice() {
        counts.push(shape.columns.len())?;
    }
    Ok(counts)
}

fn one(alloc: Global, count: usize) -> Result<Vec<usize>, Memory>
    ensures { IfOk result (λ v. v.items ≡ count ∷ []) }
{
    let mut counts = Vec::new(alloc);
    counts.push(count)?;
    Ok(counts)
}

fn counts_of(alloc: Global, limit: Limit, app: &AppFile) -> Result<Vec<usize>, Memory>
    ensures { IfOk result (λ v. v.items ≡ table.counts_of limit app.now) }
{
    match limit {
        Limit::Formula => text_counts(alloc, app),
        Limit::NamedFormulas => one(alloc, bytes_of(&app.formulas)),
        Limit::Name => name_counts(alloc, app),
        Limit::Screens => one(alloc, app.screens.len()),
        Limit::Controls => one(alloc, control_count(alloc, app)?),
        Limit::Tables => one(alloc, app.schema.tables.len()),
        Limit::Columns => column_counts(alloc, app),
    }
}

// The first count that is more than may be.
fn first_over(most: usize, counts: &[usize]) -> Option<usize>
    ensures { result ≡ find (nat_lt most) counts.now }
{
    for count in counts {
        if most < *count {
            return Some(*count);
        }
    }
    None
}

fn passed_of(alloc: Global, app: &AppFile, limit: Limit) -> Result<Option<usize>, Memory>
    ensures { IfOk result (λ o. o ≡ table.passed_of app.now limit) }
{
    let counts = counts_of(alloc, limit, app)?;
    Ok(first_over(limit.most(), &counts))
}

// The first of these limits that is passed.
fn first_of(
    alloc: Global,
    app: &AppFile,
    limits: &[Limit],
) -> Result<Option<(Limit, usize)>, Memory>
    ensures { IfOk result (λ o. o ≡ table.first_passed limits.now app.now) }
{
    for limit in limits {
        if let Some(count) = passed_of(alloc, app, *limit)? {
            return Ok(Some((*limit, count)));
        }
    }
    Ok(None)
}

/// The first limit that an app file passes, and the count that passes it first.
pub(crate) fn first_passed(alloc: Global, app: &AppFile) -> Result<Option<(Limit, usize)>, Memory>
    ensures { IfOk result (λ o. o ≡ table.first_passed table.limits app.now) }
{
    first_of(alloc, app, &LIMITS)
}
