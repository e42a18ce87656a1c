//! What is broken of an app file.
ghost use Rattle.std.specs.Prelude.{◌≡◌, IfOk};
ghost use Rattle.std.specs.Str.{IsAscii};
ghost use Rattle.app_file.specs.Files.{broken_of, in_file, limit_name, passed_detail, told_count};

use crate::limits::Limit;
use fx_base::Memory;
use fx_core::{Broken, Rule};
use fx_types::words::Words;
use std::alloc::Global;

/// What is broken of an app file.
#[derive(Drop)]
pub enum FileBreak {
    /// It has more than 4,194,304 bytes.
    TooLong,
    /// It is no JSON text in UTF-8, nested at most 127 deep.
    NoJson,
    /// A part isn't of the form: the keys and the places, from 0, down to it, joined by `/`.
    BadPart(Words),
    /// There is so much of something, which is more than may be.
    Passed(Limit, usize),
}

// A word of ASCII characters.
fn word(alloc: Global, text: &str) -> Result<Words, Memory>
    requires { IsAscii text.now }
    ensures { IfOk result (λ w. w ≡ text.now) }
{
    Words::of(alloc, text)
}

fn in_file(alloc: Global, rule: Rule, detail: Words) -> Result<Broken, Memory>
    ensures { IfOk result (λ b. b ≡ in_file rule detail) }
{
    Ok(Broken {
        cell: word(alloc, "App")?,
        rule,
        at: 0,
        detail,
    })
}

fn limit_name(limit: Limit) -> &'static str
    ensures name { result.now ≡ limit_name limit }
    ensures ascii { IsAscii result.now }
{
    match limit {
        Limit::Formula => "formula",
        Limit::NamedFormulas => "named",
        Limit::Name => "name",
        Limit::Screens => "screens",
        Limit::Controls => "controls",
        Limit::Tables => "tables",
        Limit::Columns => "columns",
    }
}

fn told_count(limit: Limit, count: usize) -> usize
    ensures { result ≡ told_count limit count }
{
    match limit {
        // However long the text is: where it is read alone, no more of it is read.
        Limit::NamedFormulas => 262_145,
        _ => count,
    }
}

fn passed_detail(alloc: Global, limit: Limit, count: usize) -> Result<Words, Memory>
    ensures { IfOk result (λ w. w ≡ passed_detail limit count) }
{
    let name = limit_name(limit);
    let told = told_count(limit, count);
    let text = format!(in alloc; "{name} {told}")?;
    Words::of(alloc, text.as_str())
}

impl FileBreak {
    /// The rule that is broken, of the whole app.
    pub fn into_broken(self, alloc: Global) -> Result<Broken, Memory>
        ensures { IfOk result (λ b. b ≡ broken_of self) }
    {
        match self {
            FileBreak::TooLong => in_file(alloc, Rule::LimitPassed, word(alloc, "app 4194305")?),
            FileBreak::NoJson => in_file(alloc, Rule::BadShape, word(alloc, "json")?),
            FileBreak::BadPart(path) => in_file(alloc, Rule::BadShape, path),
            FileBreak::Passed(limit, count) => in_file(
                alloc,
                Rule::LimitPassed,
                passed_detail(alloc, limit, count)?,
            ),
        }
    }
}
