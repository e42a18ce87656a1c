// The JSON of refusals.
ghost use Rattle.std.specs.Prelude.{◌≡◌, IfOk, map, string_bytes};
ghost use Rattle.std.specs.Int.{IsInRange};
ghost use Rattle.serde_json.specs.View.{view as json_view};
ghost use Rattle.view_text.specs.RefusalText.{Fits, detail_data, line_data, move_data};
ghost use Rattle.view_text.specs.RefusalText.{refusal_data, refusal_text, row_data};

use crate::Cause;
use crate::json::tag;
use fx_base::{InOrder, Memory};
use fx_types::Words;
use serde_json::{Value as Json, json};
use std::alloc::Global;

/// Why a request is refused.
pub struct Refusal {
    /// The refusal's number, 1 to 28.
    pub code: u8,
    pub detail: Detail,
}

// By hand, so that it is called: what is derived is opened wherever a value may end, which costs
// proofs seconds each time.
impl Drop for Refusal {
    fn drop(self) {
        let Refusal { code: _, detail: _ } = self;
    }
}

/// What a refusal says besides its number.
pub enum Detail {
    None,
    /// The caller's last number, of 13.
    Number(u32),
    /// The item's id, of 19.
    Id(Option<u32>),
    /// The place of a change or a record, its column and the broken rule, of 23 and 28.
    Row(u32, Words, Words),
    /// The broken rules, of 24.
    Lines(Lines),
    /// A table, its column and the broken rule, of 27.
    Move(Words, Words, Words),
}

// By hand, so that it is called: what is derived is opened wherever a value may end, which costs
// proofs seconds each time.
impl Drop for Detail {
    fn drop(self) {
        match self {
            Detail::None => {}
            Detail::Number(_) => {}
            Detail::Id(_) => {}
            Detail::Row(_, _, _) => {}
            Detail::Lines(_) => {}
            Detail::Move(_, _, _) => {}
        }
    }
}

/// Lines of text.
pub type Lines = InOrder<Words>;

/// The body of a refusal, `{"refused":{"code":13,"detail":1,"name":"OutOfStep"}}`.
pub fn refusal_json(alloc: Global, refusal: &Refusal) -> Result<String, Memory>
    requires { Fits refusal.now.code refusal.now.detail }
    ensures { IfOk result (λ s. string_bytes s ≡ refusal_text refusal.now) }
{
    let whole = refusal_object(alloc, refusal)?;
    Ok(whole.to_string(alloc)?)
}

// Apart from its text: where `json!` and `to_string` stand in one body, what the macro made is lost
// to the proof.
fn refusal_object(alloc: Global, refusal: &Refusal) -> Result<Json, Memory>
    requires { IsInRange 1 28 refusal.now.code }
    ensures { IfOk result (λ v. json_view v ≡ refusal_data refusal.now) }
{
    let code = refusal.code;
    let refused = json!(in alloc; {
        "code": code,
        "detail": detail_json(alloc, &refusal.detail)?,
        "name": Cause::of(code).name(),
    })?;
    tag(alloc, "refused", refused)
}

fn detail_json(alloc: Global, detail: &Detail) -> Result<Json, Memory>
    ensures { IfOk result (λ v. json_view v ≡ detail_data detail.now) }
{
    match detail {
        Detail::None | Detail::Id(None) => Ok(Json::Null),
        Detail::Number(number) | Detail::Id(Some(number)) => Ok(Json::from(*number)),
        Detail::Row(at, column, rule) => row_json(alloc, *at, column.as_str(), rule.as_str()),
        Detail::Lines(lines) => Ok(Json::from(lines_json(alloc, lines.as_slice())?)),
        Detail::Move(table, column, rule) => {
            move_json(alloc, table.as_str(), column.as_str(), rule.as_str())
        }
    }
}

fn row_json(alloc: Global, at: u32, column: &str, rule: &str) -> Result<Json, Memory>
    ensures { IfOk result (λ v. json_view v ≡ row_data at column.now rule.now) }
{
    Ok(json!(in alloc; {"at": at, "column": column, "rule": rule})?)
}

fn move_json(alloc: Global, table: &str, column: &str, rule: &str) -> Result<Json, Memory>
    ensures { IfOk result (λ v. json_view v ≡ move_data table.now column.now rule.now) }
{
    Ok(json!(in alloc; {"column": column, "rule": rule, "table": table})?)
}

pub(crate) fn lines_json(alloc: Global, lines: &[Words]) -> Result<Vec<Json>, Memory>
    ensures { IfOk result (λ v. map json_view v.items ≡ map line_data lines.now) }
{
    let mut texts = Vec::new(alloc);
    for line in lines {
        let text = Json::try_from_str(alloc, line.as_str())?;
        serde_json::push(&mut texts, text)?;
    }
    Ok(texts)
}
