//! Why imports are refused.
ghost use Rattle.std.specs.Prelude.{◌≡◌, IfOk};
ghost use Rattle.fx_types.specs.Words.{scalars_of};
ghost use Rattle.numbered_requests.specs.Replies.{IsReply, refusal_reply, said};
ghost use Rattle.row_requests.specs.Changes.{column_name_at};
ghost use Rattle.csv_requests.specs.Refusals.{batch_refusal, batch_rule_name, import_refusal};
ghost use Rattle.csv_requests.specs.Refusals.{key_refusal, line_refusal};

use fx_base::Memory;
use fx_core::Column;
use fx_types::Words;
use numbered_requests::Reply;
use row_files::ImportRule;
use row_imports::BrokenLine;
use row_requests::Rule;
use std::alloc::Global;
use view_text::{Detail, Refusal};

// The name of a rule of batches.
fn batch_rule(rule: ImportRule) -> &'static str
    ensures { scalars_of result.now ≡ batch_rule_name rule }
{
    match rule {
        ImportRule::Csv => "csv",
        ImportRule::Header => "header",
        ImportRule::Long => "long",
        ImportRule::Kind => "type",
        ImportRule::Blank => "blank",
        ImportRule::Twice => "twice",
    }
}

// The name of the column of a number, where `ID` is 0.
fn name_at(columns: &[Column], column: Option<u16>) -> &str
    ensures { scalars_of result.now ≡ column_name_at columns.now column }
{
    match column {
        Some(number) => match columns.get(usize::from(number).saturating_sub(1)) {
            Some(column) => column.name.as_str(),
            None => "",
        },
        None => "",
    }
}

// The refusal of an import, for a record, a column and a rule.
fn refuse(alloc: Global, at: u32, column: &str, rule: &str) -> Result<Reply, Memory>
    ensures said { IfOk result (λ r. said r ≡ refusal_reply
        (import_refusal at (scalars_of column.now) (scalars_of rule.now))) }
    ensures whole { IfOk result IsReply }
{
    let column = Words::of(alloc, column)?;
    let rule = Words::of(alloc, rule)?;
    let detail = Detail::Row(at, column, rule);
    Reply::refuse(alloc, &Refusal { code: 28, detail })
}

/// The refusal of a key that is no unique column of the table (28, `key`).
pub fn refuse_key(alloc: Global, key: &Words) -> Result<Reply, Memory>
    ensures said { IfOk result (λ r. said r ≡ refusal_reply (key_refusal key.now)) }
    ensures whole { IfOk result IsReply }
{
    refuse(alloc, 0, key.as_str(), "key")
}

/// The refusal of a text that is no batch (28), for the record and the column of the first rule
/// that breaks.
pub fn refuse_batch(
    alloc: Global,
    at: u32,
    column: &Words,
    rule: ImportRule,
) -> Result<Reply, Memory>
    ensures said { IfOk result (λ r. said r ≡ refusal_reply (batch_refusal at column.now rule)) }
    ensures whole { IfOk result IsReply }
{
    refuse(alloc, at, column.as_str(), batch_rule(rule))
}

/// The refusal of a line whose row breaks a rule of rows (28). The columns are the table's.
pub fn refuse_line(alloc: Global, columns: &[Column], broken: BrokenLine) -> Result<Reply, Memory>
    ensures said { IfOk result (λ r. said r ≡ refusal_reply (line_refusal columns.now broken)) }
    ensures whole { IfOk result IsReply }
{
    let column = name_at(columns, broken.refusal.column);
    let rule = Rule::of(broken.refusal.rule).name();
    refuse(alloc, broken.at, column, rule)
}
