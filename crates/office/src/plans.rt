// Where formulas take rows of tables, and what they read, shown.
ghost use Rattle.std.specs.Prelude.{◌≡◌, IfOk};
ghost use Rattle.app_reports.specs.Graph.{graph_text};
ghost use Rattle.app_reports.specs.Plans.{plan_text};
ghost use Rattle.app_wire.specs.ReplyBytes.{reply};
ghost use Rattle.numbered_requests.specs.Replies.{IsReply, said};

use app_cells::App;
use app_reports::{graph_json, plan_json};
use fx_base::Memory;
use numbered_requests::Reply;
use std::alloc::Global;

/// Shows each place where a formula of the app takes rows of a table. No keeper is called.
pub(crate) fn show_plan(alloc: Global, app: &App) -> Result<Reply, Memory>
    ensures said { IfOk result (λ r. said r ≡ reply 200 (plan_text app.now)) }
    ensures whole { IfOk result IsReply }
{
    let body = plan_json(alloc, app)?;
    Reply::accept(alloc, &body)
}

/// Shows what each formula of the app reads. No keeper is called.
pub(crate) fn show_graph(alloc: Global, app: &App) -> Result<Reply, Memory>
    ensures said { IfOk result (λ r. said r ≡ reply 200 (graph_text app.now)) }
    ensures whole { IfOk result IsReply }
{
    let body = graph_json(alloc, app)?;
    Reply::accept(alloc, &body)
}
