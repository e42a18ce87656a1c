//! The requests for rows as texts of records: the body of an import, an import in one transaction,
//! and what is said of a page of rows, of an import that was accepted, and of one that is refused.
#![tactic(auto)]

pub mod bodies;
pub mod laws;
pub mod refusals;
pub mod replies;
pub mod transaction;

pub use bodies::Imported;
pub use laws::batches_go_in;
pub use refusals::{refuse_batch, refuse_key, refuse_line};
pub use replies::{MOST_ROWS, counts_reply, page_reply};
pub use transaction::{Outcome, Prepared, act_import};
