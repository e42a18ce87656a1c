//! Rows as texts of comma-separated fields: a page of rows written, and a batch of lines read. The
//! records are the library's; what fields spell is told by `field_texts`.
#![tactic(auto)]

mod batches;
mod ends;
mod headers;
mod laws;
mod lines;
mod pages;
mod records;

pub use batches::{Batch, read_batch};
pub use ends::{BatchEnd, ImportRule};
pub use headers::key_column;
pub use laws::{one_reading, pages_read_back};
pub use pages::write_page;
