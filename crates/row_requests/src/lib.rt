//! The requests for rows: a desk posts changes, and a table's rows are shown. Each touches no more
//! than what it is given: the keeper of the rows, and the desks.
#![tactic(auto)]

pub mod bodies;
mod cells;
mod changes;
pub mod desk;
mod finding;
mod judging;
pub mod laws;
mod outcome;
pub mod page;
pub mod rule;
mod transaction;

pub use desk::post_rows;
pub use numbered_requests::{MOST_DESKS, Named, Reply, is_among, place_of, put};
pub use outcome::settle;
pub use page::{MOST_ROWS, show_page};
pub use rule::Rule;
