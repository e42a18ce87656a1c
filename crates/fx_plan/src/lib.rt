//! Plans of queries, query expressions in which the values of their constants stand for them, and
//! formulas that take no more rows of a query expression than they may.
#![tactic(auto)]

mod call_names;
pub mod conditions;
pub mod filling;
pub mod laws;
mod limits;
pub mod mixing;
pub mod patterns;
pub mod plans;
pub mod ranges;
mod settling;
mod settling_laws;
pub mod site_list;
pub mod sketches;

pub use filling::fill;
pub use filter_parts::Split;
pub use fx_core::Site;
pub use limits::{limit_queries, limit_queries_under};
pub use mixing::split;
pub use patterns::{Pattern, PatternNode, Patterns};
pub use plans::{Sketch, has_error, plan};
pub use ranges::{Reach, no_row_is_missed, ranges_of};
pub use settling::{settled_call, settled_query, settled_search};
pub use settling_laws::{settled_are_no_more, settled_are_worth, settled_have_types};
pub use site_list::{Scoped, formulas_of, is_update, sites, takes_whole};
pub use sketches::{sketch, sketch_under};
