//! Groups of the rows of a table by keys, and rows out of their groups.
#![tactic(auto)]

mod buckets;
mod faults;
mod grouping;
mod laws;
mod ungrouping;

pub use grouping::group;
pub use laws::groups_come_back;
pub use ungrouping::ungroup;
