//! The schema of a new database, kept in one transaction of any store.
#![tactic(auto)]

mod keeping;

pub use keeping::insert_schema;
