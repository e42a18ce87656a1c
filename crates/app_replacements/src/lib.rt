//! The bodies of requests that replace a whole app.
#![tactic(auto)]

pub mod body;

pub use body::Replacement;
