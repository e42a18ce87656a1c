//! The numbers that are kept beside the rows of tables, a bag for each column, so that a count or a
//! total of a whole table visits no row.
#![tactic(auto)]

mod bag_lists;
pub mod book;
pub mod books;
pub mod numbers;

pub use book::Book;
pub use books::Books;
pub use numbers::Numbers;
