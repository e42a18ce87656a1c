//! What is summed up of many numbers.

use fx_number::Num;

/// How many numbers there are, their sum in ten-thousandths, and the least and the greatest of
/// them.
#[derive(Clone, Copy)]
pub struct Totals {
    pub count: u64,
    pub sum: i128,
    pub least: Option<Num>,
    pub greatest: Option<Num>,
}
