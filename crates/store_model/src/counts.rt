// How many rows tables have.

/// How many rows a table has, and had as the transaction began.
// Counted, so that the limits are asked without a pass over the rows.
#[derive(Clone, Copy, Debug)]
pub struct RowCount {
    pub now: u32,
    pub then: u32,
}
