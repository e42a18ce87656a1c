//! The operators that compare.

/// An operator that compares two scalars.
#[derive(Clone, Copy, Debug)]
pub enum Cmp {
    /// `=`
    Eq,
    /// `<>`
    Ne,
    /// `<`
    Lt,
    /// `<=`
    Le,
    /// `>`
    Gt,
    /// `>=`
    Ge,
}
