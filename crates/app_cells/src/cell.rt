//! A formula, where it is written.

use fx_core::expr::Expr;
use fx_types::types::Ty;
use fx_types::words::Words;

/// What a formula is the formula of.
#[derive(Drop)]
pub enum Spot {
    /// The named formula of this name.
    Formula(Words),
    /// What runs when a session is opened.
    OnStart,
    /// What runs when the screen of this number is shown.
    OnVisible(u32),
    /// A property: the number of its control, and its name.
    Property(u32, Words),
}

/// A formula of an app, where it is written.
pub struct Cell {
    /// Its address, as `Total`, `App.OnStart`, `Home.OnVisible` or `Count.Text`. A name that has a
    /// `.` or a `'` in it stands quoted.
    pub name: Words,
    pub spot: Spot,
    /// The number of the screen that it stands on.
    pub screen: Option<u32>,
    /// The number of the gallery whose item it sees.
    pub item: Option<u32>,
    /// Whether it may act.
    pub acts: bool,
    /// The type that is wanted of it. A table type without columns stands for every table type.
    pub wanted: Option<Ty>,
    /// The byte at which its first token begins in the text in which its positions are told so far:
    /// 0, but for a formula that stands in the text of the named formulas, and for one that an edit
    /// gave.
    pub at: u32,
    pub text: Words,
    pub expr: Expr,
}

// By hand, so that it is called: what is derived is opened wherever a value may end, which costs
// proofs seconds each time.
impl Drop for Cell {
    fn drop(self) {
        let Cell {
            name: _,
            spot: _,
            screen: _,
            item: _,
            acts: _,
            wanted: _,
            at: _,
            text: _,
            expr: _,
        } = self;
    }
}
