//! What the statements at the end of a transaction write.
ghost use Rattle.row_plan.specs.Written.{PlansWrite};

/// A law, and no work: the statements of a plan have their meaning one after another, and make of
/// what is kept what the transaction has made of it.
pub fn plans_write()
    ensures { PlansWrite }
{}
