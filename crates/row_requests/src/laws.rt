//! Laws of desks.
ghost use Rattle.row_requests.specs.AnyKeeper.{TellsOfEach};
ghost use Rattle.row_requests.specs.Laws.{PostActsOnce, PostLeavesOthers};

/// A law, and no work: a request of a desk leaves what is kept of every other.
pub fn leaves_others()
    ensures { PostLeavesOthers }
{}

/// A law, and no work: the last accepted request of a desk, when it comes again, gets the kept
/// reply and acts no more.
pub fn acts_once()
    ensures { PostActsOnce }
{}

/// A law, and no work: what is said of posted changes is a number for each, or a refusal of one of
/// them, also over a keeper that tells nothing.
pub fn tells_of_each()
    ensures { TellsOfEach }
{}
