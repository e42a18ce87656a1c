// The law of calls and of the trees that they become.
ghost use Rattle.user_calls.specs.Laws.{CallsAreWorthTheirBodies};

/// A law, and no work: a tree in which each call is replaced by its function's body has the values
/// that the tree has by the values of its calls, wherever it stands.
pub fn calls_are_worth_their_bodies()
    ensures { CallsAreWorthTheirBodies }
{}
