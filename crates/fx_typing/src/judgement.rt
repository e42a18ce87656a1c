ghost use Rattle.fx_typing.specs.Laws.{AdmittedIsTyped, AdmittedIsWanted, PureIsQuiet};
ghost use Rattle.fx_typing.specs.Laws.{BrokenIsBroken};

/// A law, and no work: the typed tree of an admitted formula is well typed, of the type that is
/// told with it, which is the wanted one.
pub fn admitted_is_typed()
    ensures typed { AdmittedIsTyped }
    ensures wanted { AdmittedIsWanted }
{}

/// A law, and no work: a formula that stands where nothing may act has a typed tree in which
/// nothing acts.
pub fn pure_is_quiet()
    ensures { PureIsQuiet }
{}

/// A law, and no work: a formula that is called broken has a node whose parts are all admitted and
/// that no rule admits, where it is told and by that rule.
pub fn broken_is_broken()
    ensures { BrokenIsBroken }
{}
