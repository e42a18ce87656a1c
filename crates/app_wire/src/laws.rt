//! Laws of framing.
ghost use Rattle.app_wire.specs.Framing.{IsOneThing, FramesStand};

/// What was found of the bytes so far stands, however they go on: so it doesn't matter how they are
/// cut.
pub fn stands()
    ensures { FramesStand }
{}

/// The bytes begin with one thing only.
pub fn one_thing()
    ensures { IsOneThing }
{}
