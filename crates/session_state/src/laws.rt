//! The laws of sessions.
ghost use Rattle.session_state.specs.CarriedOver.{CarriedOverFits};
ghost use Rattle.session_state.specs.Carrying.{CarriedFits};

/// A session that fits an app fits the edited app once it is carried.
pub fn carried_fits()
    ensures { CarriedFits }
{}

/// A session that fits an app fits the one that replaces it once it is carried over.
pub fn carried_over_fits()
    ensures { CarriedOverFits }
{}
