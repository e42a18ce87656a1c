//! An accepted app.
use crate::app_cells::App;
use std::marker::Model;

/// An app that is known to be sound. A world has it as a type parameter, since the ends of its
/// loans would not be known beside a reference within a model.
pub(crate) trait SoundApp {
    ghost use Rattle.std.specs.Prelude.{◌≡◌};
    ghost use Rattle.recalc.specs.app_cells.declared.app.App.{App};
    ghost use Rattle.recalc.specs.app_semantics.Sound.{IsSoundApp};

    /// The app.
    ghost app: { Self → App };

    /// The app.
    fn get(&self) -> &App
        ensures { result.now ≡ app self.now };

    /// A law, and no work: it is sound.
    fn is_sound(&self)
        ensures { IsSoundApp (app self.now) };
}

/// An app that is sound.
#[derive(Drop)]
pub(crate) struct Accepted<'a> {
    app: &'a App,
}

impl<'a> Model for Accepted<'a> {
    ghost use Rattle.recalc.specs.app_cells.contracts.app.App.{the_row};
    ghost use Rattle.recalc.specs.app_cells.declared.app.App.{App};
    ghost use Rattle.recalc.specs.app_semantics.Sound.{IsSoundApp};

    ghost Value = { App };

    ghost coded = { the_row.coded };

    ghost view = { λ a. a.app.now };

    ghost invariant = { λ a. IsSoundApp a.app.now };
}

impl<'a> Accepted<'a> {
    ghost use Rattle.std.specs.Prelude.{◌≡◌};
    ghost use Rattle.recalc.specs.app_semantics.Sound.{IsSoundApp};

    /// The app, which is sound.
    pub(crate) fn new(app: &'a App) -> Accepted<'a>
        requires { IsSoundApp app.now }
        ensures { result ≡ app.now }
    {
        Accepted { app }
    }
}

impl SoundApp for Accepted<'_> {
    ghost app = { λ a. a };

    fn get(&self) -> &App {
        self.app
    }

    fn is_sound(&self) {
        let _app = self.app;
    }
}
