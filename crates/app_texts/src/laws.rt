//! Laws of the formulas of app files.
ghost use Rattle.app_texts.specs.Files.{ReadIsSound};

/// A law, and no work: a file that is read has a frame, properties that their controls have, and
/// texts that are no longer than may be.
pub fn read_is_sound()
    ensures { ReadIsSound }
{}
