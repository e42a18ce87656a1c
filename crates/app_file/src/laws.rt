//! Laws of app files.
ghost use Rattle.app_file.specs.Files.{IsOneBreak, IsOneReading};

/// A law, and no work: a file that is read is one app, and isn't broken.
pub fn one_reading()
    ensures { IsOneReading }
{}

/// A law, and no work: of a file that is broken one thing is told. Which of several bad parts is
/// told is left open.
pub fn one_break()
    ensures { IsOneBreak }
{}
