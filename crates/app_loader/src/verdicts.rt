//! What verdicts files and texts may have.
ghost use Rattle.app_loader.specs.Verdicts.{IsOneApp, IsOneAppOfAFile, IsOneAppOfAText};
ghost use Rattle.app_loader.specs.Verdicts.{IsOneAppOfAValue, IsOneRefusalOfAValue};
ghost use Rattle.app_loader.specs.Verdicts.{IsOneValueVerdict};
ghost use Rattle.app_loader.specs.Verdicts.{IsOneRefusalOfAFile, IsOneRefusalOfAText, IsOneVerdict};

use app_file::{one_break, one_reading};

/// A law, and no work: no text of named formulas is both accepted and refused.
pub fn one_verdict()
    ensures { IsOneVerdict }
{}

/// A law, and no work: no app file is both accepted and refused.
pub fn one_app()
    ensures { IsOneApp }
{
    // The law is called for what it says of files.
    one_reading();
}

/// A law, and no work: a text of named formulas that is accepted is one app.
pub fn one_app_of_a_text()
    ensures { IsOneAppOfAText }
{}

/// A law, and no work: an app file that is accepted is one app.
pub fn one_app_of_a_file()
    ensures { IsOneAppOfAFile }
{
    // The law is called for what it says of files.
    one_reading();
}

/// A law, and no work: of a text of named formulas that is refused the same breaks are told.
pub fn one_refusal_of_a_text()
    ensures { IsOneRefusalOfAText }
{}

/// A law, and no work: of an app file that is refused the same breaks are told.
pub fn one_refusal_of_a_file()
    ensures { IsOneRefusalOfAFile }
{
    // The laws are called for what they say of files.
    one_reading();
    one_break();
}

/// A law, and no work: no JSON is both accepted and refused.
pub fn one_value_verdict()
    ensures { IsOneValueVerdict }
{}

/// A law, and no work: JSON that is accepted is one app.
pub fn one_app_of_a_value()
    ensures { IsOneAppOfAValue }
{}

/// A law, and no work: of JSON that is refused the same breaks are told.
pub fn one_refusal_of_a_value()
    ensures { IsOneRefusalOfAValue }
{}
