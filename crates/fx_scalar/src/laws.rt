//! Laws of the functions of values.
ghost use Rattle.fx_scalar.specs.Errors.{RecordsTell};
ghost use Rattle.fx_scalar.specs.Fitting.{AnswersFit, FittingCanApply};
ghost use Rattle.fx_scalar.specs.Laws.{OneAnswer};

/// A law, and no work: a function of values can be applied to arguments that fit its places.
pub fn fitting_can_apply()
    ensures { FittingCanApply }
{}

/// A law, and no work: what a function answers to arguments that fit its places fits its type.
pub fn answers_fit()
    ensures { AnswersFit }
{}

/// A law, and no work: a function has one answer at most to its arguments.
pub fn one_answer()
    ensures { OneAnswer }
{}

/// A law, and no work: the record of an error tells that error.
pub fn records_tell()
    ensures { RecordsTell }
{}
