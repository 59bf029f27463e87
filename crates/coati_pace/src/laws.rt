//! What follows from the definitions: each function's contract is a law, and its body is empty.

ghost use Rattle.coati_pace.specs.Laws.{ActsKeepRanges, BoundsArePeriods, EffortsAreBounded};
ghost use Rattle.coati_pace.specs.Laws.{RestartsAreBounded, ShapesAreWithinLimits, StepsLower};
ghost use Rattle.coati_pace.specs.PaceLaws.{PacesGoOn, RunsBeginOnPace};
ghost use Rattle.coati_pace.specs.Running.{ActsKeepPace};

/// Each step that neither ends a task nor sleeps lowers the need by one at least.
pub fn steps_lower()
    ensures { StepsLower }
{}

/// The need is at most the bound, and 0 exactly where nothing is to do.
pub fn efforts_are_bounded()
    ensures { EffortsAreBounded }
{}

/// What a device does keeps each part of its effort in its range.
pub fn acts_keep_ranges()
    ensures { ActsKeepRanges }
{}

/// Behind a progress, a boot or a posting the need is at most the bound.
pub fn restarts_are_bounded()
    ensures { RestartsAreBounded }
{}

/// The bound of a program's device is the power period that suffices for it, and the device of an
/// accepted program is within the limits.
pub fn shapes_are_of_programs()
    ensures bound { BoundsArePeriods }
    ensures limits { ShapesAreWithinLimits }
{}

/// A history begins on pace and keeps it, mark by mark: where it is left alone for the bound's
/// steps, a task ends in them, or nothing is left to do behind them.
pub fn histories_keep_pace()
    ensures begins { RunsBeginOnPace }
    ensures goes_on { PacesGoOn }
{}

/// So does a device at work, act by act.
pub fn devices_keep_pace()
    ensures { ActsKeepPace }
{}
