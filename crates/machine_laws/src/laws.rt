//! Laws of states and calls.

ghost use Rattle.machine_laws.specs.Bounds.{CountsAreSmall, CountsStaySmall};
ghost use Rattle.machine_laws.specs.Runs.{RunsAreRight};
ghost use Rattle.machine_laws.specs.Sound.{BegunIsSound, OpeningIsSound, CallsKeepSound, LimitsStay};
ghost use Rattle.machine_laws.specs.Stalls.{QuietIsDone, QuietIsWhole};
ghost use Rattle.machine_laws.specs.Steps.{CallsComeToAnEnd, IdleStepsStay, StepsComeToAnEnd, StuckIsQuiet};
ghost use Rattle.machine_laws.specs.Stays.{WhatIsShownStays, JobsAreFed, CommitsAddTheirTags, CommitsAddTheirWork};
ghost use Rattle.machine_laws.specs.Waits.{WaitsComeBack};
ghost use Rattle.machine_laws.specs.Whole.{AllDoneIsWhole, DonePieceIsWhole};

/// A state before the first firing is sound, whatever blocks were handed that they may be handed.
pub fn begun_is_sound()
    ensures { BegunIsSound }
{}

/// A run begins in a sound state, however long its tapes may come to be.
pub fn opening_is_sound()
    ensures { OpeningIsSound }
{}

/// Each call, whatever its arguments, leads from a sound state to a sound one.
pub fn calls_keep_sound()
    ensures { CallsKeepSound }
{}

/// No call changes how long a tape may come to be.
pub fn limits_stay()
    ensures { LimitsStay }
{}

/// What the firings that are committed or claimed took and gave stays, whatever is called, and a claim in flight is the
/// same job until it is given back.
pub fn what_is_shown_stays()
    ensures { WhatIsShownStays }
{}

/// A claim in flight is what its firings are to be given.
pub fn jobs_are_fed()
    ensures { JobsAreFed }
{}

/// A commit adds exactly the items that the firings of its claim give.
pub fn commits_add_their_work()
    ensures { CommitsAddTheirWork }
{}

/// And exactly the tags that they bring.
pub fn commits_add_their_tags()
    ensures { CommitsAddTheirTags }
{}

/// In a valid graph every count of a sound state is below 2 ^ 62, where no path makes more than 2 ^ 61 items of what a
/// tape may come to hold.
pub fn counts_are_small()
    ensures { CountsAreSmall }
{}

/// So after any calls: what fits at the opening fits for good.
pub fn counts_stay_small()
    ensures { CountsStaySmall }
{}

/// Where all blocks are done, each sink holds its whole stream.
pub fn all_done_is_whole()
    ensures { AllDoneIsWhole }
{}

/// A piece that says done comes from a sink that holds its whole stream.
pub fn done_piece_is_whole()
    ensures { DonePieceIsWhole }
{}

/// With enough room for a balance and all tapes closed, a network at rest is done.
pub fn quiet_is_done()
    ensures { QuietIsDone }
{}

/// With the capacities that are computed, balanced, closed and quiet give whole sinks.
pub fn quiet_is_whole()
    ensures { QuietIsWhole }
{}

/// With all tapes closed, a network that rests before its end has a ring of blocks that wait for one another.
pub fn waits_come_back()
    ensures { WaitsComeBack }
{}

/// Only feeding gives a run more steps, and each call that moves on leaves fewer.
pub fn calls_come_to_an_end()
    ensures { CallsComeToAnEnd }
{}

/// A claim with its commit leaves fewer steps where it moves on, and never more.
pub fn steps_come_to_an_end()
    ensures { StepsComeToAnEnd }
{}

/// Where nothing is claimed, a step leaves nothing claimed, and one that does not move on changes nothing.
pub fn idle_steps_stay()
    ensures { IdleStepsStay }
{}

/// Where nothing is claimed and no step moves on, the network is quiet.
pub fn stuck_is_quiet()
    ensures { StuckIsQuiet }
{}

/// After any calls, of any blocks in any order and amounts: what sinks hold is a beginning of their streams and stays,
/// and in a balanced network with closed tapes they hold all once no block can act.
pub fn runs_are_right()
    ensures { RunsAreRight }
{}
