//! Laws of what a plant stores.

ghost use Rattle.plant_laws.specs.Buffers.{BuffersKeepNoMore, ReadersFindTheirItems};
ghost use Rattle.plant_laws.specs.Calls.{AbandoningHolds, ClaimingHolds, ClosingHolds, CommittingHolds, DoneBlocksStayDone, EndingHolds, FeedingHolds, OthersStay, OtherwiseNothingChanges, ReadsAreCutOut, SettingHolds, WhatIsTakenMayGo};
ghost use Rattle.plant_laws.specs.Claims.{ClaimsMayFire, FiringsAreServed, FlightsMayFire};
ghost use Rattle.plant_laws.specs.Flights.{FlightsKeepTags};
ghost use Rattle.plant_laws.specs.Opening.{OpeningHolds};
ghost use Rattle.plant_laws.specs.Turns.{ReadersLeaveInTurn, ReadersTakeInTurn};

/// What a plant stores when it is opened is right.
pub fn opening_holds()
    ensures { OpeningHolds }
{}

/// A call leaves all that is stored of other blocks.
pub fn others_stay()
    ensures { OthersStay }
{}

/// What a sink shows is cut out of what it has collected.
pub fn reads_are_cut_out()
    ensures { ReadsAreCutOut }
{}

/// Feeding puts items on a tape, and changes nothing else that is stored.
pub fn feeding_holds()
    ensures { FeedingHolds }
{}

/// Closing marks a tape, and changes nothing else that is stored.
pub fn closing_holds()
    ensures { ClosingHolds }
{}

/// A setting goes into a timeline, and changes nothing else that is stored.
pub fn setting_holds()
    ensures { SettingHolds }
{}

/// A claim that hands out a job changes nothing that is stored.
pub fn claiming_holds()
    ensures { ClaimingHolds }
{}

/// Nor does giving a claim up.
pub fn abandoning_holds()
    ensures { AbandoningHolds }
{}

/// What is stored has all that firings which fit need: their windows, settings and state word, unread items and the
/// tags on them, and room.
pub fn firings_are_served()
    ensures { FiringsAreServed }
{}

/// The firings that a claim gets fit.
pub fn claims_may_fire()
    ensures { ClaimsMayFire }
{}

/// Those of a claim in flight fit until it is given back.
pub fn flights_may_fire()
    ensures { FlightsMayFire }
{}

/// The tags that a claim in flight takes and brings are the same after a call that leaves it in flight.
pub fn flights_keep_tags()
    ensures { FlightsKeepTags }
{}

/// Where a claim ends a block, the buffers at its inputs no longer wait for it, and nothing else changes.
pub fn ending_holds()
    ensures { EndingHolds }
{}

/// A commit gives the outputs the items of the claim's work and the tags that its firings bring, takes what they took,
/// and keeps the new state word; a sink collects what it took. Nothing else that is stored changes.
pub fn committing_holds()
    ensures { CommittingHolds }
{}

/// Each live reader finds in its buffer its unread items with the past that it reads, and the tags on them.
pub fn readers_find_their_items()
    ensures { ReadersFindTheirItems }
{}

/// A buffer keeps no more items than its capacity and the greatest past need, and no tags before its slowest reader.
pub fn buffers_keep_no_more()
    ensures { BuffersKeepNoMore }
{}

/// As a block ends, each of its readers is there in its turn to be dropped.
pub fn readers_leave_in_turn()
    ensures { ReadersLeaveInTurn }
{}

/// As a block commits, each of its readers has in its turn the items to take.
pub fn readers_take_in_turn()
    ensures { ReadersTakeInTurn }
{}

/// A call whose reply reports no change leaves the state as it was.
pub fn otherwise_nothing_changes()
    ensures { OtherwiseNothingChanges }
{}

/// So does a claim of a block that was done before.
pub fn done_blocks_stay_done()
    ensures { DoneBlocksStayDone }
{}

/// What a source or a sink has taken need not be kept: all that is stored stays right without it.
pub fn what_is_taken_may_go()
    ensures { WhatIsTakenMayGo }
{}
