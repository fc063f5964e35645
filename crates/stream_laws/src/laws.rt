//! Laws of streams, tags and settings.

ghost use Rattle.stream_model.specs.Network.{StreamsUnfold};
ghost use Rattle.stream_laws.specs.Cuts.{CutsDoNotMatter, FiringsStay};
ghost use Rattle.stream_laws.specs.Firings.{ClosedFormsAreRight};
ghost use Rattle.stream_laws.specs.Past.{WhatIsPastStays, WhatComesLaterDisturbsNothing, FeedingAppends};
ghost use Rattle.stream_laws.specs.Putting.{PuttingKeepsOrder, PuttingReadsAsLast, CallsReadAsTheirList};
ghost use Rattle.stream_laws.specs.Tags.{TagsUnfold, NoTagIsLate};

/// In a network whose connections form no loop, each stream is its block's equation on the streams that enter the
/// block.
pub fn streams_solve_their_equations()
    ensures { StreamsUnfold }
{}

/// An output's tags are what its policy chooses of the entering tags, moved, sorted and cut at the stream's length.
pub fn tags_solve_their_equations()
    ensures { TagsUnfold }
{}

/// Where the firings of a block are cut into stretches changes nothing of what it gives, nor of what it is given.
pub fn cuts_do_not_matter()
    ensures { CutsDoNotMatter }
{}

/// What a block is given for its firings, and gives by them, stays where streams and settings stay as far as they take
/// them.
pub fn firings_stay()
    ensures { FiringsStay }
{}

/// Feeding only appends: each output's items of before are a beginning of those of after, and its tags of before are
/// those of after on the items of before.
pub fn feeding_appends()
    ensures { FeedingAppends }
{}

/// What is handed the same as far as the first firings of each block take it has streams and tags that agree as far as
/// these give.
pub fn what_is_past_stays()
    ensures { WhatIsPastStays }
{}

/// What is fed later, and what is set behind the items that the first firings of a block take, changes nothing of them.
pub fn what_comes_later_disturbs_nothing()
    ensures { WhatComesLaterDisturbsNothing }
{}

/// What firings bring later lies behind all items that were given before, so a list of tags that is kept in order as
/// they come is the output's, doubles kept.
pub fn no_tag_is_late()
    ensures { NoTagIsLate }
{}

/// How often a block fires, and how many more firings fit, by division in place of a search.
pub fn closed_forms_are_right()
    ensures { ClosedFormsAreRight }
{}

/// Settings that are kept by their items, one of each, read as the list of the calls that made them: each call's
/// setting as if it came last.
pub fn settings_read_as_their_calls()
    ensures order { PuttingKeepsOrder }
    ensures last { PuttingReadsAsLast }
    ensures calls { CallsReadAsTheirList }
{}
