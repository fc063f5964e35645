//! Laws of slices.

ghost use Rattle.slice_laws.specs.Slices.{ForgettingResumes, StreamsResume, StreamsShift};
ghost use Rattle.slice_laws.specs.Tags.{TagsResume, TagsShift};
ghost use Rattle.slice_laws.specs.Pieces.{ResumedPiecesGoOn, ResumedTagsGoOn, PiecesGoOn, TagsGoOn};
ghost use Rattle.slice_laws.specs.Counting.{StreamsAreCounted};
ghost use Rattle.slice_laws.specs.Joining.{SlicesJoin, SliceTagsJoin};
ghost use Rattle.slice_laws.specs.Jumps.{HeadsResume, AdditiveScramblersResume};

/// Some iterations of the tapes are left out. If all blocks forget, the run on the rest gives the rest of each stream,
/// from the item on from which the stream is right.
pub fn streams_shift()
    ensures { StreamsShift }
{}

/// It gives the rest of the tags.
pub fn tags_shift()
    ensures { TagsShift }
{}

/// A stream goes on with what the run on the rest gives behind the place where the stream stood.
pub fn pieces_go_on()
    ensures { PiecesGoOn }
{}

/// Its tags go on with those of the run on the rest.
pub fn tags_go_on()
    ensures { TagsGoOn }
{}

/// A head goes on as a head with fewer items to pass.
pub fn heads_resume()
    ensures { HeadsResume }
{}

/// An additive scrambler goes on as one that begins with the register it has reached.
pub fn additive_scramblers_resume()
    ensures { AdditiveScramblersResume }
{}

/// Where blocks count from the start, a second network gives the rest of the streams: in it these blocks have the
/// parameters that they go on with.
pub fn streams_resume()
    ensures { StreamsResume }
{}

/// It gives the rest of the tags.
pub fn tags_resume()
    ensures { TagsResume }
{}

/// A stream of the first network goes on with what the second gives.
pub fn resumed_pieces_go_on()
    ensures { ResumedPiecesGoOn }
{}

/// Its tags go on with those of the second network.
pub fn resumed_tags_go_on()
    ensures { ResumedTagsGoOn }
{}

/// If all blocks forget, the second network may be the first.
pub fn forgetting_resumes()
    ensures { ForgettingResumes }
{}

/// On tapes of whole iterations a stream is as long as the counts of rates say.
pub fn streams_are_counted()
    ensures { StreamsAreCounted }
{}

/// A slice that begins enough iterations early, and drops what it gives in these, goes on where the run before it
/// stood.
pub fn slices_join()
    ensures { SlicesJoin }
{}

/// Its tags go on with those of the run before it.
pub fn slice_tags_join()
    ensures { SliceTagsJoin }
{}
