//! Parts of streams that are read and written separately.

ghost use Rattle.std.specs.Prelude.{◌≡◌};
ghost use Rattle.pipeline.specs.Parts.{whole_stream, whole_tape};

/// Where a source's tape stands on a whole tape. Only marks need it: their lines count the items of the whole.
#[derive(Clone, Copy, Debug)]
pub struct TapePart {
    /// The item of the whole tape at which the plant's tape begins. Marks on items before it are passed over.
    pub origin: u64,
    /// Whether the whole tape goes on behind the end of the reader. Then the lines of marks that are left are not read.
    pub goes_on: bool,
}

impl TapePart {
    /// The whole tape.
    pub fn whole() -> TapePart
        ensures { result ≡ whole_tape }
    {
        TapePart {
            origin: 0,
            goes_on: false,
        }
    }
}

/// Where a sink's stream stands in a whole stream, and what of it is written.
#[derive(Clone, Copy, Debug)]
pub struct StreamPart {
    /// The item of the whole stream at which the plant's stream begins. Lines of tags count the items of the whole.
    pub origin: u64,
    /// How many of the sink's first items are not written, nor the tags on them.
    pub drop: u64,
}

impl StreamPart {
    /// The whole stream.
    pub fn whole() -> StreamPart
        ensures { result ≡ whole_stream }
    {
        StreamPart { origin: 0, drop: 0 }
    }
}
