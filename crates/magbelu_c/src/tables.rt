//! Tables that a C caller hands in.

/// What is appended to the tape of a source: these bytes as items.
#[repr(C)]
#[derive(Drop)]
pub struct Input<'a> {
    /// The name of the source.
    pub name: &'a [u8],
    pub bytes: &'a [u8],
}

/// What is asked of a sink.
#[repr(C)]
#[derive(Drop)]
pub struct Output<'a> {
    /// The name of the sink.
    pub name: &'a [u8],
    /// 0 for the bytes of its items, any other number for a line for each of its tags.
    pub tags: u32,
}

/// A tag that items are fed with.
#[repr(C)]
#[derive(Drop)]
pub struct Mark<'a> {
    /// The place of its item on the tape; the first is 0.
    pub offset: u64,
    pub value: i64,
    pub key: &'a [u8],
}
