//! Where the lines of a live run between files come from, and where its replies go.

/// The files of a live run's lines and replies, in place of the standard streams.
#[derive(Clone, Copy, Debug)]
pub struct Talk<'a> {
    pub control: Option<&'a str>,
    pub replies: Option<&'a str>,
}

impl Talk<'_> {
    /// Both are the standard streams.
    pub fn is_standard(&self) -> bool {
        self.control.is_none() && self.replies.is_none()
    }
}
