//! The tokens of a graph file, as far as finding places needs them.
ghost use Rattle.std.specs.Prelude.{◌≤◌, length, IfSome};

/// What a token is.
#[derive(Clone, Copy, PartialEq, Eq)]
pub(crate) enum Mark {
    /// The end of a line.
    Newline,
    /// `=`
    Equals,
    /// `,`
    Comma,
    /// `.`
    Dot,
    /// `[`
    OpenArray,
    /// `{`
    OpenTable,
    /// `]` or `}`
    Close,
    /// A text in quotes, or a run of other bytes: a key, or a value or a part of it.
    Word,
}

/// A part of a text.
#[derive(Clone, Copy)]
pub(crate) struct Span {
    pub start: usize,
    pub end: usize,
}

/// A token, and where it stands.
#[derive(Clone, Copy)]
pub(crate) struct Token {
    pub mark: Mark,
    pub whole: Span,
    /// For a word, the part between its quotes.
    pub inner: Span,
}

/// The bytes of a part of a text, as far as it lies within the text.
pub(crate) fn part(text: &[u8], span: Span) -> &[u8] {
    if span.start <= span.end && span.end <= text.len() {
        &text[span.start..span.end]
    } else {
        &[]
    }
}

/// The bytes from a place on.
pub(crate) fn rest(text: &[u8], from: usize) -> &[u8] {
    if from <= text.len() {
        &text[from..]
    } else {
        &[]
    }
}

/// Where a text begins after its byte order mark.
pub(crate) fn first_place(text: &[u8]) -> usize {
    match text {
        [0xEF, 0xBB, 0xBF, ..] => 3,
        _ => 0,
    }
}

/// The line of a place, from 1.
pub(crate) fn line_of(text: &[u8], place: usize) -> usize {
    let before = Span {
        start: 0,
        end: place,
    };
    let mut line = 1usize;
    for byte in part(text, before) {
        if *byte == b'\n' {
            line = line.saturating_add(1);
        }
    }
    line
}

/// The first token at or after a place.
pub(crate) fn next_token(text: &[u8], from: usize) -> Option<Token>
    ensures { IfSome result (λ token. token.whole.end ≤ length text.now) }
{
    let start = blank_end(text, from);
    let bytes = rest(text, start);
    let [first, ..] = bytes else {
        return None;
    };
    let (mark, length, quotes) = match first {
        b'\n' => (Mark::Newline, 1, 0),
        b'=' => (Mark::Equals, 1, 0),
        b',' => (Mark::Comma, 1, 0),
        b'.' => (Mark::Dot, 1, 0),
        b'[' => (Mark::OpenArray, 1, 0),
        b'{' => (Mark::OpenTable, 1, 0),
        b']' | b'}' => (Mark::Close, 1, 0),
        b'"' | b'\'' => (Mark::Word, quoted_length(bytes, *first), 1),
        _ => (Mark::Word, bare_length(bytes), 0),
    };
    let end = start.saturating_add(length).min(text.len());
    let inner = Span {
        start: start.saturating_add(quotes),
        end: end.saturating_sub(quotes),
    };
    Some(Token {
        mark,
        whole: Span { start, end },
        inner,
    })
}

/// Where the spaces and the comment at a place end.
pub(crate) fn blank_end(text: &[u8], from: usize) -> usize {
    let mut is_comment = false;
    for (number, byte) in rest(text, from).iter().enumerate() {
        is_comment = match byte {
            b'\n' => return from.saturating_add(number),
            b'#' => true,
            _ if is_comment => true,
            b' ' | b'\t' | b'\r' => false,
            _ => return from.saturating_add(number),
        };
    }
    text.len()
}

// How many bytes a word without quotes has.
fn bare_length(bytes: &[u8]) -> usize {
    for (number, byte) in bytes.iter().enumerate() {
        if ends_word(*byte) {
            return number;
        }
    }
    bytes.len()
}

// Whether a byte is no part of a word without quotes.
fn ends_word(byte: u8) -> bool {
    matches!(
        byte,
        b' ' | b'\t'
            | b'\r'
            | b'\n'
            | b'#'
            | b'='
            | b','
            | b'.'
            | b'['
            | b']'
            | b'{'
            | b'}'
            | b'"'
            | b'\''
    )
}

// The length of the text in quotes that these bytes begin with.
fn quoted_length(bytes: &[u8], quote: u8) -> usize {
    match bytes {
        [_, second, third, more @ ..] if *second == quote && *third == quote => {
            long_length(more, quote).saturating_add(3)
        }
        [_, more @ ..] => short_length(more, quote).saturating_add(1),
        [] => 0,
    }
}

// The length of a text on one line, with the quote that ends it.
fn short_length(bytes: &[u8], quote: u8) -> usize {
    let mut is_escaped = false;
    for (number, byte) in bytes.iter().enumerate() {
        if is_escaped {
            is_escaped = false;
        } else if *byte == quote {
            return number.saturating_add(1);
        } else if *byte == b'\n' {
            return number;
        } else {
            is_escaped = *byte == b'\\' && quote == b'"';
        }
    }
    bytes.len()
}

// The length of a text on several lines. Three quotes end it; up to two more quotes before them are part of it.
fn long_length(bytes: &[u8], quote: u8) -> usize {
    let mut is_escaped = false;
    let mut quotes = 0u8;
    for (number, byte) in bytes.iter().enumerate() {
        if is_escaped {
            is_escaped = false;
        } else if *byte == quote {
            quotes = quotes.saturating_add(1);
        } else if quotes >= 3 {
            return number;
        } else {
            quotes = 0;
            is_escaped = *byte == b'\\' && quote == b'"';
        }
    }
    bytes.len()
}
