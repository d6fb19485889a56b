/// What ended a line.
#[derive(Clone, Copy, PartialEq, Eq)]
pub enum LineEnd {
    /// An LF, and there may be more lines.
    LineFeed,
    /// The input's end.
    EndOfInput,
}
