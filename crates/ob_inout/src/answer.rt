//! Answers of the readers of In.

/// What a reader of In answers.
#[derive(Clone, Copy, Debug, PartialEq, Eq)]
pub enum Answer<T> {
    /// It was read.
    Value(T),
    /// It doesn't stand there, or there is no line, or an earlier read failed: `Done` is FALSE.
    Failed,
    /// The buffer is empty: the read goes on once a line is given.
    NeedsLine,
}
