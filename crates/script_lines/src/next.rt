/// What a reader of lines has found.
#[derive(Clone, Copy, Debug, PartialEq, Eq)]
pub enum Next {
    /// A line, which the reader holds.
    Line,
    /// A line that is longer than a line may be. It is thrown away.
    Long,
    /// The end of the input: no line is left.
    End,
}
