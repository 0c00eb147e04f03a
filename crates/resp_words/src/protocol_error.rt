use thiserror::Error;

/// Why bytes are no command: the texts are those of Redis, where it has one.
#[derive(Clone, Copy, Debug, Drop, PartialEq, Eq, Error)]
pub enum ProtocolError {
    /// No command may have so many words.
    #[error("ERR Protocol error: invalid multibulk length")]
    BadCount,
    /// A word begins with another byte than a dollar sign.
    #[error("ERR Protocol error: expected '$', got '{0}'")]
    NoDollar(char),
    /// No word has this length, or other bytes follow it than the end of its line.
    #[error("ERR Protocol error: invalid bulk length")]
    BadLength,
    /// A line is too long.
    #[error("ERR Protocol error: too big inline request")]
    LongLine,
    /// A quotation mark or a control byte stands in a line. Redis reads quotes there.
    #[error("ERR Protocol error: a quote or a control byte in an inline request")]
    BadByte,
}
