use thiserror::Error;

/// Why a command is refused. Where several causes apply, the first of this order is reported.
#[derive(Clone, Copy, Debug, PartialEq, Eq, Error)]
pub enum Refusal {
    /// The store does not admit the operation's family.
    #[error("NoPages")]
    NoPages,
    #[error("NoObject")]
    NoObject,
    #[error("Same")]
    Same,
    #[error("BadPlace")]
    BadPlace,
    #[error("BadWidth")]
    BadWidth,
    #[error("NotApp")]
    NotApp,
    #[error("NotCode")]
    NotCode,
    #[error("Halted")]
    Halted,
    #[error("NoInput")]
    NoInput,
    #[error("NotNode")]
    NotNode,
    #[error("NoKey")]
    NoKey,
    #[error("NodeFull")]
    NodeFull,
    #[error("TooLarge")]
    TooLarge,
}
