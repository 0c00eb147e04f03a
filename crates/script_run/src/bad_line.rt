// A line that is outside the grammar.

use crate::forms::line_form;
use script_lines::Next;
use thiserror::Error;

/// Why a line is bad.
#[derive(Clone, Copy, Debug, PartialEq, Eq, Error)]
pub enum BadCause {
    /// No line begins with its first word.
    #[error("no such command")]
    Word,
    /// A line that begins with its first word has this form.
    #[error("expected \"{0}\"")]
    Form(&'static str),
    /// It has more than 40,000 bytes.
    #[error("it has more than 40000 bytes")]
    Long,
}

/// A line that is bad.
#[derive(Clone, Copy, Debug, PartialEq, Eq)]
pub struct BadLine {
    /// Its number: lines are counted from 1, those that get no answer too.
    pub number: u64,
    /// What is wrong with it.
    pub cause: BadCause,
}

/// The first field of a line, empty where it has none.
fn first_field(line: &[u8]) -> &[u8] {
    line.split(|byte| matches!(*byte, b' ' | b'\r'))
        .find(|field| !field.is_empty())
        .unwrap_or(b"".as_slice())
}

/// Why the line that a reader has found is bad, whose bytes are these where it is not too long.
pub fn bad_cause(next: Next, line: &[u8]) -> BadCause {
    if next == Next::Long {
        return BadCause::Long;
    }
    match line_form(first_field(line)) {
        Some(form) => BadCause::Form(form),
        None => BadCause::Word,
    }
}
