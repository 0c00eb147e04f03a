// What a run notes of its script beside its answers.
ghost use Rattle.std.specs.Prelude.{◌≡◌, ◌<◌, ◌^◌, List, ℕ, option_map};
ghost use Rattle.script_lines.specs.Reading.{IsLine};
ghost use Rattle.script_run.specs.Noted.{TakesLine, none_noted, or_this};
ghost use Rattle.script_run.specs.Finding.{IsLineOf};

use crate::bad_line::{BadCause, BadLine, bad_cause};
use script_lines::{Line, Next};
use std::marker::Model;

/// What a run notes of its script: how many lines it took, and which of them was the first that was bad.
#[derive(Drop)]
pub struct Notes {
    lines: u64,
    first_bad: Option<u64>,
    cause: BadCause,
}

impl Model for Notes {
    ghost use Rattle.script_run.specs.Noted.{Noted};

    ghost Value = { Noted };

    ghost view = { λ n. record { lines = n.lines; first_bad = n.first_bad } };
}

impl Notes {
    /// Nothing is noted.
    pub fn new() -> Self
        ensures { result ≡ none_noted }
    {
        Notes {
            lines: 0,
            first_bad: None,
            cause: BadCause::Word,
        }
    }

    /// The first line that was bad, if one was.
    pub fn first_bad(&self) -> Option<BadLine>
        ensures { option_map (λ line. line.number) result ≡ self.now.first_bad }
    {
        match self.first_bad {
            Some(number) => Some(BadLine {
                number,
                cause: self.cause,
            }),
            None => None,
        }
    }

    /// Notes that the line which was taken last is bad, unless one before it was.
    fn note(&mut self, next: Next, line: &[u8])
        ensures lines { self.new.lines ≡ self.old.lines }
        ensures first_bad { self.new.first_bad ≡ or_this self.old.first_bad self.new.lines }
    {
        match self.first_bad {
            Some(_) => (),
            None => {
                self.first_bad = Some(self.lines);
                self.cause = bad_cause(next, line);
            }
        }
    }

    /// Takes the line that a reader has found, by what it asks; none where it is bad.
    pub fn take(&mut self, asked: &Option<Line>, next: Next, line: &[u8])
        requires few { self.old.lines < 2 ^ 40 }
        requires asks { (text : List ℕ) → IsLine next line.now text → IsLineOf asked.now text }
        ensures { TakesLine next line.now self.old self.new }
    {
        self.lines += 1;
        match asked {
            None => self.note(next, line),
            _ => (),
        }
    }
}
