ghost use Rattle.std.specs.Prelude.{◌≡◌, ◌+◌, ◌<◌, ◌^◌};
ghost use Rattle.page_map.specs.Steps.{first_places, last_places, places_to};

use std::marker::Model;

/// Cells of a page, one behind the other.
#[derive(Drop)]
pub struct Places {
    first: usize,
    count: usize,
}

impl Model for Places {
    ghost use Rattle.std.specs.Prelude.{◌+◌, ◌<◌, ◌^◌};
    ghost use Rattle.page_map.specs.Steps.{Places as Cells};

    ghost Value = { Cells };

    ghost view = { λ p. record { first = p.first; count = p.count } };

    ghost invariant = { λ p. p.first + p.count < 2 ^ 17 };
}

impl Places {
    /// The cells from one place up to another, and none where that isn't behind it.
    pub(crate) fn between(first: usize, behind: usize) -> Self
        requires first { first < 2 ^ 16 }
        requires behind { behind < 2 ^ 16 }
        ensures { result ≡ places_to first behind }
    {
        Places {
            first,
            count: behind.saturating_sub(first),
        }
    }

    /// The place of the first.
    pub fn first(&self) -> usize
        ensures value { result ≡ self.now.first }
        ensures few { self.now.first + self.now.count < 2 ^ 17 }
    {
        self.first
    }

    /// How many they are.
    pub fn count(&self) -> usize
        ensures { result ≡ self.now.count }
    {
        self.count
    }

    /// The first of them, at most so many.
    pub fn from_front(&self, most: usize) -> Self
        ensures { result ≡ first_places most self.now }
    {
        Places {
            first: self.first,
            count: most.min(self.count),
        }
    }

    /// The last of them, at most so many.
    pub fn from_back(&self, most: usize) -> Self
        ensures { result ≡ last_places most self.now }
    {
        Places {
            first: self.first + self.count.saturating_sub(most),
            count: most.min(self.count),
        }
    }
}
