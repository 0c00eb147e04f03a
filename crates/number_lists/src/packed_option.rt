ghost use Rattle.std.specs.Prelude.{◌≡◌, ◌<◌, None, Some};

use std::marker::Model;

/// A number below `u32::MAX`, or none, in the four bytes of a number; contracts see the `Option`.
#[derive(Clone, Copy)]
pub struct PackedOption {
    /// The number, or `u32::MAX` for none.
    code: u32,
}

impl Model for PackedOption {
    ghost use Rattle.std.specs.Prelude.{ℕ, Option};
    ghost use Rattle.number_lists.specs.Packed.{number_of, packed, packed-number_of};

    ghost Value = { Option ℕ };

    ghost view = { number_of };

    ghost inverse = { packed };

    ghost inverse_ok = { λ p _. packed-number_of p };
}

impl PackedOption {
    /// No number.
    pub fn none() -> Self
        ensures { result ≡ None }
    {
        PackedOption { code: u32::MAX }
    }

    /// The number.
    pub fn some(number: u32) -> Self
        requires { number < 4294967295 }
        ensures { result ≡ Some number }
    {
        PackedOption { code: number }
    }

    /// The number, if there is one.
    pub fn get(self) -> Option<u32>
        ensures { result ≡ self }
    {
        if self.code == u32::MAX {
            None
        } else {
            Some(self.code)
        }
    }
}
