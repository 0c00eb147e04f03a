// Families of operations, which tell their codes by the tags.
ghost use Rattle.std.specs.Prelude.{◌≡◌, ℕ, Bool};
ghost use Rattle.oper_core.specs.Family.{IsTagged};
ghost use Rattle.oper_core.specs.declared.bounds.Bounds.{Bounds};

use crate::Oper;

/// A family of operations: one type, each of whose codes begins with a tag of the family.
pub trait Family: Oper {
    /// Whether it is a tag of the family.
    ghost has_tag: { ℕ → Bool };

    /// The same.
    fn owns(tag: u8) -> bool
        ensures { result ≡ has_tag tag };

    /// Each code begins with such a tag.
    ghost tagged: { (b : Bounds) → IsTagged has_tag (Self.meaning b) };
}
