ghost use Rattle.std.specs.Prelude.{◌≡◌, ◌<◌, ◌++◌, length, IsTrue, IfOk, IfSome, OnOk, OnErr, IfNone};
ghost use Rattle.std.specs.Result.{result_err};
ghost use Rattle.oper_core.specs.Meaning.{Meaning, HasBounds, AreWithin, IsSmall, IsLawful, Widens, FitsReads, KeepsUnwritten, StartsWithCode};
ghost use Rattle.oper_core.specs.declared.bounds.Bounds.{Bounds};
ghost use Rattle.oper_core.specs.declared.refusal.Refusal.{Refusal};

use crate::{Bounds, Memory, Objs, Refusal, Values};
use std::alloc::Global;

/// A logged operation: it reads some objects and writes some, and what it writes is a function of what it reads.
pub trait Oper: Drop {
    /// What it reads, writes and makes, when it is refused, and its code.
    ghost meaning: { Bounds → Meaning Self };

    /// The objects that it reads.
    fn reads(&self) -> Objs
        ensures { (b : Bounds) → result ≡ (meaning b).reads self.now };

    /// The objects that it writes.
    fn writes(&self) -> Objs
        ensures { (b : Bounds) → result ≡ (meaning b).writes self.now };

    /// The first refusal that needs no value.
    fn shape(&self, b: Bounds) -> Result<(), Refusal>
        ensures { result_err result ≡ (meaning b).shape self.now };

    /// The first of the other refusals, on the values of the objects that it reads, in their order.
    fn check(&self, b: Bounds, values: &Values) -> Result<(), Refusal>
        requires { FitsReads (meaning b) self.now values.now }
        ensures { result_err result ≡ (meaning b).check self.now values.now };

    /// The new value of each object that it writes, in their order. Where it isn't applicable the values are empty.
    fn apply(&self, alloc: Global, b: Bounds, values: &Values) -> Result<Values, Memory>
        requires { FitsReads (meaning b) self.now values.now }
        ensures { IfOk result (λ made. made ≡ (meaning b).effect self.now values.now) };

    /// The same, where the operation is not needed again, nor what it writes: that value may be taken out and changed, and
    /// need not be copied. The values of objects that it does not write stay, and without memory all do.
    fn apply_in_place(self, alloc: Global, b: Bounds, values: &mut Values) -> Result<Values, Memory>
    where
        Self: Sized,
        requires { FitsReads (meaning b) self values.old }
        ensures made { IfOk result (λ made. made ≡ (meaning b).effect self values.old) }
        ensures kept { OnOk result (KeepsUnwritten ((meaning b).reads self) ((meaning b).writes self) values.old values.new) }
        ensures err { OnErr result (values.new ≡ values.old) }
    {
        self.apply(alloc, b, values)
    }

    /// How many bytes its code has.
    fn code_length(&self) -> u64
        ensures { (b : Bounds) → result ≡ length ((meaning b).code self.now) };

    /// Appends its code.
    fn encode(&self, out: &mut Vec<u8>) -> Result<(), Memory>
        requires { (b : Bounds) × IsTrue ((meaning b).is_encodable self.now) }
        ensures ok { (b : Bounds) → OnOk result (out.new.items ≡ out.old.items ++ (meaning b).code self.now) }
        ensures err { OnErr result (out.new.items ≡ out.old.items) };

    /// The operation whose code the bytes begin with, and the code's length; none exactly where they begin with no
    /// code of the grammar for these bounds.
    fn decode(alloc: Global, b: Bounds, bytes: &[u8]) -> Result<Option<(Self, usize)>, Memory>
    where
        Self: Sized,
        ensures some { IfOk result (λ found. IfSome found (λ pair.
            StartsWithCode (meaning b) bytes.now pair.0 × (pair.1 ≡ length ((meaning b).code pair.0)))) }
        ensures none { IfOk result (λ found. IfNone found ((op : Self) → StartsWithCode (meaning b) bytes.now op → ⊥)) };

    /// What they mean under some bounds is said of those bounds.
    ghost bounded: { (b : Bounds) → HasBounds b (meaning b) };

    /// What each operation of the grammar meets.
    ghost lawful: { (b : Bounds) → IsSmall b → IsLawful (meaning b) };

    /// Wider bounds refuse no command more, and change none.
    ghost widens: { (b c : Bounds) → AreWithin b c → Widens (meaning b) (meaning c) };
}
