// What an operation names, and its code.
ghost use Rattle.std.specs.Prelude.{◌≡◌, ◌<◌, ◌≤◌, ◌^◌, ◌++◌, [], ◌∷◌, IfSome, None, OnErr, OnOk, Some, length, option_map};
ghost use Rattle.std.specs.Result.{result_err};
ghost use Rattle.oper_core.specs.Meaning.{IsSmall};
ghost use Rattle.op_rows.specs.Rows.{Names as Named, listed_number, named, names_code, names_shape, objects_alone, text_code, text_of};

use oper_core::{Bounds, Memory, Objs, Refusal};
use std::marker::Model;

/// All that is in an operation's code, and which of its objects it reads and writes.
#[derive(Drop)]
pub struct Names<'a> {
    /// The first byte of the code.
    pub tag: u8,
    /// The objects of the code, at most two.
    pub objects: Objs,
    /// The number behind them, if it has one.
    pub number: Option<u32>,
    /// The text behind that, if it has one.
    pub text: Option<&'a [u8]>,
    /// The objects that it reads.
    pub reads: Objs,
    /// The objects that it writes.
    pub writes: Objs,
}

impl<'a> Model for Names<'a> {
    ghost Value = { Named };

    ghost view = { λ s. record {
      tag = s.tag;
      objects = s.objects;
      numbers = listed_number s.number;
      text = option_map (λ t. t.now) s.text;
      reads = s.reads;
      writes = s.writes;
    } };

    ghost invariant = { λ s. IfSome s.number (λ n. n < 2 ^ 32) × (length s.objects ≤ 2) };
}

impl<'a> Names<'a> {
    /// Objects, without a number and a text.
    pub fn of_objects(tag: u8, objects: Objs, reads: Objs, writes: Objs) -> Self
        requires { length objects ≤ 2 }
        ensures { result ≡ objects_alone tag objects reads writes }
    {
        Names {
            tag,
            objects,
            number: None,
            text: None,
            reads,
            writes,
        }
    }

    /// The first refusal that needs no value.
    pub fn shape(&self, b: Bounds) -> Result<(), Refusal>
        ensures { result_err result ≡ names_shape b self.now }
    {
        require_objects(b, self.objects.as_slice())?;
        let text = self.text.unwrap_or(&[]);
        if text.len() > b.cap as usize {
            return Err(Refusal::TooLarge);
        }
        Ok(())
    }

    /// How many bytes the code has.
    pub fn code_length(&self) -> usize
        ensures { result ≡ length (names_code self.now) }
    {
        let numbers = self.objects.as_slice().len() + usize::from(self.number.is_some());
        match self.text {
            Some(text) => 1 + 4 * numbers + text_length(text),
            None => 1 + 4 * numbers,
        }
    }

    /// Appends the code. Without memory for it the bytes stay as they are.
    pub fn write(&self, out: &mut Vec<u8>) -> Result<(), Memory>
        requires { length (text_of self.now) < 2 ^ 32 }
        ensures ok { OnOk result (out.new.items ≡ out.old.items ++ names_code self.now) }
        ensures err { OnErr result (out.new.items ≡ out.old.items) }
    {
        out.reserve(self.code_length())?;
        out.push(self.tag)?;
        for object in self.objects.as_slice() {
            out.extend_from_slice(&object.to_le_bytes())?;
        }
        if let Some(number) = self.number {
            out.extend_from_slice(&number.to_le_bytes())?;
        }
        if let Some(text) = self.text {
            out.extend_from_slice(&(text.len() as u32).to_le_bytes())?;
            out.extend_from_slice(text)?;
        }
        Ok(())
    }
}

/// How many bytes a text has in a code, where its length stands before it.
fn text_length(text: &[u8]) -> usize
    ensures value { result ≡ length (text_code (Some text.now)) }
    ensures fits { length text.now < 2 ^ 63 }
{
    4 + text.len()
}

/// Refuses objects of which the store lacks one, and an object that is named twice.
fn require_objects(b: Bounds, objects: &[u32]) -> Result<(), Refusal>
    requires { length objects.now ≤ 2 }
    ensures { result_err result ≡ named b objects.now [] }
{
    if !objects.iter().all(|object| *object < b.objects) {
        return Err(Refusal::NoObject);
    }
    if objects.len() == 2 && objects[0] == objects[1] {
        return Err(Refusal::Same);
    }
    Ok(())
}

/// That both numbers have four bytes, for proofs. It does nothing.
pub fn known_as_small(b: Bounds)
    ensures { IsSmall b }
{
    let _objects = b.objects;
    let _cap = b.cap;
}

/// The two objects, in this order.
pub fn both(first: u32, second: u32) -> Objs
    ensures { result ≡ first ∷ second ∷ [] }
{
    let mut objects = Objs::one(first);
    objects.push(second);
    objects
}
