ghost use Rattle.std.specs.Prelude.{◌≡◌, ◌<◌, ◌≤◌, ◌^◌, ◌++◌, [], ◌∷◌, List, ℕ, IfNone, IfOk, IfSome, drop, length};
ghost use Rattle.std.specs.List.{AllByRecursion};
ghost use Rattle.oper_core.specs.Meaning.{StartsWithCode};
ghost use Rattle.op_rows.specs.Rows.{all_numbers, names_code, objects_alone, text_of, with_number as a_number};
ghost use Rattle.op_rows.specs.RowLaws.{rows_bounded, rows_lawful, rows_widen};
ghost use Rattle.op_meaning.specs.Table.{is_plain_tag, plain_meaning, plain_row};
ghost use Rattle.op_meaning.specs.TableLaws.{are_plain_rows, plain_tagged};
ghost use Rattle.op_meaning.specs.declared.plain_op.PlainOp.{PlainOp};
ghost use Rattle.op_meaning.specs.declared.plain_op.PlainOp.TheVariants.{Put};

use crate::effects;
use op_rows::{
    Names, both, known_as_small, number_and_text, one_number, three_numbers, two_numbers,
};
use oper_core::{Bounds, ByteList, Family, Memory, Objs, Oper, Refusal, Values};
use std::alloc::Global;

/// An operation on plain values, or on an application, whose state is the value of an object.
#[derive(Drop)]
pub enum PlainOp {
    /// Gives an object a value.
    Put { object: u32, value: ByteList },
    /// Gives an object the value of another.
    Copy { from: u32, to: u32 },
    /// Puts the value of an object after that of another.
    Append { from: u32, to: u32 },
    /// Leaves an object the first bytes of its value, and gives another the rest.
    Cut { from: u32, to: u32, place: u32 },
    /// Gives an object the records of another's value, which have so many bytes each, in byte order.
    Sort { from: u32, to: u32, width: u32 },
    /// Exchanges the values of two objects.
    Swap { first: u32, second: u32 },
    /// One step of an application.
    Exec { app: u32 },
    /// Adds the value of an object to an application's input.
    AppRead { app: u32, from: u32 },
    /// Gives an object an application's output.
    AppWrite { app: u32, to: u32 },
}

// Two objects, without a number and a text.
fn of_two<'a>(tag: u8, x: u32, y: u32, reads: Objs, writes: Objs) -> Names<'a>
    ensures { result ≡ objects_alone tag (x ∷ y ∷ []) reads writes }
{
    Names::of_objects(tag, both(x, y), reads, writes)
}

// Two objects, of which the first is read, and a number.
fn with_number<'a>(tag: u8, x: u32, y: u32, number: u32, writes: Objs) -> Names<'a>
    ensures { result ≡ a_number tag (x ∷ y ∷ []) number (x ∷ []) writes }
{
    Names {
        tag,
        objects: both(x, y),
        number: Some(number),
        text: None,
        reads: Objs::one(x),
        writes,
    }
}

impl PlainOp {
    /// What it names: the first half of its row.
    fn names(&self) -> Names<'_>
        ensures value { result ≡ (plain_row self.now).names }
        ensures fit { AllByRecursion (λ x. x < 2 ^ 32) (all_numbers (plain_row self.now).names) }
    {
        match self {
            PlainOp::Put { object, value } => Names {
                tag: 1,
                objects: Objs::one(*object),
                number: None,
                text: Some(value.as_slice()),
                reads: Objs::new(),
                writes: Objs::one(*object),
            },
            PlainOp::Copy { from, to } => of_two(2, *from, *to, Objs::one(*from), Objs::one(*to)),
            PlainOp::Append { from, to } => of_two(3, *from, *to, both(*from, *to), Objs::one(*to)),
            PlainOp::Cut { from, to, place } => with_number(
                4,
                *from,
                *to,
                *place,
                both(*from, *to),
            ),
            PlainOp::Sort { from, to, width } => with_number(5, *from, *to, *width, Objs::one(*to)),
            PlainOp::Swap {
                first: x,
                second: y,
            } => of_two(6, *x, *y, both(*x, *y), both(*x, *y)),
            PlainOp::Exec { app } => {
                Names::of_objects(7, Objs::one(*app), Objs::one(*app), Objs::one(*app))
            }
            PlainOp::AppRead { app, from } => of_two(
                8,
                *app,
                *from,
                both(*app, *from),
                Objs::one(*app),
            ),
            PlainOp::AppWrite { app, to } => of_two(9, *app, *to, Objs::one(*app), Objs::one(*to)),
        }
    }

    /// The operation whose code the bytes begin with; none where no operation of the grammar for these bounds does. (One that
    /// is read need not be in the grammar, but for a put.)
    fn read(alloc: Global, b: Bounds, bytes: &[u8]) -> Result<Option<Self>, Memory>
        ensures some { IfOk result (λ found. IfSome found (λ op. bytes.now ≡ names_code (plain_row op).names ++ drop (length (names_code (plain_row op).names)) bytes.now)) }
        ensures short { IfOk result (λ found. IfSome found (λ op. length (text_of (plain_row op).names) ≤ b.cap)) }
        ensures none { IfOk result (λ found. IfNone found ((op : PlainOp) → StartsWithCode (plain_meaning b) bytes.now op → ⊥)) }
    {
        let Some(tag) = bytes.first() else {
            return Ok(None);
        };
        let op = match *tag {
            1 => return read_put(alloc, b, bytes),
            2 => two_numbers(2, bytes).map(|(from, to)| PlainOp::Copy { from, to }),
            3 => two_numbers(3, bytes).map(|(from, to)| PlainOp::Append { from, to }),
            4 => three_numbers(4, bytes).map(|(from, to, place)| PlainOp::Cut { from, to, place }),
            5 => three_numbers(5, bytes).map(|(from, to, width)| PlainOp::Sort { from, to, width }),
            6 => two_numbers(6, bytes).map(|(first, second)| PlainOp::Swap { first, second }),
            7 => one_number(7, bytes).map(|app| PlainOp::Exec { app }),
            8 => two_numbers(8, bytes).map(|(app, from)| PlainOp::AppRead { app, from }),
            9 => two_numbers(9, bytes).map(|(app, to)| PlainOp::AppWrite { app, to }),
            _ => None,
        };
        Ok(op)
    }
}

// A put, whose object is there, and whose value is not too long. Both are tested before the value is copied.
fn read_put(alloc: Global, b: Bounds, bytes: &[u8]) -> Result<Option<PlainOp>, Memory>
    ensures some { IfOk result (λ found. IfSome found (λ op. bytes.now ≡ names_code (plain_row op).names ++ drop (length (names_code (plain_row op).names)) bytes.now)) }
    ensures short { IfOk result (λ found. IfSome found (λ op. length (text_of (plain_row op).names) ≤ b.cap)) }
    ensures none { IfOk result (λ found. IfNone found ((object : ℕ) (value : List ℕ) → StartsWithCode (plain_meaning b) bytes.now (Put object value) → ⊥)) }
{
    let Some((object, text)) = number_and_text(1, bytes) else {
        return Ok(None);
    };
    if object >= b.objects || text.len() > b.cap as usize {
        return Ok(None);
    }
    let value = ByteList::new(text.to_vec(alloc)?);
    Ok(Some(PlainOp::Put { object, value }))
}

impl Oper for PlainOp {
    ghost meaning = { plain_meaning };

    fn reads(&self) -> Objs {
        self.names().reads
    }

    fn writes(&self) -> Objs {
        self.names().writes
    }

    fn shape(&self, b: Bounds) -> Result<(), Refusal> {
        self.names().shape(b)
    }

    fn check(&self, b: Bounds, values: &Values) -> Result<(), Refusal> {
        match self {
            PlainOp::Put { .. } | PlainOp::Copy { .. } | PlainOp::Swap { .. } => Ok(()),
            PlainOp::Append { .. } => effects::require_room(b, values.get(0), values.get(1)),
            PlainOp::Cut { place, .. } => effects::require_place(*place, values.get(0)),
            PlainOp::Sort { width, .. } => effects::require_records(*width, values.get(0)),
            PlainOp::Exec { .. } => effects::require_input(values.get(0)),
            PlainOp::AppRead { .. } => effects::require_fitting(b, values.get(0), values.get(1)),
            PlainOp::AppWrite { .. } => effects::require_app(values.get(0)),
        }
    }

    fn apply(&self, alloc: Global, b: Bounds, values: &Values) -> Result<Values, Memory> {
        match self {
            PlainOp::Put { value, .. } => effects::one(alloc, value.as_slice()),
            PlainOp::Copy { .. } => effects::one(alloc, values.get(0)),
            PlainOp::Append { .. } => effects::append(alloc, b, values.get(0), values.get(1)),
            PlainOp::Cut { place, .. } => effects::cut(alloc, *place, values.get(0)),
            PlainOp::Sort { width, .. } => effects::sort(alloc, *width, values.get(0)),
            PlainOp::Swap { .. } => effects::two(alloc, values.get(1), values.get(0)),
            PlainOp::Exec { .. } => effects::exec(alloc, values.get(0)),
            PlainOp::AppRead { .. } => effects::app_read(alloc, b, values.get(0), values.get(1)),
            PlainOp::AppWrite { .. } => effects::app_write(alloc, values.get(0)),
        }
    }

    fn apply_in_place(
        self,
        alloc: Global,
        b: Bounds,
        values: &mut Values,
    ) -> Result<Values, Memory> {
        match self {
            PlainOp::Put { value, .. } => Ok(effects::moved(alloc, value)),
            PlainOp::Append { .. } => effects::append_in_place(alloc, b, values),
            PlainOp::Cut { place, .. } => effects::cut_in_place(alloc, place, values),
            PlainOp::Swap { .. } => Ok(effects::swap_in_place(alloc, values)),
            other => other.apply(alloc, b, values),
        }
    }

    fn code_length(&self) -> u64 {
        self.names().code_length() as u64
    }

    fn encode(&self, out: &mut Vec<u8>) -> Result<(), Memory> {
        self.names().write(out)
    }

    fn decode(alloc: Global, b: Bounds, bytes: &[u8]) -> Result<Option<(Self, usize)>, Memory> {
        let Some(op) = PlainOp::read(alloc, b, bytes)? else {
            return Ok(None);
        };
        known_as_small(b);
        if op.names().shape(b).is_err() {
            return Ok(None);
        }
        let length = op.names().code_length();
        Ok(Some((op, length)))
    }

    ghost bounded = { rows_bounded plain_row };

    ghost lawful = { rows_lawful plain_row are_plain_rows };

    ghost widens = { rows_widen plain_row are_plain_rows };
}

impl Family for PlainOp {
    ghost has_tag = { is_plain_tag };

    fn owns(tag: u8) -> bool {
        1 <= tag && tag <= 9
    }

    ghost tagged = { plain_tagged };
}
