use crate::dice::Dice;
use crate::script::scripted;
use oper_core::Objs;

/// What the operations of a run read and write.
#[derive(Clone, Copy)]
pub enum Workload {
    /// Each writes an object of its own.
    Independent,
    /// All write one object.
    Put,
    /// All read another object and the one that they all write.
    Append,
    /// Half of them copy each object into the next one; the others overwrite these, in scattered order.
    Chain,
    /// Each is of one of four forms over any of so many objects.
    Random(u32),
    /// The last closes a chain of all.
    Close,
    /// All but two read the version that the first wrote and the last overwrites.
    Readers,
    /// Each object's value is copied into the next one, from object 0 up to this one, over and over.
    ShiftUp(u32),
    /// The same from this object down to object 0.
    ShiftDown(u32),
    /// One object is overwritten, and an earlier copy of it is read; it is copied each so many turns.
    Snap(u32),
    /// A copy is read many times, and overwritten last.
    Late,
    /// Many copies of one object, the last of which is the first to be overwritten.
    Fan,
    /// What the rows of the script of this number say.
    Script(u64),
}

/// When nodes are taken out.
#[derive(Clone, Copy)]
pub enum Removal {
    /// Never.
    Never,
    /// All of them at the end.
    AtEnd,
    /// As soon as there are more entries than so many, and all of them at the end.
    Beyond(u64),
}

/// How many operations a run has, and when nodes are taken out.
#[derive(Clone, Copy)]
pub struct Plan {
    pub count: u32,
    pub removal: Removal,
}

/// The kind of work of the name, or of the number of a script, and when nodes are taken out in it.
pub fn works(name: &str) -> Option<(Workload, Removal)> {
    match name {
        "independent" => Some((Workload::Independent, Removal::AtEnd)),
        "put" => Some((Workload::Put, Removal::AtEnd)),
        "append" => Some((Workload::Append, Removal::AtEnd)),
        "chain" => Some((Workload::Chain, Removal::AtEnd)),
        "random_16_held_64" => Some((Workload::Random(15), Removal::Beyond(64))),
        "random_4096_held_64" => Some((Workload::Random(4095), Removal::Beyond(64))),
        "random_65536_held_64" => Some((Workload::Random(65535), Removal::Beyond(64))),
        "random_16" => Some((Workload::Random(15), Removal::Never)),
        "random_4096" => Some((Workload::Random(4095), Removal::Never)),
        "random_65536" => Some((Workload::Random(65535), Removal::Never)),
        "random_16_emptied" => Some((Workload::Random(15), Removal::AtEnd)),
        "random_4096_emptied" => Some((Workload::Random(4095), Removal::AtEnd)),
        "random_65536_emptied" => Some((Workload::Random(65535), Removal::AtEnd)),
        "close" => Some((Workload::Close, Removal::AtEnd)),
        "readers" => Some((Workload::Readers, Removal::AtEnd)),
        "pipe64" => Some((Workload::ShiftDown(63), Removal::AtEnd)),
        "pipeup1000" => Some((Workload::ShiftUp(999), Removal::AtEnd)),
        "shift_down4096" => Some((Workload::ShiftDown(4095), Removal::AtEnd)),
        "snap10" => Some((Workload::Snap(10), Removal::AtEnd)),
        "snap1000" => Some((Workload::Snap(1000), Removal::AtEnd)),
        "snap100000" => Some((Workload::Snap(100000), Removal::AtEnd)),
        "late" => Some((Workload::Late, Removal::AtEnd)),
        "fan" => Some((Workload::Fan, Removal::AtEnd)),
        number => Some((
            Workload::Script(number.parse::<u64>().ok()?),
            Removal::AtEnd,
        )),
    }
}

/// What operation k of so many reads, and what it writes.
pub fn accesses(work: Workload, k: u32, count: u32, dice: &mut Dice) -> (Objs, Objs) {
    let is_end = k == 0 || k == count.saturating_sub(1);
    match work {
        Workload::Independent => put(k),
        Workload::Put => put(0),
        Workload::Append => (two(0, 1), Objs::one(0)),
        Workload::Chain => link(k, count / 2),
        Workload::Random(most) => random(most, dice),
        Workload::Close => close(k == 0, is_end),
        Workload::Readers if is_end => put(0),
        Workload::Readers => copy(0, k),
        Workload::ShiftUp(most) => shift(place(k, most)),
        Workload::ShiftDown(most) => shift(most.saturating_sub(place(k, most))),
        Workload::Snap(turns) => snap(k as u64 % (2 * turns as u64 + 1), turns as u64),
        Workload::Late => late(k as u64, count as u64 / 3, is_end),
        Workload::Fan => fan(k, count / 4),
        Workload::Script(number) => scripted(number, k),
    }
}

pub fn put(x: u32) -> (Objs, Objs) {
    (Objs::new(), Objs::one(x))
}

fn copy(x: u32, y: u32) -> (Objs, Objs) {
    (Objs::one(x), Objs::one(y))
}

fn two(x: u32, y: u32) -> Objs {
    let mut both = Objs::one(x);
    both.push(y);
    both
}

/// Operation k of a chain of so many copies.
fn link(k: u32, copies: u32) -> (Objs, Objs) {
    if k < copies {
        return copy(k, k + 1);
    }
    let scattered = k as u64 * 7919 % (copies as u64 + 1);
    put(scattered as u32)
}

/// An operation of a chain that the last one closes.
fn close(is_first: bool, is_end: bool) -> (Objs, Objs) {
    if is_first {
        (Objs::new(), two(0, 1))
    } else if is_end {
        (Objs::one(1), two(0, 1))
    } else {
        put(0)
    }
}

/// A put, a copy, an append or a swap over objects from 0 to `most`.
fn random(most: u32, dice: &mut Dice) -> (Objs, Objs) {
    let form = dice.next(3);
    let x = dice.next(most);
    let y = dice.next(most);
    of_form(form, x, y)
}

/// A put, a copy, an append or a swap.
pub fn of_form(form: u32, x: u32, y: u32) -> (Objs, Objs) {
    match form {
        0 => put(x),
        1 => copy(x, y),
        2 => (two(x, y), Objs::one(y)),
        _ => (two(x, y), two(x, y)),
    }
}

/// The place of operation k in its round over the objects from 0 to `most`.
fn place(k: u32, most: u32) -> u32 {
    (k as u64 % (most as u64 + 1)) as u32
}

/// Copies the object before this one into it, or puts object 0.
fn shift(x: u32) -> (Objs, Objs) {
    if x == 0 { put(0) } else { copy(x - 1, x) }
}

/// Operation t of so many turns: object 1 is overwritten, and object 2, which was copied from it before, is read.
fn snap(t: u64, turns: u64) -> (Objs, Objs) {
    if t >= turns.saturating_mul(2) {
        copy(1, 2)
    } else if t % 2 == 0 {
        put(1)
    } else {
        copy(2, 0)
    }
}

/// Operation k of a run in which object 2, a copy of object 1, is read so many times.
fn late(k: u64, times: u64, is_end: bool) -> (Objs, Objs) {
    if is_end {
        put(2)
    } else if k < times {
        put(0)
    } else if k == times {
        put(1)
    } else if k - times == 1 {
        copy(1, 2)
    } else if k - times <= times.saturating_add(1) {
        copy(2, 0)
    } else {
        put(1)
    }
}

/// Operation k of a run in which object 1 has so many copies. They are copied on in one order, and overwritten in the other.
fn fan(k: u32, copies: u32) -> (Objs, Objs) {
    let round = copies.saturating_add(1);
    let place = k % round;
    match k / round {
        0 if k == 0 => put(1),
        0 => copy(1, place.saturating_add(100)),
        1 => put(1),
        2 => copy(place.saturating_add(100), 2),
        _ => put(copies.saturating_sub(place).saturating_add(100)),
    }
}
