// What no clause says of lines: that calls succeed with ample memory, and worked rows.
ghost use Rattle.std.specs.Prelude.{⊤, []};

use crate::running::Pieces;
use app_program::ProgramOp;
use command_words::{Asked, read_words};
use disk_model::{Failed, Source};
use formats::Params;
use op_codec::{AllOps, Sum};
use op_meaning::PlainOp;
use oper_core::{ByteList, Refusal};
use script_lines::{
    Answer, BackupDenial, Denial, Grouping, Line, LineErr, LineReader, Making, MapChange,
    MapQuestion, Next, Question, ReadError, Saving, StatLine, Upkeep, answer_line, answer_text,
    parse_line,
};
use std::alloc::Global;

// A line of each form, and which one it is, counted from 1. That it asks what it says is a clause.
const FORMS: [(&[u8], u32); 43] = [
    (b"put 4294967295 00FfA9", 1),
    (b"copy 0 1", 2),
    (b"append 7 12", 3),
    (b"cut 0 1 4294967295", 4),
    (b"sort 5 6 0", 5),
    (b"swap 2 1", 6),
    (b"exec 4294967295", 7),
    (b"aread 3 4", 8),
    (b"awrite 3 4", 9),
    (b"arun 3 4294967295", 10),
    (b"tinsert 0 7 01 Ff", 11),
    (b"tget 0 7 0102", 12),
    (b"tdelete 7 0 01", 13),
    (b"trange 0 7 00 ff", 14),
    (b"get 4294967295", 15),
    (b"force", 16),
    (b"install", 17),
    (b"drain", 18),
    (b"checkpoint", 19),
    (b"trim", 20),
    (b"stat", 21),
    (b"begin", 22),
    (b"end", 23),
    (b"pexec 3 4", 24),
    (b"pread 3 4", 25),
    (b"pwrite 3 4294967295", 26),
    (b"prun 3 4 0", 27),
    (b"hset 0 7 01 Ff", 28),
    (b"hget 7 0 0102", 29),
    (b"hdel 0 7 01", 30),
    (b"bstart", 31),
    (b"bcopy 4294967295", 32),
    (b"bfinish", 33),
    (b"abort", 34),
    (b"mset 0 7 01 -", 35),
    (b"mget 0 7 -", 36),
    (b"mdel 0 7 0102", 37),
    (b"mrange 0 7 - - 4294967295", 38),
    (b"mback 0 7 00 Ff 0", 39),
    (b"mcount 7 0 00 -", 40),
    (b"mnext 0 7 -", 41),
    (b"mprev 0 7 ff", 42),
    (
        b"mset 0 7 000102030405060708090a0b0c0d0e0f101112131415161718191a1b1c1d1e1f20 00",
        35,
    ),
];

// Lines, and the plain ones that ask the same.
const SPACED: [(&[u8], &[u8]); 10] = [
    (b"  put   0  aa ", b"put 0 aa"),
    (b"put 0 aa\r", b"put 0 aa"),
    (b"put 0 -  \r", b"put 0 -"),
    (b" copy  3 3", b"copy 3 3"),
    (b" force ", b"force"),
    (b"force\r", b"force"),
    (b"cut  10 20  30", b"cut 10 20 30"),
    (b" get   0", b"get 0"),
    (b" trim ", b"trim"),
    (b"  stat\r", b"stat"),
];

const SKIPPED: [&[u8]; 10] = [
    b"",
    b" ",
    b"     ",
    b"\r",
    b"  \r",
    b"#",
    b"# x",
    b"#put 0 aa",
    b"  # put 0 1 2 3 4 5",
    b"#\r\r",
];

const BAD: [&[u8]; 87] = [
    b"mset 0 7 01",
    b"mget 0 7",
    b"mget 0 7 01 02",
    b"mdel 0 01",
    b"mrange 0 7 - -",
    b"mback 0 7 - - -",
    b"mcount 0 7 - - 1",
    b"mnext 0 7 0",
    b"bstart 0",
    b"bcopy",
    b"bcopy 1 2",
    b"bcopy -",
    b"bfinish 1",
    b"hset 0 7 01",
    b"hget 0 7 -",
    b"hdel 0 7",
    b"pexec 0",
    b"pread 0 1 2",
    b"pwrite 0 -",
    b"prun 0 1",
    b"install 1",
    b"drain #",
    b"Checkpoint",
    b"trim -",
    b"stat 0",
    b"stats",
    b"put",
    b"put 0",
    b"put 0 ",
    b"put 0 a",
    b"put 0 aab",
    b"put 0 ag",
    b"put 0 --",
    b"put 0 -a",
    b"put 00 aa",
    b"put 01 aa",
    b"put x aa",
    b"put 4294967296 aa",
    b"put 0 aa bb",
    b"put 0 aa # x",
    b"put # aa",
    b"put 0 aa\r\r",
    b"\rput 0 aa",
    b"put 0\raa",
    b"PUT 0 aa",
    b"Put 0 aa",
    b"put\t0 aa",
    b"put0 aa",
    b"copy",
    b"copy 0",
    b"copy 00 1",
    b"copy 0 01",
    b"copy 0 1 2",
    b"copy 0 -",
    b"append 0",
    b"append 0 1 2",
    b"cut 0 1",
    b"cut 0 1 2 3",
    b"cut 0 1 x",
    b"sort 0 1",
    b"Sort 0 1 1",
    b"sort 0 1 2 3",
    b"swap 0",
    b"swap 0 1 2",
    b"swap 0 4294967296",
    b"exec",
    b"exec 00",
    b"exec 0 1",
    b"Exec 0",
    b"aread 0",
    b"aread 0 1 2",
    b"awrite 0 x",
    b"awrite 0 1 2",
    b"get",
    b"get 00",
    b"get 0 1",
    b"get -1",
    b"get +1",
    b"get 18446744073709551616",
    b"force 1",
    b"Force",
    b"forced",
    b"forc",
    b"dump",
    b"x # y",
    b"\x00",
    b"\r ",
];

// The form of a command's line, and its numbers, with the length of a put's value.
fn op_told(op: &PlainOp) -> [u32; 4] {
    match op {
        PlainOp::Put { object, value } => {
            let length = u32::try_from(value.as_slice().len()).unwrap_or(u32::MAX);
            [1, *object, length, 0]
        }
        PlainOp::Copy { from, to } => [2, *from, *to, 0],
        PlainOp::Append { from, to } => [3, *from, *to, 0],
        PlainOp::Cut { from, to, place } => [4, *from, *to, *place],
        PlainOp::Sort { from, to, width } => [5, *from, *to, *width],
        PlainOp::Swap { first, second } => [6, *first, *second, 0],
        PlainOp::Exec { app } => [7, *app, 0, 0],
        PlainOp::AppRead { app, from } => [8, *app, *from, 0],
        PlainOp::AppWrite { app, to } => [9, *app, *to, 0],
    }
}

// The same of an interpreted application's.
fn program_told(op: &ProgramOp) -> [u32; 4] {
    match op {
        ProgramOp::Step { app, program } => [24, *app, *program, 0],
        ProgramOp::Feed { app, from } => [25, *app, *from, 0],
        ProgramOp::Drain { app, to } => [26, *app, *to, 0],
    }
}

// The same of any command. No line asks for one on a node of a tree or a bucket of a hash file.
fn command_told(op: &AllOps) -> [u32; 4] {
    match op {
        Sum::First(op) => op_told(op),
        Sum::Second(Sum::Second(Sum::First(op))) => program_told(op),
        _ => [0; 4],
    }
}

// The form of what makes several commands.
fn making_told(making: &Making) -> u32 {
    match making {
        Making::AppRun { .. } => 10,
        Making::TreeInsert { .. } => 11,
        Making::TreeDelete { .. } => 13,
        Making::ProgramRun { .. } => 27,
        Making::HashPut { .. } => 28,
        Making::HashDelete { .. } => 30,
        Making::Map {
            change: MapChange::Set { .. },
            ..
        } => 35,
        Making::Map {
            change: MapChange::Delete { .. },
            ..
        } => 37,
    }
}

// The form of a question to a map.
fn map_told(question: &MapQuestion) -> u32 {
    match question {
        MapQuestion::Get { .. } => 36,
        MapQuestion::Range { .. } => 38,
        MapQuestion::Back { .. } => 39,
        MapQuestion::Count { .. } => 40,
        MapQuestion::Next { .. } => 41,
        MapQuestion::Prev { .. } => 42,
    }
}

// The form of a question.
fn question_told(question: &Question) -> u32 {
    match question {
        Question::Get { .. } => 15,
        Question::TreeGet { .. } => 12,
        Question::TreeRange { .. } => 14,
        Question::HashGet { .. } => 29,
        Question::Map { question, .. } => map_told(question),
    }
}

// The form of a line, and the numbers of a command or a `get`. A line that is skipped has none of these forms.
fn line_told(line: &Line) -> [u32; 4] {
    match line {
        Line::Run(op) => command_told(op),
        Line::Make(making) => [making_told(making), 0, 0, 0],
        Line::Ask(Question::Get { object }) => [15, *object, 0, 0],
        Line::Ask(question) => [question_told(question), 0, 0, 0],
        Line::Force => [16, 0, 0, 0],
        Line::Keep(Upkeep::Install) => [17, 0, 0, 0],
        Line::Keep(Upkeep::Drain) => [18, 0, 0, 0],
        Line::Keep(Upkeep::Checkpoint) => [19, 0, 0, 0],
        Line::Keep(Upkeep::Trim) => [20, 0, 0, 0],
        Line::Stat => [21, 0, 0, 0],
        Line::Group(Grouping::Begin) => [22, 0, 0, 0],
        Line::Group(Grouping::End) => [23, 0, 0, 0],
        Line::Group(Grouping::Abort) => [34, 0, 0, 0],
        Line::Save(Saving::Start) => [31, 0, 0, 0],
        Line::Save(Saving::Copy { .. }) => [32, 0, 0, 0],
        Line::Save(Saving::Finish) => [33, 0, 0, 0],
        Line::Skip => [0; 4],
    }
}

fn told(alloc: Global, line: &[u8]) -> [u32; 4] {
    match parse_line(alloc, line) {
        Ok(line) => line_told(&line),
        Err(_) => [0; 4],
    }
}

fn has_form(alloc: Global, line: &[u8], form: u32) -> bool {
    told(alloc, line)[0] == form
}

fn is_spaced(alloc: Global, line: &[u8], plain: &[u8]) -> bool {
    let plain = told(alloc, plain);
    plain[0] != 0 && told(alloc, line) == plain
}

fn is_skipped(alloc: Global, line: &[u8]) -> bool {
    matches!(parse_line(alloc, line), Ok(Line::Skip))
}

fn is_bad(alloc: Global, line: &[u8]) -> bool {
    matches!(parse_line(alloc, line), Err(LineErr::Bad))
}

fn good_lines_are_parsed(alloc: Global) -> bool {
    let mut good = true;
    for (line, form) in FORMS {
        good = good && has_form(alloc, line, form);
    }
    for (line, plain) in SPACED {
        good = good && is_spaced(alloc, line, plain);
    }
    good
}

fn other_lines_are_parsed(alloc: Global) -> bool {
    let mut good = true;
    for line in SKIPPED {
        good = good && is_skipped(alloc, line);
    }
    for line in BAD {
        good = good && is_bad(alloc, line);
    }
    good
}

#[test]
fn lines_are_parsed(rt: HostRuntime) {
    assert!(rt; good_lines_are_parsed(rt.alloc()) && other_lines_are_parsed(rt.alloc()));
}

fn longest_is_taken(alloc: Global) -> Option<bool> {
    let mut line = vec![in alloc; b' '; 40000].ok()?;
    let blank = is_skipped(alloc, line.as_slice());
    line[0] = b'#';
    line[39999] = b'\r';
    let comment = is_skipped(alloc, line.as_slice());
    line.push(b' ').ok()?;
    Some(blank && comment && is_bad(alloc, line.as_slice()))
}

#[test]
fn the_longest_line(rt: HostRuntime) {
    assert!(rt; longest_is_taken(rt.alloc()) == Some(true));
}

// Lines of a put, and the bytes of its value.
const HEX: [(&[u8], &[u8]); 3] = [
    (b"put 0 -", &[]),
    (b"put 0 00", &[0]),
    (b"put 0 09aAfFC3", &[0x09, 0xaa, 0xff, 0xc3]),
];

fn puts(alloc: Global, line: &[u8], want: &[u8]) -> bool {
    match parse_line(alloc, line) {
        Ok(Line::Run(Sum::First(PlainOp::Put { value, .. }))) => value.as_slice() == want,
        _ => false,
    }
}

fn all_hex_is_read(alloc: Global) -> bool {
    let mut good = true;
    for (line, want) in HEX {
        good = good && puts(alloc, line, want);
    }
    good
}

#[test]
fn hex_is_read(rt: HostRuntime) {
    assert!(rt; all_hex_is_read(rt.alloc()));
}

// Answers, and their texts.
const TEXTS: [(Answer<'static>, &[u8]); 40] = [
    (Answer::Done, b"ok"),
    (Answer::Value(&[]), b"-"),
    (Answer::Value(&[0x00, 0x9a, 0xff]), b"009aff"),
    (Answer::Forced(0), b"forced 0"),
    (
        Answer::Forced(18446744073709551615),
        b"forced 18446744073709551615",
    ),
    (Answer::Bad, b"bad"),
    (Answer::Refused(Refusal::NoObject), b"refused NoObject"),
    (Answer::Refused(Refusal::Same), b"refused Same"),
    (Answer::Refused(Refusal::BadPlace), b"refused BadPlace"),
    (Answer::Refused(Refusal::BadWidth), b"refused BadWidth"),
    (Answer::Refused(Refusal::NotApp), b"refused NotApp"),
    (Answer::Refused(Refusal::NotCode), b"refused NotCode"),
    (Answer::Refused(Refusal::Halted), b"refused Halted"),
    (Answer::Refused(Refusal::NoInput), b"refused NoInput"),
    (Answer::Refused(Refusal::NotNode), b"refused NotNode"),
    (Answer::Refused(Refusal::NoKey), b"refused NoKey"),
    (Answer::Refused(Refusal::NodeFull), b"refused NodeFull"),
    (Answer::Refused(Refusal::TooLarge), b"refused TooLarge"),
    (Answer::Denied(Denial::BadHash), b"refused BadHash"),
    (Answer::Denied(Denial::HashFull), b"refused HashFull"),
    (Answer::Denied(Denial::NoRoom), b"refused NoRoom"),
    (Answer::Denied(Denial::BadMap), b"refused BadMap"),
    (Answer::Denied(Denial::MapFull), b"refused MapFull"),
    (Answer::Denied(Denial::TooLong), b"refused TooLong"),
    (Answer::Absent, b"none"),
    (Answer::Counted(100000), b"counted 100000"),
    (
        Answer::BackupDenied(BackupDenial::InBackup),
        b"refused InBackup",
    ),
    (
        Answer::BackupDenied(BackupDenial::NoBackup),
        b"refused NoBackup",
    ),
    (
        Answer::BackupDenied(BackupDenial::AlreadyStore),
        b"refused AlreadyStore",
    ),
    (
        Answer::BackupDenied(BackupDenial::NotCopied),
        b"refused NotCopied",
    ),
    (Answer::Copied(0), b"copied 0"),
    (Answer::Copied(65535), b"copied 65535"),
    (Answer::Saved(3), b"saved 3"),
    (
        Answer::Full {
            used: 5248,
            need: 902,
            limit: 6144,
        },
        b"full 5248 902 6144",
    ),
    (
        Answer::End {
            number: 4611686018427387904,
        },
        b"end 4611686018427387904",
    ),
    (
        Answer::Object {
            object: 0,
            value: &[0xaa],
        },
        b"0 aa",
    ),
    (
        Answer::Object {
            object: 4294967295,
            value: &[0x0f, 0xf0],
        },
        b"4294967295 0ff0",
    ),
    (
        Answer::Object {
            object: 1,
            value: &[],
        },
        b"1 -",
    ),
    (Answer::Commands(1), b"commands 1"),
    (
        Answer::Stat(StatLine {
            nodes: 3,
            dirty: 2,
            uninstalled: 10,
            forced: 0,
            accepted: 18446744073709551615,
            used: 112,
            identities: 1,
        }),
        b"stat 3 2 10 0 18446744073709551615 112 1",
    ),
];

fn has_text(alloc: Global, answer: &Answer, want: &[u8]) -> bool {
    match answer_text(alloc, answer) {
        Ok(text) => text.as_slice() == want,
        Err(_) => false,
    }
}

fn has_line(alloc: Global, answer: &Answer, want: &[u8]) -> bool {
    match answer_line(alloc, answer) {
        Ok(line) => line.as_slice() == want,
        Err(_) => false,
    }
}

fn all_have_their_texts(alloc: Global) -> bool {
    let mut good = has_line(alloc, &Answer::Forced(3), b"forced 3\n");
    for (answer, want) in TEXTS {
        good = good && has_text(alloc, &answer, want);
    }
    good
}

#[test]
fn answers_have_their_texts(rt: HostRuntime) {
    assert!(rt; all_have_their_texts(rt.alloc()));
}

fn listed(alloc: Global, bytes: &[u8]) -> Option<ByteList> {
    let bytes = bytes.to_vec(alloc).ok()?;
    Some(ByteList::new(bytes))
}

fn entries_have_their_texts(alloc: Global) -> Option<bool> {
    let mut pairs = Vec::new(alloc);
    let none = has_text(alloc, &Answer::Entries(pairs.as_slice()), b"-");
    pairs
        .push((listed(alloc, &[0x0a])?, listed(alloc, &[])?))
        .ok()?;
    pairs
        .push((listed(alloc, &[0x0b, 0xff])?, listed(alloc, &[0x01])?))
        .ok()?;
    let two = has_text(alloc, &Answer::Entries(pairs.as_slice()), b"0a: 0bff:01");
    Some(none && two)
}

#[test]
fn entries_are_said(rt: HostRuntime) {
    assert!(rt; entries_have_their_texts(rt.alloc()) == Some(true));
}

fn strings(alloc: Global, words: &[&str]) -> Option<Vec<String>> {
    let mut strings = Vec::new(alloc);
    for word in words {
        strings.push(word.to_string(alloc).ok()?).ok()?;
    }
    Some(strings)
}

const PAGES: Params = Params {
    objects: 1,
    cap: 16,
    limit: 4128,
    more: true,
};

const LARGEST: Params = Params {
    objects: 65535,
    cap: 1048576,
    limit: 536870912,
    more: false,
};

const LEAST: Params = Params {
    objects: 1,
    cap: 16,
    limit: 4128,
    more: false,
};

// Words, and what they ask.
const WORDS: [(&[&str], Option<Asked>); 49] = [
    (&["redo", "run"], Some(Asked::Run { tend: false })),
    (&["redo", "run", "--tend"], Some(Asked::Run { tend: true })),
    (&["redo", "run", "--tend", "--tend"], None),
    (&["redo", "run", "--tend=true"], None),
    (&["redo", "run", "tend"], None),
    (&["redo", "dump"], Some(Asked::Dump)),
    (&["redo", "dump", "run"], None),
    (&["redo", "Dump"], None),
    (
        &["redo", "init", "1", "16", "4128"],
        Some(Asked::Init(LEAST)),
    ),
    (
        &["redo", "init", "65535", "1048576", "536870912"],
        Some(Asked::Init(LARGEST)),
    ),
    (&[], None),
    (&["redo"], None),
    (&["redo", "fly"], None),
    (&["redo", "--help"], None),
    (&["redo", "Run"], None),
    (&["redo", "run", "run"], None),
    (&["redo", "init"], None),
    (&["redo", "init", "8", "64"], None),
    (&["redo", "init", "8", "64", "65536", "1"], None),
    (&["redo", "init", "0", "64", "65536"], None),
    (&["redo", "init", "65536", "64", "65536"], None),
    (&["redo", "init", "8", "15", "65536"], None),
    (&["redo", "init", "8", "1048577", "536870912"], None),
    (&["redo", "init", "8", "64", "4223"], None),
    (&["redo", "init", "8", "64", "536870913"], None),
    (&["redo", "help"], None),
    (&["redo", "init", "--", "-8", "64", "65536"], None),
    (
        &["redo", "init", "+65535", "01048576", "536870912"],
        Some(Asked::Init(LARGEST)),
    ),
    (
        &["redo", "init", "--", "1", "16", "4128"],
        Some(Asked::Init(LEAST)),
    ),
    (
        &["redo", "demo", "--steps=3", "--seed", "7"],
        Some(Asked::Demo { seed: 7, steps: 3 }),
    ),
    (
        &["redo", "demo", "--seed", "7", "--seed", "7", "--steps", "3"],
        None,
    ),
    (&["redo", "demo", "--seed", "7"], None),
    (
        &["redo", "upgrade", "65535", "1048576", "536870912"],
        Some(Asked::Upgrade(LARGEST)),
    ),
    (
        &["redo", "init", "1", "16", "4128", "--pages"],
        Some(Asked::Init(PAGES)),
    ),
    (
        &["redo", "upgrade", "--pages", "1", "16", "4128"],
        Some(Asked::Upgrade(PAGES)),
    ),
    (
        &["redo", "init", "--pages", "--pages", "1", "16", "4128"],
        None,
    ),
    (&["redo", "upgrade", "8", "64"], None),
    (&["redo", "upgrade", "8", "64", "4223"], None),
    (&["redo", "upgraded", "8", "64", "65536"], None),
    (&["redo", "ship", "1"], Some(Asked::Ship { from: 1 })),
    (
        &["redo", "ship", "4611686018427387903"],
        Some(Asked::Ship {
            from: 4611686018427387903,
        }),
    ),
    (&["redo", "ship", "0"], None),
    (&["redo", "ship", "4611686018427387904"], None),
    (&["redo", "ship"], None),
    (&["redo", "ship", "1", "2"], None),
    (&["redo", "follow"], Some(Asked::Follow { same: false })),
    (
        &["redo", "follow", "--same"],
        Some(Asked::Follow { same: true }),
    ),
    (&["redo", "follow", "--same", "--same"], None),
    (&["redo", "follow", "1"], None),
];

fn ask(alloc: Global, words: &[&str], want: Option<Asked>) -> bool {
    match strings(alloc, words) {
        Some(words) => read_words(alloc, words.as_slice()).ok() == want,
        None => false,
    }
}

fn all_words_are_read(alloc: Global) -> bool {
    let mut good = true;
    for (words, want) in WORDS {
        good = good && ask(alloc, words, want);
    }
    good
}

#[test]
fn words_are_read(rt: HostRuntime) {
    assert!(rt; all_words_are_read(rt.alloc()));
}

/// Fails.
#[derive(Drop)]
struct Broken {
    faults: u64,
}

impl Source for Broken {
    ghost tells = { λ _. ⊤ };

    ghost left = { λ _. [] };

    ghost faults = { λ s. s.faults };

    fn read(&mut self, _into: &mut [u8]) -> Result<usize, Failed> {
        self.faults = self.faults.saturating_add(1);
        Err(Failed)
    }
}

// Scripts, and what comes of them line by line.
const SCRIPTS: [(&[u8], &[(Next, &[u8])]); 5] = [
    (b"", &[(Next::End, b"")]),
    (b"\n", &[(Next::Line, b""), (Next::End, b"")]),
    (
        b"ab\nc",
        &[(Next::Line, b"ab"), (Next::Line, b"c"), (Next::End, b"")],
    ),
    (b"ab\n", &[(Next::Line, b"ab"), (Next::End, b"")]),
    (
        b"\n\na\r\n",
        &[
            (Next::Line, b""),
            (Next::Line, b""),
            (Next::Line, b"a\r"),
            (Next::End, b""),
        ],
    ),
];

// The reader finds this next, and the line that it has then.
fn finds(reader: &mut LineReader, source: &mut Pieces, next: Next, line: &[u8]) -> bool {
    reader.next(source) == Ok(next) && reader.line() == line
}

fn is_read(alloc: Global, script: &[u8], size: usize, wants: &[(Next, &[u8])]) -> bool {
    let Ok(mut reader) = LineReader::new(alloc) else {
        return false;
    };
    let mut source = Pieces { left: script, size };
    let mut good = true;
    for (next, line) in wants {
        good = good && finds(&mut reader, &mut source, *next, line);
    }
    good
}

fn all_are_read(alloc: Global, size: usize) -> bool {
    let mut good = true;
    for (script, wants) in SCRIPTS {
        good = good && is_read(alloc, script, size, wants);
    }
    good
}

#[test]
fn lines_are_read(rt: HostRuntime) {
    assert!(rt;
        all_are_read(rt.alloc(), 1) && all_are_read(rt.alloc(), 2) && all_are_read(rt.alloc(), 100)
    );
}

// A line of 40,000 bytes, one of 40,001, and a short one.
fn long_lines(alloc: Global) -> Option<Vec<u8>> {
    let mut script = vec![in alloc; b'a'; 40000].ok()?;
    script.push(b'\n').ok()?;
    script.extend_from_slice(&[b'b'; 40001]).ok()?;
    script.extend_from_slice(b"\nc\n").ok()?;
    Some(script)
}

fn longer_are_thrown_away(alloc: Global, script: &[u8], size: usize) -> bool {
    let Ok(mut reader) = LineReader::new(alloc) else {
        return false;
    };
    let mut source = Pieces { left: script, size };
    let first = reader.next(&mut source) == Ok(Next::Line) && reader.line().len() == 40000;
    let second = reader.next(&mut source) == Ok(Next::Long);
    first
        && second
        && finds(&mut reader, &mut source, Next::Line, b"c")
        && reader.next(&mut source) == Ok(Next::End)
}

fn all_longer_are_thrown_away(alloc: Global) -> bool {
    match long_lines(alloc) {
        Some(script) => {
            longer_are_thrown_away(alloc, script.as_slice(), 1)
                && longer_are_thrown_away(alloc, script.as_slice(), 65536)
        }
        None => false,
    }
}

#[test]
fn long_lines_are_thrown_away(rt: HostRuntime) {
    assert!(rt; all_longer_are_thrown_away(rt.alloc()));
}

fn a_fault_is_reported(alloc: Global) -> bool {
    let Ok(mut reader) = LineReader::new(alloc) else {
        return false;
    };
    let mut source = Broken { faults: 0 };
    reader.next(&mut source) == Err(ReadError::ReadFault) && source.faults == 1
}

#[test]
fn a_failing_source_is_told(rt: HostRuntime) {
    assert!(rt; a_fault_is_reported(rt.alloc()));
}
