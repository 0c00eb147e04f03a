// Whole runs: the words, the input, the status, and all that is printed.
use crate::running::{INIT, empty_folder, run};
use disk_model::Crash;
use redo_shell::Status;
use std::alloc::{AllocError, Global};
use std::test::Fail;

type Run = (&'static str, &'static [u8], Status, &'static [u8]);

const NEW: Run = (INIT, b"", Status::Done, b"");

// A store whose objects have room for nodes and programs.
const NODES: Run = ("redo init 8 1024 65536", b"", Status::Done, b"");

const NO_STORE: Run = ("redo run", b"get 0\n", Status::NotAStore, b"not a store\n");

const USAGE: &[u8] =
    b"usage: redo init N CAP LIMIT [--pages] | run [--tend] | dump | demo --seed S --steps T | upgrade N CAP LIMIT [--pages] | ship FROM | follow [--same]\n";

// The frame of a put of `b` with `2` into the page of object 2.
const PAGE: &[u8] = b"\x16\0\0\0\x01\x01\0\0\0\0\0\0\0\x15\x02\0\0\0\0\0\x01\0b\x01\02";

// Runs in one folder, empty at first, with a crash between them that loses what was not synced.
const ROWS: [&[Run]; 51] = [
    // A group allows no force, and ends once.
    &[
        NEW,
        (
            "redo run",
            b"begin\nput 0 aa\nget 0\nforce\nend\nforce\nend\n",
            Status::DoneWithRefusals,
            b"ok\nok\naa\nrefused InGroup\nok\nforced 1\nrefused NoGroup\n",
        ),
    ],
    // Nor anything else that may force.
    &[
        NEW,
        (
            "redo run",
            b"end\nbegin\nbegin\ninstall\ndrain\ncheckpoint\ntrim\nforce\nput 8 aa\nstat\nend\nend\nbegin 1\n",
            Status::DoneWithRefusals,
            b"refused NoGroup\nok\nrefused InGroup\nrefused InGroup\nrefused InGroup\nrefused InGroup\nrefused InGroup\nrefused InGroup\nrefused NoObject\nstat 0 0 0 0 0 51 0\nok\nrefused NoGroup\nbad\n",
        ),
    ],
    // A store is made larger, once, and keeps its values; each object then takes longer ones, and there are more.
    &[
        NEW,
        ("redo run", b"put 0 aa\nput 7 bb", Status::Done, b"ok\nok\n"),
        ("redo upgrade 16 128 65536", b"", Status::Done, b""),
        (
            "redo run",
            b"get 0\nget 7\nget 8\nget 15\nget 16\ncopy 7 15\nappend 0 15\nget 15\nforce\n",
            Status::DoneWithRefusals,
            b"aa\nbb\n-\n-\nrefused NoObject\nok\nok\nbbaa\nforced 4\n",
        ),
        (
            "redo upgrade 16 128 65536",
            b"",
            Status::AlreadyTwo,
            b"already version 2\n",
        ),
        (
            "redo init 8 64 65536",
            b"",
            Status::AlreadyStore,
            b"already a store\n",
        ),
        (
            "redo dump",
            b"",
            Status::Done,
            b"0 aa\n7 bb\n15 bbaa\ncommands 4\n",
        ),
    ],
    // It never becomes smaller.
    &[
        NEW,
        (
            "redo upgrade 4 64 65536",
            b"",
            Status::Smaller,
            b"smaller 8 64\n",
        ),
        (
            "redo upgrade 16 63 65536",
            b"",
            Status::Smaller,
            b"smaller 8 64\n",
        ),
        ("redo upgrade 8 64 4224", b"", Status::Done, b""),
        (
            "redo upgrade 4 64 65536",
            b"",
            Status::AlreadyTwo,
            b"already version 2\n",
        ),
    ],
    &[
        (
            "redo upgrade 16 128 65536",
            b"",
            Status::NotAStore,
            b"not a store\n",
        ),
        ("redo upgrade 16 128 4351", b"", Status::Usage, USAGE),
        NEW,
    ],
    // A store of version 2 is made so where one of its numbers is greater than those of version 1.
    &[
        ("redo init 1 16385 36866", b"", Status::Done, b""),
        ("redo run", b"put 0 aa", Status::Done, b"ok\n"),
        (
            "redo upgrade 1 16385 36866",
            b"",
            Status::AlreadyTwo,
            b"already version 2\n",
        ),
        ("redo dump", b"", Status::Done, b"0 aa\ncommands 1\n"),
    ],
    // A store that is made with pages takes an operation on one, and does it again after a crash.
    &[
        ("redo init 8 64 65536 --pages", b"", Status::Done, b""),
        ("redo follow", PAGE, Status::Done, b"followed 1\n"),
        (
            "redo dump",
            b"",
            Status::Done,
            b"2 05000100010062320400\ncommands 1\n",
        ),
        (
            "redo upgrade 8 64 65536 --pages",
            b"",
            Status::AlreadyTwo,
            b"already version 2\n",
        ),
    ],
    // One without refuses it, until it is upgraded to have them.
    &[
        NEW,
        (
            "redo follow",
            PAGE,
            Status::BadStream,
            b"stream BadFrame 4\n",
        ),
        ("redo upgrade 8 64 65536 --pages", b"", Status::Done, b""),
        ("redo follow", PAGE, Status::Done, b"followed 1\n"),
        ("redo ship 1", b"", Status::Done, PAGE),
    ],
    // The eighth key of a hash file splits its bucket.
    &[
        NODES,
        (
            "redo run",
            b"hset 0 7 01 a1\nhset 0 7 02 a2\nhset 0 7 03 a3\nhset 0 7 04 a4\nhset 0 7 05 a5\nhset 0 7 06 a6\nhset 0 7 07 a7\nhset 0 7 08 a8\nhget 0 7 08\nhdel 0 7 04\nhget 0 7 04\nforce\n",
            Status::Done,
            b"ok\nok\nok\nok\nok\nok\nok\nok\na8\nok\n-\nforced 11\n",
        ),
        (
            "redo run",
            b"hget 0 7 01\nhget 0 7 08\nhdel 0 7 04\nhset 0 7 01 b1\nhget 0 7 01\n",
            Status::DoneWithRefusals,
            b"a1\na8\nrefused NoKey\nok\nb1\n",
        ),
    ],
    // No object is left for a split.
    &[
        NODES,
        (
            "redo run",
            b"hset 0 1 01 a1\nhset 0 1 02 a2\nhset 0 1 03 a3\nhset 0 1 04 a4\nhset 0 1 05 a5\nhset 0 1 06 a6\nhset 0 1 07 a7\nhset 0 1 08 a8\n",
            Status::DoneWithRefusals,
            b"ok\nok\nok\nok\nok\nok\nok\nrefused NoRoom\n",
        ),
    ],
    // Eight keys whose hashes are alike in their low six bits fill a bucket that is as deep as can be.
    &[
        NODES,
        (
            "redo run",
            b"hset 0 7 00 a1\nhset 0 7 40 a2\nhset 0 7 80 a3\nhset 0 7 c0 a4\nhset 0 7 0000 a5\nhset 0 7 0040 a6\nhset 0 7 0080 a7\nhset 0 7 00c0 a8\nforce\n",
            Status::DoneWithRefusals,
            b"ok\nok\nok\nok\nok\nok\nok\nrefused HashFull\nforced 14\n",
        ),
    ],
    // What is no hash file, and ranges that are none.
    &[
        NODES,
        (
            "redo run",
            b"put 0 aa\nhget 0 7 01\nhset 0 7 01 a1\nhdel 0 7 01\nhget 1 1 01\nhset 2 1 01 a1\nhdel 1 8 01\nhget 1 2 01\n",
            Status::DoneWithRefusals,
            b"ok\nrefused BadHash\nrefused BadHash\nrefused BadHash\nrefused NoObject\nrefused NoObject\nrefused NoObject\n-\n",
        ),
    ],
    // A map is read both ways, and has what was forced after a crash.
    &[
        ("redo init 8 1024 65536 --pages", b"", Status::Done, b""),
        (
            "redo run",
            b"mget 0 7 61\nmset 0 7 61 01\nmset 0 7 6162 -\nmset 0 7 62 02\nmget 0 7 6162\nmget 0 7 63\nmrange 0 7 - - 9\nmrange 0 7 61 62 1\nmback 0 7 - 62 9\nmcount 0 7 61 -\nmnext 0 7 61\nmprev 0 7 -\nmnext 0 7 62\nmdel 0 7 61\nmdel 0 7 61\nforce\n",
            Status::DoneWithRefusals,
            b"none\nok\nok\nok\n-\nnone\n61:01 6162: 62:02\n61:01\n6162: 61:01\ncounted 3\n6162:\n62:02\n-\nok\nrefused NoKey\nforced 4\n",
        ),
        (
            "redo run",
            b"mrange 0 7 - - 9\nmset 0 7 - 00\nmset 1 0 61 01\nmget 0 8 61\nmcount 3 2 - -\nput 0 aa\nmget 0 7 61\nmset 0 7 61 01\n",
            Status::DoneWithRefusals,
            b"6162: 62:02\nrefused TooLong\nrefused NoObject\nrefused NoObject\nrefused NoObject\nok\nrefused BadMap\nrefused BadMap\n",
        ),
    ],
    // A store without pages has none but empty maps.
    &[
        NODES,
        (
            "redo run",
            b"mset 0 7 61 01\nmget 0 7 61\nmdel 0 7 61\nmprev 0 7 -\n",
            Status::DoneWithRefusals,
            b"refused NoPages\nnone\nrefused NoPages\n-\n",
        ),
    ],
    // A program that copies its input runs to the end of it.
    &[
        NODES,
        (
            "redo run",
            b"put 1 050000000000000006000000000000000700000000000000\nput 2 0a0b\npread 0 2\nprun 0 1 9\npwrite 0 3\nget 3\n",
            Status::Done,
            b"ok\nok\nok\nran 6\nok\n0a0b\n",
        ),
    ],
    // Stopped behind two steps, it goes on from there.
    &[
        NODES,
        (
            "redo run",
            b"put 1 050000000000000006000000000000000700000000000000\nput 2 0a0b\npread 0 2\nprun 0 1 2\nforce\n",
            Status::Done,
            b"ok\nok\nok\nran 2\nforced 5\n",
        ),
        (
            "redo run",
            b"prun 0 1 9\npwrite 0 3\nget 3\n",
            Status::Done,
            b"ran 4\nok\n0a0b\n",
        ),
    ],
    // What is no program is refused before a machine that has none to run.
    &[
        NODES,
        (
            "redo run",
            b"put 1 07\npexec 0 1\nprun 0 1 0\nprun 0 1 1\nput 1 -\npexec 0 1\nprun 0 1 9\nprun 0 0 1\n",
            Status::DoneWithRefusals,
            b"ok\nrefused NotCode\nran 0\nrefused NotCode\nok\nrefused Halted\nran 0\nrefused Same\n",
        ),
    ],
    // The end of the input closes a group, a crash takes it away.
    &[
        NEW,
        (
            "redo run",
            b"begin\nput 0 aa\narun 1 0\nput 1 bb",
            Status::Done,
            b"ok\nok\nran 0\nok\n",
        ),
        ("redo dump", b"", Status::Done, b"0 aa\n1 bb\ncommands 2\n"),
    ],
    &[
        NEW,
        (
            "redo run",
            b"put 0 aa\nget 0\nforce\n",
            Status::Done,
            b"ok\naa\nforced 1\n",
        ),
        ("redo run", b"get 0", Status::Done, b"aa\n"),
        ("redo dump", b"", Status::Done, b"0 aa\ncommands 1\n"),
    ],
    // The end of the input forces.
    &[
        NEW,
        ("redo dump", b"", Status::Done, b"commands 0\n"),
        ("redo run", b"put 0 aa", Status::Done, b"ok\n"),
        ("redo run", b"get 0", Status::Done, b"aa\n"),
    ],
    &[
        NEW,
        (
            "redo run",
            b"put 7 ff00\nput 2 01\ncopy 7 1\nput 2 -\n",
            Status::Done,
            b"ok\nok\nok\nok\n",
        ),
        (
            "redo dump",
            b"",
            Status::Done,
            b"1 ff00\n7 ff00\ncommands 4\n",
        ),
    ],
    &[
        NEW,
        (
            "redo run",
            b"put 0\nput 0 a\nget 00\n\n# \nput 0 AA\nget 8\n",
            Status::DoneWithRefusals,
            b"bad\nbad\nbad\nok\nrefused NoObject\n",
        ),
    ],
    &[
        NEW,
        (
            "redo run",
            b"put 0\nput 0 a\ncopy 00 1\nGET 0\n\n# x\n  #\n put  0   aa \r\nget 0 #",
            Status::DoneWithRefusals,
            b"bad\nbad\nbad\nbad\nok\nbad\n",
        ),
    ],
    &[
        NEW,
        (
            "redo run",
            b"put 0 aabb\ncut 0 1 0\nget 0\nget 1\ncut 1 0 2\nget 0\nget 1\ncut 1 0 3\n",
            Status::DoneWithRefusals,
            b"ok\nok\n-\naabb\nok\n-\naabb\nrefused BadPlace\n",
        ),
    ],
    &[
        ("redo init 2 16 4128", b"", Status::Done, b""),
        (
            "redo run",
            b"put 0 0001020304050607\nappend 0 1\nappend 0 1\nappend 0 1\nforce\n",
            Status::DoneWithRefusals,
            b"ok\nok\nok\nrefused TooLarge\nforced 3\n",
        ),
    ],
    &[
        NEW,
        (
            "redo run",
            b"copy 3 3\ncopy 0 8\ncopy 8 8\nget 8\n",
            Status::DoneWithRefusals,
            b"refused Same\nrefused NoObject\nrefused NoObject\nrefused NoObject\n",
        ),
    ],
    &[
        NEW,
        (
            "redo run",
            b"put 0 030102\nsort 0 1 1\nget 1\nsort 0 1 2\nsort 0 1 0\n\
                put 0 020201010202\nsort 0 1 2\nget 1\nsort 5 6 3\nget 6\n",
            Status::DoneWithRefusals,
            b"ok\nok\n010203\nrefused BadWidth\nrefused BadWidth\n\
                ok\nok\n010102020202\nok\n-\n",
        ),
    ],
    &[
        NEW,
        (
            "redo run",
            b"put 0 aa\nput 1 bb\nswap 0 1\nget 0\nget 1\ncopy 0 2\nget 2\nget 0\n",
            Status::Done,
            b"ok\nok\nok\nbb\naa\nok\nbb\nbb\n",
        ),
    ],
    &[
        NEW,
        ("redo run", b"put 2 dd\n", Status::Done, b"ok\n"),
        (
            "redo run",
            b"put 0 aa\nput 1 cc\nforce\nput 0 bb\nput 1 -\nforce\nput 0 0102\n",
            Status::Done,
            b"ok\nok\nforced 3\nok\nok\nforced 5\nok\n",
        ),
        (
            "redo run",
            b"force\nget 0\nget 1\nget 2\n",
            Status::Done,
            b"forced 6\n0102\n-\ndd\n",
        ),
    ],
    // An application takes a step for each byte of its input.
    &[
        NEW,
        (
            "redo run",
            b"put 1 050a\nexec 0\naread 0 1\nexec 0\nexec 0\nexec 0\nawrite 0 2\nget 2\nget 0\n",
            Status::DoneWithRefusals,
            b"ok\nrefused NoInput\nok\nok\nok\nrefused NoInput\nok\n05a5\n\
                0200000000000000a500000000000000000000000200000005a5\n",
        ),
    ],
    &[
        NEW,
        (
            "redo run",
            b"exec\nexec 0 1\naread 0\nawrite 0 x\naread 0 0\nawrite 8 8\nexec 8\n\
                put 0 01\nexec 0\naread 0 1\nawrite 0 1\n",
            Status::DoneWithRefusals,
            b"bad\nbad\nbad\nbad\nrefused Same\nrefused NoObject\nrefused NoObject\n\
                ok\nrefused NotApp\nrefused NotApp\nrefused NotApp\n",
        ),
    ],
    // Its state has 24 bytes beside input and output. The second run does the steps of the log again.
    &[
        ("redo init 2 27 4150", b"", Status::Done, b""),
        (
            "redo run",
            b"put 1 01020304\naread 0 1\nput 1 010203\naread 0 1\naread 0 1\nexec 0\nput 1 -\n",
            Status::DoneWithRefusals,
            b"ok\nrefused TooLarge\nok\nok\nrefused TooLarge\nok\nok\n",
        ),
        (
            "redo run",
            b"get 0\nexec 0\nawrite 0 1\nget 1\n",
            Status::Done,
            b"010000000000000001000000000000000200000002030100000001\nok\nok\n0121\n",
        ),
    ],
    // A store is not made twice, and stays as it is.
    &[
        NEW,
        (
            "redo init 2 16 8192",
            b"",
            Status::AlreadyStore,
            b"already a store\n",
        ),
        (
            "redo run",
            b"force\nget 7\n",
            Status::Done,
            b"forced 0\n-\n",
        ),
    ],
    &[
        NO_STORE,
        ("redo dump", b"", Status::NotAStore, b"not a store\n"),
    ],
    // Other words make no file, and a demo makes none.
    &[
        ("redo init 8 64 4223", b"", Status::Usage, USAGE),
        NO_STORE,
        NEW,
    ],
    &[
        ("redo init 0 64 65536", b"", Status::Usage, USAGE),
        NO_STORE,
        NEW,
    ],
    &[("redo fly", b"", Status::Usage, USAGE), NO_STORE, NEW],
    &[("redo", b"", Status::Usage, USAGE), NO_STORE, NEW],
    &[("redo --help", b"", Status::Usage, USAGE), NO_STORE, NEW],
    // Numbers and options as clap takes them.
    &[
        ("redo init 008 64 +65536", b"", Status::Done, b""),
        ("redo dump", b"", Status::Done, b"commands 0\n"),
    ],
    &[
        (
            "redo demo --steps=0 --seed=0",
            b"",
            Status::Done,
            b"demo seed 0 steps 0 lines 18 bytes 44 accepted 0 refused 0 sum 30072\n",
        ),
        (
            "redo demo --seed 0 --steps 0",
            b"",
            Status::Done,
            b"demo seed 0 steps 0 lines 18 bytes 44 accepted 0 refused 0 sum 30072\n",
        ),
    ],
    &[
        (
            "redo demo --seed 0 --steps 1",
            b"",
            Status::Done,
            b"demo seed 0 steps 1 lines 19 bytes 47 accepted 0 refused 0 sum 35902\n",
        ),
        NO_STORE,
        NEW,
    ],
    &[
        NEW,
        (
            "redo run",
            b"put 0 aa\ncopy 0 1\nput 0 bb\nstat\ninstall\nstat\ninstall\nstat\ninstall\nstat\n",
            Status::Done,
            b"ok\nok\nok\nstat 3 2 3 0 3 112 0\nok\nstat 2 1 2 3 3 112 0\nok\nstat 1 1 1 3 3 112 0\nok\nstat 0 0 0 3 3 112 0\n",
        ),
    ],
    &[
        NEW,
        (
            "redo run",
            b"copy 0 1\ncopy 1 0\nstat\nput 1 cc\nstat\ninstall\nstat\n",
            Status::Done,
            b"ok\nok\nstat 2 2 2 0 2 92 0\nok\nstat 2 2 3 0 3 111 0\nok\nstat 1 1 1 3 3 111 0\n",
        ),
    ],
    &[
        NEW,
        (
            "redo run",
            b"put 0 aa\nput 1 bb\nswap 0 1\nstat\ninstall\nstat\nget 0\nget 1\n",
            Status::Done,
            b"ok\nok\nok\nstat 1 2 3 0 3 112 0\nok\nstat 1 1 1 3 3 130 1\nbb\naa\n",
        ),
    ],
    &[
        NEW,
        (
            "redo run",
            b"put 0 aacc\nput 1 bb\nswap 0 1\ninstall\nstat\n",
            Status::Done,
            b"ok\nok\nok\nok\nstat 1 1 1 3 3 131 1\n",
        ),
    ],
    &[
        NEW,
        (
            "redo run",
            b"put 0 aa\ncheckpoint\nstat\n",
            Status::Done,
            b"ok\nok\nstat 1 1 1 1 1 100 0\n",
        ),
    ],
    &[
        NEW,
        (
            "redo run",
            b"put 0 aa\nappend 1 0\ncheckpoint\n",
            Status::Done,
            b"ok\nok\nok\n",
        ),
        ("redo run", b"get 0\n", Status::Done, b"aa\n"),
    ],
    &[
        NEW,
        (
            "redo run",
            b"put 0 aa\nput 1 bb\ninstall\ntrim\nstat\n",
            Status::Done,
            b"ok\nok\nok\nok\nstat 1 1 1 2 2 82 0\n",
        ),
        ("redo run", b"get 0\nget 1\n", Status::Done, b"aa\nbb\n"),
        ("redo dump", b"", Status::Done, b"0 aa\n1 bb\ncommands 2\n"),
    ],
    &[
        NEW,
        (
            "redo run",
            b"put 0 bb\nappend 0 1\ninstall\ninstall\n",
            Status::Done,
            b"ok\nok\nok\nok\n",
        ),
        ("redo run", b"get 1\n", Status::Done, b"bb\n"),
    ],
    // Nothing is left after a drain and a trim, and nothing to install is no refusal.
    &[
        NEW,
        (
            "redo run",
            b"install\ndrain\nput 0 aa\nput 1 bb\nswap 0 1\ndrain\ntrim\nstat 0\ninstall\nforce\n",
            Status::DoneWithRefusals,
            b"ok\nok\nok\nok\nok\nok\nok\nbad\nok\nforced 3\n",
        ),
        ("redo run", b"get 0\nget 1\n", Status::Done, b"bb\naa\n"),
    ],
];

// Whether the program answers so.
fn answers(alloc: Global, runs: &[Run]) -> Result<bool, AllocError> {
    let mut machine = empty_folder(alloc)?;
    let mut answered = true;
    for (words, input, status, said) in runs {
        machine = machine.crash(Crash::Old);
        answered &= run(alloc, &mut machine, words, input) == *status;
        answered &= machine.said() == *said;
    }
    Ok(answered)
}

#[test]
fn runs_are_answered(rt: HostRuntime) -> Result<(), Fail> {
    for (row, runs) in ROWS.iter().enumerate() {
        assert!(rt; answers(rt.alloc(), runs)?, "row {row}");
    }
    Ok(())
}

// Puts of an object: a digit, the length of the value, and how often.
type Puts = (u8, usize, usize);

// Logs that are filled: the words that make the store, the puts, and the last answers.
const FULL: [(&str, &[Puts], &[u8]); 4] = [
    (
        "redo init 1 64 4224",
        &[(b'0', 1, 219), (b'0', 25, 1)],
        b"ok\nfull 4217 48 4224\n",
    ),
    (
        "redo init 2 16 4128",
        &[(b'0', 16, 119), (b'2', 17, 1), (b'1', 17, 1), (b'1', 16, 1)],
        b"ok\nrefused NoObject\nrefused TooLarge\nfull 4102 39 4128\n",
    ),
    (
        "redo init 2 1024 6144",
        &[(b'0', 1024, 5), (b'0', 861, 1)],
        b"ok\nfull 5266 884 6144\n",
    ),
    (
        "redo init 2 1024 6144",
        &[(b'0', 1024, 5), (b'0', 860, 1)],
        b"ok\nok\n",
    ),
];

// A put of so many bytes for an object, as a line.
fn push_put(script: &mut Vec<u8>, object: u8, length: usize) -> Result<(), AllocError> {
    script.extend_from_slice(b"put ")?;
    script.push(object)?;
    script.push(b' ')?;
    for _ in 0..length {
        script.extend_from_slice(b"61")?;
    }
    script.push(b'\n')?;
    Ok(())
}

fn script_of(alloc: Global, puts: &[Puts]) -> Result<Vec<u8>, AllocError> {
    let mut script = Vec::new(alloc);
    for (object, length, count) in puts {
        for _ in 0..*count {
            push_put(&mut script, *object, *length)?;
        }
    }
    Ok(script)
}

// Whether the program, run with a script, ends with these answers.
fn ends(alloc: Global, words: &str, script: &[u8], said: &[u8]) -> Result<bool, AllocError> {
    let mut machine = empty_folder(alloc)?;
    run(alloc, &mut machine, words, b"");
    run(alloc, &mut machine, "redo run", script);
    Ok(machine.said().ends_with(said))
}

fn puts_end(alloc: Global, words: &str, puts: &[Puts], said: &[u8]) -> Result<bool, AllocError> {
    let script = script_of(alloc, puts)?;
    ends(alloc, words, script.as_slice(), said)
}

// A group is full: nothing of it is forced, and what was accepted stays.
#[test]
fn a_group_is_full(rt: HostRuntime) -> Result<(), Fail> {
    let alloc = rt.alloc();
    let mut script = Vec::new(alloc);
    script.extend_from_slice(b"begin\n")?;
    for _ in 0..120 {
        push_put(&mut script, b'0', 16)?;
    }
    script.extend_from_slice(b"end\nforce\n")?;
    let said = b"ok\nfull 4102 34 4128\nok\nforced 119\n".as_slice();
    assert!(rt; ends(alloc, "redo init 2 16 4128", script.as_slice(), said)?);
    Ok(())
}

#[test]
fn a_record_fits_to_the_last_byte(rt: HostRuntime) -> Result<(), Fail> {
    for (words, puts, said) in FULL {
        assert!(rt; puts_end(rt.alloc(), words, puts, said)?);
    }
    Ok(())
}

// Whether a comment of so many bytes is answered so.
fn long_line_ends(alloc: Global, length: usize, said: &[u8]) -> Result<bool, AllocError> {
    let script = vec![in alloc; b'#'; length]?;
    ends(alloc, INIT, script.as_slice(), said)
}

#[test]
fn a_line_has_40000_bytes_at_most(rt: HostRuntime) -> Result<(), Fail> {
    assert!(rt; !long_line_ends(rt.alloc(), 40000, b"\n")?);
    assert!(rt; long_line_ends(rt.alloc(), 40001, b"bad\n")?);
    Ok(())
}
