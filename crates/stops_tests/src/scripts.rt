// Scripts, each on a store: what is said, and what may be found after a stop.
use crate::acts::Act;
use crate::running::{Room, crashed, run};
use disk_model::{Crash, MemMachine};
use std::alloc::{AllocError, Global};

#[derive(Clone, Copy)]
pub struct Script {
    pub room: Room,
    /// The words that make the store.
    pub init: &'static str,
    /// The lines that are run before, all of them.
    pub before: &'static [u8],
    pub act: Act,
    /// All that is said.
    pub said: &'static [u8],
    /// By the number of lines that were said, the fewest and the most commands that the files may stand for.
    pub within: &'static [(usize, usize)],
    /// What a dump says, by the number of commands.
    pub dumps: &'static [&'static [u8]],
}

// Room for a store of 8 objects of 64 bytes and one log.
const ONE_LOG: Room = Room {
    sizes: [1264, 4096, 1],
    calls: 400,
    bytes: 16384,
};

// The same with both logs.
const TWO_LOGS: Room = Room {
    sizes: [1264, 4096, 4096],
    calls: 400,
    bytes: 16384,
};

// Room for a store of 5 objects of 1,024 bytes.
const NODES: Room = Room {
    sizes: [9366, 4096, 4096],
    calls: 600,
    bytes: 32768,
};

const SMALL: &str = "redo init 8 64 65536";

const THREE_PUTS: &[u8] = b"put 0 aa\nput 1 bb\nput 2 cc\n";

// What a dump says after each of them.
const PUT: &[&[u8]] = &[
    b"commands 0\n",
    b"0 aa\ncommands 1\n",
    b"0 aa\n1 bb\ncommands 2\n",
    b"0 aa\n1 bb\n2 cc\ncommands 3\n",
];

static SCRIPTS: [Script; 14] = [
    Script {
        room: TWO_LOGS,
        init: SMALL,
        before: b"",
        act: Act::Program(
            "redo run",
            b"put 0 aa\nput 1 bb\nswap 0 1\nstat\ninstall\nstat\nget 0\nget 1\ncheckpoint\ndrain\ntrim\nforce\n",
        ),
        said: b"ok\nok\nok\nstat 1 2 3 0 3 112 0\nok\nstat 1 1 1 3 3 130 1\nbb\naa\nok\nok\nok\nforced 3\n",
        within: &[
            (0, 1),
            (0, 2),
            (0, 3),
            (0, 3),
            (0, 3),
            (3, 3),
            (3, 3),
            (3, 3),
            (3, 3),
            (3, 3),
            (3, 3),
            (3, 3),
            (3, 3),
        ],
        dumps: &[
            b"commands 0\n",
            b"0 aa\ncommands 1\n",
            b"0 aa\n1 bb\ncommands 2\n",
            b"0 bb\n1 aa\ncommands 3\n",
        ],
    },
    // A stop leaves both commands of a group or none.
    Script {
        room: ONE_LOG,
        init: SMALL,
        before: b"",
        act: Act::Program("redo run", b"begin\nput 0 aa\nput 1 bb\nend\nforce\n"),
        said: b"ok\nok\nok\nok\nforced 2\n",
        within: &[(0, 0), (0, 0), (0, 0), (0, 0), (0, 2), (2, 2)],
        dumps: &[
            b"commands 0\n",
            b"a group is split\n",
            b"0 aa\n1 bb\ncommands 2\n",
        ],
    },
    // A group begins with a force; one that is closed waits with what comes after it, and the end of the input closes one.
    Script {
        room: TWO_LOGS,
        init: SMALL,
        before: b"",
        act: Act::Program(
            "redo run",
            b"put 2 cc\nbegin\nput 0 aa\nswap 0 1\nend\nput 3 dd\ninstall\nbegin\nput 4 ee\nput 4 ff\n",
        ),
        said: b"ok\nok\nok\nok\nok\nok\nok\nok\nok\nok\n",
        within: &[
            (0, 0),
            (0, 1),
            (1, 1),
            (1, 1),
            (1, 1),
            (1, 1),
            (1, 4),
            (4, 4),
            (4, 4),
            (4, 4),
            (4, 6),
        ],
        dumps: &[
            b"commands 0\n",
            b"2 cc\ncommands 1\n",
            b"a group is split\n",
            b"a group is split\n",
            b"1 aa\n2 cc\n3 dd\ncommands 4\n",
            b"a group is split\n",
            b"1 aa\n2 cc\n3 dd\n4 ff\ncommands 6\n",
        ],
    },
    // The end of the input forces the last command.
    Script {
        room: ONE_LOG,
        init: SMALL,
        before: b"",
        act: Act::Program(
            "redo run",
            b"put 2 dd\nput 0 aa\nforce\nput 0 bb\nput 2 -\nforce\nput 0 0102\n",
        ),
        said: b"ok\nok\nforced 2\nok\nok\nforced 4\nok\n",
        within: &[
            (0, 1),
            (0, 2),
            (0, 2),
            (2, 3),
            (2, 4),
            (2, 4),
            (4, 5),
            (4, 5),
        ],
        dumps: &[
            b"commands 0\n",
            b"2 dd\ncommands 1\n",
            b"0 aa\n2 dd\ncommands 2\n",
            b"0 bb\n2 dd\ncommands 3\n",
            b"0 bb\ncommands 4\n",
            b"0 0102\ncommands 5\n",
        ],
    },
    // The node of the copy has to be installed first.
    Script {
        room: ONE_LOG,
        init: SMALL,
        before: b"",
        act: Act::Program("redo run", b"put 0 bb\nappend 0 1\ninstall\ninstall\n"),
        said: b"ok\nok\nok\nok\n",
        within: &[(0, 1), (0, 2), (0, 2), (2, 2), (2, 2)],
        dumps: &[
            b"commands 0\n",
            b"0 bb\ncommands 1\n",
            b"0 bb\n1 bb\ncommands 2\n",
        ],
    },
    // What is not installed is written into the other log, and back.
    Script {
        room: TWO_LOGS,
        init: SMALL,
        before: b"",
        act: Act::Program(
            "redo run",
            b"put 0 aa\nput 1 bb\ninstall\ntrim\nstat\nappend 1 0\ntrim\nget 0\n",
        ),
        said: b"ok\nok\nok\nok\nstat 1 1 1 2 2 82 0\nok\nok\naabb\n",
        within: &[
            (0, 1),
            (0, 2),
            (0, 2),
            (2, 2),
            (2, 2),
            (2, 3),
            (2, 3),
            (3, 3),
            (3, 3),
        ],
        dumps: &[
            b"commands 0\n",
            b"0 aa\ncommands 1\n",
            b"0 aa\n1 bb\ncommands 2\n",
            b"0 aabb\n1 bb\ncommands 3\n",
        ],
    },
    // A leaf grows until it is split, an application takes two steps, and the log is rewritten twice. Both are lines of two commands.
    Script {
        room: NODES,
        init: "redo init 5 1024 65536",
        before: b"",
        act: Act::Program(
            "redo run",
            b"put 0 0106010101a1010201a2010301a3010401a4010501a5010601a6\ntinsert 0 2 07 a7\ninstall\ntrim\ntinsert 0 2 08 a8\nput 4 050a\nforce\naread 3 4\ninstall\narun 3 2\ncheckpoint\ninstall\ntrim\ntrange 0 2 00 10\n",
        ),
        said: b"ok\nok\nok\nok\nok\nok\nforced 5\nok\nok\nran 2\nok\nok\nok\n01:a1 02:a2 03:a3 04:a4 05:a5 06:a6 07:a7 08:a8\n",
        within: &[
            (0, 1),
            (0, 2),
            (0, 2),
            (2, 2),
            (2, 4),
            (2, 5),
            (2, 5),
            (5, 6),
            (5, 6),
            (6, 8),
            (6, 8),
            (8, 8),
            (8, 8),
            (8, 8),
            (8, 8),
        ],
        dumps: &[
            b"commands 0\n",
            b"0 0106010101a1010201a2010301a3010401a4010501a5010601a6\ncommands 1\n",
            b"0 0107010101a1010201a2010301a3010401a4010501a5010601a6010701a7\ncommands 2\n",
            b"0 020101000000010402000000\n1 0103010101a1010201a2010301a3\n2 0104010401a4010501a5010601a6010701a7\ncommands 3\n",
            b"0 020101000000010402000000\n1 0103010101a1010201a2010301a3\n2 0105010401a4010501a5010601a6010701a7010801a8\ncommands 4\n",
            b"0 020101000000010402000000\n1 0103010101a1010201a2010301a3\n2 0105010401a4010501a5010601a6010701a7010801a8\n4 050a\ncommands 5\n",
            b"0 020101000000010402000000\n1 0103010101a1010201a2010301a3\n2 0105010401a4010501a5010601a6010701a7010801a8\n3 0000000000000000000000000000000002000000050a00000000\n4 050a\ncommands 6\n",
            b"0 020101000000010402000000\n1 0103010101a1010201a2010301a3\n2 0105010401a4010501a5010601a6010701a7010801a8\n3 01000000000000000500000000000000010000000a0100000005\n4 050a\ncommands 7\n",
            b"0 020101000000010402000000\n1 0103010101a1010201a2010301a3\n2 0105010401a4010501a5010601a6010701a7010801a8\n3 0200000000000000a500000000000000000000000200000005a5\n4 050a\ncommands 8\n",
        ],
    },
    // A program takes its steps in two runs, each step a command.
    Script {
        room: NODES,
        init: "redo init 5 1024 65536",
        before: b"put 1 050000000000000006000000000000000700000000000000\nput 2 0a0b\n",
        act: Act::Program(
            "redo run",
            b"pread 0 2\nprun 0 1 3\nforce\nprun 0 1 9\npwrite 0 3\n",
        ),
        said: b"ok\nran 3\nforced 6\nran 3\nok\n",
        within: &[(2, 3), (2, 6), (2, 6), (6, 9), (6, 10), (6, 10)],
        dumps: &[
            b"commands 0\n",
            b"1 050000000000000006000000000000000700000000000000\ncommands 1\n",
            b"1 050000000000000006000000000000000700000000000000\n2 0a0b\ncommands 2\n",
            b"0 000000000000000000000000000000000000000000000000000000000000000000000000000000000000000000000000000000000000000000000000000000000000000000020000000a0b00000000\n1 050000000000000006000000000000000700000000000000\n2 0a0b\ncommands 3\n",
            b"0 01000000000a000000000000000000000000000000000000000000000000000000000000000000000000000000000000000000000000000000000000000000000000000000010000000b00000000\n1 050000000000000006000000000000000700000000000000\n2 0a0b\ncommands 4\n",
            b"0 02000000000a000000000000000000000000000000000000000000000000000000000000000000000000000000000000000000000000000000000000000000000000000000010000000b010000000a\n1 050000000000000006000000000000000700000000000000\n2 0a0b\ncommands 5\n",
            b"0 00000000000a000000000000000000000000000000000000000000000000000000000000000000000000000000000000000000000000000000000000000000000000000000010000000b010000000a\n1 050000000000000006000000000000000700000000000000\n2 0a0b\ncommands 6\n",
            b"0 01000000000b00000000000000000000000000000000000000000000000000000000000000000000000000000000000000000000000000000000000000000000000000000000000000010000000a\n1 050000000000000006000000000000000700000000000000\n2 0a0b\ncommands 7\n",
            b"0 02000000000b00000000000000000000000000000000000000000000000000000000000000000000000000000000000000000000000000000000000000000000000000000000000000020000000a0b\n1 050000000000000006000000000000000700000000000000\n2 0a0b\ncommands 8\n",
            b"0 00000000000b00000000000000000000000000000000000000000000000000000000000000000000000000000000000000000000000000000000000000000000000000000000000000020000000a0b\n1 050000000000000006000000000000000700000000000000\n2 0a0b\ncommands 9\n",
            b"0 00000000000b00000000000000000000000000000000000000000000000000000000000000000000000000000000000000000000000000000000000000000000000000000000000000020000000a0b\n1 050000000000000006000000000000000700000000000000\n2 0a0b\n3 0a0b\ncommands 10\n",
        ],
    },
    // A store is made larger: at each moment it stands for the same commands.
    Script {
        room: Room {
            sizes: [512, 4096, 4096],
            calls: 400,
            bytes: 16384,
        },
        init: "redo init 3 16 4128",
        before: b"put 0 aa\nput 1 bb\nput 2 cc\ndrain\nput 1 dd\n",
        act: Act::Program("redo upgrade 4 20 4136", b""),
        said: b"",
        within: &[(4, 4)],
        dumps: &[
            b"all commands are lost\n",
            b"three commands are lost\n",
            b"two commands are lost\n",
            b"a command is lost\n",
            b"0 aa\n1 dd\n2 cc\ncommands 4\n",
        ],
    },
    // A restart that installs.
    Script {
        room: ONE_LOG,
        init: SMALL,
        before: THREE_PUTS,
        act: Act::Restart(0),
        said: b"",
        within: &[(3, 3)],
        dumps: PUT,
    },
    Script {
        room: ONE_LOG,
        init: SMALL,
        before: THREE_PUTS,
        act: Act::Restart(1),
        said: b"",
        within: &[(3, 3)],
        dumps: PUT,
    },
    Script {
        room: ONE_LOG,
        init: SMALL,
        before: THREE_PUTS,
        act: Act::Restart(2),
        said: b"",
        within: &[(3, 3)],
        dumps: PUT,
    },
    // What waits is forced by the first install.
    Script {
        room: ONE_LOG,
        init: SMALL,
        before: b"",
        act: Act::Installs,
        said: b"ok\nok\nok\n",
        within: &[(0, 3), (3, 3), (3, 3), (3, 3)],
        dumps: &[
            b"commands 0\n",
            b"0 aacc\ncommands 1\n",
            b"0 aacc\n1 bb\ncommands 2\n",
            b"0 bb\n1 aacc\ncommands 3\n",
        ],
    },
    Script {
        room: NODES,
        init: "redo init 5 1024 65536",
        before: b"",
        act: Act::Grows,
        said: b"forced 8\n",
        within: &[(0, 8), (8, 8)],
        dumps: &[
            b"commands 0\n",
            b"0 0101010101a1\ncommands 1\n",
            b"0 0102010101a1010201a2\ncommands 2\n",
            b"0 0103010101a1010201a2010301a3\ncommands 3\n",
            b"0 0104010101a1010201a2010301a3010401a4\ncommands 4\n",
            b"0 0105010101a1010201a2010301a3010401a4010501a5\ncommands 5\n",
            b"0 0106010101a1010201a2010301a3010401a4010501a5010601a6\ncommands 6\n",
            b"0 0107010101a1010201a2010301a3010401a4010501a5010601a6010701a7\ncommands 7\n",
            b"0 020101000000010402000000\n1 0103010101a1010201a2010301a3\n2 0104010401a4010501a5010601a6010701a7\ncommands 8\n",
        ],
    },
];

// All scripts.
pub fn scripts() -> &'static [Script] {
    SCRIPTS.as_slice()
}

// A settled machine with the store of a script. Nothing is said yet.
pub fn new_store(alloc: Global, script: &Script) -> Result<MemMachine, AllocError> {
    let mut machine = script.room.machine(alloc, 0)?;
    run(alloc, &mut machine, script.init, b"");
    if !script.before.is_empty() {
        run(alloc, &mut machine, "redo run", script.before);
    }
    Ok(crashed(machine, Crash::Old))
}
