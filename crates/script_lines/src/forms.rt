ghost use Rattle.script_lines.specs.Forms.{AreForms};
ghost use Rattle.script_lines.specs.Grammar.{rows};

/// The form of the lines that begin with a word.
#[derive(Clone, Copy)]
pub struct LineForm {
    /// The word, and a name for each field after it.
    pub text: &'static str,
    /// What such a line is for.
    pub about: &'static str,
}

// The help of `redo run` is made of this table, by docs/forms.

static FORMS: [LineForm; 42] = [
    LineForm {
        text: "put X HEX",
        about: "X gets the bytes HEX",
    },
    LineForm {
        text: "copy X Y",
        about: "Y gets the value of X",
    },
    LineForm {
        text: "append X Y",
        about: "the value of X is added at the end of that of Y",
    },
    LineForm {
        text: "cut X Y K",
        about: "X keeps its first K bytes, and Y gets the others",
    },
    LineForm {
        text: "sort X Y W",
        about: "Y gets the records of X, of W bytes each, in order",
    },
    LineForm {
        text: "swap X Y",
        about: "the values of X and Y are exchanged",
    },
    LineForm {
        text: "mset LO HI KEY VAL",
        about: "KEY gets VAL, in the map of the objects LO to HI",
    },
    LineForm {
        text: "mget LO HI KEY",
        about: "the value of KEY",
    },
    LineForm {
        text: "mdel LO HI KEY",
        about: "KEY leaves the map",
    },
    LineForm {
        text: "mrange LO HI FROM TO LIMIT",
        about: "the pairs from FROM up to TO, which is left out, LIMIT at most",
    },
    LineForm {
        text: "mback LO HI FROM TO LIMIT",
        about: "the pairs below TO back to FROM, LIMIT at most",
    },
    LineForm {
        text: "mcount LO HI FROM TO",
        about: "how many keys there are from FROM up to TO",
    },
    LineForm {
        text: "mnext LO HI KEY",
        about: "the first pair above KEY",
    },
    LineForm {
        text: "mprev LO HI KEY",
        about: "the last pair below KEY",
    },
    LineForm {
        text: "exec A",
        about: "the application in A takes a step",
    },
    LineForm {
        text: "aread A X",
        about: "the value of X is added to its input",
    },
    LineForm {
        text: "awrite A X",
        about: "X gets its output",
    },
    LineForm {
        text: "pexec A P",
        about: "the program in P takes a step on the state in A",
    },
    LineForm {
        text: "pread A X",
        about: "the value of X is added to the input of the state",
    },
    LineForm {
        text: "pwrite A X",
        about: "X gets the output of the state",
    },
    LineForm {
        text: "prun A P N",
        about: "N steps of the program, or as many as it can take",
    },
    LineForm {
        text: "arun A N",
        about: "N steps of the application, or as many as its input has bytes",
    },
    LineForm {
        text: "tinsert LO HI KEY VAL",
        about: "KEY gets VAL, in the tree of the objects LO to HI",
    },
    LineForm {
        text: "tget LO HI KEY",
        about: "the value of KEY",
    },
    LineForm {
        text: "tdelete LO HI KEY",
        about: "KEY leaves the tree",
    },
    LineForm {
        text: "trange LO HI FROM TO",
        about: "the keys from FROM up to TO, which is left out, with their values",
    },
    LineForm {
        text: "hset LO HI KEY VAL",
        about: "KEY gets VAL, in the hash file of the objects LO to HI",
    },
    LineForm {
        text: "hget LO HI KEY",
        about: "the value of KEY",
    },
    LineForm {
        text: "hdel LO HI KEY",
        about: "KEY leaves the hash file",
    },
    LineForm {
        text: "get X",
        about: "the value of X",
    },
    LineForm {
        text: "force",
        about: "everything so far is on the disk",
    },
    LineForm {
        text: "install",
        about: "one node of the write graph is installed",
    },
    LineForm {
        text: "drain",
        about: "all nodes are installed",
    },
    LineForm {
        text: "checkpoint",
        about: "a checkpoint is added to the log",
    },
    LineForm {
        text: "trim",
        about: "the log is rewritten without what no restart needs",
    },
    LineForm {
        text: "begin",
        about: "a group begins, of which a crash leaves all or none",
    },
    LineForm {
        text: "end",
        about: "the group ends",
    },
    LineForm {
        text: "abort",
        about: "the group is given up: none of its commands stays",
    },
    LineForm {
        text: "stat",
        about: "the counts of the store",
    },
    LineForm {
        text: "bstart",
        about: "a backup begins",
    },
    LineForm {
        text: "bcopy K",
        about: "K objects more are copied into it",
    },
    LineForm {
        text: "bfinish",
        about: "the backup becomes a store",
    },
];

/// The forms of all lines but comments: one for each row of the grammar, in its order.
pub fn line_forms() -> &'static [LineForm]
    ensures { AreForms rows result.now }
{
    FORMS.as_slice()
}
