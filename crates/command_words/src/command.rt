//! The command set.
ghost use Rattle.std.specs.Prelude.{◌≡◌, IfOk, false};
ghost use Rattle.clap.specs.Words.{app_of, rule_of, shape_of};
ghost use Rattle.clap.specs.declared.builder.command.Command.TheViews.{out-Command};
ghost use Rattle.command_words.specs.Commands.{number, option, flag, sized, demo, follow, ship, run, redo};

use clap::builder::ValueParser;
use clap::{Arg, ArgAction, Command, value_parser};
use std::alloc::{AllocError, Global};

// What help says after the words of `redo`, and of `redo run`.
const MORE: &str =
    "`redo -C DIR COMMAND ..` uses the store in the folder DIR. docs/SCRIPT.md and the manual page\n\
    docs/redo.1 tell the rest.";

const LINES: &str = "Lines:\n  \
    put X HEX                   X gets the bytes HEX\n  \
    copy X Y                    Y gets the value of X\n  \
    append X Y                  the value of X is added at the end of that of Y\n  \
    cut X Y K                   X keeps its first K bytes, and Y gets the others\n  \
    sort X Y W                  Y gets the records of X, of W bytes each, in order\n  \
    swap X Y                    the values of X and Y are exchanged\n  \
    mset LO HI KEY VAL          KEY gets VAL, in the map of the objects LO to HI\n  \
    mget LO HI KEY              the value of KEY\n  \
    mdel LO HI KEY              KEY leaves the map\n  \
    mrange LO HI FROM TO LIMIT  the pairs from FROM up to TO, which is left out, LIMIT at most\n  \
    mback LO HI FROM TO LIMIT   the pairs below TO back to FROM, LIMIT at most\n  \
    mcount LO HI FROM TO        how many keys there are from FROM up to TO\n  \
    mnext LO HI KEY             the first pair above KEY\n  \
    mprev LO HI KEY             the last pair below KEY\n  \
    exec A                      the application in A takes a step\n  \
    aread A X                   the value of X is added to its input\n  \
    awrite A X                  X gets its output\n  \
    pexec A P                   the program in P takes a step on the state in A\n  \
    pread A X                   the value of X is added to the input of the state\n  \
    pwrite A X                  X gets the output of the state\n  \
    prun A P N                  N steps of the program, or as many as it can take\n  \
    arun A N                    N steps of the application, or as many as its input has bytes\n  \
    tinsert LO HI KEY VAL       KEY gets VAL, in the tree of the objects LO to HI\n  \
    tget LO HI KEY              the value of KEY\n  \
    tdelete LO HI KEY           KEY leaves the tree\n  \
    trange LO HI FROM TO        the keys from FROM up to TO, which is left out, with their values\n  \
    hset LO HI KEY VAL          KEY gets VAL, in the hash file of the objects LO to HI\n  \
    hget LO HI KEY              the value of KEY\n  \
    hdel LO HI KEY              KEY leaves the hash file\n  \
    get X                       the value of X\n  \
    force                       everything so far is on the disk\n  \
    install                     one node of the write graph is installed\n  \
    drain                       all nodes are installed\n  \
    checkpoint                  a checkpoint is added to the log\n  \
    trim                        the log is rewritten without what no restart needs\n  \
    begin                       a group begins, of which a crash leaves all or none\n  \
    end                         the group ends\n  \
    abort                       the group is given up: none of its commands stays\n  \
    stat                        the counts of the store\n  \
    bstart                      a backup begins\n  \
    bcopy K                     K objects more are copied into it\n  \
    bfinish                     the backup becomes a store\n  \
    # a comment                 no answer\n\n\
    The lines drain and trim make a full log short again. `rlwrap redo run` lets lines be edited; Ctrl-D ends\n\
    the input and forces, Ctrl-C loses what is not forced.";

// A number that has to be there.
fn number<'a>(alloc: Global, id: &'a str, values: ValueParser<'a>) -> Arg<'a>
    ensures rule { rule_of result ≡ number id.entry.now values.entry }
    ensures local { result.global ≡ false }
{
    Arg::new(alloc, id).required(true).value_parser(values)
}

// A number that has to be there, after an option of this name.
fn option<'a>(alloc: Global, id: &'a str, values: ValueParser<'a>) -> Arg<'a>
    ensures rule { rule_of result ≡ option id.entry.now values.entry }
    ensures local { result.global ≡ false }
{
    number(alloc, id, values).long(id)
}

// An option without a value.
fn flag<'a>(alloc: Global, id: &'a str) -> Arg<'a>
    ensures rule { rule_of result ≡ flag id.entry.now }
    ensures local { result.global ≡ false }
{
    Arg::new(alloc, id).long(id).action(ArgAction::SetTrue)
}

/// `init N CAP LIMIT`, perhaps `--pages`, or another command with the three numbers of a store.
fn sized<'a>(alloc: Global, name: &'a str, about: &'a str) -> Result<Command<'a>, AllocError>
    ensures { IfOk result (λ c. (shape_of c ≡ sized name.entry.now) × ((out-Command c).has_globals ≡ false)) }
{
    let objects = number(alloc, "N", value_parser!(u32).range(1..=65535)).help(
        "How many objects, 1 to 65535",
    );
    let cap = number(alloc, "CAP", value_parser!(u32).range(16..=1048576)).help(
        "The most bytes of an object, 16 to 1048576; a map needs 1024",
    );
    let limit = number(alloc, "LIMIT", value_parser!(u32).range(4128..=536870912)).help(
        "How many bytes the log may grow to, 2 x CAP + 4096 to 536870912",
    );
    let pages = flag(alloc, "pages").help("Admits the operations on pages of a map, for good");
    Command::new(alloc, name)
        .about(about)
        .arg(objects)?
        .arg(cap)?
        .arg(limit)?
        .arg(pages)
}

/// `demo --seed S --steps T`.
fn demo<'a>(alloc: Global) -> Result<Command<'a>, AllocError>
    ensures { IfOk result (λ c. (shape_of c ≡ demo) × ((out-Command c).has_globals ≡ false)) }
{
    let seed = option(alloc, "seed", value_parser!(u64)).help(
        "What the script is made from, below 2^64",
    );
    let steps = option(alloc, "steps", value_parser!(u32).range(0..=1000000)).help(
        "How many steps it has, at most 1000000",
    );
    Command::new(alloc, "demo")
        .about("Answers a script that is made from a seed, in memory")
        .arg(seed)?
        .arg(steps)
}

/// `ship FROM`.
fn ship<'a>(alloc: Global) -> Result<Command<'a>, AllocError>
    ensures { IfOk result (λ c. (shape_of c ≡ ship) × ((out-Command c).has_globals ≡ false)) }
{
    let from = number(
        alloc,
        "FROM",
        value_parser!(u64).range(1..=4611686018427387903),
    )
    .help("The number of the first record, 1 to 2^62 - 1");
    Command::new(alloc, "ship")
        .about("Writes the records of the log from this number on, for a standby")
        .arg(from)
}

/// `run`, with `--tend` or without.
fn run<'a>(alloc: Global) -> Result<Command<'a>, AllocError>
    ensures { IfOk result (λ c. (shape_of c ≡ run) × ((out-Command c).has_globals ≡ false)) }
{
    let tend = flag(alloc, "tend").help(
        "Does what upkeep is due before each line, in bounded pieces",
    );
    Command::new(alloc, "run")
        .after_help(LINES)
        .about("Answers the lines of standard input")
        .arg(tend)
}

/// `follow`, with `--same` or without.
fn follow<'a>(alloc: Global) -> Result<Command<'a>, AllocError>
    ensures { IfOk result (λ c. (shape_of c ≡ follow) × ((out-Command c).has_globals ≡ false)) }
{
    let same = flag(alloc, "same").help(
        "Refuses a record that is not this store's own with its number",
    );
    Command::new(alloc, "follow")
        .about("Takes in the records that `ship` wrote")
        .arg(same)
}

/// The command set.
pub fn redo<'a>(alloc: Global) -> Result<Command<'a>, AllocError>
    ensures { IfOk result (λ c. app_of c ≡ redo) }
{
    let dump = Command::new(alloc, "dump").about("Reports the objects that are not empty");
    let init = sized(alloc, "init", "Makes a new store in this folder")?;
    let upgrade = sized(
        alloc,
        "upgrade",
        "Gives the store more objects and longer ones, and a log of this limit",
    )?;
    Command::new(alloc, "redo")
        .bin_name("redo")?
        .about("A recoverable object store")
        .after_help(MORE)
        .subcommand_required(true)
        .arg_required_else_help(true)
        .subcommand(init)?
        .subcommand(run(alloc)?)?
        .subcommand(dump)?
        .subcommand(demo(alloc)?)?
        .subcommand(upgrade)?
        .subcommand(ship(alloc)?)?
        .subcommand(follow(alloc)?)
}
