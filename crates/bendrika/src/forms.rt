//! The command line of the program as tables: its subcommands, and the words that each takes.
use crate::judge_words::JUDGE;

/// What a word of the command line takes.
#[derive(Clone, Copy)]
pub(crate) enum Kind {
    /// A value that has to be there.
    Required,
    /// A value that may be absent.
    Optional,
    /// One value or more.
    OneOrMore,
    /// Any number of values.
    AnyNumber,
    /// An option without a value.
    Flag,
    /// An option without a value, with this short name too.
    ShortFlag(char),
    /// An option without a value that excludes the word of this name.
    ExclusiveFlag(&'static str),
    /// An option without a value for another list of outcomes: it excludes conditions, `lines`, `show` and `page`.
    ListFlag,
    /// An option with a text. It may occur more than once.
    Texts,
    /// An option with a text.
    Text,
    /// An option with a text that excludes the word of this name.
    ExclusiveText(&'static str),
    /// An option with a number, which is this one by default.
    Number(&'static str),
    /// An option with a number of states, 1 to 100,000,000, which is this one by default.
    StateCount(&'static str),
    /// An option with a number of bytes, 1 to 10^15.
    ByteCount,
}

/// A word of a subcommand: a value, or an option.
#[derive(Clone, Copy)]
pub(crate) struct Word {
    /// The name that the program reads it by; of an option also its long name.
    pub(crate) name: &'static str,
    /// What stands for its value in the help; empty for an option without a value.
    pub(crate) value: &'static str,
    pub(crate) kind: Kind,
    /// What it is, in one line of the help.
    pub(crate) help: &'static str,
}

/// A subcommand and its words.
#[derive(Clone, Copy)]
pub(crate) struct Form {
    pub(crate) name: &'static str,
    /// What it does, in one line of the help.
    pub(crate) about: &'static str,
    /// What its help ends with: its exit statuses, or the lines that it lists.
    pub(crate) end: &'static str,
    pub(crate) words: &'static [Word],
}

/// The configuration file of `outcomes`, `page`, `split` and `trace`.
const FILE: Word = Word {
    name: "FILE",
    value: "FILE",
    kind: Kind::Required,
    help: "A configuration file; - is standard input",
};

/// The option `--json` of `check`, `cycles`, `explain`, `judge` and `outcomes`.
pub(crate) const JSON: Word = Word {
    name: "json",
    value: "",
    kind: Kind::Flag,
    help: "Print one JSON object a line",
};

/// The option `--quiet` of `check` and `cycles`.
const QUIET: Word = Word {
    name: "quiet",
    value: "",
    kind: Kind::ShortFlag('q'),
    help: "Print no finding; the status says whether there is an error",
};

/// The option `--no-warnings` of `check` and `cycles`.
const NO_WARNINGS: Word = Word {
    name: "no-warnings",
    value: "",
    kind: Kind::Flag,
    help: "Report errors alone",
};

/// The option `--limit` of `check` and `cycles`.
const LIMIT: Word = Word {
    name: "limit",
    value: "N",
    kind: Kind::Number("100"),
    help: "Print at most N findings of each input; 0 is no limit",
};

/// The words of `bendrika check`.
static CHECK: [Word; 5] = [
    Word {
        name: "FILE",
        value: "FILE",
        kind: Kind::OneOrMore,
        help: "Configuration files; - is standard input",
    },
    JSON,
    QUIET,
    NO_WARNINGS,
    LIMIT,
];

/// The words of `bendrika cycles`.
static CYCLES: [Word; 5] = [
    Word {
        name: "FILE",
        value: "FILE",
        kind: Kind::Optional,
        help: "A file of request lines; - or none is standard input, which is read to its end",
    },
    JSON,
    QUIET,
    NO_WARNINGS,
    LIMIT,
];

/// The words of `bendrika trace`.
static TRACE: [Word; 4] = [
    FILE,
    Word {
        name: "EVENTS",
        value: "A-B",
        kind: Kind::Optional,
        help: "Show events A to B, numbered from 1; all events if not given",
    },
    Word {
        name: "polls",
        value: "",
        kind: Kind::Flag,
        help: "Show the polls of slots that wait for the bus too",
    },
    Word {
        name: "gtkw",
        value: "",
        kind: Kind::Flag,
        help: "Print a save file of GTKWave, which groups the signals, instead of the waveforms",
    },
];

/// The words of `bendrika page`.
static PAGE: [Word; 2] = [
    FILE,
    Word {
        name: "EVENTS",
        value: "A-B",
        kind: Kind::Optional,
        help: "Show events A to B, numbered from 1; events 1 to 1000 if not given",
    },
];

/// The words of `bendrika explain`.
static EXPLAIN: [Word; 3] = [
    Word {
        name: "WORD",
        value: "CODE|REPLY",
        kind: Kind::AnyNumber,
        help: "A code as K3, timeout or no-turns, or a line that was printed; none lists all codes",
    },
    Word {
        name: "all",
        value: "",
        kind: Kind::ExclusiveFlag("WORD"),
        help: "Print all texts as a table in Markdown",
    },
    JSON,
];

/// The words of `bendrika split`.
static SPLIT: [Word; 4] = [
    FILE,
    Word {
        name: "local-width",
        value: "BITS",
        kind: Kind::Text,
        help: "Split the accesses of local ports for processors that move 8, 16 or 32 bits at once",
    },
    Word {
        name: "wide",
        value: "",
        kind: Kind::Flag,
        help: "Split the data of eight-byte blocks into two of four bytes",
    },
    Word {
        name: "slot",
        value: "N",
        kind: Kind::Text,
        help: "Split the script of slot N alone",
    },
];

/// The words of `bendrika serve`.
static SERVE: [Word; 1] = [Word {
    name: "FILE",
    value: "FILE",
    kind: Kind::Required,
    help: "A configuration file; its scripts, schedule, rounds and tries play no part",
}];

/// The words of `bendrika outcomes`.
static OUTCOMES: [Word; 12] = [
    FILE,
    Word {
        name: "never",
        value: "TEXT",
        kind: Kind::Texts,
        help: "Fail if some outcome has these lines, separated by ;",
    },
    Word {
        name: "always",
        value: "TEXT",
        kind: Kind::Texts,
        help: "Fail if some outcome lacks one of these lines",
    },
    Word {
        name: "lines",
        value: "PLACES",
        kind: Kind::Text,
        help: "List only the replies to these lines, as 1:2,2:1, or to those of conditions",
    },
    Word {
        name: "show",
        value: "PLACES",
        kind: Kind::ExclusiveText("lines"),
        help: "Print the replies to these lines as a table, with a schedule each",
    },
    Word {
        name: "page",
        value: "WHICH",
        kind: Kind::ExclusiveText("json"),
        help: "Print the timing page of one outcome: failing, of the first condition that fails, or a number",
    },
    Word {
        name: "stuck",
        value: "",
        kind: Kind::ListFlag,
        help: "List the dead ends instead: from there no turns end a line, however long each wait goes on",
    },
    Word {
        name: "quiet",
        value: "",
        kind: Kind::ShortFlag('q'),
        help: "Print no outcome, but the conditions and the number of outcomes",
    },
    Word {
        name: "limit",
        value: "N",
        kind: Kind::StateCount("1000000"),
        help: "Explore at most N states",
    },
    Word {
        name: "memory",
        value: "BYTES",
        kind: Kind::ByteCount,
        help: "Keep no more states than fit in so many bytes; three quarters of the free memory without it",
    },
    Word {
        name: "progress",
        value: "",
        kind: Kind::Flag,
        help: "Report on standard error when 10000, 100000, .. states are passed",
    },
    JSON,
];

/// The syntax of lines. `checks/explain` compares the forms with those of `docs/GUIDE.md`.
pub(crate) const LINES: &str = "Request lines, of vme cycles and of scripts:
  r AM ADDR N             read N bytes
  w AM ADDR HEX           write these bytes
  br AM ADDR N COUNT      read a block of COUNT data of N bytes each
  bw AM ADDR N HEX        write a block, HEX cut into data of N bytes
  bf AM ADDR N COUNT HEX  write a block of one datum of N bytes, COUNT times
  m AM ADDR N FUNC        read, modify and write N bytes

Lines of scripts alone:
  lr OFF N                read 1, 2 or 4 bytes by the local port
  lw OFF HEX              write 1, 2 or 4 bytes by the local port
  lm OFF N FUNC           read, modify and write 1, 2 or 4 bytes by the local port
  await AM ADDR HEX       read over the bus until the bytes are HEX
  lock AM ADDR            take the lock in the byte at ADDR
  unlock AM ADDR          give the lock back
  put BOX HEX             put a word of four bytes into a mailbox
  take BOX                take the oldest word of a mailbox

AM is an address modifier in two hexadecimal digits, as 09 or 0d; ADDR an address and OFF an offset
in eight; N one digit; COUNT one to four decimal digits; HEX pairs of hexadecimal digits; BOX the
number of a mailbox, from 1. FUNC is set, xchg HEX, add HEX or cas HEX HEX. Words are separated by
spaces, a line has at most 80 bytes, and a comment is a line that begins with #.
";

/// Returns the subcommands, in the order in which the help lists them.
pub(crate) fn forms() -> [Form; 10] {
    [
        Form {
            name: "check",
            about: "Report the faults of configuration files, with line and column",
            end: "Status: 0 no error, 1 errors, 2 wrong words, 3 a file or the output failed",
            words: CHECK.as_slice(),
        },
        Form {
            name: "explain",
            about: "Explain a code, a reply or a warning: cause, rule, an example, what to do",
            end: "Status: 0 explained, 2 unknown or wrong words, 3 a fault",
            words: EXPLAIN.as_slice(),
        },
        Form {
            name: "cycles",
            about: "Report the faults of request lines, and make no cycle",
            end: "Status: 0 no error, 1 errors, 2 wrong words, 3 a file or the output failed",
            words: CYCLES.as_slice(),
        },
        Form {
            name: "serve",
            about: "Answer lines `SLOT LINE` of standard input, one by one, over a file's boards",
            end: "Status: 0 end of input, 2 wrong words or no configuration, 3 a fault",
            words: SERVE.as_slice(),
        },
        Form {
            name: "outcomes",
            about: "List every outcome that some order of turns gives, each with a schedule",
            end: "Status: 0 listed, 1 a condition fails or there is a dead end, 2 wrong words or no configuration, 3 a fault, 4 too many states",
            words: OUTCOMES.as_slice(),
        },
        Form {
            name: "split",
            about: "Print a file with the accesses that a narrower processor makes, as lines of their own",
            end: "Status: 0 printed, 2 wrong words or no configuration, 3 a fault",
            words: SPLIT.as_slice(),
        },
        Form {
            name: "trace",
            about: "Write the waveforms of the run of vme step, as a value change dump (VCD)",
            end: "Status: 0 written, 2 wrong words or no configuration, 3 a fault",
            words: TRACE.as_slice(),
        },
        Form {
            name: "page",
            about: "Write timing diagrams of the run of vme step, and its report, as a page of HTML",
            end: "Status: 0 written, 2 wrong words or no configuration, 3 a fault",
            words: PAGE.as_slice(),
        },
        Form {
            name: "judge",
            about: "Say whether a recorded trace of a bus is legal, or where it is not, and by which rule",
            end: "Status: 0 legal, 1 illegal, 2 wrong words, no configuration or no trace, 3 a fault",
            words: JUDGE.as_slice(),
        },
        Form {
            name: "lines",
            about: "Show the syntax of request lines and of script lines",
            end: LINES,
            words: &[],
        },
    ]
}
