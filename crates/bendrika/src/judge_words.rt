//! The words of `bendrika judge`.
use crate::forms::{JSON, Kind, Word};

/// The words of `bendrika judge`.
pub(crate) static JUDGE: [Word; 16] = [
    Word {
        name: "FILE",
        value: "FILE",
        kind: Kind::Required,
        help: "A configuration file, of which the boards are read; - is standard input",
    },
    Word {
        name: "TRACE",
        value: "TRACE",
        kind: Kind::Required,
        help: "A value change dump (VCD) or a bus log; - is standard input",
    },
    Word {
        name: "history",
        value: "",
        kind: Kind::Flag,
        help: "TRACE is a log of processors, lines SLOT LINE -> REPLY: say whether one order explains it",
    },
    Word {
        name: "states",
        value: "N",
        kind: Kind::StateCount("1000000"),
        help: "With --history, explore at most N states",
    },
    Word {
        name: "protocol",
        value: "",
        kind: Kind::Flag,
        help: "Judge the order of samples alone, and not the answers of boards",
    },
    Word {
        name: "strict",
        value: "",
        kind: Kind::Flag,
        help: "Judge the rules of the model too: no pipelined address, data still under the answer",
    },
    Word {
        name: "lines",
        value: "MAP",
        kind: Kind::Text,
        help: "A file that says which variables of the dump are the lines",
    },
    Word {
        name: "zero",
        value: "",
        kind: Kind::Flag,
        help: "Memory is zero at the start; without it a byte is what its first access shows",
    },
    Word {
        name: "open",
        value: "SLOT[:A-B]",
        kind: Kind::Texts,
        help: "The board's bytes at offsets A to B, or all, may be written unseen at any time",
    },
    Word {
        name: "others",
        value: "",
        kind: Kind::Flag,
        help: "An address of no board of FILE belongs to another board, and is not judged",
    },
    Word {
        name: "ignore-am",
        value: "XX,..",
        kind: Kind::Text,
        help: "Do not judge cycles with these codes",
    },
    Word {
        name: "timeout",
        value: "N",
        kind: Kind::Text,
        help: "An answer comes within N units of the dump's time",
    },
    Word {
        name: "limit",
        value: "N",
        kind: Kind::Number("1"),
        help: "Go on after an illegal sample, up to N findings; 0 is no limit",
    },
    Word {
        name: "log",
        value: "",
        kind: Kind::Flag,
        help: "Print the bus log of the trace, and judge the order of samples alone",
    },
    JSON,
    Word {
        name: "quiet",
        value: "",
        kind: Kind::ShortFlag('q'),
        help: "Print nothing; the status says whether the trace is legal",
    },
];
